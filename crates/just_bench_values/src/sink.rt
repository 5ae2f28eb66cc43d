//! Where the texts of values go.
ghost use Rattle.std.specs.Prelude.{◌≡◌, false, true, IfOk, OnOk};
ghost use Rattle.just_bench_values.specs.Sink as spec;

use crate::buffer::Buffer;
use just_data::{Sequence, Text};
use std::alloc::{AllocError, Global};

/// Where the texts of values go.
#[derive(Drop)]
pub enum Sink {
    /// They are kept.
    Texts(Sequence<Text>),
    /// They are put together: `apart` says that the next one follows another of its value, so a blank stands between.
    Joined { text: Buffer, apart: bool },
}

// One more text.
pub fn send(sink: &mut Sink, text: &Text) -> Result<(), AllocError>
    ensures { OnOk result (sink.new ≡ spec.sent_one sink.old text.now) }
{
    match sink {
        Sink::Texts(texts) => texts.push(text.clone()?)?,
        Sink::Joined {
            text: joined,
            apart,
        } => {
            if *apart {
                joined.push(" ")?;
            }
            joined.push(text.as_str())?;
            *apart = true;
        }
    }
    Ok(())
}

/// The texts of a value, one after another.
pub fn send_all(sink: &mut Sink, texts: &[Text]) -> Result<(), AllocError>
    ensures { OnOk result (sink.new ≡ spec.sent sink.old texts.now) }
{
    for text in texts {
        send(sink, text)?;
    }
    Ok(())
}

/// The next text begins a value, in a text that is put together.
pub fn begin_value(sink: &mut Sink)
    ensures { sink.new ≡ spec.set_apart false sink.old }
{
    if let Sink::Joined { apart, .. } = sink {
        *apart = false;
    }
}

/// The next text follows another of its value, in a text that is put together.
pub fn end_value(sink: &mut Sink)
    ensures { sink.new ≡ spec.set_apart true sink.old }
{
    if let Sink::Joined { apart, .. } = sink {
        *apart = true;
    }
}

/// The texts that it has. One that is put together is not copied.
pub fn into_texts(alloc: Global, sink: Sink) -> Result<Sequence<Text>, AllocError>
    ensures { IfOk result (λ texts. texts ≡ spec.texts_of sink) }
{
    match sink {
        Sink::Texts(texts) => Ok(texts),
        Sink::Joined { text, .. } => {
            let mut texts = Sequence::new(alloc);
            texts.push(text.into_text()?)?;
            Ok(texts)
        }
    }
}
