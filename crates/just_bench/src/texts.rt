//! Texts that are written whole, or up to a fault.
ghost use Rattle.std.specs.Prelude.{OnOk};
ghost use Rattle.std.specs.Io.KnownBytes.{Appends};
ghost use Rattle.just_bench.specs.Writing.{GetsBeginning};

use std::io;
use std::io::{Error, ErrorKind, Write};

/// Writes a text. After a fault nothing more is written, and what was is a beginning of it.
pub fn write_text<W: Write>(output: &mut W, text: &str) -> io::Result<()>
    ensures whole { OnOk result (Appends (W.contents output.old) (W.contents output.new) text.now) }
    ensures begun { GetsBeginning (W.contents output.old) (W.contents output.new) text.now }
{
    let bytes = text.as_bytes();
    let mut at = 0;
    while at < bytes.len() {
        match output.write(&bytes[at..])? {
            0 => return Err(Error::from(ErrorKind::WriteZero)),
            count => at += count,
        }
    }
    Ok(())
}
