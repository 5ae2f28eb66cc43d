//! Texts that are written to an output.
ghost use Rattle.std.specs.Prelude.{◌≡◌, ◌++◌, OnErr, OnOk, IsTrue};
ghost use Rattle.just_evaluate.specs.Writing.{IsCutShort};

use just_data::Text;
use just_parts::layers::{Output, WriteFailed};

/// Writes a text. After a fault nothing more is written: then a beginning of the text was, which is not all of it.
pub fn write_all<W: Output>(writer: &mut W, text: &Text) -> Result<(), WriteFailed>
    ensures written { OnOk result (W.written writer.new ≡ W.written writer.old ++ text.now) }
    ensures stays { OnOk result (W.failed writer.new ≡ W.failed writer.old) }
    ensures begun { OnErr result (IsCutShort (W.written writer.old) text.now (W.written writer.new)) }
    ensures faulted { OnErr result (IsTrue (W.failed writer.new)) }
{
    let bytes = text.as_str().as_bytes();
    let mut at = 0;
    while at < bytes.len() {
        at += writer.write(&bytes[at..])?;
    }
    Ok(())
}
