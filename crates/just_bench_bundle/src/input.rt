//! The whole of an input as a text.
ghost use Rattle.std.specs.Prelude.{◌≡◌, IfOk, IfErr, IfSome, OnOk, string_bytes};
ghost use Rattle.std.specs.Io.KnownBytes.{IsAtEnd};
ghost use Rattle.just_bench_bundle.specs.Input.{IsReadOn, IsUnread};

use std::alloc::Global;
use std::io::{ErrorKind, Read};
use thiserror::Error;

/// Why an input is no text.
#[derive(Clone, Copy, Debug, Error)]
pub enum InputError {
    /// Reading it faulted.
    #[error("The input could not be read")]
    Unreadable,
    /// It is not UTF-8.
    #[error("The input is not UTF-8")]
    NotText,
    /// Memory was refused.
    #[error("Out of memory")]
    Memory,
}

/// The whole of an input as a text: all that was left to read. The error tells that it can't be read, that it is not
/// UTF-8, or want of memory; what was read by then is gone.
pub fn read_text<R: Read>(alloc: Global, input: &mut R) -> Result<String, InputError>
    ensures text { IfOk result (λ text. IfSome (R.remaining input.old) (λ bytes. string_bytes text ≡ bytes)) }
    ensures end { OnOk result (IsAtEnd (R.remaining input.new)) }
    ensures onward { IsReadOn (R.remaining input.old) (R.remaining input.new) }
    ensures fault { IfErr result (IsUnread (R.remaining input.old)) }
{
    let mut bytes = Vec::new(alloc);
    if let Err(error) = input.read_to_end(&mut bytes) {
        if error.kind() == ErrorKind::OutOfMemory {
            return Err(InputError::Memory);
        }
        return Err(InputError::Unreadable);
    }
    match String::from_utf8(bytes) {
        Ok(text) => Ok(text),
        Err(_) => Err(InputError::NotText),
    }
}
