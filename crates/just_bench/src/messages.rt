//! What is told of an error, in one line.
ghost use Rattle.std.specs.Prelude.{string_bytes, IfOk, OnOk};
ghost use Rattle.just_bench.specs.Writing.{BeginsLine, GetsLine, IsLine};

use crate::one_line::in_one_line;
use crate::program_error::ProgramError;
use crate::texts::write_text;
use std::alloc::{AllocError, Global};
use std::io;
use std::io::Write;

// The line that tells an error.
fn error_line(alloc: Global, error: &ProgramError) -> Result<String, AllocError>
    ensures { IfOk result (λ line. IsLine (string_bytes line)) }
{
    let name = error.name();
    let message = format!(in alloc; "justrun: {name}: {error}")?;
    in_one_line(alloc, message.as_str())
}

// Writes a line.
fn write_line<E: Write>(errors: &mut E, line: &str) -> io::Result<()>
    requires { IsLine line.now }
    ensures told { OnOk result (GetsLine (E.contents errors.old) (E.contents errors.new)) }
    ensures begun { BeginsLine (E.contents errors.old) (E.contents errors.new) }
{
    write_text(errors, line)
}

/// Tells an error in a line, in which control characters are spelled out. For want of memory the line tells that. After a
/// fault of the writer a beginning of the line was written.
pub fn tell<E: Write>(alloc: Global, errors: &mut E, error: &ProgramError) -> io::Result<()>
    ensures told { OnOk result (GetsLine (E.contents errors.old) (E.contents errors.new)) }
    ensures begun { BeginsLine (E.contents errors.old) (E.contents errors.new) }
{
    match error_line(alloc, error) {
        Ok(line) => write_line(errors, line.as_str()),
        Err(_) => write_line(errors, "justrun: Memory: Out of memory\n"),
    }
}

/// Tells in a line how the program is used. After a fault of the writer a beginning of the line was written.
pub fn tell_usage<E: Write>(errors: &mut E) -> io::Result<()>
    ensures told { OnOk result (GetsLine (E.contents errors.old) (E.contents errors.new)) }
    ensures begun { BeginsLine (E.contents errors.old) (E.contents errors.new) }
{
    write_line(errors, "justrun: usage: justrun ROOT WORD..\n")
}
