//! Texts that stay in one line.
ghost use Rattle.std.specs.Prelude.{◌≡◌, ◌++◌, ℕ, string_bytes, IfOk, List, OnOk};
ghost use Rattle.std.specs.Str.{encode_utf8_all};
ghost use Rattle.just_bench.specs.Writing.{IsInLine, IsLine};

use std::alloc::{AllocError, Global};

// Adds a character. A control character is spelled out, as a carriage return by `\r`.
fn push_visible(line: &mut String, c: char) -> Result<(), AllocError>
    ensures { OnOk result ((more : List ℕ) × IsInLine more × (string_bytes line.new ≡ string_bytes line.old ++ encode_utf8_all more)) }
{
    if !c.is_control() {
        return line.push(c);
    }
    for escaped in c.escape_default() {
        line.push(escaped)?;
    }
    Ok(())
}

/// A text as a line, with its end: control characters are spelled out.
pub fn in_one_line(alloc: Global, text: &str) -> Result<String, AllocError>
    ensures { IfOk result (λ line. IsLine (string_bytes line)) }
{
    let mut line = String::new(alloc);
    for c in text.chars() {
        push_visible(&mut line, c)?;
    }
    line.push('\n')?;
    Ok(line)
}
