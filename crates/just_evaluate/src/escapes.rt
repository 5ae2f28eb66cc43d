//! Texts as a shell takes them.
ghost use Rattle.std.specs.Prelude.{◌≡◌, ◌++◌, string_bytes, OnOk};
ghost use Rattle.just_evaluate.specs.Lines as spec;

use std::alloc::AllocError;

// `_` for `-`, and any other character itself.
fn undashed(c: char) -> char
    ensures { result ≡ spec.undashed c }
{
    if c == '-' { '_' } else { c }
}

/// Adds a name, with `_` for each `-`.
pub(crate) fn push_underscored(text: &mut String, name: &str) -> Result<(), AllocError>
    ensures { OnOk result (string_bytes text.new ≡ string_bytes text.old ++ spec.underscored name.now) }
{
    for c in name.chars() {
        text.push(undashed(c))?;
    }
    Ok(())
}

// Whether a character means something in double quotes.
fn is_special(c: char) -> bool
    ensures { result ≡ spec.is_special c }
{
    matches!(c, '!' | '"' | '$' | '\\' | '`')
}

/// Adds a text, with a backslash before each character that means something in double quotes.
pub(crate) fn push_escaped(text: &mut String, value: &str) -> Result<(), AllocError>
    ensures { OnOk result (string_bytes text.new ≡ string_bytes text.old ++ spec.escaped value.now) }
{
    for c in value.chars() {
        if is_special(c) {
            text.push('\\')?;
        }
        text.push(c)?;
    }
    Ok(())
}
