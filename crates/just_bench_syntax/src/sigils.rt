//! What a line of a body is.
ghost use Rattle.std.specs.Prelude.{◌≡◌, ◌≢◌, [], IfOk};
ghost use Rattle.just_parts.specs.Syntax.{BeginsWithText};
ghost use Rattle.just_bench_syntax.specs.Sigils as spec;

use just_ast_definitions::{Fragment, Line};
use just_ast_expressions::Sigil;
use just_data::Sequence;
use std::alloc::{AllocError, Global};

// The text that a line begins with.
fn front<'a, 'src>(line: &'a Line<'src>) -> &'a str
    ensures { result.now ≡ spec.front_text line.now.fragments }
{
    match line.fragments.as_slice().first() {
        Some(Fragment::Text { token }) => token.lexeme(),
        _ => "",
    }
}

// The text that a line ends with.
fn back<'a, 'src>(line: &'a Line<'src>) -> &'a str
    ensures { result.now ≡ spec.back line.now.fragments }
{
    match line.fragments.as_slice().last() {
        Some(Fragment::Text { token }) => token.lexeme(),
        _ => "",
    }
}

// The sigil that a byte is.
fn sigil(byte: u8) -> Option<Sigil>
    ensures { result ≡ spec.sigil_of byte }
{
    match byte {
        b'@' => Some(Sigil::Quiet),
        b'-' => Some(Sigil::Infallible),
        b'?' => Some(Sigil::Guard),
        _ => None,
    }
}

/// The sigils that a line begins with, as far as each stands there once. The error is want of memory.
pub fn sigils<'src>(alloc: Global, line: &Line<'src>) -> Result<Sequence<Sigil>, AllocError>
    ensures are { IfOk result (λ found. found ≡ spec.sigils line.now) }
    ensures text { IfOk result (λ found. found ≢ [] → BeginsWithText line.now.fragments) }
{
    let mut found = Sequence::new(alloc);
    for byte in front(line).as_bytes() {
        let Some(next) = sigil(*byte) else {
            break;
        };
        if found.as_slice().contains(&next) {
            break;
        }
        found.push(next)?;
    }
    Ok(found)
}

/// Whether a line begins with `#!`.
pub fn is_shebang<'src>(line: &Line<'src>) -> bool
    ensures { result ≡ spec.is_shebang line.now }
{
    front(line).starts_with("#!")
}

/// Whether a line begins with `#` and is no shebang.
pub fn is_comment<'src>(line: &Line<'src>) -> bool
    ensures { result ≡ spec.is_comment line.now }
{
    front(line).starts_with('#') && !is_shebang(line)
}

/// Whether a line ends with a backslash.
pub fn is_continuation<'src>(line: &Line<'src>) -> bool
    ensures { result ≡ spec.is_continuation line.now }
{
    back(line).ends_with('\\')
}
