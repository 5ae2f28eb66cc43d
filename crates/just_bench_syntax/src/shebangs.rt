//! What runs a script, by its first line.
ghost use Rattle.std.specs.Prelude.{◌≡◌};
ghost use Rattle.just_bench_syntax.specs.Shebangs as spec;

use just_data::BorrowedText;
use just_parts::layers::Shebang;

// A text without the blanks before it and after it.
fn trimmed<'text>(text: &'text str) -> &'text str
    ensures { result.now ≡ spec.without_blanks text.now }
{
    text.trim_ascii()
}

// The program up to the first blank, and what stands behind it.
fn said<'text>(text: &'text str) -> Option<Shebang<'text>>
    ensures { result ≡ spec.said_program text.now }
{
    if text.is_empty() {
        return None;
    }
    match text.split_once(' ') {
        Some((interpreter, rest)) => Some(Shebang {
            interpreter: BorrowedText::new(interpreter),
            argument: Some(BorrowedText::new(trimmed(rest))),
        }),
        None => Some(Shebang {
            interpreter: BorrowedText::new(text),
            argument: None,
        }),
    }
}

/// The program after `#!`, up to the first blank, and what stands behind it, without the blanks and tabs around both.
pub fn shebang<'text>(text: &'text str) -> Option<Shebang<'text>>
    ensures { result ≡ spec.shebang text.now }
{
    match text.strip_prefix("#!") {
        Some(rest) => said(trimmed(rest)),
        None => None,
    }
}
