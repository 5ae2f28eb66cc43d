//! The lines of a text, and where each begins.
ghost use Rattle.std.specs.Prelude.{◌≡◌, IfOk};
ghost use Rattle.std.specs.List.{All};
ghost use Rattle.just_bench_expressions.specs.declared.lines.TextLine.{TextLine};
ghost use Rattle.just_bench_expressions.specs.Lines.{lines_of, line_place, IsLineOf};

use just_data::{BorrowedText, Sequence};
use just_names::Token;
use std::alloc::{AllocError, Global};

/// A line without its end, and where it stands in its text. Its number counts from 0, its offset counts bytes.
#[derive(Drop)]
pub struct TextLine<'src> {
    /// How many lines stand before it.
    pub number: usize,
    /// How many bytes stand before it.
    pub offset: usize,
    /// Its text, without the line end.
    pub text: BorrowedText<'src>,
}

/// The lines of a text. A line end at the end of the text is followed by an empty line.
/// The error is want of memory.
pub fn lines<'src>(alloc: Global, text: &'src str) -> Result<Sequence<TextLine<'src>>, AllocError>
    ensures lines { IfOk result (λ all. all ≡ lines_of text.now) }
    ensures within { IfOk result (λ all. All (IsLineOf text.now) all) }
{
    let mut all = Sequence::new(alloc);
    let mut start = 0;
    for (end, byte) in text.as_bytes().iter().enumerate() {
        if *byte != b'\n' {
            continue;
        }
        let part = &text[start..end];
        all.push(TextLine {
            number: all.len(),
            offset: start,
            text: BorrowedText::new(part),
        })?;
        start = end + 1;
    }
    let last = &text[start..];
    all.push(TextLine {
        number: all.len(),
        offset: start,
        text: BorrowedText::new(last),
    })?;
    Ok(all)
}

/// The whole line as a token, where a fault of the line is told.
pub fn line_token<'src>(path: &'src str, text: &'src str, line: &TextLine<'src>) -> Token<'src>
    requires { IsLineOf text.now line.now }
    ensures { result ≡ line_place path.now text.now line.now }
{
    Token::new(
        line.number,
        0,
        line.offset,
        line.text.as_str().len(),
        BorrowedText::new(path),
        BorrowedText::new(text),
    )
}
