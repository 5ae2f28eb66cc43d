//! What stands at a place of a line, as a token.
ghost use Rattle.std.specs.Prelude.{◌≡◌, ◌≤◌, ◌+◌, length, IfOk};
ghost use Rattle.std.specs.List.{All, slice_get};
ghost use Rattle.std.specs.Str.{IsCharBoundary};
ghost use Rattle.just_bench_expressions.specs.Lexemes.{HasQuotes};
ghost use Rattle.just_bench_expressions.specs.Lines.{IsLineOf};
ghost use Rattle.just_bench_stops.specs.Tokens as spec;

use just_bench_expressions::lexer::{Lexeme, lex};
use just_bench_expressions::lines::TextLine;
use just_bench_expressions::spelling::Spelling;
use just_data::{BorrowedText, Sequence};
use just_names::Token;
use std::alloc::{AllocError, Global};

/// The lexemes from one column to another, or none where a part of that is none. The error is want of memory.
pub fn lexemes_between<'src>(
    alloc: Global,
    path: &'src str,
    text: &'src str,
    line: &TextLine<'src>,
    start: usize,
    end: usize,
) -> Result<Sequence<Lexeme<'src>>, AllocError>
    requires line { IsLineOf text.now line.now }
    requires ordered { start ≤ end }
    requires within { end ≤ length line.now.text }
    ensures is { IfOk result (λ all. all ≡ spec.lexemes_between path.now text.now line.now start end) }
    ensures quoted { IfOk result (All HasQuotes) }
{
    match lex(alloc, path, text, line, start, end)? {
        Some(lexemes) => Ok(lexemes),
        None => Ok(Sequence::new(alloc)),
    }
}

/// The line from a column on.
pub fn rest_of<'src>(
    path: &'src str,
    text: &'src str,
    line: &TextLine<'src>,
    at: usize,
) -> Token<'src>
    requires line { IsLineOf text.now line.now }
    requires within { at ≤ length line.now.text }
    requires starts { IsCharBoundary text.now (line.now.offset + at) }
    ensures { result ≡ spec.rest_of path.now text.now line.now at }
{
    Token::new(
        line.number,
        at,
        line.offset + at,
        line.text.as_str().len() - at,
        BorrowedText::new(path),
        BorrowedText::new(text),
    )
}

/// What stands at a place among lexemes that end before a column: a lexeme, or the rest of the line behind them all.
pub fn token_at<'src>(
    path: &'src str,
    text: &'src str,
    line: &TextLine<'src>,
    spelling: &Spelling<'src>,
    end: usize,
    place: usize,
) -> Token<'src>
    requires line { IsLineOf text.now line.now }
    requires within { end ≤ length line.now.text }
    requires whole { IsCharBoundary text.now (line.now.offset + end) }
    ensures { result ≡ spec.or_rest (spec.rest_of path.now text.now line.now end) (slice_get spelling.now place) }
{
    match spelling.as_slice().get(place) {
        Some(lexeme) => lexeme.token.copied(),
        None => rest_of(path, text, line, end),
    }
}
