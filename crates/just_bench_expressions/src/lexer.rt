//! The lexemes of a line, as parts of the whole text.
ghost use Rattle.std.specs.Prelude.{◌≡◌, ◌≤◌, ◌<◌, ◌+◌, ◌-◌, length, slice_index, IfOk, IfSome};
ghost use Rattle.std.specs.List.{All, prefix_len, position};
ghost use Rattle.std.specs.Str.{IsCharBoundary};
ghost use Rattle.just_names.specs.Identifier.{is_identifier_continue};
ghost use Rattle.just_bench_expressions.specs.Lines.{IsLineOf};
ghost use Rattle.just_bench_expressions.specs.Lexemes as spec;

use crate::lines::TextLine;
use just_data::{BorrowedText, Sequence};
use just_names::{Token, continues_identifier, starts_identifier};
use std::alloc::{AllocError, Global};

/// What a lexeme is.
#[derive(Clone, Copy, PartialEq, Eq)]
pub enum Kind {
    /// An identifier.
    Name,
    /// A text between two `'`, which stand at its ends.
    Quoted,
    /// `:`.
    Colon,
    /// `:=`.
    Assign,
    /// `=`.
    Equals,
    /// `&&`.
    And,
    /// `?`.
    Question,
    /// `*`.
    Star,
    /// `+`.
    Plus,
    /// `@`.
    At,
    /// `,`.
    Comma,
    /// `(`.
    ParenOpen,
    /// `)`.
    ParenClose,
    /// `[`.
    BracketOpen,
    /// `]`.
    BracketClose,
}

/// The smallest part of a line that means something.
#[derive(Drop)]
pub struct Lexeme<'src> {
    /// What it is.
    pub kind: Kind,
    /// Where it stands.
    pub token: Token<'src>,
}

/// Whether a byte separates lexemes.
pub fn is_blank(byte: u8) -> bool
    ensures { result ≡ spec.is_blank byte }
{
    byte == b' ' || byte == b'\t'
}

// How many bytes at the front may follow the first of a name.
fn name_rest(bytes: &[u8]) -> usize
    ensures is { result ≡ prefix_len is_identifier_continue bytes.now }
    ensures within { result ≤ length bytes.now }
{
    bytes
        .iter()
        .take_while(|byte| continues_identifier(**byte))
        .count()
}

// How many bytes stand before the first quote.
fn quote_at(bytes: &[u8]) -> Option<usize>
    ensures is { result ≡ position spec.is_quote bytes.now }
    ensures within { IfSome result (λ at. at < length bytes.now) }
{
    bytes.iter().position(|byte| *byte == b'\'')
}

// The mark of two bytes that begins with this byte.
fn double_mark(byte: u8, rest: &[u8]) -> Option<Kind>
    ensures is { result ≡ spec.double_mark byte rest.now }
    ensures ascii { IfSome result (λ _. (byte < 128) × (0 < length rest.now) × (slice_index rest.now 0 < 128)) }
{
    let (second, _) = rest.split_first()?;
    let second = *second;
    if byte == b':' && second == b'=' {
        return Some(Kind::Assign);
    }
    if byte == b'&' && second == b'&' {
        return Some(Kind::And);
    }
    None
}

// The mark that this byte is.
fn single_mark(byte: u8) -> Option<Kind>
    ensures is { result ≡ spec.single_mark byte }
    ensures ascii { IfSome result (λ _. byte < 128) }
{
    match byte {
        b':' => Some(Kind::Colon),
        b'=' => Some(Kind::Equals),
        b'?' => Some(Kind::Question),
        b'*' => Some(Kind::Star),
        b'+' => Some(Kind::Plus),
        b'@' => Some(Kind::At),
        b',' => Some(Kind::Comma),
        b'(' => Some(Kind::ParenOpen),
        b')' => Some(Kind::ParenClose),
        b'[' => Some(Kind::BracketOpen),
        b']' => Some(Kind::BracketClose),
        _ => None,
    }
}

// The kind of the lexeme at the front, and its length.
fn first(bytes: &[u8]) -> Option<(Kind, usize)>
    ensures is { result ≡ spec.first bytes.now }
    ensures takes { IfSome result (λ found. spec.TakesLexeme bytes.now found.1) }
{
    let (byte, rest) = bytes.split_first()?;
    let byte = *byte;
    if starts_identifier(byte) {
        let more = name_rest(rest);
        return Some((Kind::Name, more + 1));
    }
    if byte == b'\'' {
        let inside = quote_at(rest)?;
        return Some((Kind::Quoted, inside + 2));
    }
    if let Some(kind) = double_mark(byte, rest) {
        return Some((kind, 2));
    }
    let kind = single_mark(byte)?;
    Some((kind, 1))
}

// A part of a line as a token.
fn token<'src>(
    path: &'src str,
    text: &'src str,
    line: &TextLine<'src>,
    at: usize,
    size: usize,
) -> Token<'src>
    requires line { IsLineOf text.now line.now }
    requires some { 0 < size }
    requires within { at + size ≤ length line.now.text }
    requires first { slice_index line.now.text at < 128 }
    requires last { slice_index line.now.text (at + size - 1) < 128 }
    ensures { result ≡ spec.lexeme_place path.now text.now line.now at size }
{
    Token::new(
        line.number,
        at,
        line.offset + at,
        size,
        BorrowedText::new(path),
        BorrowedText::new(text),
    )
}

/// The lexemes of a line from one column to another, or `None` where a part of it is no lexeme. The error is want of
/// memory.
pub fn lex<'src>(
    alloc: Global,
    path: &'src str,
    text: &'src str,
    line: &TextLine<'src>,
    start: usize,
    end: usize,
) -> Result<Option<Sequence<Lexeme<'src>>>, AllocError>
    requires line { IsLineOf text.now line.now }
    requires ordered { start ≤ end }
    requires within { end ≤ length line.now.text }
    ensures is { IfOk result (λ found. found ≡ spec.lexemes path.now text.now line.now start end) }
    ensures quoted { IfOk result (λ found. IfSome found (All spec.HasQuotes)) }
{
    let (bytes, _) = line.text.as_str().as_bytes().split_at(end);
    let mut found = Sequence::new(alloc);
    let mut at = start;
    while at < bytes.len() {
        if is_blank(bytes[at]) {
            at += 1;
            continue;
        }
        let (_, rest) = bytes.split_at(at);
        match first(rest) {
            None => return Ok(None),
            Some((kind, size)) => {
                found.push(Lexeme {
                    kind,
                    token: token(path, text, line, at, size),
                })?;
                at += size;
            }
        }
    }
    Ok(Some(found))
}

/// The column up to which the lexemes of a line go, from one column to another: that of the first byte with which no lexeme
/// begins, or the other column.
#[tactic(auto, unfolding(crate::specs::Lexemes::lexed_to), using(crate::proofs::Columns::lexed_blank, crate::proofs::Columns::lexed_stops, crate::proofs::Columns::lexed_past, crate::proofs::Columns::lexed_ends))]
pub fn lexed_to<'src>(text: &'src str, line: &TextLine<'src>, start: usize, end: usize) -> usize
    requires line { IsLineOf text.now line.now }
    requires ordered { start ≤ end }
    requires within { end ≤ length line.now.text }
    requires starts { IsCharBoundary text.now (line.now.offset + start) }
    ensures is { result ≡ spec.lexed_to line.now start end }
    ensures onward { (start ≤ result) × (result ≤ end) }
    ensures whole { IsCharBoundary text.now (line.now.offset + result) }
{
    let (bytes, _) = line.text.as_str().as_bytes().split_at(end);
    let mut at = start;
    while at < bytes.len() {
        if is_blank(bytes[at]) {
            at += 1;
            continue;
        }
        let (_, rest) = bytes.split_at(at);
        match first(rest) {
            None => return at,
            Some((_, size)) => at += size,
        }
    }
    at
}
