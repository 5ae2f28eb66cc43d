//! The lines of bodies.
ghost use Rattle.std.specs.Prelude.{◌≡◌, ◌≤◌, ◌<◌, ◌+◌, drop, length, Some, IfOk, IfSome};
ghost use Rattle.std.specs.Str.{IsCharBoundary};
ghost use Rattle.just_bench_expressions.specs.Lines.{IsLineOf};
ghost use Rattle.just_bench_lines.specs.Body as spec;

use crate::definitions::whole_expression;
use just_ast_definitions::{Fragment, Line};
use just_ast_expressions::ListUse;
use just_bench_expressions::features::list_features;
use just_bench_expressions::lexer::{is_blank, lex};
use just_bench_expressions::lines::TextLine;
use just_bench_expressions::spelling::Spelling;
use just_data::{BorrowedText, Sequence};
use just_names::Token;
use std::alloc::{AllocError, Global};

/// A part of a line of a body, the uses of lists in it, and the column after it.
#[derive(Drop)]
pub struct Part<'src> {
    /// The part.
    pub fragment: Fragment<'src>,
    /// Where it needs lists.
    pub lists: Sequence<ListUse<'src>>,
    /// The column after it.
    pub end: usize,
}

/// A line of a body, and the uses of lists in it.
#[derive(Drop)]
pub struct BodyLine<'src> {
    /// The line.
    pub line: Line<'src>,
    /// Where it needs lists.
    pub lists: Sequence<ListUse<'src>>,
}

/// How many blanks and tabs begin a line.
pub fn indent<'src>(line: &TextLine<'src>) -> usize
    ensures is { result ≡ spec.indent line.now }
    ensures within { result ≤ length line.now.text }
{
    line.text
        .as_str()
        .as_bytes()
        .iter()
        .take_while(|byte| is_blank(**byte))
        .count()
}

// How many bytes stand before the first two that are this one.
fn twice_at(bytes: &[u8], byte: u8) -> Option<usize>
    ensures is { result ≡ spec.twice_at byte bytes.now }
    ensures within { IfSome result (λ at. at + 2 ≤ length bytes.now) }
{
    for at in 0..bytes.len() {
        if bytes[at] == byte && at + 1 < bytes.len() && bytes[at + 1] == byte {
            return Some(at);
        }
    }
    None
}

// Whether a quoted text goes on after a byte.
fn in_quotes(quoted: bool, byte: u8) -> bool
    ensures { result ≡ spec.in_quotes quoted byte }
{
    if byte == b'\'' { !quoted } else { quoted }
}

// Whether `}}` stands at a place.
#[tactic(auto, using(crate::proofs::Closing::closes_last, crate::proofs::Closing::closes_other, crate::proofs::Closing::closes_next))]
fn closes_at(bytes: &[u8], at: usize) -> bool
    requires { at < length bytes.now }
    ensures { result ≡ spec.closes_twice (drop at bytes.now) }
{
    if at + 1 == bytes.len() {
        return false;
    }
    if bytes[at] != b'}' {
        return false;
    }
    bytes[at + 1] == b'}'
}

/// How many bytes stand before the first `}}` that stands in no quoted text.
#[tactic(auto, using(crate::proofs::Closing::closing_start, crate::proofs::Closing::closing_quoted, crate::proofs::Closing::closing_other, crate::proofs::Closing::closing_here, crate::proofs::Closing::closing_past, crate::proofs::Closing::closing_within))]
pub fn close_at(bytes: &[u8]) -> Option<usize>
    ensures is { result ≡ spec.close_at bytes.now }
    ensures within { IfSome result (λ at. at + 2 ≤ length bytes.now) }
{
    let mut quoted = false;
    for at in 0..bytes.len() {
        quoted = in_quotes(quoted, bytes[at]);
        if !quoted && closes_at(bytes, at) {
            return Some(at);
        }
    }
    None
}

// The text from one column to another.
fn text_part<'src>(
    path: &'src str,
    text: &'src str,
    line: &TextLine<'src>,
    start: usize,
    end: usize,
) -> Fragment<'src>
    requires line { IsLineOf text.now line.now }
    requires ordered { start ≤ end }
    requires within { end ≤ length line.now.text }
    requires starts { IsCharBoundary text.now (line.now.offset + start) }
    requires ends { IsCharBoundary text.now (line.now.offset + end) }
    ensures { result ≡ spec.text_part path.now text.now line.now start end }
{
    Fragment::Text {
        token: Token::new(
            line.number,
            start,
            line.offset + start,
            end - start,
            BorrowedText::new(path),
            BorrowedText::new(text),
        ),
    }
}

// The text from one column to another, as a part.
fn text_to<'src>(
    alloc: Global,
    path: &'src str,
    text: &'src str,
    line: &TextLine<'src>,
    start: usize,
    end: usize,
) -> Part<'src>
    requires line { IsLineOf text.now line.now }
    requires starts { IsCharBoundary text.now (line.now.offset + start) }
    requires ends { spec.EndsAt text.now line.now start end }
    ensures { result ≡ spec.text_part_at path.now text.now line.now start end }
{
    Part {
        fragment: text_part(path, text, line, start, end),
        lists: Sequence::new(alloc),
        end,
    }
}

// The interpolation whose expression stands from one column to another, before `}}`.
fn interpolation<'src>(
    alloc: Global,
    path: &'src str,
    text: &'src str,
    line: &TextLine<'src>,
    start: usize,
    end: usize,
) -> Result<Option<Part<'src>>, AllocError>
    requires line { IsLineOf text.now line.now }
    requires ordered { start ≤ end }
    requires within { end ≤ length line.now.text }
    ensures is { IfOk result (λ found. found ≡ spec.interpolation path.now text.now line.now start end) }
    ensures further { IfOk result (λ found. IfSome found (λ part. part.end ≡ end + 2)) }
{
    let Some(lexemes) = lex(alloc, path, text, line, start, end)? else {
        return Ok(None);
    };
    let lists = list_features(alloc, lexemes.as_slice())?;
    let spelling = Spelling::new(alloc, lexemes)?;
    match whole_expression(&spelling, 0)? {
        None => Ok(None),
        Some(expression) => Ok(Some(Part {
            fragment: Fragment::Interpolation { expression },
            lists,
            end: end + 2,
        })),
    }
}

// The interpolation whose `{{` stands at a column.
#[tactic(auto, using(crate::proofs::Bounds::opens_within))]
fn interpolation_at<'src>(
    alloc: Global,
    path: &'src str,
    text: &'src str,
    line: &TextLine<'src>,
    start: usize,
) -> Result<Option<Part<'src>>, AllocError>
    requires line { IsLineOf text.now line.now }
    requires opens { Some 0 ≡ spec.twice_at 123 (drop start line.now.text) }
    ensures is { IfOk result (λ found. found ≡ spec.interpolation_at path.now text.now line.now start) }
    ensures further { IfOk result (λ found. IfSome found (λ part. spec.EndsAt text.now line.now start part.end)) }
{
    let bytes = line.text.as_str().as_bytes();
    let inner = start + 2;
    match close_at(&bytes[inner..]) {
        None => Ok(None),
        Some(size) => interpolation(alloc, path, text, line, inner, inner + size),
    }
}

/// The part of a line that begins at a column, or `None` where that is an interpolation which nothing ends or in which no
/// expression stands. The error is want of memory.
#[tactic(auto, unfolding(crate::specs::Body::part), using(crate::proofs::Bounds::line_ends))]
pub fn read_part<'src>(
    alloc: Global,
    path: &'src str,
    text: &'src str,
    line: &TextLine<'src>,
    start: usize,
) -> Result<Option<Part<'src>>, AllocError>
    requires line { IsLineOf text.now line.now }
    requires within { start < length line.now.text }
    requires starts { IsCharBoundary text.now (line.now.offset + start) }
    ensures is { IfOk result (λ found. found ≡ spec.part path.now text.now line.now start) }
    ensures further { IfOk result (λ found. IfSome found (λ part. spec.EndsAt text.now line.now start part.end)) }
{
    let bytes = line.text.as_str().as_bytes();
    match twice_at(&bytes[start..], b'{') {
        Some(0) => interpolation_at(alloc, path, text, line, start),
        Some(size) => {
            let end = start + size;
            Ok(Some(text_to(alloc, path, text, line, start, end)))
        }
        None => {
            let end = bytes.len();
            Ok(Some(text_to(alloc, path, text, line, start, end)))
        }
    }
}

/// The line of a body from a column on. The error is want of memory.
#[tactic(auto, using(crate::proofs::Joined::joined_start, crate::proofs::Joined::joined_push, crate::proofs::Joined::joined_end, crate::proofs::Joined::joined_fail))]
pub fn read_body<'src>(
    alloc: Global,
    path: &'src str,
    text: &'src str,
    line: &TextLine<'src>,
    start: usize,
) -> Result<Option<BodyLine<'src>>, AllocError>
    requires line { IsLineOf text.now line.now }
    requires within { start ≤ length line.now.text }
    requires starts { IsCharBoundary text.now (line.now.offset + start) }
    ensures { IfOk result (λ found. found ≡ spec.body_line path.now text.now line.now start) }
{
    let mut fragments = Sequence::new(alloc);
    let mut lists = Sequence::new(alloc);
    let mut at = start;
    while at < line.text.as_str().len() {
        let Some(part) = read_part(alloc, path, text, line, at)? else {
            return Ok(None);
        };
        fragments.push(part.fragment)?;
        lists.append(part.lists)?;
        at = part.end;
    }
    Ok(Some(BodyLine {
        line: Line {
            number: line.number,
            fragments,
        },
        lists,
    }))
}
