//! Where reading of a line of a body stops.
ghost use Rattle.std.specs.Prelude.{◌≡◌, ◌≤◌, ◌+◌, drop, length, Some, IfOk};
ghost use Rattle.std.specs.Str.{IsCharBoundary};
ghost use Rattle.just_bench_expressions.specs.Lines.{IsLineOf};
ghost use Rattle.just_bench_lines.specs.Body.{twice_at};
ghost use Rattle.just_bench_stops.specs.Definitions.{whole_end};
ghost use Rattle.just_bench_stops.specs.Stops.{stop_place};
ghost use Rattle.just_bench_stops.specs.Body as spec;

use crate::definitions::whole_expression;
use crate::halt::Halt;
use crate::tokens::{lexemes_between, rest_of, token_at};
use just_bench_expressions::lexer::lexed_to;
use just_bench_expressions::lines::TextLine;
use just_bench_expressions::spelling::Spelling;
use just_bench_lines::body::{close_at, read_part};
use just_names::Token;
use std::alloc::{AllocError, Global};

// The place at which reading of an expression stops that is to end with its lexemes.
fn expression_place<'src>(spelling: &Spelling<'src>) -> Result<usize, AllocError>
    ensures { IfOk result (λ place. place ≡ stop_place (whole_end spelling.now 0)) }
{
    match whole_expression(spelling, 0) {
        Ok(end) => Ok(end),
        Err(Halt::At(at)) => Ok(at),
        Err(Halt::Memory) => Err(AllocError),
    }
}

// What stands where reading of an expression stops that is to go from one column to another.
#[tactic(auto, unfolding(crate::specs::Body::expression_stop))]
fn expression_stop<'src>(
    alloc: Global,
    path: &'src str,
    text: &'src str,
    line: &TextLine<'src>,
    start: usize,
    end: usize,
) -> Result<Token<'src>, AllocError>
    requires line { IsLineOf text.now line.now }
    requires ordered { start ≤ end }
    requires within { end ≤ length line.now.text }
    requires starts { IsCharBoundary text.now (line.now.offset + start) }
    ensures { IfOk result (λ token. token ≡ spec.expression_stop path.now text.now line.now start end) }
{
    let end = lexed_to(text, line, start, end);
    let lexemes = lexemes_between(alloc, path, text, line, start, end)?;
    let spelling = Spelling::new(alloc, lexemes)?;
    let place = expression_place(&spelling)?;
    Ok(token_at(path, text, line, &spelling, end, place))
}

// What stands where reading of the interpolation stops whose `{{` stands at a column.
#[tactic(auto, using(crate::proofs::Openings::opens_within, crate::proofs::Openings::opens_whole))]
fn interpolation_stop<'src>(
    alloc: Global,
    path: &'src str,
    text: &'src str,
    line: &TextLine<'src>,
    start: usize,
) -> Result<Token<'src>, AllocError>
    requires line { IsLineOf text.now line.now }
    requires opens { Some 0 ≡ twice_at 123 (drop start line.now.text) }
    ensures { IfOk result (λ token. token ≡ spec.interpolation_stop path.now text.now line.now start) }
{
    let bytes = line.text.as_str().as_bytes();
    let inner = start + 2;
    let end = match close_at(&bytes[inner..]) {
        None => bytes.len(),
        Some(size) => inner + size,
    };
    expression_stop(alloc, path, text, line, inner, end)
}

/// Where a line of a body that is none is told, from a column on: the first lexeme with which its first interpolation
/// that is none does not go on. Where no lexeme stands there it is the rest of the line, which is empty at its end. The
/// error is want of memory.
#[tactic(auto, using(crate::proofs::Openings::opens, crate::proofs::BadParts::parts_start, crate::proofs::BadParts::parts_push, crate::proofs::BadParts::parts_end))]
pub fn body_stop<'src>(
    alloc: Global,
    path: &'src str,
    text: &'src str,
    line: &TextLine<'src>,
    start: usize,
) -> Result<Token<'src>, AllocError>
    requires line { IsLineOf text.now line.now }
    requires within { start ≤ length line.now.text }
    requires starts { IsCharBoundary text.now (line.now.offset + start) }
    ensures { IfOk result (λ token. token ≡ spec.body_stop path.now text.now line.now start) }
{
    let size = line.text.as_str().len();
    let mut at = start;
    while at < size {
        match read_part(alloc, path, text, line, at)? {
            Some(part) => at = part.end,
            None => return interpolation_stop(alloc, path, text, line, at),
        }
    }
    Ok(rest_of(path, text, line, size))
}
