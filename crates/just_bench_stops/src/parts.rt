//! Parts one after another.
ghost use Rattle.std.specs.Prelude.{◌≡◌, ◌<◌, ◌≤◌, length, if◌then◌else◌, IfOk, false};
ghost use Rattle.just_bench_lines.specs.Places.{GoesOn, is_mark};
ghost use Rattle.just_bench_stops.specs.Marks.{GoesTo};
ghost use Rattle.just_bench_stops.specs.Parts as spec;

use crate::halt::Halt;
use crate::marks::{mark, operand, path};
use just_bench_expressions::lexer::{Kind, Lexeme};
use just_bench_expressions::spelling::Spelling;
use just_bench_lines::places::mark_at;

/// A part of which several stand one after another.
#[derive(Clone, Copy)]
pub enum Part {
    /// A parameter of a recipe.
    Parameter,
    /// An expression that is no sum.
    Operand,
    /// An argument of a dependency, which may have a star.
    Argument,
    /// A parameter of a function, with the comma after it.
    FunctionParameter,
}

/// The place after what stands behind a part between parentheses: a comma, behind which another part stands, or nothing
/// before the `)`.
pub fn after_part<'src>(lexemes: &[Lexeme<'src>], at: usize) -> Result<usize, Halt>
    ensures is { GoesTo result (spec.after_part_end lexemes.now at) }
    ensures further { IfOk result (λ end. (at ≤ end) × (end ≤ length lexemes.now)) }
{
    if mark_at(lexemes, at, Kind::Comma) {
        return if mark_at(lexemes, at + 1, Kind::ParenClose) {
            Err(Halt::At(at + 1))
        } else {
            Ok(at + 1)
        };
    }
    if mark_at(lexemes, at, Kind::ParenClose) {
        Ok(at)
    } else {
        Err(Halt::At(at))
    }
}

// The place after the mark of a parameter.
fn after_sign<'src>(lexemes: &[Lexeme<'src>], at: usize) -> usize
    ensures is { result ≡ spec.after_sign lexemes.now at }
    ensures further { at ≤ result }
{
    if mark_at(lexemes, at, Kind::Star) || mark_at(lexemes, at, Kind::Plus) {
        at + 1
    } else {
        at
    }
}

// The place after a parameter of a recipe.
#[tactic(auto, using(crate::proofs::Fails::fails))]
fn parameter<'src>(spelling: &Spelling<'src>, at: usize) -> Result<usize, Halt>
    ensures is { GoesTo result (spec.parameter_end spelling.now at) }
    ensures further { IfOk result (GoesOn spelling.now at) }
{
    let lexemes = spelling.as_slice();
    let end = mark(lexemes, after_sign(lexemes, at), Kind::Name)?;
    if mark_at(lexemes, end, Kind::Equals) {
        operand(spelling, end + 1)
    } else {
        Ok(end)
    }
}

// The place after an argument of a dependency.
fn argument<'src>(spelling: &Spelling<'src>, at: usize) -> Result<usize, Halt>
    ensures is { GoesTo result (spec.argument_end spelling.now at) }
    ensures further { IfOk result (GoesOn spelling.now at) }
{
    if mark_at(spelling.as_slice(), at, Kind::Star) {
        operand(spelling, at + 1)
    } else {
        operand(spelling, at)
    }
}

// The place after a parameter of a function and what stands behind it.
#[tactic(auto, using(crate::proofs::Fails::fails))]
fn function_parameter<'src>(lexemes: &[Lexeme<'src>], at: usize) -> Result<usize, Halt>
    ensures is { GoesTo result (spec.function_parameter_end lexemes.now at) }
    ensures further { IfOk result (GoesOn lexemes.now at) }
{
    let end = mark(lexemes, at, Kind::Name)?;
    after_part(lexemes, end)
}

// The place after a part.
#[tactic(auto, unfolding(crate::specs::Parts::part_end))]
fn part_end<'src>(spelling: &Spelling<'src>, at: usize, part: Part) -> Result<usize, Halt>
    ensures is { GoesTo result (spec.part_end part spelling.now at) }
    ensures further { IfOk result (GoesOn spelling.now at) }
{
    match part {
        Part::Parameter => parameter(spelling, at),
        Part::Operand => operand(spelling, at),
        Part::Argument => argument(spelling, at),
        Part::FunctionParameter => function_parameter(spelling.as_slice(), at),
    }
}

/// The place of the first lexeme of this kind after parts one after another.
#[tactic(auto, using(crate::proofs::Walks::parts_start, crate::proofs::Walks::parts_push, crate::proofs::Walks::parts_stop, crate::proofs::Walks::parts_fail, crate::proofs::Walks::parts_past))]
pub fn parts<'src>(
    spelling: &Spelling<'src>,
    start: usize,
    part: Part,
    stop: Kind,
) -> Result<usize, Halt>
    ensures is { GoesTo result (spec.parts_end false (is_mark stop) (spec.part_end part) spelling.now start) }
    ensures further { IfOk result (λ end. (start ≤ end) × (end < length spelling.now)) }
{
    let lexemes = spelling.as_slice();
    let mut at = start;
    while at < lexemes.len() {
        if mark_at(lexemes, at, stop) {
            return Ok(at);
        }
        at = part_end(spelling, at, part)?;
    }
    Err(Halt::At(at))
}

// The place after a dependency whose `(` stands at a place.
#[tactic(auto, using(crate::proofs::Fails::fails))]
fn given<'src>(spelling: &Spelling<'src>, at: usize) -> Result<usize, Halt>
    ensures is { GoesTo result (spec.given_end spelling.now at) }
    ensures further { IfOk result (GoesOn spelling.now at) }
{
    let inner = mark(spelling.as_slice(), at, Kind::ParenOpen)?;
    let path = path(spelling, inner)?;
    let end = parts(spelling, path, Part::Operand, Kind::ParenClose)?;
    Ok(end + 1)
}

// The place after a dependency whose `(` stands at a place, behind a star.
#[tactic(auto, using(crate::proofs::Fails::fails))]
fn starred<'src>(spelling: &Spelling<'src>, at: usize) -> Result<usize, Halt>
    ensures is { GoesTo result (spec.starred_end spelling.now at) }
    ensures further { IfOk result (GoesOn spelling.now at) }
{
    let inner = mark(spelling.as_slice(), at, Kind::ParenOpen)?;
    let path = path(spelling, inner)?;
    let star = parts(spelling, path, Part::Operand, Kind::Star)?;
    let end = parts(spelling, star, Part::Argument, Kind::ParenClose)?;
    Ok(end + 1)
}

/// The place after a dependency.
#[tactic(auto, unfolding(crate::specs::Parts::dependency_end))]
pub fn dependency<'src>(spelling: &Spelling<'src>, at: usize) -> Result<usize, Halt>
    ensures is { GoesTo result (spec.dependency_end spelling.now at) }
    ensures further { IfOk result (GoesOn spelling.now at) }
{
    let lexemes = spelling.as_slice();
    if mark_at(lexemes, at, Kind::Star) {
        return starred(spelling, at + 1);
    }
    if mark_at(lexemes, at, Kind::ParenOpen) {
        return given(spelling, at);
    }
    path(spelling, at)
}

/// The place of `&&`, or of the end of the line, after dependencies one after another.
#[tactic(auto, using(crate::proofs::Walks::parts_start, crate::proofs::Walks::parts_push, crate::proofs::Walks::parts_stop, crate::proofs::Walks::parts_fail, crate::proofs::Walks::parts_past))]
pub fn dependencies<'src>(spelling: &Spelling<'src>, start: usize) -> Result<usize, Halt>
    requires { start ≤ length spelling.now }
    ensures is { GoesTo result (spec.dependencies_end spelling.now start) }
    ensures within { IfOk result (λ end. end ≤ length spelling.now) }
{
    let lexemes = spelling.as_slice();
    let mut at = start;
    while at < lexemes.len() {
        if mark_at(lexemes, at, Kind::And) {
            return Ok(at);
        }
        at = dependency(spelling, at)?;
    }
    Ok(at)
}
