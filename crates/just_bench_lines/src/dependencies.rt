//! What a recipe depends on, as the line says it that the recipe begins with.
ghost use Rattle.std.specs.Prelude.{◌≡◌, ◌<◌, ◌≤◌, length, IfOk, IfSome};
ghost use Rattle.just_bench_lines.specs.Dependencies as spec;
ghost use Rattle.just_bench_lines.specs.Path.{path};
ghost use Rattle.just_bench_lines.specs.Places.{GoesOn};

use crate::path::read_path;
use crate::places::mark_at;
use just_bench_expressions::expressions::{Found, read_operand};
use just_bench_expressions::lexer::Kind;
use just_bench_expressions::spelling::Spelling;
use just_data::Sequence;
use just_recipe::{DependencyArgument, UnresolvedDependency};
use std::alloc::AllocError;

// The argument at a place, and the place after it: `*` or nothing, and an expression that is no sum.
#[tactic(auto, unfolding(crate::specs::Dependencies::argument))]
fn read_argument<'src>(
    spelling: &Spelling<'src>,
    at: usize,
) -> Result<Option<(DependencyArgument<'src>, usize)>, AllocError>
    ensures is { IfOk result (λ found. found ≡ spec.argument spelling.now at) }
    ensures further { IfOk result (λ found. IfSome found (λ f. GoesOn spelling.now at f.1)) }
{
    let starred = mark_at(spelling.as_slice(), at, Kind::Star);
    let start = if starred { at + 1 } else { at };
    match read_operand(spelling, start)? {
        None => Ok(None),
        Some(Found { made, end }) => {
            let argument = DependencyArgument {
                expression: made,
                starred,
            };
            Ok(Some((argument, end)))
        }
    }
}

// The arguments from a place to a `)`, and the place of that.
#[tactic(auto, using(crate::proofs::Parts::parts_start, crate::proofs::Parts::parts_push, crate::proofs::Parts::parts_stop, crate::proofs::Parts::parts_fail, crate::proofs::Parts::parts_cut))]
fn read_arguments<'src>(
    spelling: &Spelling<'src>,
    start: usize,
) -> Result<Option<(Sequence<DependencyArgument<'src>>, usize)>, AllocError>
    ensures is { IfOk result (λ found. found ≡ spec.arguments spelling.now start) }
    ensures within { IfOk result (λ found. IfSome found (λ f. f.1 < length spelling.now)) }
    ensures onward { IfOk result (λ found. IfSome found (λ f. start ≤ f.1)) }
{
    let lexemes = spelling.as_slice();
    let mut made = Sequence::new(spelling.alloc());
    let mut at = start;
    while at < lexemes.len() {
        if mark_at(lexemes, at, Kind::ParenClose) {
            return Ok(Some((made, at)));
        }
        match read_argument(spelling, at)? {
            None => return Ok(None),
            Some((argument, end)) => {
                made.push(argument)?;
                at = end;
            }
        }
    }
    Ok(None)
}

// Whether a star stands before the parentheses of a dependency exactly where an argument has one.
fn fits<'src>(dependency: &UnresolvedDependency<'src>, star: bool) -> bool
    ensures { result ≡ spec.fits star dependency.now.arguments }
{
    dependency.starred() == star
}

// The dependency whose `(` stands at a place, and the place after its `)`.
#[tactic(auto, unfolding(crate::specs::Dependencies::parenthesized))]
fn read_given<'src>(
    spelling: &Spelling<'src>,
    star: bool,
    at: usize,
) -> Result<Option<(UnresolvedDependency<'src>, usize)>, AllocError>
    ensures is { IfOk result (λ found. found ≡ spec.parenthesized spelling.now star at) }
    ensures further { IfOk result (λ found. IfSome found (λ f. GoesOn spelling.now at f.1)) }
{
    if !mark_at(spelling.as_slice(), at, Kind::ParenOpen) {
        return Ok(None);
    }
    let Some((recipe, end)) = read_path(spelling, at + 1)? else {
        return Ok(None);
    };
    let Some((arguments, end)) = read_arguments(spelling, end)? else {
        return Ok(None);
    };
    let dependency = UnresolvedDependency { arguments, recipe };
    if fits(&dependency, star) {
        Ok(Some((dependency, end + 1)))
    } else {
        Ok(None)
    }
}

// The dependency that is a path alone, and the place after it.
fn read_alone<'src>(
    spelling: &Spelling<'src>,
    at: usize,
) -> Result<Option<(UnresolvedDependency<'src>, usize)>, AllocError>
    ensures is { IfOk result (λ found. found ≡ spec.alone (path spelling.now at)) }
    ensures further { IfOk result (λ found. IfSome found (λ f. GoesOn spelling.now at f.1)) }
{
    match read_path(spelling, at)? {
        None => Ok(None),
        Some((recipe, end)) => {
            let arguments = Sequence::new(spelling.alloc());
            Ok(Some((UnresolvedDependency { arguments, recipe }, end)))
        }
    }
}

// The dependency at a place, and the place after it.
#[tactic(auto, unfolding(crate::specs::Dependencies::dependency))]
fn read_dependency<'src>(
    spelling: &Spelling<'src>,
    at: usize,
) -> Result<Option<(UnresolvedDependency<'src>, usize)>, AllocError>
    ensures is { IfOk result (λ found. found ≡ spec.dependency spelling.now at) }
    ensures further { IfOk result (λ found. IfSome found (λ f. GoesOn spelling.now at f.1)) }
{
    let lexemes = spelling.as_slice();
    if mark_at(lexemes, at, Kind::Star) {
        return read_given(spelling, true, at + 1);
    }
    if mark_at(lexemes, at, Kind::ParenOpen) {
        return read_given(spelling, false, at);
    }
    read_alone(spelling, at)
}

/// The dependencies from a place to `&&` or to the end of the line, and the place of that. The error is want of memory.
#[tactic(auto, using(crate::proofs::Parts::parts_start, crate::proofs::Parts::parts_push, crate::proofs::Parts::parts_stop, crate::proofs::Parts::parts_fail, crate::proofs::Parts::parts_past))]
pub fn read_dependency_list<'src>(
    spelling: &Spelling<'src>,
    start: usize,
) -> Result<Option<(Sequence<UnresolvedDependency<'src>>, usize)>, AllocError>
    requires { start ≤ length spelling.now }
    ensures is { IfOk result (λ found. found ≡ spec.dependency_list spelling.now start) }
    ensures within { IfOk result (λ found. IfSome found (λ f. f.1 ≤ length spelling.now)) }
{
    let lexemes = spelling.as_slice();
    let mut made = Sequence::new(spelling.alloc());
    let mut at = start;
    while at < lexemes.len() {
        if mark_at(lexemes, at, Kind::And) {
            return Ok(Some((made, at)));
        }
        match read_dependency(spelling, at)? {
            None => return Ok(None),
            Some((dependency, end)) => {
                made.push(dependency)?;
                at = end;
            }
        }
    }
    Ok(Some((made, at)))
}
