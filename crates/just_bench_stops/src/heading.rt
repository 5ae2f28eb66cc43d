//! The line that a recipe begins with.
ghost use Rattle.std.specs.Prelude.{◌≤◌, length};
ghost use Rattle.just_bench_stops.specs.Marks.{GoesTo};
ghost use Rattle.just_bench_stops.specs.Heading as spec;

use crate::halt::Halt;
use crate::marks::{line_end, mark};
use crate::parts::{Part, dependencies, dependency, parts};
use just_bench_expressions::lexer::Kind;
use just_bench_expressions::spelling::Spelling;
use just_bench_lines::places::mark_at;

// The place after what runs after a recipe.
#[tactic(auto, using(crate::proofs::Fails::fails))]
fn subsequents<'src>(spelling: &Spelling<'src>, at: usize) -> Result<usize, Halt>
    ensures { GoesTo result (spec.subsequents_end spelling.now at) }
{
    let at = dependency(spelling, at)?;
    let at = dependencies(spelling, at)?;
    line_end(spelling.as_slice(), at)
}

// The place after what runs before a recipe and after it.
#[tactic(auto, using(crate::proofs::Fails::fails))]
fn sides<'src>(spelling: &Spelling<'src>, at: usize) -> Result<usize, Halt>
    requires { at ≤ length spelling.now }
    ensures { GoesTo result (spec.sides_end spelling.now at) }
{
    let end = dependencies(spelling, at)?;
    if end == spelling.as_slice().len() {
        Ok(end)
    } else {
        subsequents(spelling, end + 1)
    }
}

/// The place after the line that a recipe begins with.
#[tactic(auto, unfolding(crate::specs::Heading::heading_end), using(crate::proofs::Fails::fails))]
pub fn heading<'src>(spelling: &Spelling<'src>) -> Result<usize, Halt>
    ensures { GoesTo result (spec.heading_end spelling.now) }
{
    let lexemes = spelling.as_slice();
    let first = if mark_at(lexemes, 0, Kind::At) { 1 } else { 0 };
    let at = mark(lexemes, first, Kind::Name)?;
    let colon = parts(spelling, at, Part::Parameter, Kind::Colon)?;
    sides(spelling, colon + 1)
}
