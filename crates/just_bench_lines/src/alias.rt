//! The line of an alias.
ghost use Rattle.std.specs.Prelude.{◌≡◌, IfOk};
ghost use Rattle.just_bench_lines.specs.Alias as spec;

use crate::path::read_path;
use crate::places::{mark_at, name_at, word_at};
use just_bench_expressions::lexer::Kind;
use just_bench_expressions::spelling::Spelling;
use just_names::{Name, Namepath};
use std::alloc::AllocError;

/// Another name for what a path leads to.
#[derive(Drop)]
pub struct AliasLine<'src> {
    /// The other name.
    pub name: Name<'src>,
    /// What it is a name for.
    pub target: Namepath<'src>,
}

/// The alias that the lexemes of a line are: `alias NAME := PATH`. The error is want of memory.
pub fn read_alias<'src>(spelling: &Spelling<'src>) -> Result<Option<AliasLine<'src>>, AllocError>
    ensures { IfOk result (λ found. found ≡ spec.alias_line spelling.now) }
{
    let lexemes = spelling.as_slice();
    if !word_at(lexemes, 0, "alias") {
        return Ok(None);
    }
    let Some(name) = name_at(lexemes, 1) else {
        return Ok(None);
    };
    if !mark_at(lexemes, 2, Kind::Assign) {
        return Ok(None);
    }
    match read_path(spelling, 3)? {
        Some((target, end)) if end == lexemes.len() => Ok(Some(AliasLine { name, target })),
        _ => Ok(None),
    }
}
