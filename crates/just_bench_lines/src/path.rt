//! Paths: names joined by `::`.
ghost use Rattle.std.specs.Prelude.{◌≡◌, ◌<◌, ◌+◌, length, IfOk, IfSome};
ghost use Rattle.just_bench_lines.specs.Path as spec;
ghost use Rattle.just_bench_lines.specs.Places.{GoesOn};

use crate::places::{adjoins, name_at};
use just_bench_expressions::lexer::{Kind, Lexeme};
use just_bench_expressions::spelling::Spelling;
use just_data::Sequence;
use just_names::{Name, Namepath};
use std::alloc::AllocError;
use std::mem::replace;

/// Whether `::` stands at a place: two colons, the second right after the first.
pub fn separated<'src>(lexemes: &[Lexeme<'src>], at: usize) -> bool
    ensures { result ≡ spec.separated lexemes.now at }
{
    let Some(first) = lexemes.get(at) else {
        return false;
    };
    let Some(second) = lexemes.get(at + 1) else {
        return false;
    };
    matches!(first.kind, Kind::Colon)
        && matches!(second.kind, Kind::Colon)
        && adjoins(first, second)
}

// The name after the `::` at a place.
fn joined_at<'src>(lexemes: &[Lexeme<'src>], at: usize) -> Option<Name<'src>>
    ensures is { result ≡ spec.joined_at lexemes.now at }
    ensures within { IfSome result (λ _. at + 2 < length lexemes.now) }
{
    if separated(lexemes, at) {
        name_at(lexemes, at + 2)
    } else {
        None
    }
}

/// The path that begins at a place, as far as `::` and a name follow, and the place after it. The error is want of
/// memory.
#[tactic(auto, using(crate::proofs::Paths::path_starts, crate::proofs::Paths::path_push, crate::proofs::Paths::path_ends, crate::proofs::Paths::no_path))]
pub fn read_path<'src>(
    spelling: &Spelling<'src>,
    start: usize,
) -> Result<Option<(Namepath<'src>, usize)>, AllocError>
    ensures is { IfOk result (λ found. found ≡ spec.path spelling.now start) }
    ensures further { IfOk result (λ found. IfSome found (λ f. GoesOn spelling.now start f.1)) }
{
    let lexemes = spelling.as_slice();
    let Some(mut last) = name_at(lexemes, start) else {
        return Ok(None);
    };
    let mut front = Sequence::new(spelling.alloc());
    let mut at = start + 1;
    while let Some(name) = joined_at(lexemes, at) {
        front.push(replace(&mut last, name))?;
        at += 3;
    }
    Ok(Some((Namepath { front, last }, at)))
}
