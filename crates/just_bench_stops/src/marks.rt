//! The smallest parts of a line, and expressions and paths.
ghost use Rattle.std.specs.Prelude.{◌≡◌, ◌<◌, ◌≤◌, length, IfOk, true, false};
ghost use Rattle.just_bench_expressions.specs.Expressions.{expression_end};
ghost use Rattle.just_bench_lines.specs.Places.{GoesOn, is_mark};
ghost use Rattle.just_bench_stops.specs.Marks as spec;

use crate::halt::Halt;
use just_bench_expressions::expressions::expression_end;
use just_bench_expressions::lexer::{Kind, Lexeme};
use just_bench_expressions::spelling::Spelling;
use just_bench_lines::path::{read_path, separated};
use just_bench_lines::places::{mark_at, word_at};

/// The place after a lexeme of this kind.
pub fn mark<'src>(lexemes: &[Lexeme<'src>], at: usize, mark: Kind) -> Result<usize, Halt>
    ensures is { spec.GoesTo result (spec.mark_end (is_mark mark) lexemes.now at) }
    ensures further { IfOk result (GoesOn lexemes.now at) }
{
    if mark_at(lexemes, at, mark) {
        Ok(at + 1)
    } else {
        Err(Halt::At(at))
    }
}

/// The place after this word.
pub fn word<'src>(lexemes: &[Lexeme<'src>], at: usize, word: &str) -> Result<usize, Halt>
    requires { at ≤ length lexemes.now }
    ensures is { spec.GoesTo result (spec.word_end word.now lexemes.now at) }
{
    if word_at(lexemes, at, word) {
        Ok(at + 1)
    } else {
        Err(Halt::At(at))
    }
}

/// The place after a line that ends there.
pub fn line_end<'src>(lexemes: &[Lexeme<'src>], at: usize) -> Result<usize, Halt>
    ensures { spec.GoesTo result (spec.line_end lexemes.now at) }
{
    if at == lexemes.len() {
        Ok(at)
    } else {
        Err(Halt::At(at))
    }
}

// The place after an expression, with its sum or without.
fn expression_by<'src>(spelling: &Spelling<'src>, at: usize, sums: bool) -> Result<usize, Halt>
    ensures is { spec.GoesTo result (expression_end sums spelling.now at) }
    ensures further { IfOk result (GoesOn spelling.now at) }
{
    match expression_end(spelling, at, sums)? {
        Ok(end) => Ok(end),
        Err(stop) => Err(Halt::At(stop)),
    }
}

/// The place after an expression.
pub fn expression<'src>(spelling: &Spelling<'src>, at: usize) -> Result<usize, Halt>
    ensures is { spec.GoesTo result (expression_end true spelling.now at) }
    ensures further { IfOk result (GoesOn spelling.now at) }
{
    expression_by(spelling, at, true)
}

/// The place after an expression that is no sum.
pub fn operand<'src>(spelling: &Spelling<'src>, at: usize) -> Result<usize, Halt>
    ensures is { spec.GoesTo result (expression_end false spelling.now at) }
    ensures further { IfOk result (GoesOn spelling.now at) }
{
    expression_by(spelling, at, false)
}

/// The place after a path.
pub fn path<'src>(spelling: &Spelling<'src>, at: usize) -> Result<usize, Halt>
    ensures is { spec.GoesTo result (spec.path_end spelling.now at) }
    ensures further { IfOk result (GoesOn spelling.now at) }
{
    let Some((_, end)) = read_path(spelling, at)? else {
        return Err(Halt::At(at));
    };
    if separated(spelling.as_slice(), end) {
        Err(Halt::At(end + 2))
    } else {
        Ok(end)
    }
}
