//! The lines of files, settings, variables, functions and aliases.
ghost use Rattle.std.specs.Prelude.{◌≡◌, ◌≤◌, length, is_some, true};
ghost use Rattle.just_bench_lines.specs.Definitions.{setting};
ghost use Rattle.just_bench_lines.specs.Meaning.{after_word, is_optional};
ghost use Rattle.just_bench_stops.specs.Marks.{GoesTo};
ghost use Rattle.just_bench_stops.specs.Definitions as spec;

use crate::halt::Halt;
use crate::marks::{expression, line_end, mark, operand, path, word};
use crate::parts::{Part, parts};
use just_bench_expressions::lexer::{Kind, Lexeme};
use just_bench_expressions::spelling::Spelling;
use just_bench_lines::definitions::setting;
use just_bench_lines::meaning::{after_word, is_optional};
use just_bench_lines::places::{mark_at, name_at, word_at};

/// The place after the line of an import.
#[tactic(auto, using(crate::proofs::Fails::fails))]
pub fn import<'src>(lexemes: &[Lexeme<'src>]) -> Result<usize, Halt>
    ensures { GoesTo result (spec.import_end lexemes.now) }
{
    word(lexemes, 0, "import")?;
    let at = after_word(is_optional(lexemes));
    let at = mark(lexemes, at, Kind::Quoted)?;
    line_end(lexemes, at)
}

/// The place after the line of a module.
#[tactic(auto, using(crate::proofs::Fails::fails))]
pub fn module_line<'src>(lexemes: &[Lexeme<'src>]) -> Result<usize, Halt>
    ensures { GoesTo result (spec.module_end lexemes.now) }
{
    word(lexemes, 0, "mod")?;
    let at = after_word(is_optional(lexemes));
    let at = mark(lexemes, at, Kind::Name)?;
    let end = if mark_at(lexemes, at, Kind::Quoted) {
        at + 1
    } else {
        at
    };
    line_end(lexemes, end)
}

/// The place after an expression that ends the line.
#[tactic(auto, using(crate::proofs::Fails::fails))]
pub fn whole_expression<'src>(spelling: &Spelling<'src>, at: usize) -> Result<usize, Halt>
    ensures { GoesTo result (spec.whole_end spelling.now at) }
{
    let at = expression(spelling, at)?;
    line_end(spelling.as_slice(), at)
}

// The place after what a setting is set to that names a program.
#[tactic(auto, using(crate::proofs::Fails::fails))]
fn program<'src>(spelling: &Spelling<'src>) -> Result<usize, Halt>
    ensures { GoesTo result (spec.program_end spelling.now) }
{
    let lexemes = spelling.as_slice();
    let at = mark(lexemes, 2, Kind::Assign)?;
    let inner = mark(lexemes, at, Kind::BracketOpen)?;
    if mark_at(lexemes, inner, Kind::BracketClose) {
        return Err(Halt::At(inner));
    }
    let end = operand(spelling, at)?;
    line_end(lexemes, end)
}

// The place after `true` or `false`.
fn truth<'src>(lexemes: &[Lexeme<'src>], at: usize) -> Result<usize, Halt>
    requires { at ≤ length lexemes.now }
    ensures { GoesTo result (spec.truth_end lexemes.now at) }
{
    if word_at(lexemes, at, "true") {
        Ok(at + 1)
    } else {
        word(lexemes, at, "false")
    }
}

// The place after what a setting is set to that is on or off.
#[tactic(auto, using(crate::proofs::Fails::fails))]
fn switch<'src>(lexemes: &[Lexeme<'src>]) -> Result<usize, Halt>
    ensures { GoesTo result (spec.switch_end lexemes.now) }
{
    if lexemes.len() == 2 {
        return Ok(2);
    }
    let at = mark(lexemes, 2, Kind::Assign)?;
    let at = truth(lexemes, at)?;
    line_end(lexemes, at)
}

// Whether a setting names a program.
fn names_program(name: &str) -> bool
    ensures { result ≡ spec.names_program name.now }
{
    name == "shell" || name == "script-interpreter"
}

// Whether a setting is on or off.
fn is_switch(name: &str) -> bool
    ensures { result ≡ is_some (setting name.now true) }
{
    setting(name, true).is_some()
}

/// The place after the line of a setting.
#[tactic(auto, using(crate::proofs::Fails::fails))]
pub fn set<'src>(spelling: &Spelling<'src>) -> Result<usize, Halt>
    ensures { GoesTo result (spec.set_end spelling.now) }
{
    let lexemes = spelling.as_slice();
    word(lexemes, 0, "set")?;
    let Some(name) = name_at(lexemes, 1) else {
        return Err(Halt::At(1));
    };
    if names_program(name.lexeme()) {
        return program(spelling);
    }
    if is_switch(name.lexeme()) {
        switch(lexemes)
    } else {
        Err(Halt::At(1))
    }
}

/// The place after the line of a variable that is not exported.
#[tactic(auto, using(crate::proofs::Fails::fails))]
pub fn unexport<'src>(lexemes: &[Lexeme<'src>]) -> Result<usize, Halt>
    ensures { GoesTo result (spec.unexport_end lexemes.now) }
{
    let at = word(lexemes, 0, "unexport")?;
    let at = mark(lexemes, at, Kind::Name)?;
    line_end(lexemes, at)
}

/// The place after a variable whose name stands at a place.
#[tactic(auto, using(crate::proofs::Fails::fails))]
pub fn assignment_at<'src>(spelling: &Spelling<'src>, at: usize) -> Result<usize, Halt>
    ensures { GoesTo result (spec.assignment_end spelling.now at) }
{
    let lexemes = spelling.as_slice();
    let at = mark(lexemes, at, Kind::Name)?;
    let at = mark(lexemes, at, Kind::Assign)?;
    whole_expression(spelling, at)
}

/// The place after a variable behind this word.
#[tactic(auto, using(crate::proofs::Fails::fails))]
pub fn assignment_after<'src>(spelling: &Spelling<'src>, before: &str) -> Result<usize, Halt>
    ensures { GoesTo result (spec.prefixed_end before.now spelling.now) }
{
    let at = word(spelling.as_slice(), 0, before)?;
    assignment_at(spelling, at)
}

/// The place after the line of a function.
#[tactic(auto, using(crate::proofs::Fails::fails))]
pub fn function<'src>(spelling: &Spelling<'src>) -> Result<usize, Halt>
    ensures { GoesTo result (spec.function_end spelling.now) }
{
    let lexemes = spelling.as_slice();
    let at = mark(lexemes, 0, Kind::Name)?;
    let at = mark(lexemes, at, Kind::ParenOpen)?;
    let close = parts(spelling, at, Part::FunctionParameter, Kind::ParenClose)?;
    let at = mark(lexemes, close + 1, Kind::Assign)?;
    whole_expression(spelling, at)
}

/// The place after the line of an alias.
#[tactic(auto, using(crate::proofs::Fails::fails))]
pub fn alias_line<'src>(spelling: &Spelling<'src>) -> Result<usize, Halt>
    ensures { GoesTo result (spec.alias_end spelling.now) }
{
    let lexemes = spelling.as_slice();
    let at = word(lexemes, 0, "alias")?;
    let at = mark(lexemes, at, Kind::Name)?;
    let at = mark(lexemes, at, Kind::Assign)?;
    let at = path(spelling, at)?;
    line_end(lexemes, at)
}
