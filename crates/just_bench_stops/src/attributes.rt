//! The lines of attributes.
ghost use Rattle.std.specs.Prelude.{◌≡◌, ◌<◌, ◌≤◌, length, is_some, IfOk};
ghost use Rattle.just_bench_lines.specs.Attributes.{word_alone};
ghost use Rattle.just_bench_lines.specs.Places.{GoesOn};
ghost use Rattle.just_bench_stops.specs.Marks.{GoesTo};
ghost use Rattle.just_bench_stops.specs.Attributes as spec;

use crate::halt::Halt;
use crate::marks::{expression, line_end, mark};
use crate::parts::after_part;
use just_bench_expressions::lexer::{Kind, Lexeme};
use just_bench_expressions::spelling::Spelling;
use just_bench_lines::attributes::{bare, only_char};
use just_bench_lines::places::{literal_at, mark_at, name_at};

/// What an attribute has said of how its parameter is given.
#[derive(Clone, Copy)]
pub struct Seen {
    /// The long name of its switch.
    pub long: bool,
    /// The letter of its switch.
    pub short: bool,
    /// That the switch has no value.
    pub flag: bool,
    /// What its words match.
    pub pattern: bool,
}

// The place after the end of an attribute, and of the line with it.
#[tactic(auto, using(crate::proofs::Fails::fails))]
fn bracket_end<'src>(lexemes: &[Lexeme<'src>], at: usize) -> Result<usize, Halt>
    ensures { GoesTo result (spec.bracket_end lexemes.now at) }
{
    let at = mark(lexemes, at, Kind::BracketClose)?;
    line_end(lexemes, at)
}

// The place after the end of what stands in parentheses, and of the attribute with it.
#[tactic(auto, using(crate::proofs::Fails::fails))]
fn paren_end<'src>(lexemes: &[Lexeme<'src>], at: usize) -> Result<usize, Halt>
    ensures { GoesTo result (spec.paren_end lexemes.now at) }
{
    let at = mark(lexemes, at, Kind::ParenClose)?;
    bracket_end(lexemes, at)
}

// The place after `=` and a quoted text.
#[tactic(auto, using(crate::proofs::Fails::fails))]
fn value<'src>(lexemes: &[Lexeme<'src>], at: usize) -> Result<usize, Halt>
    ensures is { GoesTo result (spec.value_end lexemes.now at) }
    ensures further { IfOk result (GoesOn lexemes.now at) }
{
    let at = mark(lexemes, at, Kind::Equals)?;
    mark(lexemes, at, Kind::Quoted)
}

// The place after `=` and a quoted text of one character.
#[tactic(auto, using(crate::proofs::Fails::fails))]
fn letter<'src>(spelling: &Spelling<'src>, at: usize) -> Result<usize, Halt>
    ensures is { GoesTo result (spec.letter_end spelling.now at) }
    ensures further { IfOk result (GoesOn spelling.now at) }
{
    let at = mark(spelling.as_slice(), at, Kind::Equals)?;
    let Some(value) = literal_at(spelling, at)? else {
        return Err(Halt::At(at));
    };
    if only_char(value.cooked.as_str()).is_some() {
        Ok(at + 1)
    } else {
        Err(Halt::At(at))
    }
}

// The place after `=` and an expression.
#[tactic(auto, using(crate::proofs::Fails::fails))]
fn pattern<'src>(spelling: &Spelling<'src>, at: usize) -> Result<usize, Halt>
    ensures is { GoesTo result (spec.pattern_end spelling.now at) }
    ensures further { IfOk result (GoesOn spelling.now at) }
{
    let at = mark(spelling.as_slice(), at, Kind::Equals)?;
    expression(spelling, at)
}

// The place after what an attribute says of how its parameter is given.
#[tactic(auto, using(crate::proofs::Seen::sees))]
fn named_property<'src>(
    spelling: &Spelling<'src>,
    at: usize,
    word: &str,
    seen: &mut Seen,
) -> Result<usize, Halt>
    requires { at < length spelling.now }
    ensures is { spec.Sees result seen.new (spec.property_end_by spelling.now at seen.old word.now) }
    ensures further { IfOk result (GoesOn spelling.now at) }
{
    let lexemes = spelling.as_slice();
    let after = at + 1;
    if word == "long" && !seen.long {
        seen.long = true;
        return value(lexemes, after);
    }
    if word == "short" && !seen.short {
        seen.short = true;
        return letter(spelling, after);
    }
    if word == "flag" && !seen.flag {
        seen.flag = true;
        return Ok(after);
    }
    if word == "pattern" && !seen.pattern {
        seen.pattern = true;
        return pattern(spelling, after);
    }
    Err(Halt::At(at))
}

// The place after it and what stands behind it.
#[tactic(auto, unfolding(crate::specs::Attributes::property_end), using(crate::proofs::Seen::sees, crate::proofs::Seen::sees_fault))]
fn property<'src>(spelling: &Spelling<'src>, at: usize, seen: &mut Seen) -> Result<usize, Halt>
    ensures is { spec.Sees result seen.new (spec.property_end spelling.now at seen.old) }
    ensures further { IfOk result (GoesOn spelling.now at) }
{
    let lexemes = spelling.as_slice();
    let Some(name) = name_at(lexemes, at) else {
        return Err(Halt::At(at));
    };
    let end = named_property(spelling, at, name.lexeme(), seen)?;
    after_part(lexemes, end)
}

// The place of the `)` after what an attribute says of how its parameter is given.
#[tactic(auto, using(crate::proofs::Properties::properties_start, crate::proofs::Properties::properties_push, crate::proofs::Properties::properties_stop, crate::proofs::Properties::properties_fail, crate::proofs::Properties::properties_past))]
fn properties<'src>(spelling: &Spelling<'src>, start: usize) -> Result<usize, Halt>
    ensures is { GoesTo result (spec.properties_end spelling.now start) }
    ensures within { IfOk result (λ end. end < length spelling.now) }
{
    let lexemes = spelling.as_slice();
    let mut seen = Seen {
        long: false,
        short: false,
        flag: false,
        pattern: false,
    };
    let mut at = start;
    while at < lexemes.len() {
        if mark_at(lexemes, at, Kind::ParenClose) {
            return Ok(at);
        }
        at = property(spelling, at, &mut seen)?;
    }
    Err(Halt::At(at))
}

// The place after the attribute of a parameter, from its name on.
#[tactic(auto, using(crate::proofs::Fails::fails))]
fn arg<'src>(spelling: &Spelling<'src>, at: usize) -> Result<usize, Halt>
    ensures { GoesTo result (spec.arg_end spelling.now at) }
{
    let lexemes = spelling.as_slice();
    let at = mark(lexemes, at, Kind::Quoted)?;
    let at = after_part(lexemes, at)?;
    let end = properties(spelling, at)?;
    paren_end(lexemes, end)
}

// The place after the attribute that this word begins.
#[tactic(auto, using(crate::proofs::Fails::fails))]
fn attribute_of<'src>(spelling: &Spelling<'src>, word: &str) -> Result<usize, Halt>
    ensures { GoesTo result (spec.attribute_end_by spelling.now word.now) }
{
    let lexemes = spelling.as_slice();
    if bare(word).is_some() {
        return bracket_end(lexemes, 2);
    }
    match word {
        "group" => {
            let at = mark(lexemes, 2, Kind::ParenOpen)?;
            let at = mark(lexemes, at, Kind::Quoted)?;
            paren_end(lexemes, at)
        }
        "doc" => {
            let at = mark(lexemes, 2, Kind::ParenOpen)?;
            let at = expression(spelling, at)?;
            paren_end(lexemes, at)
        }
        "arg" => {
            let at = mark(lexemes, 2, Kind::ParenOpen)?;
            arg(spelling, at)
        }
        _ => Err(Halt::At(1)),
    }
}

/// The place after the line of an attribute.
#[tactic(auto, unfolding(crate::specs::Attributes::attribute_end), using(crate::proofs::Fails::fails))]
pub fn attribute<'src>(spelling: &Spelling<'src>) -> Result<usize, Halt>
    ensures { GoesTo result (spec.attribute_end spelling.now) }
{
    let lexemes = spelling.as_slice();
    mark(lexemes, 0, Kind::BracketOpen)?;
    match name_at(lexemes, 1) {
        Some(name) => attribute_of(spelling, name.lexeme()),
        None => Err(Halt::At(1)),
    }
}
