//! The line that a recipe begins with.
ghost use Rattle.std.specs.Prelude.{◌≡◌, ◌<◌, ◌+◌, length, IfOk, IfSome};
ghost use Rattle.just_bench_lines.specs.Places.{GoesOn};
ghost use Rattle.just_bench_lines.specs.Heading as spec;

use crate::dependencies::read_dependency_list;
use crate::places::{mark_at, name_at};
use just_ast_definitions::{Parameter, ParameterKind};
use just_ast_expressions::Expression;
use just_bench_expressions::expressions::{Found, read_operand};
use just_bench_expressions::lexer::Kind;
use just_bench_expressions::spelling::Spelling;
use just_data::{Sequence, Text};
use just_names::{Name, Number};
use just_recipe::UnresolvedDependency;
use std::alloc::{AllocError, Global};

/// The line that a recipe begins with.
#[derive(Drop)]
pub struct Heading<'src> {
    /// Whether `@` stands before it.
    pub quiet: bool,
    /// Its name.
    pub name: Name<'src>,
    /// Its parameters, without numbers.
    pub parameters: Sequence<Parameter<'src>>,
    /// What stands before `&&`, in order.
    pub priors: Sequence<UnresolvedDependency<'src>>,
    /// What stands after `&&`, in order.
    pub subsequents: Sequence<UnresolvedDependency<'src>>,
}

// What is written before the name of a parameter of this kind.
fn mark(kind: ParameterKind) -> &'static str
    ensures { result.now ≡ spec.mark kind }
{
    match kind {
        ParameterKind::Singular => "",
        ParameterKind::Plus => "+",
        ParameterKind::Star => "*",
    }
}

// How a parameter is written: its mark, its name, and its default after `=`.
fn parameter_text<'src>(
    alloc: Global,
    name: &Name<'src>,
    kind: ParameterKind,
    default: &Option<Expression<'src>>,
) -> Result<Text, AllocError>
    ensures { IfOk result (λ text. text ≡ spec.parameter_text name.now kind default.now) }
{
    let mut text = String::from_str(alloc, mark(kind))?;
    text.push_str(name.lexeme())?;
    if let Some(value) = default {
        text.push('=')?;
        text.push_str(value.text.as_str())?;
    }
    Text::from_string(text)
}

// A parameter without a number.
fn make_parameter<'src>(
    alloc: Global,
    name: Name<'src>,
    kind: ParameterKind,
    default: Option<Expression<'src>>,
) -> Result<Parameter<'src>, AllocError>
    ensures { IfOk result (λ made. made ≡ spec.made_of name.entry kind default.entry) }
{
    let text = parameter_text(alloc, &name, kind, &default)?;
    Ok(Parameter {
        name,
        number: Number(0),
        kind,
        default,
        value: None,
        long: None,
        short: None,
        flag: false,
        pattern: None,
        help: None,
        text,
    })
}

// The parameter of this kind whose name stands at a place, and the place after it.
#[tactic(auto, unfolding(crate::specs::Heading::named_parameter))]
fn named_parameter<'src>(
    spelling: &Spelling<'src>,
    at: usize,
    kind: ParameterKind,
) -> Result<Option<(Parameter<'src>, usize)>, AllocError>
    ensures is { IfOk result (λ found. found ≡ spec.named_parameter spelling.now at kind) }
    ensures further { IfOk result (λ found. IfSome found (λ f. GoesOn spelling.now at f.1)) }
{
    let lexemes = spelling.as_slice();
    let Some(name) = name_at(lexemes, at) else {
        return Ok(None);
    };
    if !mark_at(lexemes, at + 1, Kind::Equals) {
        let made = make_parameter(spelling.alloc(), name, kind, None)?;
        return Ok(Some((made, at + 1)));
    }
    match read_operand(spelling, at + 2)? {
        None => Ok(None),
        Some(Found { made, end }) => {
            let made = make_parameter(spelling.alloc(), name, kind, Some(made))?;
            Ok(Some((made, end)))
        }
    }
}

// The parameter at a place, and the place after it.
#[tactic(auto, unfolding(crate::specs::Heading::parameter))]
fn read_parameter<'src>(
    spelling: &Spelling<'src>,
    at: usize,
) -> Result<Option<(Parameter<'src>, usize)>, AllocError>
    ensures is { IfOk result (λ found. found ≡ spec.parameter spelling.now at) }
    ensures further { IfOk result (λ found. IfSome found (λ f. GoesOn spelling.now at f.1)) }
{
    let lexemes = spelling.as_slice();
    if mark_at(lexemes, at, Kind::Star) {
        return named_parameter(spelling, at + 1, ParameterKind::Star);
    }
    if mark_at(lexemes, at, Kind::Plus) {
        return named_parameter(spelling, at + 1, ParameterKind::Plus);
    }
    named_parameter(spelling, at, ParameterKind::Singular)
}

// The parameters from a place to a `:`, and the place of that.
#[tactic(auto, using(crate::proofs::Parts::parts_start, crate::proofs::Parts::parts_push, crate::proofs::Parts::parts_stop, crate::proofs::Parts::parts_fail, crate::proofs::Parts::parts_cut))]
fn read_parameters<'src>(
    spelling: &Spelling<'src>,
    start: usize,
) -> Result<Option<(Sequence<Parameter<'src>>, usize)>, AllocError>
    ensures is { IfOk result (λ found. found ≡ spec.parameters spelling.now start) }
    ensures within { IfOk result (λ found. IfSome found (λ f. f.1 < length spelling.now)) }
{
    let lexemes = spelling.as_slice();
    let mut made = Sequence::new(spelling.alloc());
    let mut at = start;
    while at < lexemes.len() {
        if mark_at(lexemes, at, Kind::Colon) {
            return Ok(Some((made, at)));
        }
        match read_parameter(spelling, at)? {
            None => return Ok(None),
            Some((parameter, end)) => {
                made.push(parameter)?;
                at = end;
            }
        }
    }
    Ok(None)
}

// What runs before a recipe, and what runs after it.
type BothSides<'src> = (
    Sequence<UnresolvedDependency<'src>>,
    Sequence<UnresolvedDependency<'src>>,
);

// What runs before a recipe and after it, from the `:` at a place on.
#[tactic(auto, unfolding(crate::specs::Heading::dependencies))]
fn read_dependencies<'src>(
    spelling: &Spelling<'src>,
    colon: usize,
) -> Result<Option<BothSides<'src>>, AllocError>
    requires { colon < length spelling.now }
    ensures { IfOk result (λ found. found ≡ spec.dependencies spelling.now (colon + 1)) }
{
    let size = spelling.as_slice().len();
    let Some((priors, end)) = read_dependency_list(spelling, colon + 1)? else {
        return Ok(None);
    };
    if end == size {
        return Ok(Some((priors, Sequence::new(spelling.alloc()))));
    }
    match read_dependency_list(spelling, end + 1)? {
        Some((subsequents, end)) if end == size && !subsequents.is_empty() => {
            Ok(Some((priors, subsequents)))
        }
        _ => Ok(None),
    }
}

// The heading of this name, whose parameters begin at a place.
#[tactic(auto, unfolding(crate::specs::Heading::after_name))]
fn after_name<'src>(
    spelling: &Spelling<'src>,
    quiet: bool,
    name: Name<'src>,
    at: usize,
) -> Result<Option<Heading<'src>>, AllocError>
    ensures { IfOk result (λ found. found ≡ spec.after_name spelling.now quiet name.entry at) }
{
    let Some((parameters, end)) = read_parameters(spelling, at)? else {
        return Ok(None);
    };
    match read_dependencies(spelling, end)? {
        None => Ok(None),
        Some((priors, subsequents)) => Ok(Some(Heading {
            quiet,
            name,
            parameters,
            priors,
            subsequents,
        })),
    }
}

/// The heading that the lexemes of a line are: `@` or nothing, a name, parameters, `:`, dependencies, and `&&` before
/// those that run after it, where there are such. The error is want of memory.
#[tactic(auto, unfolding(crate::specs::Heading::heading_in_line))]
pub fn read_heading<'src>(spelling: &Spelling<'src>) -> Result<Option<Heading<'src>>, AllocError>
    ensures { IfOk result (λ found. found ≡ spec.heading_in_line spelling.now) }
{
    let lexemes = spelling.as_slice();
    let quiet = mark_at(lexemes, 0, Kind::At);
    let at = if quiet { 1 } else { 0 };
    match name_at(lexemes, at) {
        None => Ok(None),
        Some(name) => after_name(spelling, quiet, name, at + 1),
    }
}
