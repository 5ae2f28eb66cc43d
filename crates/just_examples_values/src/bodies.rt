//! What the lines of recipes and the expressions in them come to.
ghost use Rattle.just_examples_values.specs.loops.Bound.{BindsAll};

use crate::place::Place;
use just_errors::Refusal;
use just_examples_format::lists::add_group;
use just_parts::layers::{Expression, Fragment, Line, Syntax};
use just_run_layers::Evaluation;
use std::alloc::Global;

// Adds what a call gives for an expression: its value, its text, or its value as it is shown.
fn add_expression<'src, E: Evaluation>(
    alloc: Global,
    evaluation: &mut E,
    place: &Place<'_, 'src>,
    call: &str,
    expression: &Expression<'src>,
    text: &mut String,
) -> Result<(), Refusal>
    requires { BindsAll place.now.context.now place.now.scope.now }
{
    let (context, scope, is_dependency) = (place.context, place.scope, place.is_dependency);
    if call == "string" {
        let found = evaluation.string(alloc, context, scope, is_dependency, &[], expression)?;
        return Ok(write!(text, " '{found}'")?);
    }
    let value = evaluation.value(alloc, context, scope, is_dependency, &[], expression)?;
    if call == "value" {
        return Ok(add_group(text, value.as_slice())?);
    }
    let shown = evaluation.display(alloc, value.as_slice())?;
    Ok(write!(text, " {shown}")?)
}

// Adds what a call gives for each expression in a line.
fn add_expressions<'src, E: Evaluation>(
    alloc: Global,
    evaluation: &mut E,
    place: &Place<'_, 'src>,
    call: &str,
    line: &Line<'src>,
    text: &mut String,
) -> Result<(), Refusal>
    requires { BindsAll place.now.context.now place.now.scope.now }
{
    for fragment in line.fragments.as_slice() {
        if let Fragment::Interpolation { expression } = fragment {
            add_expression(alloc, evaluation, place, call, expression, text)?;
        }
    }
    Ok(())
}

/// Adds what a call gives for the expressions of lines, behind the place of each line, which counts from 1.
pub fn add_values<'src, E: Evaluation>(
    alloc: Global,
    evaluation: &mut E,
    place: &Place<'_, 'src>,
    call: &str,
    lines: &[Line<'src>],
    text: &mut String,
) -> Result<(), Refusal>
    requires { BindsAll place.now.context.now place.now.scope.now }
{
    for (before, line) in lines.iter().enumerate() {
        let mut found = String::new(alloc);
        add_expressions(alloc, evaluation, place, call, line, &mut found)?;
        writeln!(text, "{}{found}", before.saturating_add(1))?;
    }
    Ok(())
}

/// Adds the text of each line behind its place, and which lines go on with those before them.
pub fn add_lines<'src, S: Syntax, E: Evaluation>(
    alloc: Global,
    evaluation: &mut E,
    place: &Place<'_, 'src>,
    syntax: &S,
    lines: &[Line<'src>],
    text: &mut String,
) -> Result<(), Refusal>
    requires { BindsAll place.now.context.now place.now.scope.now }
{
    let (context, scope, is_dependency) = (place.context, place.scope, place.is_dependency);
    let mut continued = false;
    for (before, line) in lines.iter().enumerate() {
        let found = evaluation.line(alloc, context, scope, is_dependency, &[], line, continued)?;
        let mark = if continued { " continued" } else { "" };
        writeln!(text, "{}{mark} '{found}'", before.saturating_add(1))?;
        continued = syntax.is_continuation(line);
    }
    Ok(())
}
