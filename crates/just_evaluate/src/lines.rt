//! The lines that assign values.
ghost use Rattle.std.specs.Prelude.{◌≡◌, ◌++◌, map, string_bytes, IfOk, OnOk};
ghost use Rattle.just_evaluate.specs.loops.Bindings.{bound_behind};
ghost use Rattle.just_evaluate.specs.Lines as spec;

use crate::bindings::BoundVariable;
use crate::escapes::{push_escaped, push_underscored};
use just_parts::layers::{EvaluateFormat, joined};
use just_run_layers::Evaluation;
use std::alloc::{AllocError, Global};

// How many bytes the longest name has.
fn name_width<'run, 'src>(variables: &[BoundVariable<'run, 'src>]) -> usize
    ensures { result ≡ spec.name_width (map bound_behind variables.now) }
{
    let mut width: usize = 0;
    for variable in variables {
        width = width.max(variable.assignment.name.lexeme().len());
    }
    width
}

// Adds a text, filled up with blanks to a width.
fn push_with_blanks(text: &mut String, width: usize, word: &str) -> Result<(), AllocError>
    ensures { OnOk result (string_bytes text.new ≡ string_bytes text.old ++ spec.with_blanks width word.now) }
{
    text.push_str(word)?;
    for _ in 0..width.saturating_sub(word.len()) {
        text.push(' ')?;
    }
    Ok(())
}

// Adds the line of a variable as a justfile has it.
fn push_just_line<'run, 'src, E: Evaluation>(
    alloc: Global,
    evaluation: &E,
    text: &mut String,
    width: usize,
    variable: &BoundVariable<'run, 'src>,
) -> Result<(), AllocError>
    ensures { OnOk result (string_bytes text.new ≡ string_bytes text.old ++ spec.just_line E.displayed width (bound_behind variable.now)) }
{
    let value = evaluation.display(alloc, variable.value.as_slice())?;
    push_with_blanks(text, width, variable.assignment.name.lexeme())?;
    text.push_str(" := ")?;
    text.push_str(value.as_str())?;
    text.push_str("\n")
}

// Adds the line of a variable as a shell takes it.
fn push_shell_line<'run, 'src>(
    alloc: Global,
    text: &mut String,
    all: bool,
    variable: &BoundVariable<'run, 'src>,
) -> Result<(), AllocError>
    ensures { OnOk result (string_bytes text.new ≡ string_bytes text.old ++ spec.shell_line all (bound_behind variable.now)) }
{
    let value = joined(alloc, variable.value.as_slice())?;
    if variable.assignment.export || all {
        text.push_str("export ")?;
    }
    push_underscored(text, variable.assignment.name.lexeme())?;
    text.push_str("=\"")?;
    push_escaped(text, value.as_str())?;
    text.push_str("\"\n")
}

// Adds the line of a variable in a format.
fn push_line<'run, 'src, E: Evaluation>(
    alloc: Global,
    evaluation: &E,
    text: &mut String,
    format: EvaluateFormat,
    all: bool,
    width: usize,
    variable: &BoundVariable<'run, 'src>,
) -> Result<(), AllocError>
    ensures { OnOk result (string_bytes text.new ≡ string_bytes text.old ++ spec.line_in E.displayed format all width (bound_behind variable.now)) }
{
    match format {
        EvaluateFormat::Just => push_just_line(alloc, evaluation, text, width, variable),
        EvaluateFormat::Shell => push_shell_line(alloc, text, all, variable),
    }
}

/// The lines of variables in a format; `all` says that their module exports all.
pub(crate) fn lines_in<'run, 'src, E: Evaluation>(
    alloc: Global,
    evaluation: &E,
    format: EvaluateFormat,
    all: bool,
    variables: &[BoundVariable<'run, 'src>],
) -> Result<String, AllocError>
    ensures { IfOk result (λ text. string_bytes text ≡ spec.lines_in E.displayed format all (map bound_behind variables.now)) }
{
    let width = name_width(variables);
    let mut text = String::new(alloc);
    for variable in variables {
        push_line(alloc, evaluation, &mut text, format, all, width, variable)?;
    }
    Ok(text)
}
