//! The lines that tell what the form Evaluate writes.
ghost use Rattle.just_justfile.specs.Running.{CanRun, HoldsOverridden};

use crate::entries::{add_entries, add_executed};
use crate::requests::add_bound;
use crate::runs::{evaluation_of, host_of, run_under};
use just_bench::{PlainSyntax, StopWriter};
use just_data::Text;
use just_examples_format::faults::unless_fault;
use just_examples_format::lists::add_lines;
use just_examples_format::questions::Asked;
use just_justfile::{Justfile, Recipes};
use just_parts::layers::{Number, Syntax};
use std::alloc::{AllocError, Global};
use std::collections::HashMap;

// Adds how many bytes were written, and their lines.
fn add_written(writer: &StopWriter, text: &mut String) -> Result<(), AllocError> {
    writeln!(text, "written {}", writer.written().len())?;
    match str::from_utf8(writer.written()) {
        Ok(written) => add_lines(written, text),
        Err(_) => Ok(()),
    }
}

/// Adds what is written where values are asked for, or the fault, which variables were bound for it, and what the host was asked.
pub fn add_values<'src, 'pairs>(
    root: &Justfile<'src>,
    recipes: &Recipes<'src>,
    overrides: &HashMap<Number, Text>,
    alloc: Global,
    syntax: &PlainSyntax<'pairs>,
    asked: &Asked,
    text: &mut String,
) -> Result<(), AllocError>
    requires can_run { CanRun (⟦<PlainSyntax<'pairs> as Syntax>⟧.answers syntax.now) root.now recipes.now }
    requires overridden { HoldsOverridden root.now overrides.now }
{
    let mut host = host_of(alloc, asked)?;
    let mut evaluation = evaluation_of(alloc, asked)?;
    let mut writer = StopWriter::new(alloc, asked.room)?;
    let ended = run_under(
        root,
        recipes,
        overrides,
        alloc,
        syntax,
        &mut evaluation,
        &mut host,
        &mut writer,
        &asked.config,
        &[],
    );
    unless_fault(ended, text)?;
    add_written(&writer, text)?;
    add_bound(evaluation.evaluation().asked(), text)?;
    add_executed(text, host.entries())?;
    add_entries(text, host.entries())
}
