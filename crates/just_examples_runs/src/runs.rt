//! The lines that tell what words mean, and what a run of them did.
ghost use Rattle.just_justfile.specs.Closed.{IsRooted};
ghost use Rattle.just_justfile.specs.Running.{CanRun, HoldsOverridden};

use crate::entries::{add_entries, add_executed};
use crate::recorders::scripted;
use crate::requests::add_bound;
use just_bench::laws::layers_agree_on_lines;
use just_bench::{PlainEvaluation, PlainSyntax, Recorder, StopWriter};
use just_bench_failing::FailingEvaluation;
use just_data::Text;
use just_examples_format::faults::unless_fault;
use just_examples_format::lists::{add_group, add_list, before};
use just_examples_format::questions::Asked;
use just_invocations::{Invocation, InvocationParser};
use just_invoke::{Report, Run};
use just_justfile::{Justfile, Recipes};
use just_parts::layers::{Config, Error, Number, Syntax};
use std::alloc::{AllocError, Global};
use std::collections::HashMap;

// Adds an invocation: the path of its recipe, and its groups in brackets.
fn add_invocation(text: &mut String, invocation: &Invocation) -> Result<(), AllocError> {
    if let Some(path) = &invocation.recipe.recipe_path {
        write!(text, "{path}")?;
    }
    for group in &invocation.arguments {
        add_group(text, group.as_slice())?;
    }
    Ok(())
}

// Adds the line of invocations.
fn add_invocations(text: &mut String, invocations: &[Invocation]) -> Result<(), AllocError> {
    text.push_str("split")?;
    for (place, invocation) in invocations.iter().enumerate() {
        text.push_str(before(place))?;
        add_invocation(text, invocation)?;
    }
    text.push('\n')
}

/// Adds how words split, where they do.
pub fn add_split<'src>(
    root: &Justfile<'src>,
    recipes: &Recipes<'src>,
    alloc: Global,
    words: &[&str],
    text: &mut String,
) -> Result<(), AllocError>
    requires { IsRooted root.now recipes.now }
{
    let evaluation = PlainEvaluation::new(alloc);
    match InvocationParser::parse_invocations(alloc, root, recipes, &evaluation, words) {
        Ok(invocations) => add_invocations(text, invocations.as_slice()),
        Err(_) => Ok(()),
    }
}

// Adds the line of the counts of calls.
fn add_calls(text: &mut String, calls: &[u64]) -> Result<(), AllocError> {
    text.push_str("calls")?;
    add_list(text, calls)?;
    text.push('\n')
}

/// A host that answers as it is asked to, and is refused memory at a call where one is given.
pub(crate) fn host_of(alloc: Global, asked: &Asked) -> Result<Recorder, AllocError> {
    match asked.memory_at {
        Some(call) => Ok(Recorder::memory_at(alloc, call)),
        None => scripted(alloc, asked.answers.as_str()),
    }
}

/// An evaluation that fails at the question that it is asked to.
pub(crate) fn evaluation_of(
    alloc: Global,
    asked: &Asked,
) -> Result<FailingEvaluation<PlainEvaluation>, AllocError> {
    FailingEvaluation::failing_at(alloc, PlainEvaluation::new(alloc), asked.failing_at)
}

/// Runs words over a compiled module under a grammar, or does what else the configuration asks.
pub(crate) fn run_under<'src, 'pairs>(
    root: &Justfile<'src>,
    recipes: &Recipes<'src>,
    overrides: &HashMap<Number, Text>,
    alloc: Global,
    syntax: &PlainSyntax<'pairs>,
    evaluation: &mut FailingEvaluation<PlainEvaluation>,
    host: &mut Recorder,
    writer: &mut StopWriter,
    config: &Config,
    words: &[&str],
) -> Result<Report, Error<'src>>
    requires can_run { CanRun (⟦<PlainSyntax<'pairs> as Syntax>⟧.answers syntax.now) root.now recipes.now }
    requires overridden { HoldsOverridden root.now overrides.now }
{
    layers_agree_on_lines(syntax);
    root.run(
        alloc, config, recipes, syntax, evaluation, host, writer, words, overrides,
    )
}

// Adds what a run of words comes to: the counts of its calls, or its fault.
fn add_ended<'src, 'pairs>(
    root: &Justfile<'src>,
    recipes: &Recipes<'src>,
    overrides: &HashMap<Number, Text>,
    alloc: Global,
    syntax: &PlainSyntax<'pairs>,
    evaluation: &mut FailingEvaluation<PlainEvaluation>,
    host: &mut Recorder,
    config: &Config,
    words: &[&str],
    text: &mut String,
) -> Result<(), AllocError>
    requires can_run { CanRun (⟦<PlainSyntax<'pairs> as Syntax>⟧.answers syntax.now) root.now recipes.now }
    requires overridden { HoldsOverridden root.now overrides.now }
{
    let mut writer = StopWriter::new(alloc, 0)?;
    let ended = run_under(
        root,
        recipes,
        overrides,
        alloc,
        syntax,
        evaluation,
        host,
        &mut writer,
        config,
        words,
    );
    match unless_fault(ended, text)? {
        Some(report) => add_calls(text, report.calls.as_slice()),
        None => Ok(()),
    }
}

/// Adds what a run of words under a grammar comes to, which variables were bound for it, and what it did.
pub fn add_run<'src, 'pairs>(
    root: &Justfile<'src>,
    recipes: &Recipes<'src>,
    overrides: &HashMap<Number, Text>,
    alloc: Global,
    syntax: &PlainSyntax<'pairs>,
    asked: &Asked,
    words: &[&str],
    text: &mut String,
) -> Result<(), AllocError>
    requires can_run { CanRun (⟦<PlainSyntax<'pairs> as Syntax>⟧.answers syntax.now) root.now recipes.now }
    requires overridden { HoldsOverridden root.now overrides.now }
{
    let mut host = host_of(alloc, asked)?;
    let mut evaluation = evaluation_of(alloc, asked)?;
    add_ended(
        root,
        recipes,
        overrides,
        alloc,
        syntax,
        &mut evaluation,
        &mut host,
        &asked.config,
        words,
        text,
    )?;
    add_bound(evaluation.evaluation().asked(), text)?;
    add_executed(text, host.entries())?;
    add_entries(text, host.entries())
}
