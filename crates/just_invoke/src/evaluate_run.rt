//! The run of the form Evaluate: values are written, and no recipe runs.
ghost use Rattle.std.specs.Prelude.{List};
ghost use Rattle.std.specs.Option.{option_copied};
ghost use Rattle.just_justfile.specs.Running.{CanRun, HoldsOverridden};
ghost use Rattle.just_parts.specs.Syntax.{SyntaxAnswers};
ghost use Rattle.just_recipe.specs.declared.dependency.Dependency.{Dependency};
ghost use Rattle.just_recipe.specs.declared.recipe.Recipe.{Recipe};
ghost use Rattle.just_run_layers.specs.Host.{KeepsPromises};
ghost use Rattle.just_run_layers.specs.Interactions.{log_of};
ghost use Rattle.just_scopes.specs.Opening.{handed_of};
ghost use Rattle.just_invoke.specs.Evaluation.{IsEvaluation, IsEvaluationAsExpected, IsTextWritten, writer_of};
ghost use Rattle.just_invoke.specs.loops.Evaluation.{IsTextMade, values_behind};

use just_data::Text;
use just_evaluate::{
    EvaluationTarget, EvaluationTargets, evaluated_text, target_numbers, write_all,
};
use just_execution::Report;
use just_justfile::Justfile;
use just_parts::layers::{
    Config, Error, EvaluateFormat, Halt, Number, Output, RunError, WriteFailed,
};
use just_paths::Modulepath;
use just_run_layers::{Evaluation, Host};
use just_scopes::{open_lazily, scope_at};
use std::alloc::Global;
use std::collections::HashMap;

// Opens the modules for a target, and makes the text of its values.
fn make_text<'run, 'src, E: Evaluation, H: Host>(
    alloc: Global,
    config: &Config,
    root: &'run Justfile<'src>,
    overrides: &HashMap<Number, Text>,
    format: EvaluateFormat,
    target: &EvaluationTarget<'run, 'src>,
    evaluation: &mut E,
    host: &mut H,
) -> Result<Text, Halt<'src>>
    requires can_run { (answers : SyntaxAnswers) × (recipes : List (Recipe Dependency)) × CanRun answers root.now recipes }
    requires overridden { HoldsOverridden root.now overrides.now }
    ensures keeps { KeepsPromises (E.promised evaluation.old) (E.promised evaluation.new) }
    ensures keeps_host { KeepsPromises (H.promised host.old) (H.promised host.new) }
    ensures made { let first = log_of (H.entries host.old) (E.requests evaluation.old) in
        let last = log_of (H.entries host.new) (E.requests evaluation.new) in
        let values = values_behind format target.now in
        let made = IsTextMade E.displayed root.now values (handed_of config.now overrides.now) (E.promised evaluation.old) (H.promised host.old) in
        made first last result }
{
    let numbers = target_numbers(alloc, target)?;
    let opened = open_lazily(alloc, config, root, overrides, &numbers, evaluation, host)?;
    let scope = scope_at(opened, &target.justfile.module_path);
    Ok(evaluated_text(alloc, &*evaluation, format, target, &scope)?)
}

// Writes a text, and answers the report of no once table.
fn write_text<'src, W: Output>(
    alloc: Global,
    writer: &mut W,
    text: &Text,
) -> Result<Report, Error<'src>>
    ensures { let before = writer_of (W.written writer.old) (W.failed writer.old) in
        let after = writer_of (W.written writer.new) (W.failed writer.new) in
        IsTextWritten text.now before after result }
{
    match write_all(writer, text) {
        Ok(()) => Ok(Report {
            calls: Vec::new(alloc),
        }),
        Err(WriteFailed) => Err(Error::Run(RunError::Write)),
    }
}

/// Writes the values to which a path leads, in a format.
pub(crate) fn run_evaluate<'src, E: Evaluation, H: Host, W: Output>(
    alloc: Global,
    config: &Config,
    root: &Justfile<'src>,
    overrides: &HashMap<Number, Text>,
    format: EvaluateFormat,
    path: Option<&Modulepath>,
    evaluation: &mut E,
    host: &mut H,
    writer: &mut W,
) -> Result<Report, Error<'src>>
    requires can_run { (answers : SyntaxAnswers) × (recipes : List (Recipe Dependency)) × CanRun answers root.now recipes }
    requires overridden { HoldsOverridden root.now overrides.now }
    ensures keeps { KeepsPromises (E.promised evaluation.old) (E.promised evaluation.new) }
    ensures keeps_host { KeepsPromises (H.promised host.old) (H.promised host.new) }
    ensures outcome { let first = log_of (H.entries host.old) (E.requests evaluation.old) in
        let last = log_of (H.entries host.new) (E.requests evaluation.new) in
        let before = writer_of (W.written writer.old) (W.failed writer.old) in
        let after = writer_of (W.written writer.new) (W.failed writer.new) in
        let handed = handed_of config.now overrides.now in
        let outcome = IsEvaluation E.displayed root.now handed (E.promised evaluation.old) (H.promised host.old) in
        outcome format (option_copied path.entry) first last before after result }
    ensures expected { let first = log_of (H.entries host.old) (E.requests evaluation.old) in
        let last = log_of (H.entries host.new) (E.requests evaluation.new) in
        let before = writer_of (W.written writer.old) (W.failed writer.old) in
        let after = writer_of (W.written writer.new) (W.failed writer.new) in
        let handed = handed_of config.now overrides.now in
        let run = IsEvaluationAsExpected E.displayed root.now handed (E.promised evaluation.old) (H.promised host.old) in
        run format (option_copied path.entry) first last before after result }
{
    let target = root.evaluation_target(alloc, path)?;
    let text = make_text(
        alloc, config, root, overrides, format, &target, evaluation, host,
    )?;
    write_text(alloc, writer, &text)
}
