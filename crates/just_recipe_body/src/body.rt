//! What a body runs by, and what each kind of body asks.
ghost use Rattle.std.specs.Prelude.{◌≡◌, ◌++◌, true, false, IfOk, OnOk, length};
ghost use Rattle.std.specs.Path.{path_join};
ghost use Rattle.just_parts.specs.Scopes.{attribute_expressions, in_attributes};
ghost use Rattle.just_run_layers.specs.Covering.{IsCovered, module_of};
ghost use Rattle.std.specs.List.{All};
ghost use Rattle.just_run_layers.specs.Host.{KeepsPromises};
ghost use Rattle.just_run_layers.specs.LineTexts.{BeginsPlain, EndsWithBackslash};
ghost use Rattle.just_recipe_body.specs.Body as spec;
ghost use Rattle.just_recipe_body.specs.Covering.{IsLineCovered};
ghost use Rattle.just_recipe_body.specs.Taking.{AsksEvaluator, AsksHost};

use crate::attributes::{changes_directory, directory_of, timestamp_of};
use just_ast_definitions::Line;
use just_ast_expressions::{Expression, Scope};
use just_data::{Sequence, Text};
use just_errors::{Halt, Refusal, RunError};
use just_parts::layers::{Syntax, Verbosity};
use just_recipe::Recipe;
use just_run_layers::{Context, EnvironmentChange, EnvironmentPair, Evaluation, Host};
use std::alloc::{AllocError, Global};
use std::path::Path;

/// What a body runs by.
#[derive(Drop)]
pub struct Body<'a, 'run, 'src, S> {
    /// Its recipe.
    pub recipe: &'a Recipe<'src>,
    /// What its module hands to the layers.
    pub context: &'a Context<'run, 'src>,
    /// The grammar.
    pub syntax: &'a S,
    /// The values of the names that it reads.
    pub scope: &'a Scope<'src>,
    /// Whether it is a dependency.
    pub is_dependency: bool,
    /// What its parameters put into the environment.
    pub environment: &'a [EnvironmentPair],
    /// What its parameters hand to programs.
    pub positional: &'a Sequence<Text>,
}

/// What is evaluated before its lines.
#[derive(Drop)]
pub struct Preparation {
    /// The folder that it runs in; none where the folder is not changed.
    pub working_directory: Option<Text>,
    /// The format of the time; none where the time is not shown.
    pub timestamp_format: Option<Text>,
}

/// Whether much is shown.
pub fn is_loquacious(verbosity: Verbosity) -> bool
    ensures { result ≡ spec.is_loquacious verbosity }
{
    matches!(verbosity, Verbosity::Loquacious | Verbosity::Grandiloquent)
}

/// Whether nothing is shown.
pub fn is_mute(verbosity: Verbosity) -> bool
    ensures { result ≡ spec.is_mute verbosity }
{
    matches!(verbosity, Verbosity::Quiet)
}

/// The text of an expression.
pub fn ask_string<'a, 'run, 'src, S: Syntax, E: Evaluation>(
    alloc: Global,
    body: &Body<'a, 'run, 'src, S>,
    expression: &Expression<'src>,
    evaluation: &mut E,
) -> Result<Text, Halt<'src>>
    requires covered { IsCovered (module_of body.now.context.now) body.now.scope.now expression.now }
    ensures keeps { KeepsPromises (E.promised evaluation.old) (E.promised evaluation.new) }
    ensures took { let steps = spec.string_steps (spec.body_contents_of (S.answers body.now.syntax.now) body.now) expression.now in
        AsksEvaluator (E.promised evaluation.old) steps (E.requests evaluation.old) (E.requests evaluation.new) result }
{
    match evaluation.string(
        alloc,
        body.context,
        body.scope,
        body.is_dependency,
        body.environment,
        expression,
    ) {
        Ok(text) => Ok(text),
        Err(Refusal::Memory) => Err(Halt::Memory),
        Err(Refusal::Fault(fault)) => Err(Halt::Failed(RunError::Evaluate(fault))),
    }
}

/// The text of a line, which goes on with the one before it or not.
pub fn ask_line<'a, 'run, 'src, S: Syntax, E: Evaluation>(
    alloc: Global,
    body: &Body<'a, 'run, 'src, S>,
    line: &Line<'src>,
    continued: bool,
    evaluation: &mut E,
) -> Result<Text, Halt<'src>>
    requires covered { IsLineCovered (module_of body.now.context.now) body.now.scope.now line.now }
    ensures begins { let settings = body.now.context.now.settings.now in
        IfOk result (λ text. continued ≡ false → BeginsPlain (length (E.sigils line.now settings)) text) }
    ensures ends { IfOk result (λ text. E.continues line.now ≡ true → EndsWithBackslash text) }
    ensures keeps { KeepsPromises (E.promised evaluation.old) (E.promised evaluation.new) }
    ensures took { let steps = spec.line_steps (spec.body_contents_of (S.answers body.now.syntax.now) body.now) line.now continued in
        AsksEvaluator (E.promised evaluation.old) steps (E.requests evaluation.old) (E.requests evaluation.new) result }
{
    match evaluation.line(
        alloc,
        body.context,
        body.scope,
        body.is_dependency,
        body.environment,
        line,
        continued,
    ) {
        Ok(text) => Ok(text),
        Err(Refusal::Memory) => Err(Halt::Memory),
        Err(Refusal::Fault(fault)) => Err(Halt::Failed(RunError::Evaluate(fault))),
    }
}

// The folder of the module: for the root that of the configuration, where there is one.
fn folder<'a, 'run, 'src, S: Syntax>(body: &Body<'a, 'run, 'src, S>) -> &'a Text
    ensures { result.now ≡ spec.folder (spec.body_contents_of (S.answers body.now.syntax.now) body.now) }
{
    let context = body.context;
    if context.module_path.components.is_empty() {
        if let Some(configured) = &context.config.working_directory {
            return configured;
        }
    }
    context.working_directory
}

// The text to which a path leads from a folder.
fn join(alloc: Global, folder: &str, path: &str) -> Result<Text, AllocError>
    ensures { IfOk result (λ text. text ≡ path_join folder.now path.now) }
{
    let joined = Path::new(folder).join(alloc, path)?;
    Text::from_string(joined.into_string())
}

/// The folder that it runs in; none where it is not changed.
pub fn ask_directory<'a, 'run, 'src, S: Syntax, E: Evaluation>(
    alloc: Global,
    body: &Body<'a, 'run, 'src, S>,
    evaluation: &mut E,
) -> Result<Option<Text>, Halt<'src>>
    requires covered { All (IsCovered (module_of body.now.context.now) body.now.scope.now) (in_attributes attribute_expressions body.now.recipe.now) }
    ensures keeps { KeepsPromises (E.promised evaluation.old) (E.promised evaluation.new) }
    ensures took { let steps = spec.directory_steps (spec.body_contents_of (S.answers body.now.syntax.now) body.now) in
        AsksEvaluator (E.promised evaluation.old) steps (E.requests evaluation.old) (E.requests evaluation.new) result }
{
    if !changes_directory(body.recipe, body.context.settings) {
        return Ok(None);
    }
    match directory_of(body.recipe.attributes.as_slice()) {
        Some(expression) => {
            let text = ask_string(alloc, body, expression, evaluation)?;
            Ok(Some(join(alloc, folder(body).as_str(), text.as_str())?))
        }
        None => Ok(Some(folder(body).clone()?)),
    }
}

// The format of the time in the configuration.
fn configured_format<'a, 'run, 'src, S: Syntax>(
    alloc: Global,
    body: &Body<'a, 'run, 'src, S>,
) -> Result<Text, AllocError>
    ensures { IfOk result (λ text. text ≡ spec.configured_format (spec.body_contents_of (S.answers body.now.syntax.now) body.now)) }
{
    match &body.context.config.timestamp_format {
        Some(format) => format.clone(),
        None => Text::from_str(alloc, "%H:%M:%S"),
    }
}

/// The format of the time; none where the time is not shown.
pub fn ask_format<'a, 'run, 'src, S: Syntax, E: Evaluation>(
    alloc: Global,
    body: &Body<'a, 'run, 'src, S>,
    evaluation: &mut E,
) -> Result<Option<Text>, Halt<'src>>
    requires covered { All (IsCovered (module_of body.now.context.now) body.now.scope.now) (in_attributes attribute_expressions body.now.recipe.now) }
    ensures keeps { KeepsPromises (E.promised evaluation.old) (E.promised evaluation.new) }
    ensures took { let steps = spec.format_steps (spec.body_contents_of (S.answers body.now.syntax.now) body.now) in
        AsksEvaluator (E.promised evaluation.old) steps (E.requests evaluation.old) (E.requests evaluation.new) result }
{
    match timestamp_of(body.recipe.attributes.as_slice()) {
        Some(Some(expression)) => Ok(Some(ask_string(alloc, body, expression, evaluation)?)),
        Some(None) => Ok(Some(configured_format(alloc, body)?)),
        None => {
            if !body.context.config.timestamp {
                return Ok(None);
            }
            Ok(Some(configured_format(alloc, body)?))
        }
    }
}

/// What is evaluated before the lines of a shell body: the working directory, and the format of the time.
pub fn prepare<'a, 'run, 'src, S: Syntax, E: Evaluation>(
    alloc: Global,
    body: &Body<'a, 'run, 'src, S>,
    evaluation: &mut E,
) -> Result<Preparation, Halt<'src>>
    requires covered { All (IsCovered (module_of body.now.context.now) body.now.scope.now) (in_attributes attribute_expressions body.now.recipe.now) }
    ensures keeps { KeepsPromises (E.promised evaluation.old) (E.promised evaluation.new) }
    ensures took { let steps = spec.body_prepare_steps (spec.body_contents_of (S.answers body.now.syntax.now) body.now) in
        AsksEvaluator (E.promised evaluation.old) steps (E.requests evaluation.old) (E.requests evaluation.new) result }
{
    let working_directory = ask_directory(alloc, body, evaluation)?;
    let timestamp_format = ask_format(alloc, body, evaluation)?;
    Ok(Preparation {
        working_directory,
        timestamp_format,
    })
}

// The time in a format.
fn tell_time<'src, H: Host>(host: &mut H, format: &Text) -> Result<Text, Halt<'src>>
    ensures keeps { KeepsPromises (H.promised host.old) (H.promised host.new) }
    ensures took { AsksHost (H.promised host.old) (spec.telling_steps format.now) (H.entries host.old) (H.entries host.new) result }
{
    match host.timestamp(format) {
        Ok(time) => Ok(time),
        Err(Refusal::Memory) => Err(Halt::Memory),
        Err(Refusal::Fault(fault)) => Err(Halt::Failed(RunError::DatetimeFormat(fault))),
    }
}

/// The time, where there is a format.
pub fn ask_time<'src, H: Host>(
    host: &mut H,
    format: &Option<Text>,
) -> Result<Option<Text>, Halt<'src>>
    ensures keeps { KeepsPromises (H.promised host.old) (H.promised host.new) }
    ensures took { AsksHost (H.promised host.old) (spec.time_steps format.now) (H.entries host.old) (H.entries host.new) result }
{
    match format {
        Some(format) => Ok(Some(tell_time(host, format)?)),
        None => Ok(None),
    }
}

/// A text behind the time.
pub fn stamped(alloc: Global, time: &str, text: &str) -> Result<Text, AllocError>
    ensures { IfOk result (λ made. made ≡ spec.stamped time.now text.now) }
{
    Text::from_string(format!(in alloc; "[{time}] {text}")?)
}

/// What the layer says of the environment.
pub fn ask_changes<'a, 'run, 'src, S: Syntax, E: Evaluation>(
    alloc: Global,
    body: &Body<'a, 'run, 'src, S>,
    evaluation: &mut E,
) -> Result<Sequence<EnvironmentChange>, Halt<'src>>
    ensures keeps { KeepsPromises (E.promised evaluation.old) (E.promised evaluation.new) }
    ensures took { let steps = spec.environment_steps (spec.body_contents_of (S.answers body.now.syntax.now) body.now) in
        AsksEvaluator (E.promised evaluation.old) steps (E.requests evaluation.old) (E.requests evaluation.new) result }
{
    let context = body.context;
    match evaluation.environment(
        alloc,
        &context.dotenv,
        body.scope,
        context.settings,
        context.unexports.as_slice(),
    ) {
        Ok(changes) => Ok(changes),
        Err(Refusal::Memory) => Err(Halt::Memory),
        Err(Refusal::Fault(fault)) => Err(Halt::Failed(RunError::Evaluate(fault))),
    }
}

fn change_of(pair: &EnvironmentPair) -> Result<EnvironmentChange, AllocError>
    ensures { IfOk result (λ change. change ≡ spec.change_of pair.now) }
{
    Ok(EnvironmentChange {
        name: pair.name.clone()?,
        value: Some(pair.value.clone()?),
    })
}

/// Changes of an environment, and pairs over them.
pub fn with_pairs(
    changes: Sequence<EnvironmentChange>,
    pairs: &[EnvironmentPair],
) -> Result<Sequence<EnvironmentChange>, AllocError>
    ensures { IfOk result (λ all. all ≡ spec.with_pairs changes pairs.now) }
{
    let mut all = changes;
    for pair in pairs {
        all.push(change_of(pair)?)?;
    }
    Ok(all)
}
