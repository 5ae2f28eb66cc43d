//! A script body: what it asks, by the settings and by the answers.
ghost use Rattle.std.specs.Prelude.{◌≡◌, IfOk};
ghost use Rattle.std.specs.List.{All};
ghost use Rattle.just_parts.specs.Scopes.{attribute_expressions, in_attributes};
ghost use Rattle.just_run_layers.specs.Covering.{IsCovered, module_of};
ghost use Rattle.just_run_layers.specs.Host.{KeepsPromises};
ghost use Rattle.just_run_layers.specs.Interactions.{HasTrace, both, log_of};
ghost use Rattle.just_recipe_body.specs.Body.{body_contents_of};
ghost use Rattle.just_recipe_body.specs.Covering.{IsLineCovered};
ghost use Rattle.just_recipe_body.specs.Taking.{AsksHost};
ghost use Rattle.just_script_body.specs.ScriptAttributes as said;
ghost use Rattle.just_script_body.specs.ScriptBody as spec;

use crate::attributes::extension_of;
use crate::executor::executor_of;
use crate::lines::{ask_texts, show_if, show_text};
use just_ast_definitions::NamedAttribute;
use just_data::{BorrowedText, Sequence, Text};
use just_errors::Halt;
use just_parts::layers::{Syntax, Verbosity};
use just_recipe_body::attributes::{prints_message, takes_positional_arguments};
use just_recipe_body::body::{
    Body, ask_changes, ask_directory, ask_format, ask_time, is_mute, stamped, with_pairs,
};
use just_recipe_body::judgement::{Marks, Program, Teller, judge};
use just_run_layers::{EnvironmentChange, Evaluation, Executor, Host, ScriptCall};
use std::alloc::{AllocError, Global};

// The name of the recipe is shown behind the time, where there is one.
fn show_time<'a, 'run, 'src, S: Syntax, H: Host>(
    alloc: Global,
    body: &Body<'a, 'run, 'src, S>,
    time: &Option<Text>,
    host: &mut H,
) -> Result<(), Halt<'src>>
    ensures keeps { KeepsPromises (H.promised host.old) (H.promised host.new) }
    ensures took { let steps = spec.show_time_steps (body_contents_of (S.answers body.now.syntax.now) body.now) time.now in
        AsksHost (H.promised host.old) steps (H.entries host.old) (H.entries host.new) result }
{
    match time {
        Some(time) => {
            let line = stamped(alloc, time.as_str(), body.recipe.name.lexeme())?;
            show_text(host, &line)
        }
        None => Ok(()),
    }
}

// What comes before the lines: the format of the time, the time, and the show of both.
fn begin<'a, 'run, 'src, S: Syntax, E: Evaluation, H: Host>(
    alloc: Global,
    body: &Body<'a, 'run, 'src, S>,
    evaluation: &mut E,
    host: &mut H,
) -> Result<(), Halt<'src>>
    requires covered { All (IsCovered (module_of body.now.context.now) body.now.scope.now) (in_attributes attribute_expressions body.now.recipe.now) }
    ensures keeps { KeepsPromises (E.promised evaluation.old) (E.promised evaluation.new) }
    ensures keeps_host { KeepsPromises (H.promised host.old) (H.promised host.new) }
    ensures took { let first = log_of (H.entries host.old) (E.requests evaluation.old) in
        let last = log_of (H.entries host.new) (E.requests evaluation.new) in
        let steps = spec.heading_steps (body_contents_of (S.answers body.now.syntax.now) body.now) in
        HasTrace (both (E.promised evaluation.old) (H.promised host.old)) steps first last result }
{
    let format = ask_format(alloc, body, evaluation)?;
    let time = ask_time(host, &format)?;
    show_time(alloc, body, &time, host)
}

// Whether the script is shown before anything runs.
fn is_shown<'a, 'run, 'src, S: Syntax>(body: &Body<'a, 'run, 'src, S>) -> bool
    ensures { result ≡ spec.is_script_shown (body_contents_of (S.answers body.now.syntax.now) body.now) }
{
    !is_mute(body.context.config.verbosity) && (body.context.config.dry_run || body.recipe.quiet)
}

// Whether the script is shown as it is handed over.
fn is_grandiloquent(verbosity: Verbosity) -> bool
    ensures { result ≡ spec.is_grandiloquent verbosity }
{
    matches!(verbosity, Verbosity::Grandiloquent)
}

// What the recipe hands on by position.
fn positional_of<'a, 'run, 'src, S: Syntax>(
    body: &Body<'a, 'run, 'src, S>,
) -> Result<Option<Sequence<Text>>, AllocError>
    ensures { IfOk result (λ texts. texts ≡ spec.script_positional (body_contents_of (S.answers body.now.syntax.now) body.now)) }
{
    if !takes_positional_arguments(body.recipe, body.context.settings) {
        return Ok(None);
    }
    Ok(Some(body.positional.clone()?))
}

// The end of the name of the script's file, where the recipe says it.
fn owned_extension<'src>(attributes: &[NamedAttribute<'src>]) -> Result<Option<Text>, AllocError>
    ensures { IfOk result (λ extension. extension ≡ said.extension_of attributes.now) }
{
    match extension_of(attributes) {
        Some(extension) => Ok(Some(extension.clone()?)),
        None => Ok(None),
    }
}

// What the host is handed.
fn script_call<'a, 'run, 'src, S: Syntax>(
    alloc: Global,
    body: &Body<'a, 'run, 'src, S>,
    executor: Executor,
    texts: Sequence<Text>,
    working_directory: Option<Text>,
    changes: Sequence<EnvironmentChange>,
) -> Result<ScriptCall, AllocError>
    ensures { let contents = body_contents_of (S.answers body.now.syntax.now) body.now in
        IfOk result (λ call. call ≡ spec.script_call contents executor texts working_directory changes) }
{
    Ok(ScriptCall {
        recipe: Text::from_str(alloc, body.recipe.name.lexeme())?,
        executor,
        lines: texts,
        extension: owned_extension(body.recipe.attributes.as_slice())?,
        working_directory,
        positional: positional_of(body)?,
        environment: with_pairs(changes, body.environment)?,
    })
}

// What errors tell of the script.
fn teller_of<'a, 'run, 'src, S: Syntax>(body: &Body<'a, 'run, 'src, S>) -> Teller<'src>
    ensures { result ≡ spec.script_teller (body_contents_of (S.answers body.now.syntax.now) body.now) }
{
    Teller {
        recipe: BorrowedText::new(body.recipe.name.lexeme()),
        line_number: None,
        print_message: prints_message(body.recipe, body.context.settings),
    }
}

// No sigil, as a script has none.
const UNMARKED: Marks = Marks {
    guard: false,
    infallible: false,
    quiet: false,
};

// Hands a call to the host, and judges how that ends.
fn call_script<'a, 'run, 'src, S: Syntax, H: Host>(
    body: &Body<'a, 'run, 'src, S>,
    call: &ScriptCall,
    host: &mut H,
) -> Result<(), Halt<'src>>
    ensures keeps { KeepsPromises (H.promised host.old) (H.promised host.new) }
    ensures took { let steps = spec.script_call_steps (body_contents_of (S.answers body.now.syntax.now) body.now) call.now in
        AsksHost (H.promised host.old) steps (H.entries host.old) (H.entries host.new) result }
{
    let answer = host.script(call)?;
    let teller = teller_of(body);
    match judge(body.recipe, &teller, Program::Script, UNMARKED, answer) {
        Ok(_) => Ok(()),
        Err(error) => Err(Halt::Failed(error)),
    }
}

// Runs the script. The environment is asked for just before.
fn run_call<'a, 'run, 'src, S: Syntax, E: Evaluation, H: Host>(
    alloc: Global,
    body: &Body<'a, 'run, 'src, S>,
    executor: Executor,
    texts: Sequence<Text>,
    working_directory: Option<Text>,
    evaluation: &mut E,
    host: &mut H,
) -> Result<(), Halt<'src>>
    ensures keeps { KeepsPromises (E.promised evaluation.old) (E.promised evaluation.new) }
    ensures keeps_host { KeepsPromises (H.promised host.old) (H.promised host.new) }
    ensures took { let first = log_of (H.entries host.old) (E.requests evaluation.old) in
        let last = log_of (H.entries host.new) (E.requests evaluation.new) in
        let steps = spec.call_script_steps (body_contents_of (S.answers body.now.syntax.now) body.now) executor texts working_directory in
        HasTrace (both (E.promised evaluation.old) (H.promised host.old)) steps first last result }
{
    let changes = ask_changes(alloc, body, evaluation)?;
    let call = script_call(alloc, body, executor, texts, working_directory, changes)?;
    call_script(body, &call, host)
}

// Runs texts as a script: what runs it, its working directory, and the show of what is handed over.
fn run_texts<'a, 'run, 'src, S: Syntax, E: Evaluation, H: Host>(
    alloc: Global,
    body: &Body<'a, 'run, 'src, S>,
    texts: Sequence<Text>,
    evaluation: &mut E,
    host: &mut H,
) -> Result<(), Halt<'src>>
    requires covered { All (IsCovered (module_of body.now.context.now) body.now.scope.now) (in_attributes attribute_expressions body.now.recipe.now) }
    ensures keeps { KeepsPromises (E.promised evaluation.old) (E.promised evaluation.new) }
    ensures keeps_host { KeepsPromises (H.promised host.old) (H.promised host.new) }
    ensures took { let first = log_of (H.entries host.old) (E.requests evaluation.old) in
        let last = log_of (H.entries host.new) (E.requests evaluation.new) in
        let steps = spec.script_run_steps (body_contents_of (S.answers body.now.syntax.now) body.now) texts in
        HasTrace (both (E.promised evaluation.old) (H.promised host.old)) steps first last result }
{
    let executor = executor_of(alloc, body, &texts)?;
    let working_directory = ask_directory(alloc, body, evaluation)?;
    show_if(
        host,
        is_grandiloquent(body.context.config.verbosity),
        &texts,
    )?;
    run_call(
        alloc,
        body,
        executor,
        texts,
        working_directory,
        evaluation,
        host,
    )
}

// Runs texts as a script, unless it is a dry run.
fn run_unless_dry<'a, 'run, 'src, S: Syntax, E: Evaluation, H: Host>(
    alloc: Global,
    body: &Body<'a, 'run, 'src, S>,
    texts: Sequence<Text>,
    evaluation: &mut E,
    host: &mut H,
) -> Result<(), Halt<'src>>
    requires covered { All (IsCovered (module_of body.now.context.now) body.now.scope.now) (in_attributes attribute_expressions body.now.recipe.now) }
    ensures keeps { KeepsPromises (E.promised evaluation.old) (E.promised evaluation.new) }
    ensures keeps_host { KeepsPromises (H.promised host.old) (H.promised host.new) }
    ensures took { let first = log_of (H.entries host.old) (E.requests evaluation.old) in
        let last = log_of (H.entries host.new) (E.requests evaluation.new) in
        let steps = spec.script_unless_dry_steps (body_contents_of (S.answers body.now.syntax.now) body.now) texts in
        HasTrace (both (E.promised evaluation.old) (H.promised host.old)) steps first last result }
{
    if body.context.config.dry_run {
        return Ok(());
    }
    run_texts(alloc, body, texts, evaluation, host)
}

/// Runs a script body: the name of the recipe is shown with the time, where that is asked for, and all its lines are evaluated.
/// They are shown as settings say, and in a dry run that is all. Then the host is handed the script, with what runs it and the
/// folder that it runs in. It comes to nothing more, or to the error that the answer, or a shebang line, comes to.
pub fn run_script<'a, 'run, 'src, S: Syntax, E: Evaluation, H: Host>(
    alloc: Global,
    body: &Body<'a, 'run, 'src, S>,
    evaluation: &mut E,
    host: &mut H,
) -> Result<(), Halt<'src>>
    requires attributes { All (IsCovered (module_of body.now.context.now) body.now.scope.now) (in_attributes attribute_expressions body.now.recipe.now) }
    requires lines { All (IsLineCovered (module_of body.now.context.now) body.now.scope.now) body.now.recipe.now.body }
    ensures keeps { KeepsPromises (E.promised evaluation.old) (E.promised evaluation.new) }
    ensures keeps_host { KeepsPromises (H.promised host.old) (H.promised host.new) }
    ensures took { let first = log_of (H.entries host.old) (E.requests evaluation.old) in
        let last = log_of (H.entries host.new) (E.requests evaluation.new) in
        let steps = spec.script_steps (body_contents_of (S.answers body.now.syntax.now) body.now) in
        HasTrace (both (E.promised evaluation.old) (H.promised host.old)) steps first last result }
{
    begin(alloc, body, evaluation, host)?;
    let texts = ask_texts(alloc, body, body.recipe.body.as_slice(), evaluation)?;
    show_if(host, is_shown(body), &texts)?;
    run_unless_dry(alloc, body, texts, evaluation, host)
}
