//! A shell body: what its lines ask, by the settings and by the answers.
ghost use Rattle.std.specs.Prelude.{◌≡◌, IfOk};
ghost use Rattle.just_run_layers.specs.Covering.{module_of};
ghost use Rattle.just_run_layers.specs.Host.{KeepsPromises};
ghost use Rattle.just_run_layers.specs.LineTexts.{AgreesWith};
ghost use Rattle.just_run_layers.specs.Interactions.{HasTrace, both, log_of};
ghost use Rattle.just_recipe_body.specs.Body.{body_contents_of};
ghost use Rattle.just_shell_body.specs.Lines.{IsGroupCovered};
ghost use Rattle.just_shell_body.specs.ShellBody as spec;
ghost use Rattle.just_recipe_body.specs.Taking.{AsksHost};

use crate::lines::{GroupCommand, ask_command};
use just_ast_definitions::Line;
use just_ast_expressions::Interpreter;
use just_data::{BorrowedText, Sequence, Text};
use just_errors::Halt;
use just_parts::layers::Syntax;
use just_recipe_body::attributes::{has_no_quiet, prints_message, takes_positional_arguments};
use just_recipe_body::body::{
    Body, Preparation, ask_changes, ask_time, is_loquacious, is_mute, stamped, with_pairs,
};
use just_recipe_body::judgement::{Marks, Next, Program, Teller, judge};
use just_run_layers::{EnvironmentChange, Evaluation, Host, Positional, ShellCall};
use std::alloc::{AllocError, Global};

// Whether one says the other way of what the other one says.
fn differs(first: bool, second: bool) -> bool
    ensures { result ≡ spec.differs first second }
{
    first != second
}

// Whether a line is muted.
fn is_muted<'a, 'run, 'src, S: Syntax>(body: &Body<'a, 'run, 'src, S>, marks: Marks) -> bool
    ensures { result ≡ spec.is_muted (body_contents_of (S.answers body.now.syntax.now) body.now) marks }
{
    differs(marks.quiet, body.recipe.quiet)
        || (body.context.settings.quiet && !has_no_quiet(body.recipe.attributes.as_slice()))
        || is_mute(body.context.config.verbosity)
}

// Whether a command is shown.
fn is_shown<'a, 'run, 'src, S: Syntax>(
    body: &Body<'a, 'run, 'src, S>,
    marks: Marks,
    time: &Option<Text>,
) -> bool
    ensures { result ≡ spec.is_shown (body_contents_of (S.answers body.now.syntax.now) body.now) marks time.now }
{
    body.context.config.dry_run
        || is_loquacious(body.context.config.verbosity)
        || time.is_some()
        || !is_muted(body, marks)
}

// A command as it is shown.
fn shown_command(alloc: Global, time: &Option<Text>, command: &Text) -> Result<Text, AllocError>
    ensures { IfOk result (λ text. text ≡ spec.shown_command time.now command.now) }
{
    match time {
        Some(time) => stamped(alloc, time.as_str(), command.as_str()),
        None => command.clone(),
    }
}

// A command is shown, where it is.
fn show_command<'a, 'run, 'src, S: Syntax, H: Host>(
    alloc: Global,
    body: &Body<'a, 'run, 'src, S>,
    command: &GroupCommand,
    time: &Option<Text>,
    host: &mut H,
) -> Result<(), Halt<'src>>
    ensures keeps { KeepsPromises (H.promised host.old) (H.promised host.new) }
    ensures took { let steps = spec.show_command_steps (body_contents_of (S.answers body.now.syntax.now) body.now) command.now time.now in
        AsksHost (H.promised host.old) steps (H.entries host.old) (H.entries host.new) result }
{
    if !is_shown(body, command.marks, time) {
        return Ok(());
    }
    let line = shown_command(alloc, time, &command.text)?;
    host.show(&line)?;
    Ok(())
}

// What runs lines where no setting says it.
fn usual_shell(alloc: Global) -> Result<Interpreter<Text>, AllocError>
    ensures { IfOk result (λ shell. shell ≡ spec.usual_shell) }
{
    let mut arguments = Sequence::new(alloc);
    arguments.push(Text::from_str(alloc, "-cu")?)?;
    Ok(Interpreter {
        command: Text::from_str(alloc, "sh")?,
        arguments,
    })
}

// The shell that runs lines.
fn shell_of<'a, 'run, 'src, S: Syntax>(
    alloc: Global,
    body: &Body<'a, 'run, 'src, S>,
) -> Result<Interpreter<Text>, AllocError>
    ensures { IfOk result (λ shell. shell ≡ spec.shell_of (body_contents_of (S.answers body.now.syntax.now) body.now)) }
{
    match &body.context.settings.shell {
        Some(shell) => shell.clone(),
        None => usual_shell(alloc),
    }
}

// What the recipe hands on by position.
fn positional_of<'a, 'run, 'src, S: Syntax>(
    alloc: Global,
    body: &Body<'a, 'run, 'src, S>,
) -> Result<Option<Positional>, AllocError>
    ensures { IfOk result (λ positional. positional ≡ spec.positional_of (body_contents_of (S.answers body.now.syntax.now) body.now)) }
{
    if !takes_positional_arguments(body.recipe, body.context.settings) {
        return Ok(None);
    }
    Ok(Some(Positional {
        recipe: Text::from_str(alloc, body.recipe.name.lexeme())?,
        texts: body.positional.clone()?,
    }))
}

// What a shell is handed for a command.
fn shell_call<'a, 'run, 'src, S: Syntax>(
    alloc: Global,
    body: &Body<'a, 'run, 'src, S>,
    working_directory: &Option<Text>,
    command: &Text,
    changes: Sequence<EnvironmentChange>,
) -> Result<ShellCall, AllocError>
    ensures { let contents = body_contents_of (S.answers body.now.syntax.now) body.now in
        IfOk result (λ call. call ≡ spec.shell_call contents working_directory.now command.now changes) }
{
    Ok(ShellCall {
        shell: shell_of(alloc, body)?,
        command: command.clone()?,
        working_directory: working_directory.clone()?,
        positional: positional_of(alloc, body)?,
        environment: with_pairs(changes, body.environment)?,
        is_quiet: is_mute(body.context.config.verbosity),
    })
}

// What errors tell of a command.
fn teller_of<'a, 'run, 'src, S: Syntax>(
    body: &Body<'a, 'run, 'src, S>,
    command: &GroupCommand,
) -> Teller<'src>
    ensures { result ≡ spec.teller_of (body_contents_of (S.answers body.now.syntax.now) body.now) command.now }
{
    Teller {
        recipe: BorrowedText::new(body.recipe.name.lexeme()),
        line_number: command.line_number,
        print_message: prints_message(body.recipe, body.context.settings),
    }
}

// Hands a call to the shell, and judges how that ends.
fn call_shell<'a, 'run, 'src, S: Syntax, H: Host>(
    body: &Body<'a, 'run, 'src, S>,
    command: &GroupCommand,
    call: &ShellCall,
    host: &mut H,
) -> Result<Next, Halt<'src>>
    ensures keeps { KeepsPromises (H.promised host.old) (H.promised host.new) }
    ensures took { let steps = spec.shell_call_steps (body_contents_of (S.answers body.now.syntax.now) body.now) command.now call.now in
        AsksHost (H.promised host.old) steps (H.entries host.old) (H.entries host.new) result }
{
    let answer = host.shell(call)?;
    let teller = teller_of(body, command);
    match judge(body.recipe, &teller, Program::Shell, command.marks, answer) {
        Ok(next) => Ok(next),
        Err(error) => Err(Halt::Failed(error)),
    }
}

// Runs a command, unless it is a dry run. The environment is asked for just before.
fn run_unless_dry<'a, 'run, 'src, S: Syntax, E: Evaluation, H: Host>(
    alloc: Global,
    body: &Body<'a, 'run, 'src, S>,
    preparation: &Preparation,
    command: &GroupCommand,
    evaluation: &mut E,
    host: &mut H,
) -> Result<Next, Halt<'src>>
    ensures keeps { KeepsPromises (E.promised evaluation.old) (E.promised evaluation.new) }
    ensures keeps_host { KeepsPromises (H.promised host.old) (H.promised host.new) }
    ensures took { let first = log_of (H.entries host.old) (E.requests evaluation.old) in
        let last = log_of (H.entries host.new) (E.requests evaluation.new) in
        let steps = spec.unless_dry_steps (body_contents_of (S.answers body.now.syntax.now) body.now) preparation.now command.now in
        HasTrace (both (E.promised evaluation.old) (H.promised host.old)) steps first last result }
{
    if body.context.config.dry_run {
        return Ok(Next::Onward);
    }
    let changes = ask_changes(alloc, body, evaluation)?;
    let call = shell_call(
        alloc,
        body,
        &preparation.working_directory,
        &command.text,
        changes,
    )?;
    call_shell(body, command, &call, host)
}

// Runs a command: it is shown with the time before, where it is shown.
fn run_command<'a, 'run, 'src, S: Syntax, E: Evaluation, H: Host>(
    alloc: Global,
    body: &Body<'a, 'run, 'src, S>,
    preparation: &Preparation,
    command: &GroupCommand,
    evaluation: &mut E,
    host: &mut H,
) -> Result<Next, Halt<'src>>
    ensures keeps { KeepsPromises (E.promised evaluation.old) (E.promised evaluation.new) }
    ensures keeps_host { KeepsPromises (H.promised host.old) (H.promised host.new) }
    ensures took { let first = log_of (H.entries host.old) (E.requests evaluation.old) in
        let last = log_of (H.entries host.new) (E.requests evaluation.new) in
        let steps = spec.one_command_steps (body_contents_of (S.answers body.now.syntax.now) body.now) preparation.now command.now in
        HasTrace (both (E.promised evaluation.old) (H.promised host.old)) steps first last result }
{
    let time = ask_time(host, &preparation.timestamp_format)?;
    show_command(alloc, body, command, &time, host)?;
    run_unless_dry(alloc, body, preparation, command, evaluation, host)
}

/// Runs a group of lines of a shell body: it is skipped, or comes to a command, which is timed, shown and handed to the shell
/// as settings and answers say. What comes after it is the next group, or the end of the recipe with success; or the error
/// that the answer comes to.
pub fn run_group<'a, 'run, 'src, S: Syntax, E: Evaluation, H: Host>(
    alloc: Global,
    body: &Body<'a, 'run, 'src, S>,
    lines: &[Line<'src>],
    preparation: &Preparation,
    evaluation: &mut E,
    host: &mut H,
) -> Result<Next, Halt<'src>>
    requires same { AgreesWith E.sigils E.continues (S.answers body.now.syntax.now) }
    requires covered { let covered = IsGroupCovered (S.answers body.now.syntax.now) body.now.context.now.settings.now in
        covered (module_of body.now.context.now) body.now.scope.now lines.now }
    ensures keeps { KeepsPromises (E.promised evaluation.old) (E.promised evaluation.new) }
    ensures keeps_host { KeepsPromises (H.promised host.old) (H.promised host.new) }
    ensures took { let first = log_of (H.entries host.old) (E.requests evaluation.old) in
        let last = log_of (H.entries host.new) (E.requests evaluation.new) in
        let steps = spec.group_steps (body_contents_of (S.answers body.now.syntax.now) body.now) preparation.now lines.now in
        HasTrace (both (E.promised evaluation.old) (H.promised host.old)) steps first last result }
{
    match ask_command(alloc, body, lines, evaluation)? {
        Some(command) => run_command(alloc, body, preparation, &command, evaluation, host),
        None => Ok(Next::Onward),
    }
}
