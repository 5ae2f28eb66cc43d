//! The run of the form Command: a program runs in place of recipes.
ghost use Rattle.std.specs.Prelude.{◌≡◌, Err, List, IfOk, map};
ghost use Rattle.just_errors.specs.declared.halt.Halt.TheVariants.{Memory};
ghost use Rattle.just_justfile.specs.Running.{CanRun, HoldsOverridden};
ghost use Rattle.just_justfile.specs.declared.justfile.Justfile.{out-Justfile};
ghost use Rattle.just_parts.specs.Syntax.{SyntaxAnswers};
ghost use Rattle.just_recipe.specs.declared.dependency.Dependency.{Dependency};
ghost use Rattle.just_recipe.specs.declared.recipe.Recipe.{Recipe};
ghost use Rattle.just_recipe_body.specs.Taking.{AsksEvaluator, AsksHost};
ghost use Rattle.just_run_layers.specs.Evaluation.{config_contents};
ghost use Rattle.just_run_layers.specs.Host.{KeepsPromises, executed};
ghost use Rattle.just_run_layers.specs.Interactions.{HasTrace, both, log_of};
ghost use Rattle.just_scopes.specs.Opening.{Inherited, handed_of, hands, opened_at, opened_of};
ghost use Rattle.just_invoke.specs.Command as spec;
ghost use Rattle.just_invoke.specs.Command.{IsProgramRun, IsProgramRunAsExpected};
ghost use Rattle.just_invoke.specs.loops.Command.{program_asked};

use just_data::{Chain, Sequence, Text};
use just_errors::Refusal;
use just_execution::Report;
use just_justfile::Justfile;
use just_parts::layers::{
    Config, Error, Halt, Interpreter, Number, RunError, Scope, Signal, Status,
};
use just_run_layers::{
    CommandCall, EnvironmentChange, EnvironmentPair, Evaluation, Host, RunAnswer,
};
use just_scopes::{OpenedModule, folder_for, open_lazily, opened_at};
use std::alloc::{AllocError, Global};
use std::collections::{HashMap, HashSet};

// The shell that runs the program: that of the settings, where the configuration asks for one.
fn shell_for<'src>(
    config: &Config,
    root: &Justfile<'src>,
) -> Result<Option<Interpreter<Text>>, AllocError>
    ensures { IfOk result (λ shell. shell ≡ spec.shell_for (config_contents config.now) root.now) }
{
    if !config.shell_command {
        return Ok(None);
    }
    match &root.settings.shell {
        Some(shell) => Ok(Some(shell.clone()?)),
        None => Ok(None),
    }
}

// What the host is asked.
fn call_for<'src>(
    config: &Config,
    root: &Justfile<'src>,
    binary: &Text,
    arguments: &Sequence<Text>,
    environment: Sequence<EnvironmentChange>,
) -> Result<CommandCall, AllocError>
    ensures { let program = program_asked binary.now arguments.now in
        IfOk result (λ call. call ≡ spec.command_call (config_contents config.now) root.now program environment) }
{
    Ok(CommandCall {
        binary: binary.clone()?,
        arguments: arguments.clone()?,
        shell: shell_for(config, root)?,
        working_directory: Some(folder_for(config, root).clone()?),
        environment,
    })
}

// Whether a program ended with success.
fn is_success(status: &Status) -> bool
    ensures { result ≡ spec.is_success status.now }
{
    match status {
        Status::Code(code) => *code == 0,
        _ => false,
    }
}

// The error for an end without success.
fn failure<'src>(call: CommandCall, status: Status) -> RunError<'src>
    ensures { result ≡ spec.failure call status }
{
    let CommandCall {
        binary,
        arguments,
        ..
    } = call;
    match status {
        Status::NotStarted(message) => RunError::CommandInvoke {
            binary,
            arguments,
            message,
        },
        status => RunError::CommandStatus {
            binary,
            arguments,
            status,
        },
    }
}

// What a signal comes to that the run was sent while the program succeeded.
fn after_success<'src>(signal: Option<Signal>) -> Result<(), RunError<'src>>
    ensures { result ≡ spec.after_success signal }
{
    match signal {
        Some(signal) => Err(RunError::Interrupted { signal }),
        None => Ok(()),
    }
}

// What the end of a program comes to.
fn judge<'src>(call: CommandCall, answer: RunAnswer) -> Result<(), RunError<'src>>
    ensures { result ≡ spec.judged_program call answer }
{
    let RunAnswer { status, signal } = answer;
    if is_success(&status) {
        return after_success(signal);
    }
    Err(failure(call, status))
}

// Hands a call to the host, and judges how that ends.
fn call_program<'src, H: Host>(call: CommandCall, host: &mut H) -> Result<(), Halt<'src>>
    ensures keeps { KeepsPromises (H.promised host.old) (H.promised host.new) }
    ensures nothing_runs { executed (H.entries host.new) ≡ executed (H.entries host.old) }
    ensures took { AsksHost (H.promised host.old) (spec.program_call_steps call) (H.entries host.old) (H.entries host.new) result }
    ensures uncalled { result ≡ Err Memory → H.entries host.new ≡ H.entries host.old }
{
    let answer = host.command(&call)?;
    match judge(call, answer) {
        Ok(()) => Ok(()),
        Err(error) => Err(Halt::Failed(error)),
    }
}

// What programs have in their environment, by what an open module has.
fn ask_changes<'src, E: Evaluation>(
    alloc: Global,
    root: &Justfile<'src>,
    dotenv: &Chain<EnvironmentPair>,
    scope: &Scope<'src>,
    evaluation: &mut E,
) -> Result<Sequence<EnvironmentChange>, Halt<'src>>
    ensures keeps { KeepsPromises (E.promised evaluation.old) (E.promised evaluation.new) }
    ensures took { let has : Inherited = record { dotenv = dotenv.now; scope = scope.now } in
        let steps = spec.root_environment_steps root.now has in
        AsksEvaluator (E.promised evaluation.old) steps (E.requests evaluation.old) (E.requests evaluation.new) result }
{
    match evaluation.environment(
        alloc,
        dotenv,
        scope,
        &root.settings,
        root.unexports.as_slice(),
    ) {
        Ok(changes) => Ok(changes),
        Err(Refusal::Memory) => Err(Halt::Memory),
        Err(Refusal::Fault(fault)) => Err(Halt::Failed(RunError::Evaluate(fault))),
    }
}

// The same by what the root has among open modules.
fn ask_environment<'src, E: Evaluation>(
    alloc: Global,
    root: &Justfile<'src>,
    opened: Vec<OpenedModule<'_, 'src>>,
    evaluation: &mut E,
) -> Result<Sequence<EnvironmentChange>, Halt<'src>>
    ensures keeps { KeepsPromises (E.promised evaluation.old) (E.promised evaluation.new) }
    ensures took { let has = hands (opened_at (out-Justfile root.now).module_path (map opened_of opened.entry.items)) in
        let steps = spec.root_environment_steps root.now has in
        AsksEvaluator (E.promised evaluation.old) steps (E.requests evaluation.old) (E.requests evaluation.new) result }
{
    match opened_at(opened, &root.module_path) {
        Some(module) => ask_changes(alloc, root, &module.dotenv, &module.scope, evaluation),
        None => {
            let scope = Scope {
                bindings: Chain::new(),
            };
            ask_changes(alloc, root, &Chain::new(), &scope, evaluation)
        }
    }
}

// Runs a program where modules are open.
fn run_program<'src, E: Evaluation, H: Host>(
    alloc: Global,
    config: &Config,
    root: &Justfile<'src>,
    opened: Vec<OpenedModule<'_, 'src>>,
    binary: &Text,
    arguments: &Sequence<Text>,
    evaluation: &mut E,
    host: &mut H,
) -> Result<(), Halt<'src>>
    ensures keeps { KeepsPromises (E.promised evaluation.old) (E.promised evaluation.new) }
    ensures keeps_host { KeepsPromises (H.promised host.old) (H.promised host.new) }
    ensures nothing_runs { executed (H.entries host.new) ≡ executed (H.entries host.old) }
    ensures took { let first = log_of (H.entries host.old) (E.requests evaluation.old) in
        let last = log_of (H.entries host.new) (E.requests evaluation.new) in
        let steps = spec.program_steps (config_contents config.now) root.now (program_asked binary.now arguments.now) (map opened_of opened.entry.items) in
        HasTrace (both (E.promised evaluation.old) (H.promised host.old)) steps first last result }
    ensures uncalled { result ≡ Err Memory → H.entries host.new ≡ H.entries host.old }
{
    let changes = ask_environment(alloc, root, opened, evaluation)?;
    let call = call_for(config, root, binary, arguments, changes)?;
    call_program(call, host)
}

/// Opens the modules of a root lazily, from no numbers, and runs a program in their place.
pub(crate) fn run_command<'src, E: Evaluation, H: Host>(
    alloc: Global,
    config: &Config,
    root: &Justfile<'src>,
    overrides: &HashMap<Number, Text>,
    binary: &Text,
    arguments: &Sequence<Text>,
    evaluation: &mut E,
    host: &mut H,
) -> Result<Report, Error<'src>>
    requires can_run { (answers : SyntaxAnswers) × (recipes : List (Recipe Dependency)) × CanRun answers root.now recipes }
    requires overridden { HoldsOverridden root.now overrides.now }
    ensures keeps { KeepsPromises (E.promised evaluation.old) (E.promised evaluation.new) }
    ensures keeps_host { KeepsPromises (H.promised host.old) (H.promised host.new) }
    ensures outcome { let first = log_of (H.entries host.old) (E.requests evaluation.old) in
        let last = log_of (H.entries host.new) (E.requests evaluation.new) in
        let handed = handed_of config.now overrides.now in
        let outcome = IsProgramRun root.now handed (E.promised evaluation.old) (H.promised host.old) in
        outcome (program_asked binary.now arguments.now) first last result }
    ensures expected { let first = log_of (H.entries host.old) (E.requests evaluation.old) in
        let last = log_of (H.entries host.new) (E.requests evaluation.new) in
        let handed = handed_of config.now overrides.now in
        let run = IsProgramRunAsExpected root.now handed (E.promised evaluation.old) (H.promised host.old) in
        run (program_asked binary.now arguments.now) first last result }
{
    let numbers = HashSet::new(alloc);
    let opened = open_lazily(alloc, config, root, overrides, &numbers, evaluation, host)?;
    run_program(
        alloc, config, root, opened, binary, arguments, evaluation, host,
    )?;
    Ok(Report {
        calls: Vec::new(alloc),
    })
}
