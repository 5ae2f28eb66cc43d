//! The run of a module: of what command words mean, or of the forms Command and Evaluate.
ghost use Rattle.std.specs.Prelude.{◌≡◌, ◌≤◌, true, length, IfErr, OnOk};
ghost use Rattle.just_justfile.specs.Running.{CanRun, HoldsOverridden};
ghost use Rattle.just_justfile.specs.declared.justfile.Justfile.{Justfile};
ghost use Rattle.just_names.specs.Texts.{texts};
ghost use Rattle.just_parts.specs.Evaluator.{count_fault_of};
ghost use Rattle.just_run_layers.specs.Host.{KeepsPromises};
ghost use Rattle.just_run_layers.specs.Interactions.{log_of};
ghost use Rattle.just_run_layers.specs.LineTexts.{AgreesWith};
ghost use Rattle.just_scopes.specs.Opening.{setup_of};
ghost use Rattle.just_invoke.specs.Outcome.{IsOutcome, RunsAsExpected};
ghost use Rattle.just_invoke.specs.loops.Outcome.{IsExcess};

use crate::command_run::run_command;
use crate::evaluate_run::run_evaluate;
use crate::open_run::run_invocations;
use just_data::Text;
use just_execution::Report;
use just_invocations::{Invocation, InvocationParser};
use just_justfile::Justfile;
use just_parts::layers::{Config, Error, Number, Output, RunError, Subcommand, Syntax};
use just_recipes::Recipes;
use just_run_layers::{Evaluation, Host};
use std::alloc::Global;
use std::collections::HashMap;

// Refuses several invocations where one alone is allowed.
fn allow_few<'src>(
    config: &Config,
    invocations: &[Invocation<'_, 'src, '_>],
) -> Result<(), Error<'src>>
    ensures few { OnOk result (config.now.one ≡ true → length invocations.now ≤ 1) }
    ensures many { IfErr result (IsExcess config.now.one (length invocations.now)) }
{
    if config.one && invocations.len() > 1 {
        return Err(Error::Run(RunError::ExcessInvocations {
            invocations: invocations.len(),
        }));
    }
    Ok(())
}

// Runs what the words mean in modules that are opened for it.
fn run_words<'src, S: Syntax, E: Evaluation, H: Host>(
    alloc: Global,
    config: &Config,
    recipes: &Recipes<'src>,
    syntax: &S,
    root: &Justfile<'src>,
    overrides: &HashMap<Number, Text>,
    evaluation: &mut E,
    host: &mut H,
    words: &[&str],
) -> Result<Report, Error<'src>>
    requires can_run { CanRun (S.answers syntax.now) root.now recipes.now }
    requires overridden { HoldsOverridden root.now overrides.now }
    requires same { AgreesWith E.sigils E.continues (S.answers syntax.now) }
    ensures keeps { KeepsPromises (E.promised evaluation.old) (E.promised evaluation.new) }
    ensures keeps_host { KeepsPromises (H.promised host.old) (H.promised host.new) }
    ensures outcome { let counts = count_fault_of (E.answers evaluation.old) in
        let first = log_of (H.entries host.old) (E.requests evaluation.old) in
        let last = log_of (H.entries host.new) (E.requests evaluation.new) in
        let setup = setup_of (S.answers syntax.now) config.now overrides.now in
        let outcome = IsOutcome counts root.now recipes.now (texts words.now) config.now setup (E.promised evaluation.old) (H.promised host.old) in
        outcome first last result }
    ensures expected { let counts = count_fault_of (E.answers evaluation.old) in
        let setup = setup_of (S.answers syntax.now) config.now overrides.now in
        let run = RunsAsExpected counts root.now recipes.now (texts words.now) config.now setup (E.promised evaluation.old) (H.promised host.old) in
        let first = log_of (H.entries host.old) (E.requests evaluation.old) in
        let last = log_of (H.entries host.new) (E.requests evaluation.new) in
        run first last result }
{
    let invocations = InvocationParser::parse_invocations(
        alloc,
        root,
        recipes,
        &*evaluation,
        words,
    )?;
    allow_few(config, invocations.as_slice())?;
    run_invocations(
        alloc,
        config,
        recipes,
        syntax,
        root,
        overrides,
        evaluation,
        host,
        invocations.as_slice(),
    )
}

/// Modules that can be run, as a compiled one can: `Justfile::run`.
pub trait Run<'src> {
    ghost use Rattle.std.specs.Prelude.{◌≡◌};
    ghost use Rattle.just_parts.specs.Evaluator.{count_fault_of};
    ghost use Rattle.just_run_layers.specs.Host.{KeepsPromises};
    ghost use Rattle.just_run_layers.specs.LineTexts.{AgreesWith};
    ghost use Rattle.just_run_layers.specs.Interactions.{log_of};
    ghost use Rattle.just_names.specs.Texts.{texts};
    ghost use Rattle.just_justfile.specs.Running.{CanRun, HoldsOverridden};
    ghost use Rattle.just_invoke.specs.Command.{AsksForProgram, IsProgramRun, IsProgramRunAsExpected};
    ghost use Rattle.just_invoke.specs.Evaluation.{AsksForValues, IsEvaluation, IsEvaluationAsExpected, RunsRecipes, WritesNothing, writer_of};
    ghost use Rattle.just_invoke.specs.Outcome.{RunsAsExpected, IsOutcome};
    ghost use Rattle.just_scopes.specs.Opening.{handed_of, setup_of};

    /// The module that is run.
    ghost root: { Self → Justfile };

    /// Does what the configuration's form asks.
    ///
    /// In the form Run the words are run. First the modules are opened, each before those in it: the host is asked for the
    /// pairs of its dotenv files, where the configuration says so, and the evaluation for the values of its variables, in a
    /// lazy module of exactly those that are needed. So whatever a recipe reads that runs has its value before the first one
    /// begins. Then each invocation runs in turn under one once table, where a recipe with equal arguments runs once, its
    /// prior dependencies before it, and its subsequent ones after it under a table of their own. A recipe that runs is asked
    /// for its parameters, its confirmation and the arguments of its dependencies; then it begins, and its body runs. The run
    /// ends at the first step that fails, with its error. Where the words are refused, the host is left as it was; where the
    /// modules do not open, nothing is executed. The writer is asked nothing.
    ///
    /// In the form Command no words are read and no recipe runs. The modules are opened as above, each as a lazy one, for exactly
    /// what is evaluated anyhow and what that needs. Then the evaluation is asked for the environment, by what the root has, and
    /// the host is handed the program: with the shell of the root's settings, where the configuration lets a shell run it, and in
    /// the configuration's folder, or the root's where it has none. The report is that of no once table. `CommandInvoke` comes
    /// where the program does not start, `CommandStatus` where it ends without code 0, whatever the run was sent meanwhile, and
    /// `Interrupted` where it succeeds and the run was sent a signal. The writer is asked nothing.
    ///
    /// In the form Evaluate no words are read and no recipe runs. The path that the configuration asks for leads to a variable
    /// or a module (`just_evaluate` has how, and the errors where it leads nowhere: then neither host nor writer is asked). The modules are
    /// opened as above, each as a lazy one, for exactly what is evaluated anyhow, for that variable or for those of that module
    /// that are not private, and for what these need. Then the text of their values is made, and only then it is written. The
    /// report is that of no once table. `Write` comes where the writer faults, which has a beginning of the text then.
    ///
    /// `Dotenv` and `Evaluate` come where the host or the evaluation answers a fault.
    ///
    /// What compiling answers can run, and its overrides have all that the analysis saw. In the form Run the evaluation takes the
    /// lines of bodies as the grammar does: which sigils they begin with, and which go on.
    fn run<S: Syntax, E: Evaluation, H: Host, W: Output>(
        &self,
        alloc: Global,
        config: &Config,
        recipes: &Recipes<'src>,
        syntax: &S,
        evaluation: &mut E,
        host: &mut H,
        writer: &mut W,
        words: &[&str],
        overrides: &HashMap<Number, Text>,
    ) -> Result<Report, Error<'src>>
        requires can_run { CanRun (S.answers syntax.now) (root self.now) recipes.now }
        requires overridden { HoldsOverridden (root self.now) overrides.now }
        requires same { RunsRecipes config.now → AgreesWith E.sigils E.continues (S.answers syntax.now) }
        // Promises are kept.
        ensures keeps { KeepsPromises (E.promised evaluation.old) (E.promised evaluation.new) }
        ensures keeps_host { KeepsPromises (H.promised host.old) (H.promised host.new) }
        // Where recipes run: for every host.
        ensures outcome { let counts = count_fault_of (E.answers evaluation.old) in
            let first = log_of (H.entries host.old) (E.requests evaluation.old) in
            let last = log_of (H.entries host.new) (E.requests evaluation.new) in
            let setup = setup_of (S.answers syntax.now) config.now overrides.now in
            let outcome = IsOutcome counts (root self.now) recipes.now (texts words.now) config.now setup (E.promised evaluation.old) (H.promised host.old) in
            RunsRecipes config.now → outcome first last result }
        // For promised answers.
        ensures expected { let counts = count_fault_of (E.answers evaluation.old) in
            let setup = setup_of (S.answers syntax.now) config.now overrides.now in
            let run = RunsAsExpected counts (root self.now) recipes.now (texts words.now) config.now setup (E.promised evaluation.old) (H.promised host.old) in
            let first = log_of (H.entries host.old) (E.requests evaluation.old) in
            let last = log_of (H.entries host.new) (E.requests evaluation.new) in
            RunsRecipes config.now → run first last result }
        // Where a program runs in their place: for every host.
        ensures commanded { let first = log_of (H.entries host.old) (E.requests evaluation.old) in
            let last = log_of (H.entries host.new) (E.requests evaluation.new) in
            let handed = handed_of config.now overrides.now in
            let comes = IsProgramRun (root self.now) handed (E.promised evaluation.old) (H.promised host.old) in
            (program : _) → AsksForProgram config.now program → comes program first last result }
        // For promised answers.
        ensures commanded_expected { let first = log_of (H.entries host.old) (E.requests evaluation.old) in
            let last = log_of (H.entries host.new) (E.requests evaluation.new) in
            let handed = handed_of config.now overrides.now in
            let run = IsProgramRunAsExpected (root self.now) handed (E.promised evaluation.old) (H.promised host.old) in
            (program : _) → AsksForProgram config.now program → run program first last result }
        // The writer is left as it was, where no values are written.
        ensures unwritten { WritesNothing config.now → W.written writer.new ≡ W.written writer.old }
        ensures unfailed { WritesNothing config.now → W.failed writer.new ≡ W.failed writer.old }
        // Where values are written: for every host.
        ensures evaluated { let first = log_of (H.entries host.old) (E.requests evaluation.old) in
            let last = log_of (H.entries host.new) (E.requests evaluation.new) in
            let before = writer_of (W.written writer.old) (W.failed writer.old) in
            let after = writer_of (W.written writer.new) (W.failed writer.new) in
            let handed = handed_of config.now overrides.now in
            let comes = IsEvaluation E.displayed (root self.now) handed (E.promised evaluation.old) (H.promised host.old) in
            (format : _) (path : _) → AsksForValues config.now format path → comes format path first last before after result }
        // For promised answers.
        ensures evaluated_expected { let first = log_of (H.entries host.old) (E.requests evaluation.old) in
            let last = log_of (H.entries host.new) (E.requests evaluation.new) in
            let before = writer_of (W.written writer.old) (W.failed writer.old) in
            let after = writer_of (W.written writer.new) (W.failed writer.new) in
            let handed = handed_of config.now overrides.now in
            let run = IsEvaluationAsExpected E.displayed (root self.now) handed (E.promised evaluation.old) (H.promised host.old) in
            (format : _) (path : _) → AsksForValues config.now format path → run format path first last before after result };
}

impl<'src> Run<'src> for Justfile<'src> {
    ghost root = { λ j. j };

    fn run<S: Syntax, E: Evaluation, H: Host, W: Output>(
        &self,
        alloc: Global,
        config: &Config,
        recipes: &Recipes<'src>,
        syntax: &S,
        evaluation: &mut E,
        host: &mut H,
        writer: &mut W,
        words: &[&str],
        overrides: &HashMap<Number, Text>,
    ) -> Result<Report, Error<'src>> {
        match &config.subcommand {
            Subcommand::Evaluate { format, path } => run_evaluate(
                alloc,
                config,
                self,
                overrides,
                *format,
                path.as_ref(),
                evaluation,
                host,
                writer,
            ),
            Subcommand::Command { binary, arguments } => run_command(
                alloc, config, self, overrides, binary, arguments, evaluation, host,
            ),
            Subcommand::Run => run_words(
                alloc, config, recipes, syntax, self, overrides, evaluation, host, words,
            ),
        }
    }
}
