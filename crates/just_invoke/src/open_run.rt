ghost use Rattle.std.specs.Prelude.{◌<◌, length, map};
ghost use Rattle.std.specs.List.{All};
ghost use Rattle.just_tasks.specs.Pairs.{AllBelow};
ghost use Rattle.just_justfile.specs.Closed.{IsHeld};
ghost use Rattle.just_justfile.specs.declared.justfile.Justfile.{Justfile};
ghost use Rattle.just_justfile.specs.Running.{CanRun, HoldsOverridden};
ghost use Rattle.just_recipe.specs.Recipes.{IsResolved};
ghost use Rattle.just_run_layers.specs.Host.{KeepsPromises};
ghost use Rattle.just_run_layers.specs.LineTexts.{AgreesWith};
ghost use Rattle.just_run_layers.specs.Interactions.{log_of};
ghost use Rattle.just_scopes.specs.Open.{AreOpenModules};
ghost use Rattle.just_scopes.specs.Opening.{opened_of, setup_of};
ghost use Rattle.just_invocations.specs.declared.invocation.Invocation.{Invocation};
ghost use Rattle.just_invoke.specs.Results.{RunEndsAs};
ghost use Rattle.just_invoke.specs.loops.Results.{RunsOpen};
ghost use Rattle.just_invoke.specs.loops.Outcome.{tops_of};

use crate::tops::name_tops;
use just_data::Text;
use just_execution::{Report, run_tasks};
use just_invocations::Invocation;
use just_justfile::Justfile;
use just_parts::layers::{Config, Error, Halt, Number, Syntax};
use just_recipes::Recipes;
use just_run_layers::{Evaluation, Host};
use just_scopes::{OpenedModule, open_modules, scopes_of};
use just_tasks::Task;
use std::alloc::Global;
use std::collections::HashMap;

// Runs tasks in modules that are open.
fn run_open<'run, 'src, S: Syntax, E: Evaluation, H: Host>(
    alloc: Global,
    config: &'run Config,
    recipes: &Recipes<'src>,
    syntax: &'run S,
    overrides: &'run HashMap<Number, Text>,
    opened: Vec<OpenedModule<'run, 'src>>,
    tops: Vec<Task>,
    evaluation: &mut E,
    host: &mut H,
) -> Result<Report, Halt<'src>>
    requires same { AgreesWith E.sigils E.continues (S.answers syntax.now) }
    requires resolved { All IsResolved recipes.now }
    requires below { AllBelow (length recipes.now) tops.items }
    requires served { (root : Justfile) × AreOpenModules (S.answers syntax.now) root recipes.now tops.items (map opened_of opened.items) }
    ensures keeps { KeepsPromises (E.promised evaluation.old) (E.promised evaluation.new) }
    ensures keeps_host { KeepsPromises (H.promised host.old) (H.promised host.new) }
    ensures runs { let first = log_of (H.entries host.old) (E.requests evaluation.old) in
        let last = log_of (H.entries host.new) (E.requests evaluation.new) in
        let setup = setup_of (S.answers syntax.now) config.now overrides.now in
        let runs = RunsOpen (E.promised evaluation.old) (H.promised host.old) setup recipes.now (map opened_of opened.entry.items) in
        runs tops.items first last result }
{
    let scopes = scopes_of(alloc, config, syntax, overrides, opened)?;
    run_tasks(alloc, recipes, &scopes, evaluation, host, tops)
}

/// Runs the invocations: the modules are opened, and then the tasks run in them under one once table.
pub(crate) fn run_invocations<'src, S: Syntax, E: Evaluation, H: Host>(
    alloc: Global,
    config: &Config,
    recipes: &Recipes<'src>,
    syntax: &S,
    root: &Justfile<'src>,
    overrides: &HashMap<Number, Text>,
    evaluation: &mut E,
    host: &mut H,
    invocations: &[Invocation<'_, 'src, '_>],
) -> Result<Report, Error<'src>>
    requires can_run { CanRun (S.answers syntax.now) root.now recipes.now }
    requires overridden { HoldsOverridden root.now overrides.now }
    requires same { AgreesWith E.sigils E.continues (S.answers syntax.now) }
    requires held { All (λ (i : Invocation). IsHeld recipes.now i.recipe.now) invocations.now }
    ensures keeps { KeepsPromises (E.promised evaluation.old) (E.promised evaluation.new) }
    ensures keeps_host { KeepsPromises (H.promised host.old) (H.promised host.new) }
    ensures comes { let first = log_of (H.entries host.old) (E.requests evaluation.old) in
        let last = log_of (H.entries host.new) (E.requests evaluation.new) in
        let setup = setup_of (S.answers syntax.now) config.now overrides.now in
        let comes = RunEndsAs (E.promised evaluation.old) (H.promised host.old) setup root.now recipes.now (tops_of recipes.now invocations.now) in
        comes first last result }
{
    let tops = name_tops(alloc, recipes, invocations)?;
    let opened = open_modules(
        alloc,
        config,
        recipes,
        syntax,
        root,
        overrides,
        tops.as_slice(),
        evaluation,
        host,
    )?;
    Ok(run_open(
        alloc, config, recipes, syntax, overrides, opened, tops, evaluation, host,
    )?)
}
