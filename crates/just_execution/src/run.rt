//! The run of tasks: each pair once under a table, after its priors.
ghost use Rattle.std.specs.Prelude.{◌<◌, OnOk, length};
ghost use Rattle.std.specs.List.{All};
ghost use Rattle.just_run_layers.specs.Host.{KeepsPromises};
ghost use Rattle.just_run_layers.specs.LineTexts.{AgreesWith};
ghost use Rattle.just_run_layers.specs.Interactions.{log_of};
ghost use Rattle.just_execution.specs.loops.Frames.{SimulatesBlock, SimulatesCall, SimulatesRest, IsLighter, IsSoundFrameIn, IsSoundIn, SimulatesFrame};
ghost use Rattle.just_tasks.specs.Homes.{AllHaveModuleScope};
ghost use Rattle.just_execution.specs.loops.Homes.{IsCallable, IsServed};
ghost use Rattle.just_execution.specs.TaskInteractions.{Executes};
ghost use Rattle.just_tasks.specs.Pairs.{AllBelow};
ghost use Rattle.just_recipe.specs.Recipes.{DependenciesStandFirst, IsResolved};
ghost use Rattle.just_execution.specs.Reports.{TasksRunAsExpected, IsRun, HasRunTrace};
ghost use Rattle.just_tasks.specs.Scene.{running, scene_in};

use crate::frame::Frame;
use crate::questions::{Preparation, ask, follow};
use crate::run_state::{RunState, count_call, push_calls};
use just_parts::layers::{Halt, Syntax};
use just_recipe_run::RunRecipe;
use just_recipes::Recipes;
use just_run_layers::{Evaluation, Held, Host};
use just_tasks::{Scopes, Task, module_of, recipe_at};
use std::alloc::Global;

/// How often a recipe was called under each once table, in the order of opening.
#[derive(Drop)]
pub struct Report {
    /// One count for each once table: a call counts also where the recipe ran already.
    pub calls: Vec<u64>,
}

// Executes a task: its recipe begins at its path, and runs by what is held for it.
fn execute<'src, S: Syntax, E: Evaluation, H: Host>(
    alloc: Global,
    recipes: &Recipes<'src>,
    scopes: &Scopes<'_, 'src, S>,
    evaluation: &mut E,
    host: &mut H,
    task: &Task,
    held: &Held<'src>,
) -> Result<(), Halt<'src>>
    requires same { AgreesWith E.sigils E.continues (S.answers scopes.now.syntax.now) }
    requires resolved { All IsResolved recipes.now }
    requires callable { IsCallable (S.answers scopes.now.syntax.now) scopes.now.modules recipes.now task.now }
    requires served { IsServed (S.answers scopes.now.syntax.now) scopes.now.modules recipes.now task.now held.now }
    ensures keeps { KeepsPromises (E.promised evaluation.old) (E.promised evaluation.new) }
    ensures keeps_host { KeepsPromises (H.promised host.old) (H.promised host.new) }
    ensures took { let first = log_of (H.entries host.old) (E.requests evaluation.old) in
        let last = log_of (H.entries host.new) (E.requests evaluation.new) in
        let executes = Executes (E.promised evaluation.old) (H.promised host.old) (scene_in (S.answers scopes.now.syntax.now) scopes.now recipes.now) in
        executes task.now held.now first last result }
{
    let recipe = recipe_at(recipes, task.pair.recipe);
    let home = module_of(scopes, recipe);
    host.begin(recipe.recipe_path(), &task.pair.groups)?;
    recipe.run(
        alloc,
        &home.context,
        scopes.syntax,
        evaluation,
        host,
        held.environment.as_slice(),
        task.dependency,
        &held.positional,
        &held.scope,
    )
}

// Calls a task: its priors are called next, and then its block with what is held for it, unless its pair ran.
fn call_task<'src, S: Syntax, E: Evaluation, H: Host>(
    alloc: Global,
    recipes: &Recipes<'src>,
    scopes: &Scopes<'_, 'src, S>,
    evaluation: &mut E,
    host: &mut H,
    run: &mut RunState<'src>,
    task: Task,
) -> Result<(), Halt<'src>>
    requires ordered { DependenciesStandFirst recipes.now }
    requires resolved { All IsResolved recipes.now }
    requires callable { IsCallable (S.answers scopes.now.syntax.now) scopes.now.modules recipes.now task }
    requires sound { IsSoundIn (S.answers scopes.now.syntax.now) scopes.now.modules recipes.now run.old }
    ensures keeps { KeepsPromises (E.promised evaluation.old) (E.promised evaluation.new) }
    ensures keeps_host { KeepsPromises (H.promised host.old) (H.promised host.new) }
    ensures goes { let first = log_of (H.entries host.old) (E.requests evaluation.old) in
        let last = log_of (H.entries host.new) (E.requests evaluation.new) in
        let calls = SimulatesCall (E.promised evaluation.old) (H.promised host.old) (scene_in (S.answers scopes.now.syntax.now) scopes.now recipes.now) in
        calls task run.old first run.new last result }
    ensures sound { OnOk result (IsSoundIn (S.answers scopes.now.syntax.now) scopes.now.modules recipes.now run.new) }
    ensures lighter { OnOk result (IsLighter run.new.frames.items run.old.frames.items (Frame.Call task)) }
{
    count_call(&mut run.calls, run.current.number)?;
    if run.current.table.contains(&task.pair) {
        return Ok(());
    }
    let Preparation { held, priors } = ask(alloc, recipes, scopes, evaluation, host, &task)?;
    run.frames.push(Frame::Block(task, held))?;
    push_calls(&mut run.frames, priors)?;
    Ok(())
}

// Runs the block of a task with what it holds, which is let go then: it is executed, and its subsequents are called next
// under a table of their own.
fn run_block<'src, S: Syntax, E: Evaluation, H: Host>(
    alloc: Global,
    recipes: &Recipes<'src>,
    scopes: &Scopes<'_, 'src, S>,
    evaluation: &mut E,
    host: &mut H,
    run: &mut RunState<'src>,
    task: Task,
    held: Held<'src>,
) -> Result<(), Halt<'src>>
    requires same { AgreesWith E.sigils E.continues (S.answers scopes.now.syntax.now) }
    requires ordered { DependenciesStandFirst recipes.now }
    requires resolved { All IsResolved recipes.now }
    requires callable { IsCallable (S.answers scopes.now.syntax.now) scopes.now.modules recipes.now task }
    requires served { IsServed (S.answers scopes.now.syntax.now) scopes.now.modules recipes.now task held }
    requires sound { IsSoundIn (S.answers scopes.now.syntax.now) scopes.now.modules recipes.now run.old }
    ensures keeps { KeepsPromises (E.promised evaluation.old) (E.promised evaluation.new) }
    ensures keeps_host { KeepsPromises (H.promised host.old) (H.promised host.new) }
    ensures goes { let first = log_of (H.entries host.old) (E.requests evaluation.old) in
        let last = log_of (H.entries host.new) (E.requests evaluation.new) in
        let blocks = SimulatesBlock (E.promised evaluation.old) (H.promised host.old) (scene_in (S.answers scopes.now.syntax.now) scopes.now recipes.now) in
        blocks task held.entry run.old first run.new last result }
    ensures sound { OnOk result (IsSoundIn (S.answers scopes.now.syntax.now) scopes.now.modules recipes.now run.new) }
    ensures lighter { OnOk result (IsLighter run.new.frames.items run.old.frames.items (Frame.Block task held.entry)) }
{
    execute(alloc, recipes, scopes, evaluation, host, &task, &held)?;
    let subsequents = follow(alloc, recipes, scopes, evaluation, &task, &held)?;
    run.current.table.insert(task.pair)?;
    run.open(alloc, subsequents)?;
    Ok(())
}

// Takes a frame.
fn take<'src, S: Syntax, E: Evaluation, H: Host>(
    alloc: Global,
    recipes: &Recipes<'src>,
    scopes: &Scopes<'_, 'src, S>,
    evaluation: &mut E,
    host: &mut H,
    run: &mut RunState<'src>,
    frame: Frame<'src>,
) -> Result<(), Halt<'src>>
    requires same { AgreesWith E.sigils E.continues (S.answers scopes.now.syntax.now) }
    requires ordered { DependenciesStandFirst recipes.now }
    requires resolved { All IsResolved recipes.now }
    requires there { IsSoundFrameIn (S.answers scopes.now.syntax.now) scopes.now.modules recipes.now (length run.old.calls.items) frame }
    requires sound { IsSoundIn (S.answers scopes.now.syntax.now) scopes.now.modules recipes.now run.old }
    ensures keeps { KeepsPromises (E.promised evaluation.old) (E.promised evaluation.new) }
    ensures keeps_host { KeepsPromises (H.promised host.old) (H.promised host.new) }
    ensures goes { let first = log_of (H.entries host.old) (E.requests evaluation.old) in
        let last = log_of (H.entries host.new) (E.requests evaluation.new) in
        let leads = SimulatesFrame (E.promised evaluation.old) (H.promised host.old) (scene_in (S.answers scopes.now.syntax.now) scopes.now recipes.now) in
        leads frame.entry run.old first run.new last result }
    ensures sound { OnOk result (IsSoundIn (S.answers scopes.now.syntax.now) scopes.now.modules recipes.now run.new) }
    ensures lighter { OnOk result (IsLighter run.new.frames.items run.old.frames.items frame.entry) }
{
    match frame {
        Frame::Call(task) => call_task(alloc, recipes, scopes, evaluation, host, run, task),
        Frame::Block(task, held) => {
            run_block(alloc, recipes, scopes, evaluation, host, run, task, held)
        }
        Frame::Back(outer) => {
            run.current = outer;
            Ok(())
        }
    }
}

// Takes frames until none is left.
fn finish<'src, S: Syntax, E: Evaluation, H: Host>(
    alloc: Global,
    recipes: &Recipes<'src>,
    scopes: &Scopes<'_, 'src, S>,
    evaluation: &mut E,
    host: &mut H,
    run: &mut RunState<'src>,
) -> Result<(), Halt<'src>>
    requires same { AgreesWith E.sigils E.continues (S.answers scopes.now.syntax.now) }
    requires ordered { DependenciesStandFirst recipes.now }
    requires resolved { All IsResolved recipes.now }
    requires sound { IsSoundIn (S.answers scopes.now.syntax.now) scopes.now.modules recipes.now run.old }
    ensures keeps { KeepsPromises (E.promised evaluation.old) (E.promised evaluation.new) }
    ensures keeps_host { KeepsPromises (H.promised host.old) (H.promised host.new) }
    ensures took { let first = log_of (H.entries host.old) (E.requests evaluation.old) in
        let last = log_of (H.entries host.new) (E.requests evaluation.new) in
        let scene = scene_in (S.answers scopes.now.syntax.now) scopes.now recipes.now in
        SimulatesRest (E.promised evaluation.old) (H.promised host.old) scene run.old first run.new last result }
{
    while let Some(frame) = run.frames.pop() {
        take(alloc, recipes, scopes, evaluation, host, run, frame)?;
    }
    Ok(())
}

// Takes the calls of tasks under a first table, and all that they lead to.
fn start<'src, S: Syntax, E: Evaluation, H: Host>(
    alloc: Global,
    recipes: &Recipes<'src>,
    scopes: &Scopes<'_, 'src, S>,
    evaluation: &mut E,
    host: &mut H,
    tasks: Vec<Task>,
) -> Result<Report, Halt<'src>>
    requires same { AgreesWith E.sigils E.continues (S.answers scopes.now.syntax.now) }
    requires ordered { DependenciesStandFirst recipes.now }
    requires resolved { All IsResolved recipes.now }
    requires below { AllBelow (length recipes.now) tasks.items }
    requires home { AllHaveModuleScope (S.answers scopes.now.syntax.now) scopes.now.modules recipes.now tasks.items }
    ensures keeps { KeepsPromises (E.promised evaluation.old) (E.promised evaluation.new) }
    ensures keeps_host { KeepsPromises (H.promised host.old) (H.promised host.new) }
    ensures took { let first = log_of (H.entries host.old) (E.requests evaluation.old) in
        let last = log_of (H.entries host.new) (E.requests evaluation.new) in
        let scene = scene_in (S.answers scopes.now.syntax.now) scopes.now recipes.now in
        HasRunTrace (E.promised evaluation.old) (H.promised host.old) scene tasks.items first last result }
{
    if tasks.is_empty() {
        return Ok(Report {
            calls: Vec::new(alloc),
        });
    }
    let mut state = RunState::new(alloc)?;
    push_calls(&mut state.frames, tasks)?;
    finish(alloc, recipes, scopes, evaluation, host, &mut state)?;
    Ok(Report { calls: state.calls })
}

/// Runs tasks in turn under one once table: each pair once, after its priors, and its subsequents after it under a table
/// of their own. What is held for a task from the questions before its priors is there in its block, and is let go after
/// it. The run ends at the first step that fails. It takes no stack for a chain of recipes.
///
/// Each recipe has its path and at least as many dependencies as priors, and each task is that of a recipe that is there:
/// compiling promises the one, and `InvocationParser` the other. The module of each recipe that the tasks lead to is in
/// `scopes`, where all that the recipe reads has its value.
pub fn run_tasks<'src, S: Syntax, E: Evaluation, H: Host>(
    alloc: Global,
    recipes: &Recipes<'src>,
    scopes: &Scopes<'_, 'src, S>,
    evaluation: &mut E,
    host: &mut H,
    tops: Vec<Task>,
) -> Result<Report, Halt<'src>>
    requires same { AgreesWith E.sigils E.continues (S.answers scopes.now.syntax.now) }
    requires resolved { All IsResolved recipes.now }
    requires below { AllBelow (length recipes.now) tops.items }
    requires home { AllHaveModuleScope (S.answers scopes.now.syntax.now) scopes.now.modules recipes.now tops.items }
    ensures keeps { KeepsPromises (E.promised evaluation.old) (E.promised evaluation.new) }
    ensures keeps_host { KeepsPromises (H.promised host.old) (H.promised host.new) }
    ensures took { let first = log_of (H.entries host.old) (E.requests evaluation.old) in
        let last = log_of (H.entries host.new) (E.requests evaluation.new) in
        let scene = scene_in (S.answers scopes.now.syntax.now) scopes.now recipes.now in
        HasRunTrace (E.promised evaluation.old) (H.promised host.old) scene tops.items first last result }
    ensures account { let first = log_of (H.entries host.old) (E.requests evaluation.old) in
        let last = log_of (H.entries host.new) (E.requests evaluation.new) in
        IsRun (running scopes.now.no_dependencies recipes.now) tops.items first last result }
    ensures expected { let first = log_of (H.entries host.old) (E.requests evaluation.old) in
        let last = log_of (H.entries host.new) (E.requests evaluation.new) in
        let scene = scene_in (S.answers scopes.now.syntax.now) scopes.now recipes.now in
        TasksRunAsExpected (E.promised evaluation.old) (H.promised host.old) scene tops.items first last result }
{
    recipes.are_ordered();
    start(alloc, recipes, scopes, evaluation, host, tops)
}
