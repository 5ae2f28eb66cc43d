//! What is asked of a task: before its priors, and after its body.
ghost use Rattle.std.specs.Prelude.{IfOk};
ghost use Rattle.std.specs.List.{All};
ghost use Rattle.just_parts.specs.Known.{none_hidden};
ghost use Rattle.just_recipe.specs.Recipes.{IsResolved};
ghost use Rattle.just_run_layers.specs.Covering.{AreParametersCovered, BindsParameters, module_of};
ghost use Rattle.just_run_layers.specs.Host.{KeepsPromises};
ghost use Rattle.just_run_layers.specs.Interactions.{log_of};
ghost use Rattle.just_execution.specs.loops.Frames.{items_of_frames};
ghost use Rattle.just_execution.specs.loops.Homes.{IsCallable, IsServed};
ghost use Rattle.just_execution.specs.TaskInteractions.{follow_steps, parameters_steps};
ghost use Rattle.just_run_layers.specs.loops.Interactions.{AsksAlone};
ghost use Rattle.just_execution.specs.loops.TaskInteractions.{Prepares, prepared_of};
ghost use Rattle.just_tasks.specs.Scene.{scope_contents_of, scene_in};

use crate::arguments::ask_dependencies;
use crate::consent::ask_consent;
use just_errors::Refusal;
use just_parts::Recipe;
use just_parts::layers::{Halt, RunError, Syntax};
use just_recipes::Recipes;
use just_run_layers::{Evaluation, Held, Host};
use just_tasks::{ModuleScope, Scopes, Task, module_of, priors_in, recipe_at, subsequents_in};
use std::alloc::Global;

/// What asking for a task comes to.
#[derive(Drop)]
pub struct Preparation<'src> {
    /// What is held for its block.
    pub held: Held<'src>,
    /// Its priors.
    pub priors: Vec<Task>,
}

// What the parameters of a task's recipe come to, by the texts of its groups.
fn ask_parameters<'src, E: Evaluation>(
    alloc: Global,
    recipe: &Recipe<'src>,
    home: &ModuleScope<'_, 'src>,
    evaluation: &mut E,
    task: &Task,
) -> Result<Held<'src>, Halt<'src>>
    requires { AreParametersCovered (module_of home.now.context) home.now.scope none_hidden recipe.now.parameters }
    ensures keeps { KeepsPromises (E.promised evaluation.old) (E.promised evaluation.new) }
    ensures took { let steps = parameters_steps recipe.now task.now (scope_contents_of home.now) in
        AsksAlone (E.promised evaluation.old) steps (E.requests evaluation.old) (E.requests evaluation.new) result }
    ensures binds { IfOk result (λ held. BindsParameters recipe.now.parameters home.now.scope held.scope) }
{
    match evaluation.parameters(
        alloc,
        &home.context,
        &home.scope,
        &task.pair.groups,
        task.dependency,
        recipe.parameters.as_slice(),
        recipe.name.lexeme(),
    ) {
        Ok(held) => Ok(held),
        Err(Refusal::Memory) => Err(Halt::Memory),
        Err(Refusal::Fault(fault)) => Err(Halt::Failed(RunError::Evaluate(fault))),
    }
}

/// The questions before the priors of a task: its parameters, its confirmation, and then the arguments of its priors. What is
/// held for its block comes of them, and its priors.
pub fn ask<'src, S: Syntax, E: Evaluation, H: Host>(
    alloc: Global,
    recipes: &Recipes<'src>,
    scopes: &Scopes<'_, 'src, S>,
    evaluation: &mut E,
    host: &mut H,
    task: &Task,
) -> Result<Preparation<'src>, Halt<'src>>
    requires resolved { All IsResolved recipes.now }
    requires callable { IsCallable (S.answers scopes.now.syntax.now) scopes.now.modules recipes.now task.now }
    ensures keeps { KeepsPromises (E.promised evaluation.old) (E.promised evaluation.new) }
    ensures keeps_host { KeepsPromises (H.promised host.old) (H.promised host.new) }
    ensures took { let first = log_of (H.entries host.old) (E.requests evaluation.old) in
        let last = log_of (H.entries host.new) (E.requests evaluation.new) in
        let scene = scene_in (S.answers scopes.now.syntax.now) scopes.now recipes.now in
        Prepares (E.promised evaluation.old) (H.promised host.old) scene task.now first last (prepared_of result) }
    ensures serves { let serves = IsServed (S.answers scopes.now.syntax.now) scopes.now.modules recipes.now task.now in
        IfOk result (λ preparation. serves preparation.held) }
{
    let recipe = recipe_at(recipes, task.pair.recipe);
    let home = module_of(scopes, recipe);
    let held = ask_parameters(alloc, recipe, home, evaluation, task)?;
    ask_consent(
        alloc,
        scopes.syntax,
        home,
        recipe,
        evaluation,
        host,
        task,
        &held,
    )?;
    let named = priors_in(scopes, recipes, task.pair.recipe);
    let priors = ask_dependencies(alloc, recipes, evaluation, home, task, &held, named)?;
    Ok(Preparation { held, priors })
}

/// The questions after the body of a task, by what it holds: the arguments of its subsequents, which come of them.
pub fn follow<'src, S: Syntax, E: Evaluation>(
    alloc: Global,
    recipes: &Recipes<'src>,
    scopes: &Scopes<'_, 'src, S>,
    evaluation: &mut E,
    task: &Task,
    held: &Held<'src>,
) -> Result<Vec<Task>, Halt<'src>>
    requires resolved { All IsResolved recipes.now }
    requires callable { IsCallable (S.answers scopes.now.syntax.now) scopes.now.modules recipes.now task.now }
    requires served { IsServed (S.answers scopes.now.syntax.now) scopes.now.modules recipes.now task.now held.now }
    ensures keeps { KeepsPromises (E.promised evaluation.old) (E.promised evaluation.new) }
    ensures took { let steps = follow_steps (scene_in (S.answers scopes.now.syntax.now) scopes.now recipes.now) task.now held.now in
        AsksAlone (E.promised evaluation.old) steps (E.requests evaluation.old) (E.requests evaluation.new) (items_of_frames result) }
{
    let home = module_of(scopes, recipe_at(recipes, task.pair.recipe));
    let named = subsequents_in(scopes, recipes, task.pair.recipe);
    ask_dependencies(alloc, recipes, evaluation, home, task, held, named)
}
