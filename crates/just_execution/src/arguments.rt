//! The arguments of dependencies: the texts that they are evaluated to, and the tasks that these give.
ghost use Rattle.std.specs.Prelude.{◌≡◌, ◌++◌, [], get_or, map, set, IfOk, OnOk};
ghost use Rattle.std.specs.List.{All, Contains};
ghost use Rattle.just_recipe.specs.declared.dependency.Dependency.{Dependency};
ghost use Rattle.just_recipe.specs.Recipes.{numbers};
ghost use Rattle.just_run_layers.specs.Covering.{IsCovered, module_of};
ghost use Rattle.just_run_layers.specs.Evaluation.{surroundings};
ghost use Rattle.just_run_layers.specs.Host.{KeepsPromises};
ghost use Rattle.just_execution.specs.Arguments.{argument_steps, dependencies_steps, argument_groups_steps, task_at, tasks_with, texts_given, argument_texts_steps, value_steps, with_text};
ghost use Rattle.just_execution.specs.loops.Arguments.{AreReadableGroups, AreReadableArguments, IsGivenIn, IsReadableArgument};
ghost use Rattle.just_execution.specs.loops.Frames.{items_of_frames};
ghost use Rattle.just_execution.specs.TaskInteractions.{surrounded};
ghost use Rattle.just_run_layers.specs.loops.Interactions.{AsksAlone};
ghost use Rattle.just_tasks.specs.Scene.{scope_contents_of};

use just_data::{Sequence, Text};
use just_errors::Refusal;
use just_parts::Dependency;
use just_parts::layers::{DependencyArgument, Expression, Halt, RunError, Scope, joined};
use just_recipes::Recipes;
use just_run_layers::{Context, Evaluation, Groups, Held};
use just_tasks::{ModuleScope, Pair, Task, place_in};
use std::alloc::{AllocError, Global};
use std::mem::replace;

// The value of an expression.
fn ask_value<'src, E: Evaluation>(
    alloc: Global,
    evaluation: &mut E,
    context: &Context<'_, 'src>,
    scope: &Scope<'src>,
    is_dependency: bool,
    expression: &Expression<'src>,
) -> Result<Sequence<Text>, Halt<'src>>
    requires { IsCovered (module_of context.now) scope.now expression.now }
    ensures keeps { KeepsPromises (E.promised evaluation.old) (E.promised evaluation.new) }
    ensures took { let steps = value_steps (surroundings context.now scope.now is_dependency []) expression.now in
        AsksAlone (E.promised evaluation.old) steps (E.requests evaluation.old) (E.requests evaluation.new) result }
{
    match evaluation.value(alloc, context, scope, is_dependency, &[], expression) {
        Ok(value) => Ok(value),
        Err(Refusal::Memory) => Err(Halt::Memory),
        Err(Refusal::Fault(fault)) => Err(Halt::Failed(RunError::Evaluate(fault))),
    }
}

// The texts that a value gives as an argument.
fn texts_given(
    alloc: Global,
    lists: bool,
    value: Sequence<Text>,
) -> Result<Sequence<Text>, AllocError>
    ensures { IfOk result (λ texts. texts ≡ texts_given lists value) }
{
    if lists {
        return Ok(value);
    }
    let mut texts = Sequence::new(alloc);
    texts.push(joined(alloc, value.as_slice())?)?;
    Ok(texts)
}

// The texts of an argument.
fn ask_argument<'src, E: Evaluation>(
    alloc: Global,
    evaluation: &mut E,
    context: &Context<'_, 'src>,
    scope: &Scope<'src>,
    is_dependency: bool,
    argument: &DependencyArgument<'src>,
) -> Result<Sequence<Text>, Halt<'src>>
    requires { IsReadableArgument (module_of context.now) scope.now argument.now }
    ensures keeps { KeepsPromises (E.promised evaluation.old) (E.promised evaluation.new) }
    ensures took { let steps = argument_steps (surroundings context.now scope.now is_dependency []) argument.now in
        AsksAlone (E.promised evaluation.old) steps (E.requests evaluation.old) (E.requests evaluation.new) result }
{
    let value = ask_value(
        alloc,
        evaluation,
        context,
        scope,
        is_dependency,
        &argument.expression,
    )?;
    Ok(texts_given(alloc, context.settings.lists, value)?)
}

// The texts of a group.
fn ask_group<'src, E: Evaluation>(
    alloc: Global,
    evaluation: &mut E,
    context: &Context<'_, 'src>,
    scope: &Scope<'src>,
    is_dependency: bool,
    arguments: &[DependencyArgument<'src>],
) -> Result<Sequence<Text>, Halt<'src>>
    requires { AreReadableArguments (module_of context.now) scope.now arguments.now }
    ensures keeps { KeepsPromises (E.promised evaluation.old) (E.promised evaluation.new) }
    ensures took { let steps = argument_texts_steps (surroundings context.now scope.now is_dependency []) arguments.now in
        AsksAlone (E.promised evaluation.old) steps (E.requests evaluation.old) (E.requests evaluation.new) result }
{
    let mut texts = Sequence::new(alloc);
    for argument in arguments {
        let more = ask_argument(alloc, evaluation, context, scope, is_dependency, argument)?;
        texts.append(more)?;
    }
    Ok(texts)
}

// The groups of a dependency: the texts of each of them.
fn ask_groups<'src, E: Evaluation>(
    alloc: Global,
    evaluation: &mut E,
    context: &Context<'_, 'src>,
    scope: &Scope<'src>,
    is_dependency: bool,
    given: &[Sequence<DependencyArgument<'src>>],
) -> Result<Groups, Halt<'src>>
    requires { AreReadableGroups (module_of context.now) scope.now given.now }
    ensures keeps { KeepsPromises (E.promised evaluation.old) (E.promised evaluation.new) }
    ensures took { let steps = argument_groups_steps (surroundings context.now scope.now is_dependency []) given.now in
        AsksAlone (E.promised evaluation.old) steps (E.requests evaluation.old) (E.requests evaluation.new) result }
{
    let mut groups = Sequence::new(alloc);
    for group in given {
        let arguments = group.as_slice();
        let texts = ask_group(alloc, evaluation, context, scope, is_dependency, arguments)?;
        groups.push(texts)?;
    }
    Ok(groups)
}

// Groups with one text alone at a place.
fn with_text(
    alloc: Global,
    groups: &Groups,
    place: usize,
    text: &Text,
) -> Result<Groups, AllocError>
    ensures { IfOk result (λ own. own ≡ with_text groups.now place text.now) }
{
    let mut own = groups.clone()?.into_vec();
    if place < own.len() {
        let mut alone = Sequence::new(alloc);
        alone.push(text.clone()?)?;
        own[place] = alone;
    }
    Ok(Sequence::from_vec(own))
}

// The task of the recipe at a place, as a dependency.
fn task_at(recipe: usize, groups: Groups) -> Task
    ensures { result ≡ task_at recipe groups }
{
    Task {
        pair: Pair { recipe, groups },
        dependency: true,
    }
}

// Groups without the texts of the group at a place, and these texts.
fn take_texts(alloc: Global, groups: Groups, place: usize) -> (Groups, Sequence<Text>)
    ensures rest { result.0 ≡ set groups place [] }
    ensures texts { result.1 ≡ get_or groups place [] }
{
    let mut rest = groups.into_vec();
    if place < rest.len() {
        let texts = replace(&mut rest[place], Sequence::new(alloc));
        return (Sequence::from_vec(rest), texts);
    }
    (Sequence::from_vec(rest), Sequence::new(alloc))
}

// Puts a task of the recipe at a place after others for each of some texts, with that text alone in the group at `star`.
fn push_each(
    alloc: Global,
    recipe: usize,
    groups: &Groups,
    star: usize,
    texts: &[Text],
    tasks: &mut Vec<Task>,
) -> Result<(), AllocError>
    ensures { OnOk result (tasks.new.items ≡ tasks.old.items ++ map (task_at recipe) (map (with_text groups.now star) texts.now)) }
{
    for text in texts {
        let groups = with_text(alloc, groups, star, text)?;
        tasks.push(task_at(recipe, groups))?;
    }
    Ok(())
}

// Puts the tasks of a dependency with groups after others.
fn push_tasks(
    alloc: Global,
    recipes: &Recipes,
    dependency: &Dependency,
    groups: Groups,
    tasks: &mut Vec<Task>,
) -> Result<(), AllocError>
    requires { Contains (numbers recipes.now) dependency.now.recipe.0 }
    ensures { OnOk result (tasks.new.items ≡ tasks.old.items ++ tasks_with recipes.now dependency.now groups) }
{
    let recipe = place_in(recipes, dependency.recipe);
    if let Some(star) = dependency.star() {
        let (rest, texts) = take_texts(alloc, groups, star);
        return push_each(alloc, recipe, &rest, star, texts.as_slice(), tasks);
    }
    tasks.push(task_at(recipe, groups))?;
    Ok(())
}

/// The tasks of dependencies of a task's recipe, whose arguments are evaluated in its module, among the values that the
/// task holds.
pub fn ask_dependencies<'src, E: Evaluation>(
    alloc: Global,
    recipes: &Recipes<'src>,
    evaluation: &mut E,
    home: &ModuleScope<'_, 'src>,
    task: &Task,
    held: &Held<'src>,
    dependencies: &[Dependency<'src>],
) -> Result<Vec<Task>, Halt<'src>>
    requires there { All (λ (d : Dependency). Contains (numbers recipes.now) d.recipe.0) dependencies.now }
    requires given { All (IsGivenIn (module_of home.now.context) held.now.scope) dependencies.now }
    ensures keeps { KeepsPromises (E.promised evaluation.old) (E.promised evaluation.new) }
    ensures took { let steps = dependencies_steps recipes.now (surrounded (scope_contents_of home.now) task.now held.now) dependencies.now in
        AsksAlone (E.promised evaluation.old) steps (E.requests evaluation.old) (E.requests evaluation.new) (items_of_frames result) }
{
    let mut tasks = Vec::new(alloc);
    for dependency in dependencies {
        let given = dependency.arguments.as_slice();
        let scope = &held.scope;
        let groups = ask_groups(
            alloc,
            evaluation,
            &home.context,
            scope,
            task.dependency,
            given,
        )?;
        push_tasks(alloc, recipes, dependency, groups, &mut tasks)?;
    }
    Ok(tasks)
}
