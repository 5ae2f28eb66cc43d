//! The recipes of a module that stand, resolved.
ghost use Rattle.std.specs.Prelude.{◌≡◌, ◌<◌, ◌++◌, ℕ, [], get_or, length, IfErr, IfOk, OnOk};
ghost use Rattle.std.specs.List.{All, Contains};
ghost use Rattle.just_errors.specs.Causes.{Keeps, Reports};
ghost use Rattle.just_graph.specs.Steps.{IsOnce};
ghost use Rattle.just_module_contents.specs.Definitions.{recipes_in};
ghost use Rattle.just_module_contents.specs.Recipes.{recipe_at};
ghost use Rattle.just_module_contents.specs.Resolved.{AreNew, unresolved_numbers};
ghost use Rattle.just_module_recipes.specs.Completed.{BreaksOne, CoversRecipes, KeepOwn, TellsOne, completed_by};
ghost use Rattle.just_module_recipes.specs.loops.Completed.{OfUndisabled};
ghost use Rattle.just_module_recipes.specs.loops.Making.{AreAllThere, IsThere, link_of, links_of, made, made_of, target_number, parameters_of, settled_of};
ghost use Rattle.just_module_recipes.specs.loops.Rows.{AreTold, IsOrderOf};
ghost use Rattle.just_recipe.specs.Grouping.{grouped};
ghost use Rattle.just_recipe.specs.Recipes.{IsNew, numbers};
ghost use Rattle.just_recipe_values.specs.Among.{CoversRecipe};

use crate::completion::{Completing, complete};
use crate::targets::Target;
use just_data::Sequence;
use just_module_contents::definitions::Definitions;
use just_parts::layers::{
    ConstantEvaluation, DependencyArgument, Error, Number, Settings, Syntax, UnresolvedDependency,
};
use just_parts::{Dependency, Recipe};
use just_paths::Modulepath;
use just_recipes::Recipes;
use std::alloc::{AllocError, Global};
use std::collections::BTreeSet;

// The number of the recipe that a target is.
fn number_of<'a, 'src>(
    kept: &Definitions<'src, 'a>,
    recipes: &Recipes<'src>,
    target: &Target,
) -> Number
    requires { IsThere (recipes_in kept.now) recipes.now target.now }
    ensures { result ≡ target_number (recipes_in kept.now) target.now }
{
    match target {
        Target::Near(place) => kept.recipe_at(*place).number,
        Target::Far(number) => *number,
        Target::Gone(_) => unreachable!(),
    }
}

// The arguments, in groups for the parameters of the recipe that a target is.
fn group<'a, 'src>(
    alloc: Global,
    kept: &Definitions<'src, 'a>,
    settings: &Settings,
    recipes: &Recipes<'src>,
    target: &Target,
    arguments: &[DependencyArgument<'src>],
) -> Result<Sequence<Sequence<DependencyArgument<'src>>>, AllocError>
    requires { IsThere (recipes_in kept.now) recipes.now target.now }
    ensures { IfOk result (λ groups. groups ≡ grouped settings.now.lists (parameters_of (recipes_in kept.now) recipes.now target.now) arguments.now) }
{
    match target {
        Target::Near(place) => kept
            .recipe_at(*place)
            .group_arguments(alloc, settings, arguments),
        Target::Far(number) => recipes
            .get(*number)
            .unwrap()
            .group_arguments(alloc, settings, arguments),
        Target::Gone(_) => unreachable!(),
    }
}

// A dependency that leads to a target.
fn link<'a, 'src>(
    alloc: Global,
    kept: &Definitions<'src, 'a>,
    settings: &Settings,
    recipes: &Recipes<'src>,
    dependency: &UnresolvedDependency<'src>,
    target: &Target,
) -> Result<Dependency<'src>, AllocError>
    requires { IsThere (recipes_in kept.now) recipes.now target.now }
    ensures { IfOk result (λ made. made ≡ link_of settings.now.lists (recipes_in kept.now) recipes.now dependency.now target.now) }
{
    let arguments = dependency.arguments.as_slice();
    Ok(Dependency {
        arguments: group(alloc, kept, settings, recipes, target, arguments)?,
        path: dependency.recipe.clone()?,
        recipe: number_of(kept, recipes, target),
    })
}

// The dependencies, each of which leads to the target beside it.
fn links<'a, 'src>(
    alloc: Global,
    kept: &Definitions<'src, 'a>,
    settings: &Settings,
    recipes: &Recipes<'src>,
    dependencies: &[UnresolvedDependency<'src>],
    row: &[Target],
) -> Result<Sequence<Dependency<'src>>, AllocError>
    requires count { length row.now ≡ length dependencies.now }
    requires there { All (IsThere (recipes_in kept.now) recipes.now) row.now }
    ensures { IfOk result (λ made. made ≡ links_of settings.now.lists (recipes_in kept.now) recipes.now dependencies.now row.now) }
{
    let mut made = Vec::with_capacity(alloc, row.len())?;
    for at in 0..row.len() {
        made.push(link(alloc, kept, settings, recipes, &dependencies[at], &row[at])?)?;
    }
    Ok(Sequence::from_vec(made))
}

// The resolved form of the recipe at a place, whose dependencies lead to the targets in a row.
fn resolve_one<'a, 'm, 'src, S: Syntax, E: ConstantEvaluation>(
    alloc: Global,
    kept: &Definitions<'src, 'a>,
    completing: &Completing<'m, 'src, S, E>,
    module_path: &Modulepath,
    recipes: &Recipes<'src>,
    row: &[Target],
    place: usize,
) -> Result<Recipe<'src>, Error<'src>>
    requires place { place < length kept.now.recipes.items }
    requires references { length completing.now.references.now ≡ length kept.now.recipes.items }
    requires covered { CoversRecipe completing.now.among (recipe_at (recipes_in kept.now) place) }
    requires count { length row.now ≡ length (recipe_at (recipes_in kept.now) place).dependencies }
    requires there { All (IsThere (recipes_in kept.now) recipes.now) row.now }
    ensures kept { let it = completing.now in
        let breaks = BreaksOne (S.answers it.meanings.syntax.now) (E.answers it.among.evaluation.now) it in
        IfOk result (λ _. Keeps (breaks (recipe_at (recipes_in kept.now) place))) }
    ensures made { let it = completing.now in
        let by = completed_by (S.answers it.meanings.syntax.now) (E.answers it.among.evaluation.now) it in
        let needed = it.references.now in
        let of = made_of by needed it.meanings.settings.now.lists (recipes_in kept.now) recipes.now module_path.now in
        IfOk result (λ made. made ≡ of (recipe_at (recipes_in kept.now) place) (get_or needed place []) row.now) }
    ensures named { let it = completing.now in
        let tells = TellsOne (S.answers it.meanings.syntax.now) (E.answers it.among.evaluation.now) it in
        IfErr result (Reports (tells (recipe_at (recipes_in kept.now) place))) }
{
    let recipe = complete(alloc, completing, kept.recipe_at(place), place)?;
    let dependencies = recipe.dependencies.as_slice();
    let settings = completing.meanings.settings;
    let links = links(alloc, kept, settings, recipes, dependencies, row)?;
    let recipe_path = module_path.join(recipe.name.lexeme())?;
    Ok(recipe.resolved(links, module_path.clone()?, recipe_path))
}

// Adds the recipe at a place, resolved, where nothing disables it.
fn resolve_at<'a, 'm, 'src, S: Syntax, E: ConstantEvaluation>(
    alloc: Global,
    kept: &Definitions<'src, 'a>,
    completing: &Completing<'m, 'src, S, E>,
    module_path: &Modulepath,
    row: &[Target],
    set: &BTreeSet<Modulepath>,
    place: usize,
    recipes: &mut Recipes<'src>,
) -> Result<(), Error<'src>>
    requires place { place < length kept.now.recipes.items }
    requires references { length completing.now.references.now ≡ length kept.now.recipes.items }
    requires covered { CoversRecipe completing.now.among (recipe_at (recipes_in kept.now) place) }
    requires count { length row.now ≡ length (recipe_at (recipes_in kept.now) place).dependencies }
    requires there { set.now.keys ≡ [] → All (IsThere (recipes_in kept.now) recipes.old) row.now }
    requires is_new { set.now.keys ≡ [] → IsNew recipes.old (recipe_at (recipes_in kept.now) place).number.0 }
    requires numbers { set.now.keys ≡ [] → All (λ t. Contains (numbers recipes.old) (target_number (recipes_in kept.now) t).0) row.now }
    ensures kept { let it = completing.now in
        let breaks = BreaksOne (S.answers it.meanings.syntax.now) (E.answers it.among.evaluation.now) it in
        OnOk result (set.now.keys ≡ [] → Keeps (breaks (recipe_at (recipes_in kept.now) place))) }
    ensures made { let it = completing.now in
        let by = completed_by (S.answers it.meanings.syntax.now) (E.answers it.among.evaluation.now) it in
        let settled = settled_of by it.references.now it.meanings.settings.now.lists (recipes_in kept.now) recipes.old module_path.now in
        OnOk result (recipes.new ≡ recipes.old ++ settled row.now set.now.keys place) }
    ensures named { let it = completing.now in
        let tells = TellsOne (S.answers it.meanings.syntax.now) (E.answers it.among.evaluation.now) it in
        IfErr result (Reports (λ c. (set.now.keys ≡ []) × tells (recipe_at (recipes_in kept.now) place) c)) }
{
    if !set.is_empty() {
        return Ok(());
    }
    let resolved = resolve_one(alloc, kept, completing, module_path, recipes, row, place)?;
    recipes.push(resolved)?;
    Ok(())
}

/// Adds the recipes of an order that nothing disables, completed and resolved, to those that are resolved so far. An error
/// tells what is wrong with one of them, and the recipes are dropped then.
pub fn resolve<'a, 'm, 'src, S: Syntax, E: ConstantEvaluation>(
    alloc: Global,
    kept: &Definitions<'src, 'a>,
    completing: &Completing<'m, 'src, S, E>,
    module_path: &Modulepath,
    rows: &[Sequence<Target>],
    order: &[usize],
    sets: &[BTreeSet<Modulepath>],
    recipes: Recipes<'src>,
) -> Result<Recipes<'src>, Error<'src>>
    requires once { IsOnce (unresolved_numbers (recipes_in kept.now)) }
    requires apart { AreNew recipes (recipes_in kept.now) }
    requires references { length completing.now.references.now ≡ length kept.now.recipes.items }
    requires covered { CoversRecipes completing.now (recipes_in kept.now) }
    requires counts { (k : ℕ) → k < length rows.now → length (get_or rows.now k []) ≡ length (recipe_at (recipes_in kept.now) k).dependencies }
    requires rows { length rows.now ≡ length kept.now.recipes.items }
    requires sets { length sets.now ≡ length kept.now.recipes.items }
    requires order { IsOrderOf rows.now order.now }
    requires told { AreTold rows.now order.now (length order.now) sets.now }
    requires there { AreAllThere (recipes_in kept.now) recipes rows.now sets.now }
    ensures kept { let it = completing.now in
        let keep = KeepOwn (S.answers it.meanings.syntax.now) (E.answers it.among.evaluation.now) it in
        IfOk result (λ _. keep (recipes_in kept.now) sets.now) }
    ensures made { let it = completing.now in
        let by = completed_by (S.answers it.meanings.syntax.now) (E.answers it.among.evaluation.now) it in
        let of = made by it.references.now it.meanings.settings.now.lists (recipes_in kept.now) recipes.entry module_path.now in
        IfOk result (λ all. all ≡ recipes.entry ++ of rows.now sets.now order.now) }
    ensures named { let it = completing.now in
        let tells = TellsOne (S.answers it.meanings.syntax.now) (E.answers it.among.evaluation.now) it in
        IfErr result (Reports (OfUndisabled tells (recipes_in kept.now) sets.now)) }
{
    let mut recipes = recipes;
    for n in 0..order.len() {
        let place = order[n];
        resolve_at(
            alloc,
            kept,
            completing,
            module_path,
            rows[place].as_slice(),
            &sets[place],
            place,
            &mut recipes,
        )?;
    }
    Ok(recipes)
}
