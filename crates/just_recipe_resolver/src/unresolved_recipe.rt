//! One recipe, resolved over those that it depends on.

ghost use Rattle.std.specs.Prelude.{◌≡◌, ◌<◌, ◌⊎◌, IfErr, IfOk, OnOk, Some, length, slice_get};
ghost use Rattle.just_errors.specs.Causes.{Keeps, Reports};
ghost use Rattle.just_module_contents.specs.Recipes.{lent, name_of_recipe};
ghost use Rattle.just_module_contents.specs.Resolved.{path_to};
ghost use Rattle.just_recipe.specs.Resolved.{resolved};
ghost use Rattle.just_recipe_resolution.specs.Basis.{BreaksOn, IsRecipeCovered, TellsOn, basis_by, basis_of, completion_on};
ghost use Rattle.just_recipe_resolver.specs.Resolved.{GivesWrongly, IsResolvedTo, link_to, links_to};
ghost use Rattle.just_recipe_resolver.specs.loops.Resolved.{IsCompleted};

use crate::recipe_resolver::resolving_by;
use just_data::Sequence;
use just_module_recipes::{Completing, check_arguments, complete};
use just_module_variables::VariableResolver;
use just_name_resolution::Tables;
use just_parts::layers::{
    ConstantEvaluation, Error, Scope, Settings, Syntax, UnresolvedDependency,
};
use just_parts::{Dependency, Recipe, UnresolvedRecipe};
use just_paths::Modulepath;
use just_recipe_needs::RecipeReferences;
use just_recipe_resolution::Resolving;
use std::alloc::{AllocError, Global};

// The recipes that a recipe depends on, one beside each of its dependencies.
#[derive(Drop)]
struct Beside<'src, 'a> {
    recipes: Vec<&'a Recipe<'src>>,
}

// The recipe that is lent at a place.
fn lent_at<'a, 'src>(beside: &Beside<'src, 'a>, place: usize) -> &'a Recipe<'src>
    requires { place < length beside.now.recipes.items }
    ensures { slice_get (lent beside.now.recipes.items) place ≡ Some result.now }
{
    beside.recipes[place]
}

// Refuses a dependency that gives the recipe beside it a starred argument where values are no lists, or too few or too many.
fn check_given<'a, 'src>(
    settings: &Settings,
    dependencies: &[UnresolvedDependency<'src>],
    beside: &Beside<'src, 'a>,
) -> Result<(), Error<'src>>
    requires { length beside.now.recipes.items ≡ length dependencies.now }
    ensures kept { OnOk result (Keeps (GivesWrongly settings.now.lists dependencies.now (lent beside.now.recipes.items))) }
    ensures named { IfErr result (Reports (GivesWrongly settings.now.lists dependencies.now (lent beside.now.recipes.items))) }
{
    for at in 0..dependencies.len() {
        let range = lent_at(beside, at).argument_range(settings);
        check_arguments(settings, &dependencies[at], &range)?;
    }
    Ok(())
}

// A dependency on a recipe, with its number, and its arguments in groups for the parameters.
fn link_to<'src>(
    alloc: Global,
    settings: &Settings,
    dependency: &UnresolvedDependency<'src>,
    recipe: &Recipe<'src>,
) -> Result<Dependency<'src>, AllocError>
    ensures { IfOk result (λ made. made ≡ link_to settings.now.lists dependency.now recipe.now) }
{
    let arguments = dependency.arguments.as_slice();
    Ok(Dependency {
        arguments: recipe.group_arguments(alloc, settings, arguments)?,
        path: dependency.recipe.clone()?,
        recipe: recipe.number,
    })
}

// Dependencies, each on the recipe beside it.
fn links_to<'a, 'src>(
    alloc: Global,
    settings: &Settings,
    dependencies: &[UnresolvedDependency<'src>],
    beside: &Beside<'src, 'a>,
) -> Result<Sequence<Dependency<'src>>, AllocError>
    requires { length beside.now.recipes.items ≡ length dependencies.now }
    ensures { IfOk result (λ made. made ≡ links_to settings.now.lists dependencies.now (lent beside.now.recipes.items)) }
{
    let mut made = Vec::with_capacity(alloc, dependencies.len())?;
    for at in 0..dependencies.len() {
        made.push(link_to(alloc, settings, &dependencies[at], lent_at(beside, at))?)?;
    }
    Ok(Sequence::from_vec(made))
}

// The recipe, completed: with the numbers of what the names in it mean and of what it needs, and with what its doc, helps and
// patterns come to.
fn completed<'m, 'src, S: Syntax, E: ConstantEvaluation>(
    alloc: Global,
    resolving: Resolving<'m, 'src, S, E>,
    recipe: &UnresolvedRecipe<'src>,
) -> Result<UnresolvedRecipe<'src>, Error<'src>>
    requires { IsRecipeCovered (basis_of resolving) recipe.now }
    ensures kept { let by = resolving.entry in
        let breaks = BreaksOn (S.answers by.meanings.syntax.now) (E.answers by.among.evaluation.now) (basis_of by) in
        IfOk result (λ _. Keeps (breaks recipe.now)) }
    ensures made { let by = resolving.entry in
        let completed = completion_on (S.answers by.meanings.syntax.now) (E.answers by.among.evaluation.now) (basis_of by) in
        IfOk result (IsCompleted completed recipe.now) }
    ensures named { let by = resolving.entry in
        let tells = TellsOn (S.answers by.meanings.syntax.now) (E.answers by.among.evaluation.now) (basis_of by) in
        IfErr result (Reports (tells recipe.now)) }
{
    let Resolving {
        meanings,
        among,
        overrides,
    } = resolving;
    let tables = Tables {
        assignments: among.assignments,
        functions: among.functions,
    };
    let (syntax, settings) = (meanings.syntax, meanings.settings);
    let mut references = RecipeReferences::new(alloc, tables, overrides);
    let mut needed = Vec::with_capacity(alloc, 1)?;
    needed.push(references.references_of(alloc, syntax, settings, recipe)?)?;
    let completing = Completing {
        meanings,
        among,
        references: needed.as_slice(),
    };
    complete(alloc, &completing, recipe, 0)
}

// A completed recipe with these dependencies, at its place in the module at a path.
fn placed<'src>(
    completed: UnresolvedRecipe<'src>,
    dependencies: Sequence<Dependency<'src>>,
    module_path: &Modulepath,
) -> Result<Recipe<'src>, AllocError>
    ensures { let path = module_path.now in
        IfOk result (λ made. made ≡ resolved completed.entry dependencies.entry path (path_to path (name_of_recipe completed.entry))) }
{
    let recipe_path = module_path.join(completed.name.lexeme())?;
    Ok(completed.resolved(dependencies, module_path.clone()?, recipe_path))
}

// The recipe, resolved over those that stand beside its dependencies.
fn resolve_over<'a, 'm, 'src, S: Syntax, E: ConstantEvaluation>(
    alloc: Global,
    recipe: &UnresolvedRecipe<'src>,
    resolving: Resolving<'m, 'src, S, E>,
    module_path: &Modulepath,
    beside: &Beside<'src, 'a>,
) -> Result<Recipe<'src>, Error<'src>>
    requires count { length beside.now.recipes.items ≡ length recipe.now.dependencies }
    requires covered { IsRecipeCovered (basis_of resolving) recipe.now }
    ensures given { let lists = resolving.entry.meanings.settings.now.lists in
        IfOk result (λ _. Keeps (GivesWrongly lists recipe.now.dependencies (lent beside.now.recipes.items))) }
    ensures own { let by = resolving.entry in
        let breaks = BreaksOn (S.answers by.meanings.syntax.now) (E.answers by.among.evaluation.now) (basis_of by) in
        IfOk result (λ _. Keeps (breaks recipe.now)) }
    ensures made { let by = resolving.entry in
        let completed = completion_on (S.answers by.meanings.syntax.now) (E.answers by.among.evaluation.now) (basis_of by) in
        let is = IsResolvedTo completed by.meanings.settings.now.lists module_path.now recipe.now in
        IfOk result (is (lent beside.now.recipes.items)) }
    ensures named { let by = resolving.entry in
        let gives = GivesWrongly by.meanings.settings.now.lists recipe.now.dependencies (lent beside.now.recipes.items) in
        let tells = TellsOn (S.answers by.meanings.syntax.now) (E.answers by.among.evaluation.now) (basis_of by) in
        IfErr result (Reports (λ c. gives c ⊎ tells recipe.now c)) }
{
    let settings = resolving.meanings.settings;
    check_given(settings, recipe.dependencies.as_slice(), beside)?;
    let made = completed(alloc, resolving, recipe)?;
    let links = links_to(alloc, settings, made.dependencies.as_slice(), beside)?;
    Ok(placed(made, links, module_path)?)
}

/// Resolves a recipe of the module at `module_path`, of which each dependency leads to the recipe beside it, under the settings
/// of the module. What names mean in it `variable_resolver` says, and `constants` what its doc, helps and patterns read. An
/// error tells a dependency with a starred argument where values are no lists, or with too few or too many, a name in the
/// recipe that is at fault, what of its doc, helps and patterns has no value, or a pattern that is refused.
///
/// Conditions: there is one resolved recipe for each dependency, and whatever its doc, helps and patterns read has a value
/// among the constants.
pub fn resolve<'a, 'm, 'v, 'src, S: Syntax, E: ConstantEvaluation>(
    recipe: UnresolvedRecipe<'src>,
    alloc: Global,
    syntax: &'m S,
    evaluation: &'m E,
    constants: &'m Scope<'src>,
    module_path: &Modulepath,
    resolved: Vec<&'a Recipe<'src>>,
    settings: &'m Settings,
    variable_resolver: &'m VariableResolver<'v, 'src, S>,
) -> Result<Recipe<'src>, Error<'src>>
    requires count { length resolved.items ≡ length recipe.dependencies }
    requires covered { IsRecipeCovered (basis_by variable_resolver.now constants.now settings.now) recipe }
    ensures given { IfOk result (λ _. Keeps (GivesWrongly settings.now.lists recipe.entry.dependencies (lent resolved.entry.items))) }
    ensures own { let basis = basis_by variable_resolver.now constants.now settings.now in
        IfOk result (λ _. Keeps (BreaksOn (S.answers syntax.now) (E.answers evaluation.now) basis recipe.entry)) }
    ensures made { let basis = basis_by variable_resolver.now constants.now settings.now in
        let completed = completion_on (S.answers syntax.now) (E.answers evaluation.now) basis in
        IfOk result (IsResolvedTo completed settings.now.lists module_path.now recipe.entry (lent resolved.entry.items)) }
    ensures named { let basis = basis_by variable_resolver.now constants.now settings.now in
        let gives = GivesWrongly settings.now.lists recipe.entry.dependencies (lent resolved.entry.items) in
        IfErr result (Reports (λ c. gives c ⊎ TellsOn (S.answers syntax.now) (E.answers evaluation.now) basis recipe.entry c)) }
{
    let beside = Beside { recipes: resolved };
    let resolving = resolving_by(syntax, evaluation, constants, settings, variable_resolver);
    resolve_over(alloc, &recipe, resolving, module_path, &beside)
}
