//! The rules of the arguments of dependencies.
ghost use Rattle.std.specs.Prelude.{◌≡◌, ◌<◌, false, length, IfErr, IsTrue, OnOk};
ghost use Rattle.std.specs.List.{All};
ghost use Rattle.just_ast_definitions.specs.Parameter.{least_arguments, most_arguments};
ghost use Rattle.just_errors.specs.Causes.{Keeps, Reports};
ghost use Rattle.just_module_contents.specs.Definitions.{recipes_in};
ghost use Rattle.just_module_contents.specs.Recipes.{name_of_recipe, names_of, recipe_at};
ghost use Rattle.just_module_contents.specs.Rules.{IsOutside, StandsWith};
ghost use Rattle.just_module_recipes.specs.Given.{Misgiven};
ghost use Rattle.just_module_recipes.specs.Links.{BreaksLinks, Stands};
ghost use Rattle.just_module_recipes.specs.loops.Making.{AreAllThere, AreExact, AreGivenSets, AreGivenAt, IsGiven, IsThere, parameters_of};
ghost use Rattle.just_module_recipes.specs.loops.Rows.{AreRecipeRows, AreTargets, IsTargetOf, around_by};
ghost use Rattle.just_names.specs.Index.{AreDifferent};

use crate::targets::{Surroundings, Target};
use just_data::Sequence;
use just_errors::ArgumentRange;
use just_module_contents::definitions::Definitions;
use just_parts::layers::{CompileError, CompileErrorKind, Error, Settings, UnresolvedDependency};
use just_paths::Modulepath;
use just_recipes::Recipes;
use std::collections::BTreeSet;

// How many arguments the recipe that a target is takes.
fn range_of<'a, 'src>(
    kept: &Definitions<'src, 'a>,
    settings: &Settings,
    recipes: &Recipes<'src>,
    target: &Target,
) -> ArgumentRange
    requires { IsThere (recipes_in kept.now) recipes.now target.now }
    ensures least { result.min ≡ least_arguments (parameters_of (recipes_in kept.now) recipes.now target.now) }
    ensures most { result.max ≡ most_arguments settings.now.lists (parameters_of (recipes_in kept.now) recipes.now target.now) }
{
    match target {
        Target::Near(place) => kept.recipe_at(*place).argument_range(settings),
        Target::Far(number) => recipes.get(*number).unwrap().argument_range(settings),
        Target::Gone(_) => unreachable!(),
    }
}

// Whether there are too few or too many.
fn is_outside(found: usize, range: &ArgumentRange) -> bool
    ensures yes { IsTrue result → IsOutside found range.now.min range.now.max }
    ensures no { result ≡ false → IsOutside found range.now.min range.now.max → ⊥ }
{
    found < range.min || range.max < found
}

/// Refuses a starred argument where values are no lists, and too few or too many arguments for a recipe that takes so many.
pub fn check_arguments<'src>(
    settings: &Settings,
    dependency: &UnresolvedDependency<'src>,
    range: &ArgumentRange,
) -> Result<(), Error<'src>>
    ensures kept { OnOk result (Keeps (Misgiven settings.now.lists dependency.now range.now.min range.now.max)) }
    ensures named { IfErr result (Reports (Misgiven settings.now.lists dependency.now range.now.min range.now.max)) }
{
    if !settings.lists && dependency.starred() {
        return Err(Error::Compile(CompileError {
            token: dependency.recipe.last.token.copied(),
            kind: CompileErrorKind::MappedDependencyWithoutListsSetting,
        }));
    }
    let found = dependency.arguments.len();
    if is_outside(found, range) {
        return Err(Error::Compile(CompileError {
            token: dependency.recipe.last.token.copied(),
            kind: CompileErrorKind::DependencyArgumentCountMismatch {
                dependency: dependency.recipe.clone()?,
                found,
                min: range.min,
                max: range.max,
            },
        }));
    }
    Ok(())
}

// Refuses that of a dependency of a recipe that stands.
fn check_dependency<'a, 's, 'src>(
    kept: &Definitions<'src, 'a>,
    settings: &Settings,
    it: &Surroundings<'s, 'src>,
    dependency: &UnresolvedDependency<'src>,
    target: &Target,
) -> Result<(), Error<'src>>
    requires different { AreDifferent (names_of (recipes_in kept.now)) }
    requires target { IsTargetOf (recipes_in kept.now) (around_by it.now) dependency.now target.now }
    requires there { IsThere (recipes_in kept.now) it.now.recipes.now target.now }
    requires stands { StandsWith (Stands (recipes_in kept.now) (around_by it.now)) (recipes_in kept.now) dependency.now }
    ensures given { OnOk result (IsGiven settings.now.lists (recipes_in kept.now) (around_by it.now) dependency.now) }
    ensures named { IfErr result (Reports (BreaksLinks settings.now.lists (recipes_in kept.now) (around_by it.now))) }
{
    let range = range_of(kept, settings, it.recipes, target);
    check_arguments(settings, dependency, &range)
}

// Refuses that of all dependencies of a recipe that stands.
fn check_dependencies<'a, 's, 'src>(
    kept: &Definitions<'src, 'a>,
    settings: &Settings,
    it: &Surroundings<'s, 'src>,
    row: &[Target],
    place: usize,
) -> Result<(), Error<'src>>
    requires different { AreDifferent (names_of (recipes_in kept.now)) }
    requires place { place < length kept.now.recipes.items }
    requires row { AreTargets (recipes_in kept.now) (around_by it.now) (recipe_at (recipes_in kept.now) place).dependencies row.now }
    requires there { All (IsThere (recipes_in kept.now) it.now.recipes.now) row.now }
    requires stands { Stands (recipes_in kept.now) (around_by it.now) (name_of_recipe (recipe_at (recipes_in kept.now) place)) }
    ensures given { OnOk result (AreGivenAt settings.now.lists (recipes_in kept.now) (around_by it.now) place) }
    ensures named { IfErr result (Reports (BreaksLinks settings.now.lists (recipes_in kept.now) (around_by it.now))) }
{
    let dependencies = kept.recipe_at(place).dependencies.as_slice();
    for at in 0..row.len() {
        check_dependency(kept, settings, it, &dependencies[at], &row[at])?;
    }
    Ok(())
}

/// Refuses a recipe that stands of which a dependency has a starred argument where values are no lists, or too few or too
/// many arguments.
pub fn check_counts<'a, 's, 'src>(
    kept: &Definitions<'src, 'a>,
    settings: &Settings,
    it: &Surroundings<'s, 'src>,
    rows: &[Sequence<Target>],
    sets: &[BTreeSet<Modulepath>],
) -> Result<(), Error<'src>>
    requires different { AreDifferent (names_of (recipes_in kept.now)) }
    requires rows { AreRecipeRows (recipes_in kept.now) (around_by it.now) (length kept.now.recipes.items) rows.now }
    requires sets { AreExact (recipes_in kept.now) (around_by it.now) sets.now }
    requires there { AreAllThere (recipes_in kept.now) it.now.recipes.now rows.now sets.now }
    ensures given { OnOk result (AreGivenSets settings.now.lists (recipes_in kept.now) (around_by it.now) sets.now (length kept.now.recipes.items)) }
    ensures named { IfErr result (Reports (BreaksLinks settings.now.lists (recipes_in kept.now) (around_by it.now))) }
{
    for place in 0..kept.recipes.len() {
        if !sets[place].is_empty() {
            continue;
        }
        check_dependencies(kept, settings, it, rows[place].as_slice(), place)?;
    }
    Ok(())
}
