//! What a run reads of the recipes of a compilation, by their places.
ghost use Rattle.std.specs.Prelude.{◌≡◌, ◌<◌, length, slice_get, Some};
ghost use Rattle.std.specs.List.{All, Contains};
ghost use Rattle.just_recipe.specs.declared.dependency.Dependency.{Dependency};
ghost use Rattle.just_recipe.specs.Recipes.{numbers, IsResolved};
ghost use Rattle.just_recipes.specs.Places.{place_of};
ghost use Rattle.just_tasks.specs.Pairs.{needed, prior_dependencies, subsequent_dependencies};
ghost use Rattle.just_tasks.specs.Scene.{running};

use crate::scopes::Scopes;
use just_parts::layers::{Number, Syntax};
use just_parts::{Dependency, Recipe};
use just_recipes::Recipes;

/// The place of a number that a recipe has.
pub fn place_in(recipes: &Recipes, number: Number) -> usize
    requires { Contains (numbers recipes.now) number.0 }
    ensures is { result ≡ place_of recipes.now number.0 }
    ensures within { result < length recipes.now }
{
    recipes.place_of(number).unwrap()
}

/// What the recipe at a place depends on: it stands earlier.
pub fn dependencies_at<'a, 'src>(recipes: &'a Recipes<'src>, place: usize) -> &'a [Dependency<'src>]
    requires { place < length recipes.now }
    ensures is { result.now ≡ needed recipes.now place }
    ensures held { All (λ (d : Dependency). Contains (numbers recipes.now) d.recipe.0) result.now }
{
    recipes.are_ordered();
    recipes.as_slice()[place].dependencies.as_slice()
}

// Those that run before it.
fn priors_at<'a, 'src>(recipes: &'a Recipes<'src>, place: usize) -> &'a [Dependency<'src>]
    requires place { place < length recipes.now }
    requires resolved { All IsResolved recipes.now }
    ensures is { result.now ≡ prior_dependencies recipes.now place }
    ensures held { All (λ (d : Dependency). Contains (numbers recipes.now) d.recipe.0) result.now }
{
    recipes.are_ordered();
    recipes.as_slice()[place].priors()
}

// Those that run after it.
fn subsequents_at<'a, 'src>(recipes: &'a Recipes<'src>, place: usize) -> &'a [Dependency<'src>]
    requires place { place < length recipes.now }
    requires resolved { All IsResolved recipes.now }
    ensures is { result.now ≡ subsequent_dependencies recipes.now place }
    ensures held { All (λ (d : Dependency). Contains (numbers recipes.now) d.recipe.0) result.now }
{
    recipes.are_ordered();
    recipes.as_slice()[place].subsequents()
}

/// What runs before the recipe at a place in a run: nothing where no dependencies run.
pub fn priors_in<'a, 'run, 'src, S: Syntax>(
    scopes: &Scopes<'run, 'src, S>,
    recipes: &'a Recipes<'src>,
    place: usize,
) -> &'a [Dependency<'src>]
    requires place { place < length recipes.now }
    requires resolved { All IsResolved recipes.now }
    ensures is { result.now ≡ prior_dependencies (running scopes.now.no_dependencies recipes.now) place }
    ensures held { All (λ (d : Dependency). Contains (numbers recipes.now) d.recipe.0) result.now }
{
    if scopes.no_dependencies {
        return &[];
    }
    priors_at(recipes, place)
}

/// What runs after it in a run: nothing where no dependencies run.
pub fn subsequents_in<'a, 'run, 'src, S: Syntax>(
    scopes: &Scopes<'run, 'src, S>,
    recipes: &'a Recipes<'src>,
    place: usize,
) -> &'a [Dependency<'src>]
    requires place { place < length recipes.now }
    requires resolved { All IsResolved recipes.now }
    ensures is { result.now ≡ subsequent_dependencies (running scopes.now.no_dependencies recipes.now) place }
    ensures held { All (λ (d : Dependency). Contains (numbers recipes.now) d.recipe.0) result.now }
{
    if scopes.no_dependencies {
        return &[];
    }
    subsequents_at(recipes, place)
}

/// The recipe at a place.
pub fn recipe_at<'a, 'src>(recipes: &'a Recipes<'src>, place: usize) -> &'a Recipe<'src>
    requires { place < length recipes.now }
    ensures { slice_get recipes.now place ≡ Some result.now }
{
    &recipes.as_slice()[place]
}
