//! Which variables the recipes have that a run leads to.
ghost use Rattle.std.specs.Prelude.{◌≡◌, ◌<◌, ◌↔◌, ◌||◌, ℕ, length, IfOk, OnOk};
ghost use Rattle.std.specs.HashSet.{contains};
ghost use Rattle.std.specs.List.{All, Contains, list_any};
ghost use Rattle.just_tasks.specs.Leading.{LeadTo, needed_places, places};
ghost use Rattle.just_tasks.specs.Pairs.{AllBelow};
ghost use Rattle.just_graph.specs.Building.{EachRow};
ghost use Rattle.just_parts.specs.Needs.{same_number};
ghost use Rattle.just_scopes.specs.loops.Need.{AreUsed};

use just_graph::reach;
use just_parts::layers::Number;
use just_recipes::Recipes;
use just_tasks::{Task, dependencies_at, place_in, recipe_at};
use std::alloc::{AllocError, Global};
use std::collections::HashSet;

// The places of what the recipe at a place depends on.
fn row_of(alloc: Global, recipes: &Recipes, place: usize) -> Result<Vec<usize>, AllocError>
    requires { place < length recipes.now }
    ensures { IfOk result (λ row. row.items ≡ needed_places recipes.now place) }
{
    let mut row = Vec::new(alloc);
    for dependency in dependencies_at(recipes, place) {
        row.push(place_in(recipes, dependency.recipe))?;
    }
    Ok(row)
}

// The same of each recipe.
fn rows_of(alloc: Global, recipes: &Recipes) -> Result<Vec<Vec<usize>>, AllocError>
    ensures { IfOk result (λ rows. EachRow (λ place row. row ≡ needed_places recipes.now place) (length recipes.now) rows.items) }
{
    let mut rows = Vec::new(alloc);
    for place in 0..recipes.len() {
        rows.push(row_of(alloc, recipes, place)?)?;
    }
    Ok(rows)
}

// The places of tasks.
fn places_of(alloc: Global, tops: &[Task]) -> Result<Vec<usize>, AllocError>
    ensures { IfOk result (λ found. found.items ≡ places tops.now) }
{
    let mut found = Vec::new(alloc);
    for task in tops {
        found.push(task.pair.recipe)?;
    }
    Ok(found)
}

// Puts numbers into a set.
fn add_numbers(set: &mut HashSet<Number>, numbers: &[Number]) -> Result<(), AllocError>
    ensures { OnOk result ((n : _) → contains same_number set.new n ≡ (contains same_number set.old n || list_any (same_number n) numbers.now)) }
{
    for number in numbers {
        set.insert(*number)?;
    }
    Ok(())
}

// The places of the recipes to which tasks lead.
fn places_led_to(alloc: Global, recipes: &Recipes, tops: &[Task]) -> Result<Vec<usize>, AllocError>
    requires { AllBelow (length recipes.now) tops.now }
    ensures led { IfOk result (λ found. (place : ℕ) → Contains found.items place ↔ LeadTo recipes.now tops.now place) }
    ensures below { IfOk result (λ found. All (λ place. place < length recipes.now) found.items) }
{
    recipes.are_ordered();
    let rows = rows_of(alloc, recipes)?;
    let starts = places_of(alloc, tops)?;
    let mut stops = Vec::new(alloc);
    stops.resize(rows.len(), false)?;
    let found = reach(alloc, rows.as_slice(), starts.as_slice(), stops.as_slice())?;
    Ok(found)
}

/// The numbers that the recipes have to which tasks lead: those of all variables that they need.
pub(crate) fn used_numbers(
    alloc: Global,
    recipes: &Recipes,
    tops: &[Task],
) -> Result<HashSet<Number>, AllocError>
    requires { AllBelow (length recipes.now) tops.now }
    ensures { IfOk result (λ used. AreUsed recipes.now tops.now (contains same_number used)) }
{
    let found = places_led_to(alloc, recipes, tops)?;
    let mut used = HashSet::new(alloc);
    for index in 0..found.len() {
        let recipe = recipe_at(recipes, found[index]);
        add_numbers(&mut used, recipe.variable_references.get().as_slice())?;
    }
    Ok(used)
}
