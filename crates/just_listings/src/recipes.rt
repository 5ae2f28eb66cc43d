//! The public recipes of a module.
ghost use Rattle.std.specs.Prelude.{◌≡◌, map, IfOk};
ghost use Rattle.std.specs.List.{All, filter};
ghost use Rattle.std.specs.Map.{values_of};
ghost use Rattle.just_recipe_run.specs.Calls.{is_public};
ghost use Rattle.just_listings.specs.Order.{referents};
ghost use Rattle.just_listings.specs.loops.Order.{item_behind};
ghost use Rattle.just_listings.specs.Public.{ArePublicRecipes, recipe_place, recipes_named};

use crate::order::{Place, Placed, in_order, items_of};
use just_justfile::{Justfile, RecipeKey};
use just_parts::Recipe;
use just_recipe_run::RunRecipe;
use just_recipes::Recipes;
use just_table::Table;
use std::alloc::{AllocError, Global};

/// Where a recipe stands.
pub(crate) fn place_of_recipe<'src>(
    alloc: Global,
    recipe: &Recipe<'src>,
) -> Result<Place, AllocError>
    ensures { IfOk result (λ place. place ≡ recipe_place recipe.now) }
{
    Ok(Place {
        imports: recipe.import_offsets.to_sequence(alloc)?,
        offset: recipe.name.offset(),
    })
}

// The public ones of the recipes that a table names and that are held, each where it stands.
fn placed_recipes<'run, 'src>(
    alloc: Global,
    recipes: &'run Recipes<'src>,
    named: &Table<'src, RecipeKey<'src>>,
) -> Result<Vec<Placed<&'run Recipe<'src>>>, AllocError>
    ensures public { IfOk result (λ placed. map item_behind placed.items ≡ filter is_public (recipes_named recipes.now (values_of named.now))) }
    ensures places { IfOk result (λ placed. All (λ it. it.place ≡ recipe_place it.item.now) placed.items) }
{
    let mut placed = Vec::new(alloc);
    for key in named.values() {
        let Some(recipe) = recipes.get(key.number) else {
            continue;
        };
        if recipe.is_public() {
            placed.push(Placed {
                place: place_of_recipe(alloc, recipe)?,
                item: recipe,
            })?;
        }
    }
    Ok(placed)
}

/// The public recipes of a module, in the order of their names, or unsorted in that of the text.
pub(crate) fn public_recipes<'run, 'src>(
    alloc: Global,
    unsorted: bool,
    recipes: &'run Recipes<'src>,
    justfile: &Justfile<'src>,
) -> Result<Vec<&'run Recipe<'src>>, AllocError>
    ensures { IfOk result (λ found. ArePublicRecipes unsorted recipes.now justfile.now (referents found.items)) }
{
    let placed = placed_recipes(alloc, recipes, &justfile.recipes)?;
    let ordered = in_order(unsorted, placed)?;
    let found = items_of(alloc, ordered)?;
    Ok(found)
}
