//! The table of a module's recipes.

ghost use Rattle.std.specs.Prelude.{◌≡◌, IfOk};
ghost use Rattle.just_compiled.specs.Analysis.{recipe_table};
ghost use Rattle.just_module_contents.specs.Definitions.{recipes_in};

use just_justfile::RecipeKey;
use just_module_contents::definitions::Definitions;
use just_table::Table;
use std::alloc::{AllocError, Global};

/// The keys of the recipes, under their names.
pub fn recipe_keys<'a, 'src>(
    alloc: Global,
    definitions: &Definitions<'src, 'a>,
) -> Result<Table<'src, RecipeKey<'src>>, AllocError>
    ensures { IfOk result (λ keys. keys ≡ recipe_table (recipes_in definitions.now)) }
{
    let mut keys = Table::new(alloc);
    for place in 0..definitions.recipes.len() {
        let recipe = definitions.recipe_at(place);
        let key = RecipeKey {
            name: recipe.name.copied(),
            number: recipe.number,
        };
        keys.insert(key)?;
    }
    Ok(keys)
}
