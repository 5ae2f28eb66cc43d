//! What listings show of a module and of the public modules below it.
ghost use Rattle.std.specs.Prelude.{◌≡◌, ◌++◌, map, IfOk, OnOk};
ghost use Rattle.just_listings.specs.Below.{ArePublicAliasesBelow, ArePublicRecipesBelow};
ghost use Rattle.just_listings.specs.Order.{referents};
ghost use Rattle.just_listings.specs.Public.{alias_behind, aliases_shown};

use crate::listed_alias::ListedAlias;
use crate::recipes::public_recipes;
use crate::walk::{preorder, public_choice};
use just_justfile::{Justfile, RecipeAlias};
use just_parts::Recipe;
use just_paths::Modulepath;
use just_recipes::Recipes;
use std::alloc::{AllocError, Global};

/// The public recipes of a module and of the public modules below it, those of a module before those of the modules in it.
pub(crate) fn public_recipes_below<'run, 'src>(
    alloc: Global,
    unsorted: bool,
    recipes: &'run Recipes<'src>,
    root: &Justfile<'src>,
) -> Result<Vec<&'run Recipe<'src>>, AllocError>
    ensures { IfOk result (λ found. ArePublicRecipesBelow unsorted recipes.now root.now (referents found.items)) }
{
    let modules = preorder(alloc, public_choice(unsorted), root)?;
    let mut found = Vec::new(alloc);
    for at in 0..modules.len() {
        let mut own = public_recipes(alloc, unsorted, recipes, &*modules[at])?;
        found.append(&mut own)?;
    }
    Ok(found)
}

// Adds the public aliases of the recipes of a module, each with the path of the module.
fn add_aliases<'run, 'src>(
    found: &mut Vec<(&'run RecipeAlias<'src>, &'run Modulepath)>,
    justfile: &'run Justfile<'src>,
) -> Result<(), AllocError>
    ensures { OnOk result (map alias_behind found.new.items ≡ map alias_behind found.old.items ++ aliases_shown justfile.now) }
{
    for alias in justfile.aliases.recipes.values() {
        if alias.is_public() {
            found.push((alias, &justfile.module_path))?;
        }
    }
    Ok(())
}

/// The public aliases of recipes of a module and of the public modules below it, each with the path of its module.
pub(crate) fn public_aliases_below<'run, 'src>(
    alloc: Global,
    unsorted: bool,
    root: &'run Justfile<'src>,
) -> Result<Vec<(&'run RecipeAlias<'src>, &'run Modulepath)>, AllocError>
    ensures { IfOk result (λ found. ArePublicAliasesBelow unsorted root.now (map alias_behind found.items)) }
{
    let modules = preorder(alloc, public_choice(unsorted), root)?;
    let mut found = Vec::new(alloc);
    for at in 0..modules.len() {
        add_aliases(&mut found, modules[at])?;
    }
    Ok(found)
}
