//! What a name means in a module.
ghost use Rattle.std.specs.Prelude.{◌≡◌, option_map};
ghost use Rattle.std.specs.Option.{option_copied};
ghost use Rattle.just_justfile.specs.Walks.{AreModulesOrdered};
ghost use Rattle.just_invocations.specs.Meaning.{disabling, meaning, path_texts};
ghost use Rattle.just_invocations.specs.loops.Meaning.{meaning_of};

use just_evaluate::submodule_aliased;
use just_justfile::{Disabled, Justfile, find_module};
use just_parts::Recipe;
use just_paths::Modulepath;
use just_recipes::Recipes;
use just_table::Table;
use std::collections::BTreeSet;

/// What a look-up of a name has found.
#[derive(Clone, Copy)]
pub(crate) enum Found<'run, 'src> {
    /// A module, also by an alias.
    Module(&'run Justfile<'src>),
    /// A recipe, also by an alias.
    Recipe(&'run Recipe<'src>),
    /// A recipe that these modules disable.
    DisabledRecipe(&'run BTreeSet<Modulepath>),
    /// An alias that these modules disable.
    DisabledAlias(&'run BTreeSet<Modulepath>),
    /// An optional module without a file.
    AbsentModule,
    /// Nothing.
    Nothing,
}

// The modules that disable what has the name.
fn disabling<'run, 'src>(
    table: &'run Table<'src, Disabled<'src>>,
    name: &str,
) -> Option<&'run BTreeSet<Modulepath>>
    ensures { option_map path_texts (option_copied result) ≡ disabling table.now name.now }
{
    match table.get(name) {
        Some(it) => Some(&it.modules),
        None => None,
    }
}

/// What the name means in a module, the first that applies: a module, a module by an alias, a recipe, a recipe by an alias, a
/// disabled recipe, a disabled alias, a module without a file.
pub(crate) fn look_up<'run, 'src>(
    root: &'run Justfile<'src>,
    recipes: &'run Recipes<'src>,
    here: &'run Justfile<'src>,
    name: &str,
) -> Found<'run, 'src>
    requires root { AreModulesOrdered root.now }
    requires here { AreModulesOrdered here.now }
    ensures { meaning_of result ≡ meaning root.now recipes.now here.now name.now }
{
    if let Some(module) = find_module(here.modules.as_slice(), name) {
        return Found::Module(module);
    }
    if let Some(module) = submodule_aliased(root, here, name) {
        return Found::Module(module);
    }
    if let Some(recipe) = here.own_recipe(recipes, name) {
        return Found::Recipe(recipe);
    }
    if let Some(recipe) = here.aliased_recipe(recipes, name) {
        return Found::Recipe(recipe);
    }
    if let Some(modules) = disabling(&here.disabled_recipes, name) {
        return Found::DisabledRecipe(modules);
    }
    if let Some(modules) = disabling(&here.aliases.disabled, name) {
        return Found::DisabledAlias(modules);
    }
    if here.absent_modules.contains_key(name) {
        return Found::AbsentModule;
    }
    Found::Nothing
}
