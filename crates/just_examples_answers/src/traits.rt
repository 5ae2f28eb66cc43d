//! Calls that compiled recipes and modules have by traits.
use just_examples_format::faults::unless_fault;
use just_justfile::{Justfile, Recipes};
use just_listings::Stability;
use just_parts::Recipe;
use just_parts::layers::{Config, Settings};
use just_recipe_run::RunRecipe;
use std::alloc::{AllocError, Global};

// Adds what a call of a recipe gives under the settings of its module.
fn add_call(
    recipe: &Recipe,
    settings: &Settings,
    call: &str,
    text: &mut String,
) -> Result<(), AllocError> {
    let answer = match call {
        "change_directory" => recipe.change_directory(settings),
        "is_parallel" => recipe.is_parallel(),
        "is_public" => recipe.is_public(),
        "takes_positional_arguments" => recipe.takes_positional_arguments(settings),
        _ => return text.push_str("no call\n"),
    };
    writeln!(text, "{call} {answer}")
}

/// Adds what a call gives for the recipe that the root's module has under a name.
pub fn add_recipe(
    root: &Justfile,
    recipes: &Recipes,
    call: &str,
    name: &str,
    text: &mut String,
) -> Result<(), AllocError> {
    let Some(key) = root.recipes.get(name) else {
        return text.push_str("no recipe\n");
    };
    match recipes.get(key.number) {
        Some(recipe) => add_call(recipe, &root.settings, call, text),
        None => text.push_str("no recipe\n"),
    }
}

/// Adds whether all that the root's module and those below it use is stable, or allowed, or else the fault.
pub fn add_stability(
    root: &Justfile,
    alloc: Global,
    config: &Config,
    text: &mut String,
) -> Result<(), AllocError> {
    match unless_fault(root.check_unstable(alloc, config), text)? {
        Some(()) => text.push_str("stable\n"),
        None => Ok(()),
    }
}
