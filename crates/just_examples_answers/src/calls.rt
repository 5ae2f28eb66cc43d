//! Calls of the recipes and the modules of a compilation.
use just_justfile::{Justfile, Recipes};
use just_parts::layers::Number;
use std::alloc::AllocError;

// Adds what a call gives for the number of a recipe.
fn add_number(
    recipes: &Recipes,
    call: &str,
    number: Number,
    text: &mut String,
) -> Result<(), AllocError> {
    if call == "Recipes::place_of" {
        return match recipes.place_of(number) {
            Some(place) => writeln!(text, "place_of {place}"),
            None => text.push_str("place_of nothing\n"),
        };
    }
    match recipes.get(number) {
        Some(recipe) => writeln!(text, "get {}", recipe.name),
        None => text.push_str("get nothing\n"),
    }
}

/// Adds what a call of the recipes of a compilation gives; `Recipes::get` and `Recipes::place_of` are given the number of the
/// recipe that the root's module has under a name.
pub fn add_recipes(
    root: &Justfile,
    recipes: &Recipes,
    call: &str,
    name: &str,
    text: &mut String,
) -> Result<(), AllocError> {
    match call {
        "Recipes::len" => writeln!(text, "len {}", recipes.len()),
        "Recipes::is_empty" => writeln!(text, "is_empty {}", recipes.is_empty()),
        _ => match root.recipes.get(name) {
            Some(key) => add_number(recipes, call, key.number, text),
            None => text.push_str("no recipe\n"),
        },
    }
}

// Adds what a call gives for a module.
fn add_module(module: &Justfile, call: &str, text: &mut String) -> Result<(), AllocError> {
    match call {
        "Justfile::name" => write!(text, " '{}'", module.name()),
        _ => write!(text, " {}", module.is_submodule()),
    }
}

/// Adds what `Justfile::name` or `Justfile::is_submodule` gives for the root's module, and for those that it declares.
pub fn add_justfile(root: &Justfile, call: &str, text: &mut String) -> Result<(), AllocError> {
    text.push_str("modules")?;
    add_module(root, call, text)?;
    for module in root.modules.as_slice() {
        add_module(module, call, text)?;
    }
    text.push('\n')
}
