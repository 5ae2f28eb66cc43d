//! Recipes and variables, as they are written.
use just_examples_format::lists::add_lines;
use just_justfile::{Justfile, Recipes};
use just_listings::shown;
use just_recipe::RecipeSignature;
use std::alloc::{AllocError, Global};

/// Adds how a recipe is called, and the recipe as it is written, or a variable as it is; of those that the root's module has, the
/// one of a name.
pub(crate) fn add_shown(
    root: &Justfile,
    recipes: &Recipes,
    alloc: Global,
    name: &str,
    text: &mut String,
) -> Result<(), AllocError> {
    let mut shown = String::new(alloc);
    if let Some(assignment) = root.assignments.get(name) {
        write!(shown, "{assignment}")?;
    }
    if let Some(key) = root.recipes.get(name) {
        if let Some(recipe) = recipes.get(key.number) {
            writeln!(text, "called {}", RecipeSignature { name, recipe })?;
            write!(shown, "{recipe}")?;
        }
    }
    add_lines(shown.as_str(), text)
}

// Adds the lines of what is written, each behind its place from 1.
fn add_numbered(shown: &str, text: &mut String) -> Result<(), AllocError> {
    for (place, line) in shown.lines().enumerate() {
        write!(text, "{}", place.saturating_add(1))?;
        if !line.is_empty() {
            write!(text, " {line}")?;
        }
        text.push('\n')?;
    }
    Ok(())
}

/// Adds the root's module as it is written.
pub(crate) fn add_dump<'src>(
    root: &Justfile<'src>,
    recipes: &Recipes<'src>,
    alloc: Global,
    text: &mut String,
) -> Result<(), AllocError> {
    let mut written = String::new(alloc);
    write!(written, "{}", shown(root, recipes))?;
    add_numbered(written.as_str(), text)
}
