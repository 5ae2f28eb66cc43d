//! A listing as a user reads it.
use just_examples_format::lists::add_lines;
use just_justfile::{Justfile, Recipes};
use just_listings::{GroupListing, Listing, ModuleListing, RecipeListing};
use just_parts::Recipe;
use just_parts::layers::Config;
use just_recipe::RecipeSignature;
use std::alloc::{AllocError, Global};

// Whether a recipe stands under a heading: that of a group that it has, or the first one, where it has none.
fn is_recipe_under(recipe: &Recipe, alloc: Global, group: &str) -> Result<bool, AllocError> {
    let mut is_first = true;
    for own in recipe.groups(alloc)? {
        if own.as_str() == group {
            return Ok(true);
        }
        is_first = false;
    }
    Ok(is_first && group.is_empty())
}

// Whether a module stands under a heading, likewise.
fn is_module_under(module: &Justfile, alloc: Global, group: &str) -> Result<bool, AllocError> {
    let mut is_first = true;
    for own in module.groups(alloc)? {
        if own == group {
            return Ok(true);
        }
        is_first = false;
    }
    Ok(is_first && group.is_empty())
}

// Adds the doc of something, where it has one.
fn add_doc(doc: Option<&str>, text: &mut String) -> Result<(), AllocError> {
    match doc {
        Some(doc) => writeln!(text, " # {doc}"),
        None => text.push('\n'),
    }
}

// Adds the recipes under a heading, each as it is called.
fn add_recipes<'src>(
    root: &Justfile<'src>,
    recipes: &Recipes<'src>,
    alloc: Global,
    config: &Config,
    group: &str,
    text: &mut String,
) -> Result<(), AllocError> {
    for recipe in root.public_recipes(alloc, config, recipes)? {
        if is_recipe_under(recipe, alloc, group)? {
            let name = recipe.name();
            write!(text, "    {}", RecipeSignature { name, recipe })?;
            add_doc(recipe.doc(), text)?;
        }
    }
    Ok(())
}

// Adds the modules under a heading.
fn add_modules(
    root: &Justfile,
    alloc: Global,
    config: &Config,
    group: &str,
    text: &mut String,
) -> Result<(), AllocError> {
    for module in root.public_modules(alloc, config)? {
        if is_module_under(module, alloc, group)? {
            write!(text, "    {} ...", module.name())?;
            add_doc(module.doc.as_ref().map(|doc| doc.as_str()), text)?;
        }
    }
    Ok(())
}

/// Adds the public recipes and modules of the root's module by their groups, each recipe as it is called, with their docs;
/// where a word says `unsorted`, in the order of the text.
pub(crate) fn add_printed<'src>(
    root: &Justfile<'src>,
    recipes: &Recipes<'src>,
    alloc: Global,
    word: &str,
    text: &mut String,
) -> Result<(), AllocError> {
    let mut config = Config::new(alloc);
    config.unsorted = word == "unsorted";
    let mut printed = String::new(alloc);
    printed.push_str("Available recipes:\n")?;
    add_recipes(root, recipes, alloc, &config, "", &mut printed)?;
    add_modules(root, alloc, &config, "", &mut printed)?;
    for group in root.public_groups(alloc, &config, recipes)? {
        write!(printed, "\n    [{group}]\n")?;
        add_recipes(root, recipes, alloc, &config, group.as_str(), &mut printed)?;
        add_modules(root, alloc, &config, group.as_str(), &mut printed)?;
    }
    add_lines(printed.as_str(), text)
}
