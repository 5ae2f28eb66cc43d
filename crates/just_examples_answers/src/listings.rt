//! What listings show of the root's module, and how it is written.
use crate::printed::add_printed;
use crate::texts::{add_dump, add_shown};
use just_justfile::{Justfile, Recipes};
use just_listings::{
    AliasListing, GroupListing, Listing, ModuleListing, RecipeListing, RecursiveListing,
};
use just_parts::Recipe;
use just_parts::layers::Config;
use just_paths::Modulepath;
use std::alloc::{AllocError, Global};

// Adds the names of the public recipes.
fn add_recipes<'src>(
    root: &Justfile<'src>,
    recipes: &Recipes<'src>,
    alloc: Global,
    config: &Config,
    text: &mut String,
) -> Result<(), AllocError> {
    text.push_str("listed")?;
    for recipe in root.public_recipes(alloc, config, recipes)? {
        write!(text, " {}", recipe.name)?;
    }
    text.push('\n')
}

// Adds the names of the public modules.
fn add_modules(
    root: &Justfile,
    alloc: Global,
    config: &Config,
    text: &mut String,
) -> Result<(), AllocError> {
    text.push_str("inside")?;
    for module in root.public_modules(alloc, config)? {
        write!(text, " {}", module.name())?;
    }
    text.push('\n')
}

// Adds the path of something, where it has one.
fn add_path(path: Option<&Modulepath>, text: &mut String) -> Result<(), AllocError> {
    match path {
        Some(path) => write!(text, " {path}"),
        None => Ok(()),
    }
}

// Adds the paths of the public recipes of the module and of those below it.
fn add_below<'src>(
    root: &Justfile<'src>,
    recipes: &Recipes<'src>,
    alloc: Global,
    config: &Config,
    text: &mut String,
) -> Result<(), AllocError> {
    text.push_str("below")?;
    for recipe in root.public_recipes_recursive(alloc, config, recipes)? {
        add_path(recipe.recipe_path.as_ref(), text)?;
    }
    text.push('\n')
}

// Adds the public aliases of recipes of the module and of those below it, each behind the path of its module.
fn add_aliases(
    root: &Justfile,
    alloc: Global,
    config: &Config,
    text: &mut String,
) -> Result<(), AllocError> {
    text.push_str("aliases")?;
    for (alias, path) in root.public_aliases_recursive(alloc, config)? {
        write!(text, " {path}/{}", alias.name)?;
    }
    text.push('\n')
}

// Adds the groups that listings show of the module.
fn add_public_groups<'src>(
    root: &Justfile<'src>,
    recipes: &Recipes<'src>,
    alloc: Global,
    config: &Config,
    text: &mut String,
) -> Result<(), AllocError> {
    text.push_str("groups")?;
    for group in root.public_groups(alloc, config, recipes)? {
        write!(text, " [{group}]")?;
    }
    text.push('\n')
}

// Adds what listings show of the root's module: its public recipes, the public modules in it, the public recipes and aliases
// of it and of the modules below it, and the groups; where a word says `unsorted`, in the order of the text.
fn add_listed<'src>(
    root: &Justfile<'src>,
    recipes: &Recipes<'src>,
    alloc: Global,
    word: &str,
    text: &mut String,
) -> Result<(), AllocError> {
    let mut config = Config::new(alloc);
    config.unsorted = word == "unsorted";
    add_recipes(root, recipes, alloc, &config, text)?;
    add_modules(root, alloc, &config, text)?;
    add_below(root, recipes, alloc, &config, text)?;
    add_aliases(root, alloc, &config, text)?;
    add_public_groups(root, recipes, alloc, &config, text)
}

// Adds the groups of each public module in the module.
fn add_groups_of_modules(
    root: &Justfile,
    alloc: Global,
    config: &Config,
    text: &mut String,
) -> Result<(), AllocError> {
    for module in root.public_modules(alloc, config)? {
        write!(text, "module {}", module.name())?;
        for group in module.groups(alloc)? {
            write!(text, " [{group}]")?;
        }
        text.push('\n')?;
    }
    Ok(())
}

// Adds the groups of a recipe.
fn add_groups_of(recipe: &Recipe, alloc: Global, text: &mut String) -> Result<(), AllocError> {
    write!(text, "recipe {}", recipe.name)?;
    for group in recipe.groups(alloc)? {
        write!(text, " [{group}]")?;
    }
    text.push('\n')
}

// Adds the groups that listings show of the root's module, and those of each public recipe and of each public module in it;
// where a word says `unsorted`, in the order of the text.
fn add_groups<'src>(
    root: &Justfile<'src>,
    recipes: &Recipes<'src>,
    alloc: Global,
    word: &str,
    text: &mut String,
) -> Result<(), AllocError> {
    let mut config = Config::new(alloc);
    config.unsorted = word == "unsorted";
    add_public_groups(root, recipes, alloc, &config, text)?;
    for recipe in root.public_recipes(alloc, &config, recipes)? {
        add_groups_of(recipe, alloc, text)?;
    }
    add_groups_of_modules(root, alloc, &config, text)
}

// Adds what listings tell of each recipe: its path with blanks, the line of its name, and its doc, where it has one.
fn add_told(recipes: &Recipes, text: &mut String) -> Result<(), AllocError> {
    for recipe in recipes.as_slice() {
        if recipe.recipe_path.is_none() {
            continue;
        }
        let line = recipe.line_number();
        write!(text, "told {} at {line}", recipe.spaced_recipe_path())?;
        if let Some(doc) = recipe.doc() {
            write!(text, " '{doc}'")?;
        }
        text.push('\n')?;
    }
    Ok(())
}

/// Adds what a question asks of listings: what they show of the root's module, the same as a user reads it, its groups, what
/// they tell of each recipe, the module as it is written, or else the one of its recipes or variables that a word names.
pub fn add_listing<'src>(
    root: &Justfile<'src>,
    recipes: &Recipes<'src>,
    alloc: Global,
    kind: &str,
    word: &str,
    text: &mut String,
) -> Result<(), AllocError> {
    match kind {
        "dump" => add_dump(root, recipes, alloc, text),
        "groups" => add_groups(root, recipes, alloc, word, text),
        "list" => add_listed(root, recipes, alloc, word, text),
        "print" => add_printed(root, recipes, alloc, word, text),
        "tell" => add_told(recipes, text),
        _ => add_shown(root, recipes, alloc, word, text),
    }
}
