//! The lines that tell what recipes depend on, which are disabled, and what aliases mean.
use crate::modules::{add_path, add_source};
use just_justfile::{Disabled, Justfile, Recipes};
use just_parts::layers::{DependencyArgument, Number};
use just_parts::{Dependency, Recipe};
use std::alloc::AllocError;

// Adds a name, and in brackets the paths of the modules that are not there.
fn add_disabled_name(disabled: &Disabled, text: &mut String) -> Result<(), AllocError> {
    write!(text, " {} [", disabled.name)?;
    for (place, module) in disabled.modules.iter().enumerate() {
        write!(text, "{}{module}", if place == 0 { "" } else { ", " })?;
    }
    text.push(']')
}

/// Adds the disabled recipes of a module, behind its own file.
pub fn add_disabled(module: &Justfile, text: &mut String) -> Result<(), AllocError> {
    add_source(module, text)?;
    for disabled in module.disabled_recipes.values() {
        add_disabled_name(disabled, text)?;
    }
    Ok(())
}

// Adds the path of the recipe of a number.
fn add_target<'src>(
    number: Number,
    recipes: &Recipes<'src>,
    text: &mut String,
) -> Result<(), AllocError> {
    match recipes.get(number) {
        Some(recipe) => add_path(recipe, text),
        None => text.push('?'),
    }
}

// Adds aliases of recipes, each with the path of its recipe.
fn add_recipe_aliases<'src>(
    module: &Justfile<'src>,
    recipes: &Recipes<'src>,
    text: &mut String,
) -> Result<(), AllocError> {
    for alias in module.aliases.recipes.values() {
        write!(text, " {}=", alias.name)?;
        add_target(alias.target, recipes, text)?;
    }
    Ok(())
}

// Adds aliases of modules, each with the path of its module and `::`.
fn add_module_aliases(module: &Justfile, text: &mut String) -> Result<(), AllocError> {
    for alias in module.aliases.modules.values() {
        write!(text, " {}={}::", alias.name, alias.target)?;
    }
    Ok(())
}

/// Adds the aliases of a module, behind its own file: those of recipes, those of modules, and the disabled ones.
pub fn add_aliases<'src>(
    module: &Justfile<'src>,
    recipes: &Recipes<'src>,
    text: &mut String,
) -> Result<(), AllocError> {
    add_source(module, text)?;
    add_recipe_aliases(module, recipes, text)?;
    add_module_aliases(module, text)?;
    for disabled in module.aliases.disabled.values() {
        add_disabled_name(disabled, text)?;
    }
    Ok(())
}

// Adds arguments in brackets.
fn add_group(group: &[DependencyArgument], text: &mut String) -> Result<(), AllocError> {
    text.push_str(" [")?;
    for (place, argument) in group.iter().enumerate() {
        text.push_str(if place == 0 { "" } else { ", " })?;
        text.push_str(if argument.starred { "*" } else { "" })?;
        write!(text, "{}", argument.expression.text)?;
    }
    text.push(']')
}

// Adds a dependency: the path of its recipe, and the arguments for each parameter.
fn add_dependency<'src>(
    dependency: &Dependency<'src>,
    recipes: &Recipes<'src>,
    text: &mut String,
) -> Result<(), AllocError> {
    text.push(' ')?;
    add_target(dependency.recipe, recipes, text)?;
    for group in dependency.arguments.as_slice() {
        add_group(group.as_slice(), text)?;
    }
    Ok(())
}

/// Adds what a recipe depends on, behind its own path, where it depends on any.
pub fn add_dependencies<'src>(
    recipe: &Recipe<'src>,
    recipes: &Recipes<'src>,
    text: &mut String,
) -> Result<(), AllocError> {
    if recipe.dependencies.is_empty() {
        return Ok(());
    }
    text.push_str(if text.is_empty() { " " } else { ", " })?;
    add_path(recipe, text)?;
    text.push(':')?;
    for dependency in recipe.dependencies.as_slice() {
        add_dependency(dependency, recipes, text)?;
    }
    Ok(())
}
