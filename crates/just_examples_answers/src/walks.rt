//! Where paths lead from the root's module of a compilation. The names of a path are those of the parameters of a recipe.
ghost use Rattle.just_justfile.specs.Walks.{AreModulesOrdered};

use just_data::Sequence;
use just_justfile::{Justfile, RecipeAlias, Recipes, Resolution};
use just_parts::Recipe;
use just_parts::layers::{Namepath, Parameter};
use just_paths::Modulepath;
use std::alloc::{AllocError, Global};
use std::collections::BTreeSet;

// The path of the names of parameters, or none where there are no parameters.
fn path_of<'src>(
    parameters: &[Parameter<'src>],
    alloc: Global,
) -> Result<Option<Namepath<'src>>, AllocError> {
    let mut names = Vec::new(alloc);
    for parameter in parameters {
        names.push(parameter.name.copied())?;
    }
    match names.pop() {
        Some(last) => Ok(Some(Namepath {
            front: Sequence::from_vec(names),
            last,
        })),
        None => Ok(None),
    }
}

// Adds the paths of modules that are not there.
fn add_disabled(modules: &BTreeSet<Modulepath>, text: &mut String) -> Result<(), AllocError> {
    text.push_str("disabled")?;
    for module in modules {
        write!(text, " {module}")?;
    }
    text.push('\n')
}

// Adds a recipe, by its path.
fn add_recipe(recipe: Option<&Recipe>, text: &mut String) -> Result<(), AllocError> {
    match recipe {
        Some(recipe) => match &recipe.recipe_path {
            Some(path) => writeln!(text, "recipe {path}"),
            None => text.push_str("recipe\n"),
        },
        None => text.push_str("nothing\n"),
    }
}

// Adds an alias of a recipe, and that recipe.
fn add_alias<'src>(
    alias: Option<&RecipeAlias<'src>>,
    recipes: &Recipes<'src>,
    text: &mut String,
) -> Result<(), AllocError> {
    let Some(alias) = alias else {
        return text.push_str("nothing\n");
    };
    write!(text, "alias {} ", alias.name)?;
    add_recipe(recipes.get(alias.target), text)
}

// Adds the recipe to which a path resolves.
fn add_resolved_recipe<'src>(
    root: &Justfile<'src>,
    recipes: &Recipes<'src>,
    alloc: Global,
    path: &Namepath<'src>,
    text: &mut String,
) -> Result<(), AllocError>
    requires { AreModulesOrdered root.now }
{
    let found = Resolution::resolve_recipe(
        alloc,
        path,
        &root.absent_modules,
        &root.disabled_recipes,
        root.modules.as_slice(),
        &root.recipes,
    )?;
    match found {
        Some(Resolution::Disabled(modules)) => add_disabled(&modules, text),
        Some(Resolution::Resolved(number)) => add_recipe(recipes.get(number), text),
        None => text.push_str("nothing\n"),
    }
}

// Adds the module to which a path resolves.
fn add_resolved_module<'src>(
    root: &Justfile<'src>,
    alloc: Global,
    path: &Namepath<'src>,
    text: &mut String,
) -> Result<(), AllocError>
    requires { AreModulesOrdered root.now }
{
    let modules = root.modules.as_slice();
    match Resolution::resolve_module(alloc, path, &root.absent_modules, modules)? {
        Some(Resolution::Disabled(modules)) => add_disabled(&modules, text),
        Some(Resolution::Resolved(found)) => writeln!(text, "module {found}"),
        None => text.push_str("nothing\n"),
    }
}

// Adds the module to which the names of a path lead, by its own file.
fn add_submodule<'src>(
    root: &Justfile<'src>,
    alloc: Global,
    path: &Namepath<'src>,
    text: &mut String,
) -> Result<(), AllocError>
    requires { AreModulesOrdered root.now }
{
    let path = Modulepath::from_namepath(alloc, path)?;
    match root.submodule(&path) {
        Some(module) => writeln!(text, "module {}", module.source),
        None => text.push_str("nothing\n"),
    }
}

/// Adds what a call gives for the path of the names of the parameters of a recipe of the root's module: `Resolution::resolve_recipe`,
/// `Resolution::resolve_module`, `Justfile::submodule`; `Justfile::recipe` and `Justfile::recipe_alias` are given the name.
pub fn add_walk<'src>(
    root: &Justfile<'src>,
    recipes: &Recipes<'src>,
    alloc: Global,
    call: &str,
    name: &str,
    text: &mut String,
) -> Result<(), AllocError>
    requires { AreModulesOrdered root.now }
{
    match call {
        "Justfile::recipe" => return add_recipe(root.recipe(recipes, name), text),
        "Justfile::recipe_alias" => return add_alias(root.recipe_alias(name), recipes, text),
        _ => {}
    }
    let Some(recipe) = root.recipe(recipes, name) else {
        return text.push_str("no recipe\n");
    };
    let Some(path) = path_of(recipe.parameters.as_slice(), alloc)? else {
        return text.push_str("no path\n");
    };
    match call {
        "Resolution::resolve_recipe" => add_resolved_recipe(root, recipes, alloc, &path, text),
        "Resolution::resolve_module" => add_resolved_module(root, alloc, &path, text),
        _ => add_submodule(root, alloc, &path, text),
    }
}
