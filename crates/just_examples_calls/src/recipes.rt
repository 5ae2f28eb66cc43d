//! Calls of recipes: of the first of a text.
use crate::halves;
use just_bench_reading::parse;
use just_bench_syntax::PlainSyntax;
use just_data::Sequence;
use just_examples_format::faults::{add_fault, unless_fault};
use just_parts::layers::{Ast, DependencyArgument, Error, Item, Number, Settings};
use just_parts::{Dependency, Recipe, UnresolvedRecipe};
use just_paths::Modulepath;
use std::alloc::{AllocError, Global};

// The settings whose names stand in some words, of the two that a call of a recipe reads.
fn settings_of(words: &str) -> Settings {
    let mut settings = Settings::default();
    settings.lists = words.contains("lists");
    settings.default_script = words.contains("default_script");
    settings
}

// What a recipe depends on, each with its place as the number of the recipe, and with its arguments as one group.
fn numbered<'src>(
    alloc: Global,
    recipe: &UnresolvedRecipe<'src>,
) -> Result<Sequence<Dependency<'src>>, AllocError> {
    let mut dependencies = Sequence::new(alloc);
    let mut number = 0u64;
    for dependency in recipe.dependencies.as_slice() {
        let path = dependency.recipe.clone()?;
        let recipe = Number(number);
        let mut arguments = Sequence::new(alloc);
        arguments.push(dependency.arguments.clone()?)?;
        dependencies.push(Dependency {
            arguments,
            path,
            recipe,
        })?;
        number = number.saturating_add(1);
    }
    Ok(dependencies)
}

// The recipe, resolved in the module `m`.
fn resolved<'src>(
    alloc: Global,
    recipe: &UnresolvedRecipe<'src>,
) -> Result<Recipe<'src>, AllocError> {
    let dependencies = numbered(alloc, recipe)?;
    let module_path = Modulepath::root(alloc).join("m")?;
    let recipe_path = module_path.join(recipe.name.lexeme())?;
    Ok(
        recipe
            .clone()?
            .resolved(dependencies, module_path, recipe_path),
    )
}

// Adds the line of some dependencies.
fn add_dependencies(
    call: &str,
    dependencies: &[Dependency],
    text: &mut String,
) -> Result<(), AllocError> {
    text.push_str(call)?;
    for dependency in dependencies {
        let Number(number) = dependency.recipe;
        write!(text, " {}#{number}", dependency.path)?;
    }
    text.push('\n')
}

// Adds for each dependency which group has a starred argument.
fn add_stars(dependencies: &[Dependency], text: &mut String) -> Result<(), AllocError> {
    for dependency in dependencies {
        match dependency.star() {
            Some(place) => writeln!(text, "star {place}")?,
            None => writeln!(text, "star none")?,
        }
    }
    Ok(())
}

// Adds what a call of a resolved recipe gives. It answers whether there is such a call.
fn add_resolved(call: &str, recipe: &Recipe, text: &mut String) -> Result<bool, AllocError> {
    if recipe.module_path.is_none() || recipe.recipe_path.is_none() {
        return Ok(false);
    }
    if recipe.priors > recipe.dependencies.len() {
        return Ok(false);
    }
    match call {
        "resolved" => add_dependencies(call, recipe.dependencies.as_slice(), text)?,
        "priors" => add_dependencies(call, recipe.priors(), text)?,
        "subsequents" => add_dependencies(call, recipe.subsequents(), text)?,
        "star" => add_stars(recipe.dependencies.as_slice(), text)?,
        "module_path" => writeln!(text, "module_path {}", recipe.module_path())?,
        "recipe_path" => writeln!(text, "recipe_path {}", recipe.recipe_path())?,
        _ => return Ok(false),
    }
    Ok(true)
}

// Adds the groups of arguments, a line each.
fn add_groups(
    groups: &[Sequence<DependencyArgument>],
    text: &mut String,
) -> Result<(), AllocError> {
    for group in groups {
        text.push_str("group")?;
        for argument in group.as_slice() {
            write!(text, " {}", argument.expression.text)?;
        }
        text.push('\n')?;
    }
    Ok(())
}

// Adds how the arguments of each of its dependencies are grouped, as if it depended on itself.
fn add_grouped(
    alloc: Global,
    settings: &Settings,
    recipe: &UnresolvedRecipe,
    text: &mut String,
) -> Result<(), AllocError> {
    for dependency in recipe.dependencies.as_slice() {
        let arguments = dependency.arguments.as_slice();
        let groups = recipe.group_arguments(alloc, settings, arguments)?;
        writeln!(text, "starred {}", dependency.starred())?;
        add_groups(groups.as_slice(), text)?;
    }
    Ok(())
}

// Adds whether it can be run by default.
fn add_default(recipe: &UnresolvedRecipe, text: &mut String) -> Result<(), AllocError> {
    match recipe.check_can_be_default_recipe() {
        Ok(()) => text.push_str("can be the default\n"),
        Err(error) => add_fault(text, Error::Invocation(error)),
    }
}

// Adds what a call of a recipe gives. It answers whether there is such a call.
fn add_recipe(
    alloc: Global,
    call: &str,
    settings: &Settings,
    recipe: &UnresolvedRecipe,
    text: &mut String,
) -> Result<bool, AllocError> {
    match call {
        "min_arguments" => writeln!(text, "min_arguments {}", recipe.min_arguments())?,
        "max_arguments" => writeln!(text, "max_arguments {}", recipe.max_arguments(settings))?,
        "argument_range" => {
            let range = recipe.argument_range(settings);
            let takes_two = range.contains(2);
            writeln!(text, "argument_range {} {}\n{range}", range.min, range.max)?;
            writeln!(text, "takes two {takes_two}")?;
        }
        "group_arguments" => add_grouped(alloc, settings, recipe, text)?,
        "check_can_be_default_recipe" => add_default(recipe, text)?,
        "is_script" => writeln!(text, "is_script {}", recipe.is_script(settings))?,
        "name" => writeln!(text, "name {}", recipe.name())?,
        _ => return add_resolved(call, &resolved(alloc, recipe)?, text),
    }
    Ok(true)
}

// The first recipe of what a text says.
pub(crate) fn first_recipe<'ast, 'src>(
    ast: &'ast Ast<'src>,
) -> Option<&'ast UnresolvedRecipe<'src>> {
    match ast.items.get(0) {
        Some(Item::Recipe(recipe)) => Some(recipe),
        _ => None,
    }
}

// Adds what a call of the first recipe of what a text says gives, and tells whether there is one.
fn add_first<'src>(
    alloc: Global,
    call: &str,
    settings: &Settings,
    ast: &Ast<'src>,
    answer: &mut String,
) -> Result<bool, AllocError> {
    match first_recipe(ast) {
        Some(recipe) => add_recipe(alloc, call, settings, recipe, answer),
        None => Ok(false),
    }
}

// The same of a text, or its fault.
fn add_parsed(
    alloc: Global,
    call: &str,
    settings: &Settings,
    text: &str,
    answer: &mut String,
) -> Result<bool, AllocError> {
    match unless_fault(parse(alloc, &PlainSyntax::new(), text), answer)? {
        Some(ast) => add_first(alloc, call, settings, &ast, answer),
        None => Ok(true),
    }
}

/// Answers what a call of a text's first recipe gives, where it is resolved in the module `m`. The settings that are on stand
/// before a ` | `.
pub fn answer_recipe(alloc: Global, call: &str, rest: &str) -> Result<Option<String>, AllocError> {
    let (words, text) = halves(rest);
    let settings = settings_of(words);
    let mut answer = String::new(alloc);
    let is_call = add_parsed(alloc, call, &settings, text, &mut answer)?;
    Ok(is_call.then_some(answer))
}
