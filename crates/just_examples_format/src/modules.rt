//! The lines that tell what a compilation has.
use crate::links::{add_aliases, add_dependencies, add_disabled};
use crate::lists::{add_list, next};
use crate::recipe_lines::{add_needed, add_sayings};
use just_data::Text;
use just_justfile::{Justfile, RecipeKey, Recipes};
use just_parts::Recipe;
use just_parts::layers::{Interpreter, Name, Number};
use std::alloc::{AllocError, Global};
use std::collections::HashSet;

// What is told of the modules and the recipes so far.
#[derive(Drop)]
struct Lines {
    modules: String,
    labels: String,
    docs: String,
    absent: String,
    disabled: String,
    aliases: String,
    settings: String,
    shells: String,
    scripts: String,
    variables: String,
    overridden: String,
    order: String,
    recipes: String,
    entrances: String,
    dependencies: String,
    sayings: String,
    needed: String,
    numbers: HashSet<u64>,
    count: u64,
    copied: u64,
}

impl Lines {
    // Nothing.
    fn new(alloc: Global) -> Lines {
        Lines {
            modules: String::new(alloc),
            labels: String::new(alloc),
            docs: String::new(alloc),
            absent: String::new(alloc),
            disabled: String::new(alloc),
            aliases: String::new(alloc),
            settings: String::new(alloc),
            shells: String::new(alloc),
            scripts: String::new(alloc),
            variables: String::new(alloc),
            overridden: String::new(alloc),
            order: String::new(alloc),
            recipes: String::new(alloc),
            entrances: String::new(alloc),
            dependencies: String::new(alloc),
            sayings: String::new(alloc),
            needed: String::new(alloc),
            numbers: HashSet::new(alloc),
            count: 0,
            copied: 0,
        }
    }
}

/// Adds a recipe's path from the root.
pub(crate) fn add_path(recipe: &Recipe, text: &mut String) -> Result<(), AllocError> {
    match &recipe.recipe_path {
        Some(path) => write!(text, "{path}"),
        None => write!(text, "{}", recipe.name),
    }
}

// Adds the file of a recipe, and the offsets of the imports by which it came in.
fn add_entrance(recipe: &Recipe, alloc: Global, text: &mut String) -> Result<(), AllocError> {
    write!(text, " {}", recipe.name.token.path())?;
    for offset in recipe.import_offsets.to_sequence(alloc)?.as_slice() {
        write!(text, " {offset}")?;
    }
    Ok(())
}

// Adds a recipe: its path with the depth of its file, and how that came in.
fn add_recipe(recipe: &Recipe, alloc: Global, lines: &mut Lines) -> Result<(), AllocError> {
    let Number(number) = recipe.number;
    lines.numbers.insert(number)?;
    lines.count = lines.count.saturating_add(1);
    lines.recipes.push_str(next(&lines.recipes))?;
    add_path(recipe, &mut lines.recipes)?;
    write!(lines.recipes, "@{}", recipe.file_depth)?;
    lines.entrances.push_str(next(&lines.entrances))?;
    add_path(recipe, &mut lines.entrances)?;
    add_entrance(recipe, alloc, &mut lines.entrances)
}

// Adds a module, its own file and the folder that it works in.
fn add_module(module: &Justfile, lines: &mut Lines) -> Result<(), AllocError> {
    lines.modules.push_str(next(&lines.modules))?;
    if module.is_submodule() {
        write!(lines.modules, "{} ", module.module_path)?;
    }
    write!(
        lines.modules,
        "{} in {}",
        module.source, module.working_directory
    )
}

/// Adds a module's own file.
pub(crate) fn add_source(module: &Justfile, text: &mut String) -> Result<(), AllocError> {
    text.push_str(next(text))?;
    text.push_str(module.source.as_str())
}

// Adds the doc of a module, behind its own file.
fn add_doc(module: &Justfile, text: &mut String) -> Result<(), AllocError> {
    add_source(module, text)?;
    match &module.doc {
        Some(doc) => write!(text, " '{doc}'"),
        None => Ok(()),
    }
}

// Adds what the declaration of a module says of it, behind its own file.
fn add_label(module: &Justfile, text: &mut String) -> Result<(), AllocError> {
    add_source(module, text)?;
    if module.private {
        text.push_str(" private")?;
    }
    for group in module.groups.as_slice() {
        write!(text, " [{}]", group.cooked)?;
    }
    Ok(())
}

// Adds the names of the optional modules without a file, behind a module's own file.
fn add_absent(module: &Justfile, text: &mut String) -> Result<(), AllocError> {
    add_source(module, text)?;
    for name in module.absent_modules.values() {
        write!(text, " {name}")?;
    }
    Ok(())
}

// Adds the settings of a module that are on, behind its own file.
fn add_settings(module: &Justfile, text: &mut String) -> Result<(), AllocError> {
    add_source(module, text)?;
    let settings = &module.settings;
    let flags = [
        ("allow-duplicate-recipes", settings.allow_duplicate_recipes),
        (
            "allow-duplicate-variables",
            settings.allow_duplicate_variables,
        ),
        ("export", settings.export),
        ("ignore-comments", settings.ignore_comments),
        ("lazy", settings.lazy),
        ("lists", settings.lists),
        ("positional-arguments", settings.positional_arguments),
        ("quiet", settings.quiet),
    ];
    for (name, on) in flags.as_slice() {
        if *on {
            write!(text, " {name}")?;
        }
    }
    Ok(())
}

// Adds a program and its arguments, behind a module's own file.
fn add_program(
    module: &Justfile,
    program: &Option<Interpreter<Text>>,
    text: &mut String,
) -> Result<(), AllocError> {
    add_source(module, text)?;
    let Some(program) = program else {
        return Ok(());
    };
    write!(text, " '{}'", program.command)?;
    for argument in program.arguments.as_slice() {
        write!(text, " '{argument}'")?;
    }
    Ok(())
}

/// Adds a blank and the path of a variable of a module.
pub(crate) fn add_variable(
    module: &Justfile,
    name: &Name,
    text: &mut String,
) -> Result<(), AllocError> {
    text.push(' ')?;
    if module.is_submodule() {
        write!(text, "{}::", module.module_path)?;
    }
    write!(text, "{name}")
}

// Adds the paths of the variables of a module that are overridden.
fn add_overridden(module: &Justfile, text: &mut String) -> Result<(), AllocError> {
    for variable in module.assignments.values() {
        if module.overridden.contains_key(&variable.number) {
            add_variable(module, &variable.name, text)?;
        }
    }
    Ok(())
}

// Adds the variables of a module with the depths of their files and their values, behind its own file.
fn add_variables(module: &Justfile, text: &mut String) -> Result<(), AllocError> {
    add_source(module, text)?;
    for variable in module.assignments.values() {
        write!(
            text,
            " {}@{} {}",
            variable.name, variable.file_depth, variable.value.text
        )?;
    }
    Ok(())
}

// Adds the variables of a module in the order of their evaluation, behind its own file.
fn add_order(module: &Justfile, text: &mut String) -> Result<(), AllocError> {
    add_source(module, text)?;
    for name in module.evaluation_order.as_slice() {
        write!(text, " {name}")?;
    }
    Ok(())
}

// Counts a recipe where it and its key can be copied.
fn add_copies(key: &RecipeKey, recipe: &Recipe, lines: &mut Lines) {
    if key.clone().is_ok() && recipe.clone().is_ok() {
        lines.copied = lines.copied.saturating_add(1);
    }
}

// Adds the recipes of a module, in the order of its table.
fn add_recipes<'src>(
    module: &Justfile<'src>,
    recipes: &Recipes<'src>,
    alloc: Global,
    lines: &mut Lines,
) -> Result<(), AllocError> {
    for key in module.recipes.values() {
        if let Some(recipe) = recipes.get(key.number) {
            add_recipe(recipe, alloc, lines)?;
            add_dependencies(recipe, recipes, &mut lines.dependencies)?;
            add_sayings(recipe, &mut lines.sayings)?;
            add_needed(module, recipe, &mut lines.needed)?;
            add_copies(key, recipe, lines);
        }
    }
    Ok(())
}

// Adds a module with its recipes.
fn add_whole<'src>(
    module: &Justfile<'src>,
    recipes: &Recipes<'src>,
    alloc: Global,
    lines: &mut Lines,
) -> Result<(), AllocError> {
    let settings = &module.settings;
    add_module(module, lines)?;
    add_label(module, &mut lines.labels)?;
    add_doc(module, &mut lines.docs)?;
    add_absent(module, &mut lines.absent)?;
    add_disabled(module, &mut lines.disabled)?;
    add_aliases(module, recipes, &mut lines.aliases)?;
    add_settings(module, &mut lines.settings)?;
    add_program(module, &settings.shell, &mut lines.shells)?;
    add_program(module, &settings.script_interpreter, &mut lines.scripts)?;
    add_variables(module, &mut lines.variables)?;
    add_overridden(module, &mut lines.overridden)?;
    add_order(module, &mut lines.order)?;
    add_recipes(module, recipes, alloc, lines)
}

// Adds a module and those in it with their recipes, each before those that it declares.
fn add_all<'src>(
    root: &Justfile<'src>,
    recipes: &Recipes<'src>,
    alloc: Global,
    lines: &mut Lines,
) -> Result<(), AllocError> {
    let mut left = Vec::new(alloc);
    left.push(root)?;
    for _ in 0..u64::MAX {
        let Some(module) = left.pop() else {
            break;
        };
        add_whole(module, recipes, alloc, lines)?;
        for inner in module.modules.as_slice().iter().rev() {
            left.push(inner)?;
        }
    }
    Ok(())
}

// Adds the lines to a text.
fn add_lines(lines: &Lines, text: &mut String) -> Result<(), AllocError> {
    writeln!(text, "modules{}", lines.modules)?;
    writeln!(text, "labels{}", lines.labels)?;
    writeln!(text, "docs{}", lines.docs)?;
    writeln!(text, "absent{}", lines.absent)?;
    writeln!(text, "disabled{}", lines.disabled)?;
    writeln!(text, "aliases{}", lines.aliases)?;
    writeln!(text, "settings{}", lines.settings)?;
    writeln!(text, "shells{}", lines.shells)?;
    writeln!(text, "scripts{}", lines.scripts)?;
    writeln!(text, "variables{}", lines.variables)?;
    writeln!(text, "overridden{}", lines.overridden)?;
    writeln!(text, "order{}", lines.order)?;
    writeln!(text, "recipes{}", lines.recipes)?;
    writeln!(text, "entrances{}", lines.entrances)?;
    writeln!(text, "dependencies{}", lines.dependencies)?;
    writeln!(text, "sayings{}", lines.sayings)?;
    writeln!(text, "needed{}", lines.needed)?;
    writeln!(text, "numbers {} of {}", lines.numbers.len(), lines.count)?;
    writeln!(text, "copied {} of {}", lines.copied, lines.count)
}

/// Adds what the root's module and those in it have: their files, docs, settings and variables, which recipes are disabled,
/// what aliases mean, and of the other recipes the depths, the files, what they depend on, what they say of themselves, which variables
/// they need, how many different numbers they have, and how many could be copied.
pub fn add_modules<'src>(
    root: &Justfile<'src>,
    recipes: &Recipes<'src>,
    alloc: Global,
    text: &mut String,
) -> Result<(), AllocError> {
    let mut lines = Lines::new(alloc);
    add_all(root, recipes, alloc, &mut lines)?;
    add_lines(&lines, text)
}

/// Adds the loaded files, and how many texts were read.
pub fn add_loaded(root: &Justfile, texts: usize, text: &mut String) -> Result<(), AllocError> {
    text.push_str("loaded")?;
    add_list(text, root.loaded.get().as_slice())?;
    writeln!(text, "\ntexts {texts}")
}
