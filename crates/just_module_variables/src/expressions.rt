//! The expressions of a module that are evaluated while compiling.

ghost use Rattle.std.specs.Prelude.{◌≡◌, ◌++◌, IfOk, OnOk, flat_map};
ghost use Rattle.just_module_contents.specs.Constants.{constant_expressions, recipe_expressions, settings_expressions};
ghost use Rattle.just_module_contents.specs.Definitions.{contents_in, recipes_in};
ghost use Rattle.just_module_contents.specs.Recipes.{lent};
ghost use Rattle.just_parts.specs.Evaluator.{interpreter_expressions, setting_expressions};
ghost use Rattle.just_parts.specs.Scopes.{compiled_expressions, property_expressions};

use just_module_contents::definitions::Definitions;
use just_parts::UnresolvedRecipe;
use just_parts::layers::{ArgumentProperty, Attribute, Expression, Interpreter, Setting};
use std::alloc::{AllocError, Global};

// Adds the expressions of what runs lines or scripts.
fn push_interpreter<'a, 'src>(
    interpreter: &'a Interpreter<Expression<'src>>,
    found: &mut Vec<&'a Expression<'src>>,
) -> Result<(), AllocError>
    ensures { OnOk result (lent found.new.items ≡ lent found.old.items ++ interpreter_expressions interpreter.now) }
{
    found.push(&interpreter.command)?;
    for argument in interpreter.arguments.as_slice() {
        found.push(argument)?;
    }
    Ok(())
}

// Adds those of a setting.
fn push_setting<'a, 'src>(
    setting: &'a Setting<'src>,
    found: &mut Vec<&'a Expression<'src>>,
) -> Result<(), AllocError>
    ensures { OnOk result (lent found.new.items ≡ lent found.old.items ++ setting_expressions setting.now) }
{
    match setting {
        Setting::ScriptInterpreter(interpreter) => push_interpreter(interpreter, found),
        Setting::Shell(interpreter) => push_interpreter(interpreter, found),
        _ => Ok(()),
    }
}

// Adds that of a property.
fn push_property<'a, 'src>(
    property: &'a Option<ArgumentProperty<'src, Expression<'src>>>,
    found: &mut Vec<&'a Expression<'src>>,
) -> Result<(), AllocError>
    ensures { OnOk result (lent found.new.items ≡ lent found.old.items ++ property_expressions property.now) }
{
    if let Some(property) = property {
        found.push(&property.value)?;
    }
    Ok(())
}

// Adds those of an attribute: of a doc, a help and a pattern.
fn push_attribute<'a, 'src>(
    attribute: &'a Attribute<'src>,
    found: &mut Vec<&'a Expression<'src>>,
) -> Result<(), AllocError>
    ensures { OnOk result (lent found.new.items ≡ lent found.old.items ++ compiled_expressions attribute.now) }
{
    match attribute {
        Attribute::Arg(argument) => {
            push_property(&argument.help_property, found)?;
            push_property(&argument.pattern_property, found)
        }
        Attribute::Doc(Some(expression)) => Ok(found.push(expression)?),
        _ => Ok(()),
    }
}

/// The expressions of the settings of a module.
pub fn settings_expressions<'b, 'a, 'src>(
    alloc: Global,
    definitions: &'b Definitions<'src, 'a>,
) -> Result<Vec<&'b Expression<'src>>, AllocError>
    ensures { IfOk result (λ found. lent found.items ≡ settings_expressions (contents_in definitions.now)) }
{
    let mut found = Vec::new(alloc);
    for place in 0..definitions.sets.len() {
        push_setting(&definitions.set_at(place).value, &mut found)?;
    }
    Ok(found)
}

// Adds those of a recipe.
fn push_recipe<'b, 'src>(
    recipe: &'b UnresolvedRecipe<'src>,
    found: &mut Vec<&'b Expression<'src>>,
) -> Result<(), AllocError>
    ensures { OnOk result (lent found.new.items ≡ lent found.old.items ++ recipe_expressions recipe.now) }
{
    for named in recipe.attributes.as_slice() {
        push_attribute(&named.attribute, found)?;
    }
    Ok(())
}

// Adds those of all recipes.
fn push_recipes<'b, 'a, 'src>(
    definitions: &'b Definitions<'src, 'a>,
    found: &mut Vec<&'b Expression<'src>>,
) -> Result<(), AllocError>
    ensures { OnOk result (lent found.new.items ≡ lent found.old.items ++ flat_map recipe_expressions (recipes_in definitions.now)) }
{
    for place in 0..definitions.recipes.len() {
        push_recipe(definitions.recipe_at(place), found)?;
    }
    Ok(())
}

/// The expressions of a module that are evaluated while compiling: of its settings, of all its recipes, and of the docs of
/// the modules that it declares.
pub fn constant_expressions<'b, 'a, 'src>(
    alloc: Global,
    definitions: &'b Definitions<'src, 'a>,
) -> Result<Vec<&'b Expression<'src>>, AllocError>
    ensures { IfOk result (λ found. lent found.items ≡ constant_expressions (contents_in definitions.now)) }
{
    let mut found = settings_expressions(alloc, definitions)?;
    push_recipes(definitions, &mut found)?;
    for place in 0..definitions.docs.len() {
        found.push(&*definitions.docs[place])?;
    }
    Ok(found)
}
