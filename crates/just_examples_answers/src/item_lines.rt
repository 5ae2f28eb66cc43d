//! What a text says, with all that was read of each item.
use just_parts::UnresolvedRecipe;
use just_parts::layers::{
    Ast, Attribute, Fragment, FunctionDefinition, Item, Line, NamedAttribute, Number, Parameter,
    Set, Setting, UnresolvedDependency,
};
use std::alloc::AllocError;

// Adds a number.
fn add_number(number: Number, text: &mut String) -> Result<(), AllocError> {
    let Number(number) = number;
    write!(text, " #{number}")
}

// Adds a parameter, and how it is given.
fn add_parameter(parameter: &Parameter, text: &mut String) -> Result<(), AllocError> {
    write!(text, " {}", parameter.text)?;
    add_number(parameter.number, text)?;
    if let Some(long) = &parameter.long {
        write!(text, " --{long}")?;
    }
    if let Some(short) = parameter.short {
        write!(text, " -{short}")?;
    }
    text.push_str(if parameter.flag { " flag" } else { "" })
}

// Adds an attribute.
fn add_attribute(named: &NamedAttribute, text: &mut String) -> Result<(), AllocError> {
    write!(text, " [{}", named.name)?;
    match &named.attribute {
        Attribute::Group(group) => write!(text, " {}", group.cooked)?,
        Attribute::Doc(Some(doc)) => write!(text, " {}", doc.text)?,
        Attribute::Arg(arg) => {
            write!(text, " {}", arg.name.cooked)?;
            if let Some(pattern) = &arg.pattern_property {
                write!(text, " {}", pattern.value.text)?;
            }
        }
        _ => {}
    }
    text.push(']')
}

// Adds a line of a body, with its number from 1.
fn add_line(line: &Line, text: &mut String) -> Result<(), AllocError> {
    write!(text, " | {}:", line.number.saturating_add(1))?;
    for fragment in line.fragments.as_slice() {
        match fragment {
            Fragment::Text { token } => write!(text, "{}", token.lexeme())?,
            Fragment::Interpolation { expression } => write!(text, "{{{{{}}}}}", expression.text)?,
        }
    }
    Ok(())
}

// Adds a dependency, in parentheses where it has arguments.
fn add_dependency(dependency: &UnresolvedDependency, text: &mut String) -> Result<(), AllocError> {
    if dependency.arguments.is_empty() {
        return write!(text, " {}", dependency.recipe);
    }
    text.push_str(if dependency.starred() { " *" } else { " " })?;
    write!(text, "({}", dependency.recipe)?;
    for argument in dependency.arguments.as_slice() {
        text.push_str(if argument.starred { " *" } else { " " })?;
        write!(text, "{}", argument.expression.text)?;
    }
    text.push(')')
}

// Adds what a recipe depends on.
fn add_dependencies(recipe: &UnresolvedRecipe, text: &mut String) -> Result<(), AllocError> {
    text.push_str(" :")?;
    for (place, dependency) in recipe.dependencies.as_slice().iter().enumerate() {
        text.push_str(if place == recipe.priors { " &&" } else { "" })?;
        add_dependency(dependency, text)?;
    }
    Ok(())
}

// Adds a recipe.
fn add_recipe(recipe: &UnresolvedRecipe, text: &mut String) -> Result<(), AllocError> {
    text.push_str(if recipe.private { "private " } else { "" })?;
    text.push_str(if recipe.quiet { "quiet " } else { "" })?;
    text.push_str(if recipe.shebang { "script " } else { "" })?;
    write!(text, "recipe {}", recipe.name)?;
    add_number(recipe.number, text)?;
    for parameter in recipe.parameters.as_slice() {
        add_parameter(parameter, text)?;
    }
    add_dependencies(recipe, text)?;
    for named in recipe.attributes.as_slice() {
        add_attribute(named, text)?;
    }
    for line in recipe.body.as_slice() {
        add_line(line, text)?;
    }
    Ok(())
}

// Adds a function.
fn add_function(function: &FunctionDefinition, text: &mut String) -> Result<(), AllocError> {
    write!(text, "function {}(", function.name)?;
    for (place, parameter) in function.parameters.as_slice().iter().enumerate() {
        text.push_str(if place == 0 { "" } else { ", " })?;
        write!(text, "{}", parameter.name)?;
        add_number(parameter.number, text)?;
    }
    write!(text, ") := {}", function.body.text)
}

// Whether a setting that is on or off is on.
fn is_on(setting: &Setting) -> bool {
    match setting {
        Setting::AllowDuplicateRecipes(on)
        | Setting::AllowDuplicateVariables(on)
        | Setting::Export(on)
        | Setting::IgnoreComments(on)
        | Setting::Lazy(on)
        | Setting::Lists(on)
        | Setting::PositionalArguments(on)
        | Setting::Quiet(on) => *on,
        _ => false,
    }
}

// Adds a setting, and what it is set to.
fn add_set(set: &Set, text: &mut String) -> Result<(), AllocError> {
    write!(text, "set {}", set.name)?;
    match &set.value {
        Setting::Shell(program) | Setting::ScriptInterpreter(program) => {
            write!(text, " [{}", program.command.text)?;
            for argument in program.arguments.as_slice() {
                write!(text, ", {}", argument.text)?;
            }
            text.push(']')
        }
        setting => write!(text, " {}", is_on(setting)),
    }
}

// Adds an item.
fn add_item(item: &Item, text: &mut String) -> Result<(), AllocError> {
    match item {
        Item::Alias(alias) => write!(text, "alias {} {}", alias.name, alias.target),
        Item::Assignment(it) => {
            text.push_str(if it.private { "private " } else { "" })?;
            text.push_str(if it.export { "export " } else { "" })?;
            text.push_str(if it.eager { "eager " } else { "" })?;
            write!(text, "variable {}", it.name)?;
            add_number(it.number, text)?;
            write!(text, " := {}", it.value.text)
        }
        Item::Function(function) => add_function(function, text),
        Item::Import { relative, .. } => write!(text, "import {}", relative.cooked),
        Item::Module {
            name,
            attributes,
            ..
        } => {
            write!(text, "mod {name}")?;
            for named in attributes.as_slice() {
                add_attribute(named, text)?;
            }
            Ok(())
        }
        Item::Recipe(recipe) => add_recipe(recipe, text),
        Item::Setting(set) => add_set(set, text),
        Item::Unexport { name } => write!(text, "unexport {name}"),
        Item::Comment(_) | Item::Newline => text.push_str("nothing"),
    }
}

/// Adds a line for each item, with its place from 1 before it, and one of the offsets at which lists begin.
pub fn add_readings(ast: &Ast, text: &mut String) -> Result<(), AllocError> {
    for (place, item) in ast.items.as_slice().iter().enumerate() {
        write!(text, "{} ", place.saturating_add(1))?;
        add_item(item, text)?;
        text.push('\n')?;
    }
    text.push_str("lists")?;
    for use_of in ast.list_features.as_slice() {
        write!(text, " {}", use_of.token.offset())?;
    }
    text.push('\n')
}
