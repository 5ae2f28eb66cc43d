//! The lines that tell what recipes say of themselves, and which variables they need.
use crate::lists::next;
use crate::modules::add_path;
use just_justfile::Justfile;
use just_parts::Recipe;
use just_parts::layers::Parameter;
use std::alloc::AllocError;

// Adds the pattern and the help of a parameter, where it has them.
fn add_parameter(parameter: &Parameter, text: &mut String) -> Result<(), AllocError> {
    if let Some(pattern) = &parameter.pattern {
        write!(text, " {}~'{}'", parameter.name, pattern.as_str())?;
    }
    if let Some(help) = &parameter.help {
        write!(text, " {}='{help}'", parameter.name)?;
    }
    Ok(())
}

/// Adds what a recipe says of itself, behind its own path: its doc, and the pattern and the help of each parameter.
pub fn add_sayings(recipe: &Recipe, text: &mut String) -> Result<(), AllocError> {
    text.push_str(next(text))?;
    add_path(recipe, text)?;
    if let Some(doc) = &recipe.doc {
        write!(text, " '{doc}'")?;
    }
    for parameter in recipe.parameters.as_slice() {
        add_parameter(parameter, text)?;
    }
    Ok(())
}

/// Adds the variables that a recipe of a module needs, in the order of the module's table, behind its own path.
pub fn add_needed(module: &Justfile, recipe: &Recipe, text: &mut String) -> Result<(), AllocError> {
    text.push_str(next(text))?;
    add_path(recipe, text)?;
    let needed = recipe.variable_references.get().as_slice();
    for variable in module.assignments.values() {
        if needed.contains(&variable.number) {
            write!(text, " {}", variable.name)?;
        }
    }
    Ok(())
}
