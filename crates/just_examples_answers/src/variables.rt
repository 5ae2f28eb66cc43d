//! The lines that tell what a variable refers to, and which variables it needs.
use just_ast_references::{Reference, References};
use just_justfile::Justfile;
use just_parts::layers::Assignment;
use std::alloc::{AllocError, Global};

// Adds a call with the count of its arguments, or a variable.
fn add_reference(reference: &Reference, text: &mut String) -> Result<(), AllocError> {
    match reference {
        Reference::Call { name, arguments } => write!(text, " {name}/{arguments}"),
        Reference::Variable { name } => write!(text, " {name}"),
    }
}

// Adds the calls and the variables in the value of a variable.
fn add_references(
    alloc: Global,
    variable: &Assignment,
    text: &mut String,
) -> Result<(), AllocError> {
    text.push_str("references")?;
    for reference in References::new(alloc, &variable.value)? {
        add_reference(&reference, text)?;
    }
    text.push('\n')
}

// Adds the names of the variables of a module that one of them needs, in the order of their table.
fn add_needs(
    alloc: Global,
    module: &Justfile,
    name: &str,
    text: &mut String,
) -> Result<(), AllocError> {
    let Some(needed) = module.assignment_references(alloc, name)? else {
        return Ok(());
    };
    text.push_str("needs")?;
    for variable in module.assignments.values() {
        if needed.contains(&variable.number) {
            write!(text, " {}", variable.name)?;
        }
    }
    text.push('\n')
}

/// Adds what the variable of a name refers to, and which variables it needs, if the module has it.
pub fn add_variable(
    alloc: Global,
    module: &Justfile,
    name: &str,
    text: &mut String,
) -> Result<(), AllocError> {
    if let Some(variable) = module.assignments.get(name) {
        add_references(alloc, variable, text)?;
    }
    add_needs(alloc, module, name, text)
}
