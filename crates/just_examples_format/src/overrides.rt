//! The line that tells which values override variables.
use crate::modules::add_variable;
use just_data::Text;
use just_justfile::Justfile;
use just_parts::layers::Number;
use std::alloc::{AllocError, Global};
use std::collections::HashMap;

// Adds the values of the variables of a module, by their paths.
fn add_values(
    module: &Justfile,
    overrides: &HashMap<Number, Text>,
    text: &mut String,
) -> Result<(), AllocError> {
    for variable in module.assignments.values() {
        if let Some(value) = overrides.get(&variable.number) {
            add_variable(module, &variable.name, text)?;
            write!(text, "='{value}'")?;
        }
    }
    Ok(())
}

/// Adds the values that override variables of a module and of those in it.
pub fn add_given<'src>(
    root: &Justfile<'src>,
    overrides: &HashMap<Number, Text>,
    alloc: Global,
    text: &mut String,
) -> Result<(), AllocError> {
    let mut left = Vec::new(alloc);
    left.push(root)?;
    text.push_str("given")?;
    for _ in 0..u64::MAX {
        let Some(module) = left.pop() else {
            break;
        };
        add_values(module, overrides, text)?;
        for inner in module.modules.as_slice().iter().rev() {
            left.push(inner)?;
        }
    }
    text.push('\n')
}
