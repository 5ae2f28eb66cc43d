//! The values to which a scope binds variables.
ghost use Rattle.std.specs.Prelude.{◌≡◌, map, IfOk};
ghost use Rattle.std.specs.HashMap.{get};
ghost use Rattle.std.specs.List.{filter_map};
ghost use Rattle.std.specs.Option.{option_copied};
ghost use Rattle.std.specs.Str.{bytes_eq};
ghost use Rattle.just_parts.specs.Evaluator.{scope_values};
ghost use Rattle.just_evaluate.specs.loops.Bindings.{bound_behind};
ghost use Rattle.just_evaluate.specs.Lines as spec;

use just_data::{BorrowedText, Sequence, Text};
use just_parts::layers::{Assignment, Scope};
use std::alloc::{AllocError, Global};
use std::collections::HashMap;

/// A variable with its value.
#[derive(Clone, Copy)]
pub(crate) struct BoundVariable<'run, 'src> {
    pub(crate) assignment: &'run Assignment<'src>,
    pub(crate) value: &'run Sequence<Text>,
}

/// The value to which a scope binds a name.
pub(crate) fn value_of<'run, 'src>(
    scope: &'run Scope<'src>,
    name: &str,
) -> Option<&'run Sequence<Text>>
    ensures { option_copied result ≡ scope_values scope.now name.now }
{
    for binding in scope.bindings.iter() {
        if binding.name.lexeme() == name {
            return Some(&binding.value);
        }
    }
    None
}

// The value of each name that a scope binds.
fn values_by_name<'run, 'src>(
    alloc: Global,
    scope: &'run Scope<'src>,
) -> Result<HashMap<BorrowedText<'src>, &'run Sequence<Text>>, AllocError>
    ensures { IfOk result (λ values. (name : _) → option_copied (get bytes_eq values name) ≡ scope_values scope.now name) }
{
    let mut values = HashMap::new(alloc);
    for binding in scope.bindings.iter() {
        let name = BorrowedText::new(binding.name.lexeme());
        if !values.contains_key(&name) {
            values.insert(name, &binding.value)?;
        }
    }
    Ok(values)
}

/// Those of some variables that a scope binds, each with its value.
pub(crate) fn bound_among<'run, 'src>(
    alloc: Global,
    variables: &Vec<&'run Assignment<'src>>,
    scope: &'run Scope<'src>,
) -> Result<Vec<BoundVariable<'run, 'src>>, AllocError>
    ensures { IfOk result (λ found. map bound_behind found.items ≡ filter_map (spec.bound_in scope.now) (map (λ a. a.now) variables.now.items)) }
{
    let values = values_by_name(alloc, scope)?;
    let mut found = Vec::new(alloc);
    for place in 0..variables.len() {
        let assignment = variables[place];
        let name = BorrowedText::new(assignment.name.lexeme());
        if let Some(value) = values.get(&name) {
            found.push(BoundVariable {
                assignment,
                value: *value,
            })?;
        }
    }
    Ok(found)
}
