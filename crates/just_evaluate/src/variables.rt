//! The variables that a target asks for.
ghost use Rattle.std.specs.Prelude.{◌≡◌, map, IfOk};
ghost use Rattle.std.specs.HashSet.{contains};
ghost use Rattle.std.specs.Option.{option_copied};
ghost use Rattle.just_parts.specs.Needs.{same_number};
ghost use Rattle.just_evaluate.specs.Asked as spec;

use crate::evaluation_target::EvaluationTarget;
use just_justfile::Justfile;
use just_parts::layers::{Assignment, Number};
use std::alloc::{AllocError, Global};
use std::collections::HashSet;

/// The variables of a module that are not private, in byte order of their names.
pub(crate) fn public_variables<'run, 'src>(
    alloc: Global,
    module: &'run Justfile<'src>,
) -> Result<Vec<&'run Assignment<'src>>, AllocError>
    ensures { IfOk result (λ found. map (λ a. a.now) found.items ≡ spec.public_variables «module».now) }
{
    let mut found = Vec::new(alloc);
    for assignment in module.assignments.values() {
        if !assignment.private {
            found.push(assignment)?;
        }
    }
    Ok(found)
}

// The variables that a target asks for.
fn variables_asked<'run, 'src>(
    alloc: Global,
    target: &EvaluationTarget<'run, 'src>,
) -> Result<Vec<&'run Assignment<'src>>, AllocError>
    ensures { let asked = spec.variables_asked target.now.justfile.now (option_copied target.now.assignment) in
        IfOk result (λ found. map (λ a. a.now) found.items ≡ asked) }
{
    match target.assignment {
        Some(assignment) => {
            let mut found = Vec::new(alloc);
            found.push(assignment)?;
            Ok(found)
        }
        None => public_variables(alloc, target.justfile),
    }
}

/// The numbers of the variables that a target asks for: of its one variable, or of each variable of its module that is not
/// private, and no others. What these read is not among them. The error is want of memory.
pub fn target_numbers<'run, 'src>(
    alloc: Global,
    target: &EvaluationTarget<'run, 'src>,
) -> Result<HashSet<Number>, AllocError>
    ensures { let variable = option_copied target.now.assignment in
        IfOk result (λ set. spec.AreTargetNumbers target.now.justfile.now variable (contains same_number set)) }
{
    let variables = variables_asked(alloc, target)?;
    let mut numbers = HashSet::new(alloc);
    for place in 0..variables.len() {
        numbers.insert(variables[place].number)?;
    }
    Ok(numbers)
}
