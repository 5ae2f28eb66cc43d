//! The numbers of names in values and bodies.

ghost use Rattle.std.specs.Prelude.{◌≡◌, ℕ, List, IfOk};
ghost use Rattle.std.specs.HashMap.{get};
ghost use Rattle.std.specs.Str.{bytes_eq};
ghost use Rattle.just_name_resolution.specs.Numbers.{number_in};
ghost use Rattle.just_module_variables.specs.Numbered.{function_numbered, number_by, function_parameter_number, with_value_numbers};
ghost use Rattle.just_module_variables.specs.loops.Numbered.{AreBindings};

use just_data::BorrowedText;
use just_name_resolution::{Numbers, numbered};
use just_parts::layers::{Assignment, FunctionDefinition, FunctionParameter, Number, Syntax};
use just_table::Table;
use std::alloc::{AllocError, Global};
use std::collections::HashMap;

/// The numbers of variables, by their names.
pub(crate) fn variable_numbers<'src>(
    alloc: Global,
    assignments: &Table<'src, Assignment<'src>>,
) -> Result<HashMap<BorrowedText<'src>, Number>, AllocError>
    ensures { IfOk result (λ made. AreBindings assignments.now (get bytes_eq made)) }
{
    let mut numbers = HashMap::new(alloc);
    for assignment in assignments.values() {
        let name = BorrowedText::new(assignment.name.lexeme());
        numbers.insert(name, assignment.number)?;
    }
    Ok(numbers)
}

/// The numbers of parameters, by their names: of those of one name, that of the last.
pub fn parameter_numbers<'src>(
    alloc: Global,
    parameters: &[FunctionParameter<'src>],
) -> Result<HashMap<BorrowedText<'src>, Number>, AllocError>
    ensures { IfOk result (λ made. (name : List ℕ) → get bytes_eq made name ≡ function_parameter_number parameters.now name) }
{
    let mut numbers = HashMap::new(alloc);
    for parameter in parameters {
        let name = BorrowedText::new(parameter.name.lexeme());
        numbers.insert(name, parameter.number)?;
    }
    Ok(numbers)
}

/// A variable again, with the numbers of what the names in its value mean.
pub(crate) fn numbered_assignment<'a, 'src, S: Syntax>(
    alloc: Global,
    assignment: &Assignment<'src>,
    numbers: &Numbers<'a, 'src, S>,
) -> Result<Assignment<'src>, AllocError>
    ensures { IfOk result (λ made. made ≡ with_value_numbers (number_in (S.answers numbers.now.syntax.now) numbers.now) assignment.now) }
{
    Ok(Assignment {
        name: assignment.name.copied(),
        number: assignment.number,
        value: numbered(alloc, &assignment.value, numbers)?,
        eager: assignment.eager,
        export: assignment.export,
        private: assignment.private,
        file_depth: assignment.file_depth,
    })
}

/// A function again, with the numbers of what the names in its body mean under its parameters.
pub(crate) fn numbered_function<'src, S: Syntax>(
    alloc: Global,
    function: &FunctionDefinition<'src>,
    bindings: &HashMap<BorrowedText<'src>, Number>,
    syntax: &S,
) -> Result<FunctionDefinition<'src>, AllocError>
    ensures { IfOk result (λ made. made ≡ function_numbered (number_by (get bytes_eq bindings.now) (S.answers syntax.now).constant) function.now) }
{
    let parameters = parameter_numbers(alloc, function.parameters.as_slice())?;
    let numbers = Numbers {
        parameters: &parameters,
        assignments: bindings,
        syntax,
    };
    Ok(FunctionDefinition {
        name: function.name.copied(),
        parameters: function.parameters.clone()?,
        body: numbered(alloc, &function.body, &numbers)?,
    })
}
