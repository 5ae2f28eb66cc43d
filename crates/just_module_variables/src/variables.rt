//! The variables and the functions of a module.

ghost use Rattle.std.specs.Prelude.{◌≡◌, [], IfOk, IfErr};
ghost use Rattle.just_errors.specs.Causes.{Keeps, Reports};
ghost use Rattle.just_names.specs.Name.{text_of_name};
ghost use Rattle.just_table.specs.Entries.{put_all};
ghost use Rattle.just_module_contents.specs.Definitions.{contents_in, functions_in, variables_in};
ghost use Rattle.just_module_contents.specs.Known.{functions_under, known_of};
ghost use Rattle.just_module_variables.specs.Variables.{AreVariablesOf, HasNumbers};
ghost use Rattle.just_parts.specs.Misnaming.{Expressions};

use crate::variable_resolver::VariableResolver;
use just_data::{BorrowedText, Sequence, copied};
use just_module_contents::definitions::Definitions;
use just_module_contents::precedence::keep_variables;
use just_parts::layers::{Assignment, Error, FunctionDefinition, Name, Number, Syntax};
use just_table::Table;
use std::alloc::{AllocError, Global};
use std::collections::HashMap;

/// The variables of a module, of several of one name the one that is kept, and its functions, with the numbers of what the
/// names in them mean.
#[derive(Drop)]
pub struct Variables<'src> {
    /// The variables, each under its name.
    pub assignments: Table<'src, Assignment<'src>>,
    /// The names of the variables in an evaluation order.
    pub evaluation_order: Sequence<Name<'src>>,
    /// The functions, each under its name.
    pub functions: Table<'src, FunctionDefinition<'src>>,
    /// The numbers of the variables, by their names.
    pub numbers: HashMap<BorrowedText<'src>, Number>,
}

// The functions, under their names.
fn function_table<'a, 'src>(
    alloc: Global,
    definitions: &Definitions<'src, 'a>,
) -> Result<Table<'src, FunctionDefinition<'src>>, AllocError>
    ensures { IfOk result (λ functions. functions ≡ functions_under (functions_in definitions.now)) }
{
    let mut functions = Table::new(alloc);
    for place in 0..definitions.functions.len() {
        functions.insert(definitions.function_at(place).clone()?)?;
    }
    Ok(functions)
}

// The variables, under their names.
fn variable_table<'a, 'src>(
    alloc: Global,
    definitions: &Definitions<'src, 'a>,
) -> Result<Table<'src, Assignment<'src>>, AllocError>
    ensures { IfOk result (λ variables. variables ≡ put_all (λ a. text_of_name a.name) [] (variables_in definitions.now)) }
{
    let mut variables = Table::new(alloc);
    for place in 0..definitions.variables.len() {
        variables.insert(copied(definitions.variable_at(place))?)?;
    }
    Ok(variables)
}

/// The variables and the functions of a module. An error names what is at fault with a name in the value of a variable or
/// in the body of a function, or variables that read one another in a circle.
pub fn resolve_variables<'a, 'src, S: Syntax>(
    alloc: Global,
    definitions: &Definitions<'src, 'a>,
    syntax: &S,
) -> Result<Variables<'src>, Error<'src>>
    ensures kept { IfOk result (λ _. Keeps (Expressions (known_of (S.answers syntax.now) (contents_in definitions.now)))) }
    ensures variables { IfOk result (AreVariablesOf (S.answers syntax.now) (contents_in definitions.now)) }
    ensures numbers { IfOk result HasNumbers }
    ensures named { IfErr result (Reports (Expressions (known_of (S.answers syntax.now) (contents_in definitions.now)))) }
{
    let kept = keep_variables(alloc, definitions)?;
    let mut assignments = variable_table(alloc, &kept)?;
    let mut functions = function_table(alloc, definitions)?;
    let resolved = VariableResolver::resolve_assignments(
        alloc,
        &mut assignments,
        &mut functions,
        syntax,
    )?;
    let (numbers, order) = resolved;
    Ok(Variables {
        assignments,
        evaluation_order: Sequence::from_vec(order),
        functions,
        numbers,
    })
}
