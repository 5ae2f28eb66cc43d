//! The rules of a module's functions.

ghost use Rattle.std.specs.Prelude.{◌≡◌, ℕ, IfOk, IfErr, OnOk, Some, map, slice_get};
ghost use Rattle.just_errors.specs.Causes.{Keeps, Reports};
ghost use Rattle.just_ast_definitions.specs.declared.function_definition.FunctionDefinition.{FunctionDefinition};
ghost use Rattle.just_module_contents.specs.Contents.{function_names, signature, signatures};
ghost use Rattle.just_names.specs.Index.{texts_of_names, AreDifferent};
ghost use Rattle.just_module_contents.specs.Definitions.{functions_in};
ghost use Rattle.just_module_contents.specs.Rules.{BreaksFunctions, RepeatsParameter};

use just_data::BorrowedText;
use just_module_contents::definitions::Definitions;
use just_module_contents::redefinition::told;
use just_names::repeated_name;
use just_parts::layers::{
    CompileError, CompileErrorKind, Definition, Error, FunctionDefinition, Name,
};
use std::alloc::{AllocError, Global};

// The names of a function's parameters.
fn parameter_names<'src>(
    alloc: Global,
    function: &FunctionDefinition<'src>,
) -> Result<Vec<Name<'src>>, AllocError>
    ensures { IfOk result (λ names. names.items ≡ (signature function.now).parameters) }
{
    let mut names = Vec::new(alloc);
    for parameter in function.parameters.as_slice() {
        names.push(parameter.name.copied())?;
    }
    Ok(names)
}

// Refuses a function that has two parameters of one name.
fn check_function<'src>(
    alloc: Global,
    function: &FunctionDefinition<'src>,
) -> Result<(), Error<'src>>
    ensures kept { OnOk result (AreDifferent (texts_of_names (signature function.now).parameters)) }
    ensures named { IfErr result (Reports (RepeatsParameter (signature function.now))) }
{
    let names = parameter_names(alloc, function)?;
    match repeated_name(alloc, names.as_slice())? {
        None => Ok(()),
        Some((_, second)) => {
            let name = &names[second];
            Err(Error::Compile(CompileError {
                token: name.token.copied(),
                kind: CompileErrorKind::DuplicateFunctionParameter {
                    function: BorrowedText::new(function.name.lexeme()),
                    parameter: BorrowedText::new(name.lexeme()),
                },
            }))
        }
    }
}

// Refuses the second of two functions that have one name.
fn check_different<'a, 'src>(
    alloc: Global,
    definitions: &Definitions<'src, 'a>,
) -> Result<(), Error<'src>>
    ensures kept { OnOk result (AreDifferent (texts_of_names (function_names (signatures (functions_in definitions.now))))) }
    ensures named { IfErr result (Reports (BreaksFunctions (signatures (functions_in definitions.now)))) }
{
    let names = definitions.function_names(alloc)?;
    match repeated_name(alloc, names.as_slice())? {
        None => Ok(()),
        Some((first, second)) => Err(Error::Compile(told(
            Definition::Function,
            &names[first],
            Definition::Function,
            &names[second],
        ))),
    }
}

/// Refuses a rule that is broken by the functions of a module: two have one name, or one has two parameters of one name.
pub fn check_functions<'a, 'src>(
    alloc: Global,
    definitions: &Definitions<'src, 'a>,
) -> Result<(), Error<'src>>
    ensures kept { OnOk result (Keeps (BreaksFunctions (signatures (functions_in definitions.now)))) }
    ensures named { IfErr result (Reports (BreaksFunctions (signatures (functions_in definitions.now)))) }
{
    check_different(alloc, definitions)?;
    for place in 0..definitions.functions.len() {
        check_function(alloc, definitions.function_at(place))?;
    }
    Ok(())
}
