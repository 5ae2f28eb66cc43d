//! The rules of a module's variables, and with those of its functions the rules of its names.

ghost use Rattle.std.specs.Prelude.{◌≡◌, false, IfOk, IfErr, OnOk};
ghost use Rattle.just_errors.specs.Causes.{Keeps, Reports};
ghost use Rattle.just_module_contents.specs.Contents.{variable_names};
ghost use Rattle.just_names.specs.Index.{texts_of_names, AreDifferent};
ghost use Rattle.just_names.specs.loops.Index.{AreApart};
ghost use Rattle.just_module_contents.specs.Definitions.{contents_in, sets_in, variables_in};
ghost use Rattle.just_module_contents.specs.Rules.{AssignedTwice, BreaksDefinitions, Unexported, BreaksVariablesOf};
ghost use Rattle.just_module_contents.specs.Settings.{allows_variables, is_allowing};

use crate::functions::check_functions;
use just_data::BorrowedText;
use just_module_contents::definitions::Definitions;
use just_names::{index_last, repeated_name, texts_of};
use just_parts::layers::{CompileError, CompileErrorKind, Error, Name, Set, Setting};
use std::alloc::{AllocError, Global};

// Whether it lets variables be assigned twice.
fn is_allowing(set: &Set) -> bool
    ensures { result ≡ is_allowing set.now }
{
    match set.value {
        Setting::AllowDuplicateVariables(on) => on,
        _ => false,
    }
}

// Whether variables may be assigned twice.
fn allows_variables<'a, 'src>(definitions: &Definitions<'src, 'a>) -> bool
    ensures { result ≡ allows_variables (sets_in definitions.now) }
{
    for place in 0..definitions.sets.len() {
        if is_allowing(definitions.set_at(place)) {
            return true;
        }
    }
    false
}

// The names of the variables.
fn variable_names<'a, 'src>(
    alloc: Global,
    definitions: &Definitions<'src, 'a>,
) -> Result<Vec<Name<'src>>, AllocError>
    ensures { IfOk result (λ names. names.items ≡ variable_names (variables_in definitions.now)) }
{
    let mut names = Vec::new(alloc);
    for place in 0..definitions.variables.len() {
        names.push(definitions.variable_at(place).name.copied())?;
    }
    Ok(names)
}

// Refuses a variable that is assigned twice.
fn check_once<'src>(alloc: Global, names: &[Name<'src>]) -> Result<(), Error<'src>>
    ensures kept { OnOk result (AreDifferent (texts_of_names names.now)) }
    ensures named { IfErr result (Reports (AssignedTwice names.now)) }
{
    match repeated_name(alloc, names)? {
        None => Ok(()),
        Some((_, second)) => {
            let name = &names[second];
            Err(Error::Compile(CompileError {
                token: name.token.copied(),
                kind: CompileErrorKind::DuplicateVariable {
                    variable: BorrowedText::new(name.lexeme()),
                },
            }))
        }
    }
}

// Refuses a variable that is assigned and unexported.
fn check_unexported<'src>(
    alloc: Global,
    names: &[Name<'src>],
    unexports: &[Name<'src>],
) -> Result<(), Error<'src>>
    ensures kept { OnOk result (AreApart (texts_of_names names.now) (texts_of_names unexports.now)) }
    ensures named { IfErr result (Reports (Unexported names.now unexports.now)) }
{
    let texts = texts_of(alloc, unexports)?;
    let index = index_last(alloc, texts.as_slice())?;
    for name in names {
        match index.get(&BorrowedText::new(name.lexeme())) {
            None => continue,
            Some(_) => {
                return Err(Error::Compile(CompileError {
                    token: name.token.copied(),
                    kind: CompileErrorKind::ExportUnexported {
                        variable: BorrowedText::new(name.lexeme()),
                    },
                }));
            }
        }
    }
    Ok(())
}

// Refuses a variable that is assigned twice, unless a setting allows it, or one that is unexported.
fn check_variables<'a, 'src>(
    alloc: Global,
    definitions: &Definitions<'src, 'a>,
) -> Result<(), Error<'src>>
    ensures kept { OnOk result (Keeps (BreaksVariablesOf (contents_in definitions.now))) }
    ensures named { IfErr result (Reports (BreaksVariablesOf (contents_in definitions.now))) }
{
    let names = variable_names(alloc, definitions)?;
    if !allows_variables(definitions) {
        check_once(alloc, names.as_slice())?;
    }
    check_unexported(alloc, names.as_slice(), definitions.unexports.as_slice())
}

/// Refuses a rule that is broken by the names of a module: of its variables or of its functions.
pub fn check_names<'a, 'src>(
    alloc: Global,
    definitions: &Definitions<'src, 'a>,
) -> Result<(), Error<'src>>
    ensures kept { OnOk result (Keeps (BreaksDefinitions (contents_in definitions.now))) }
    ensures named { IfErr result (Reports (BreaksDefinitions (contents_in definitions.now))) }
{
    check_variables(alloc, definitions)?;
    check_functions(alloc, definitions)
}
