ghost use Rattle.std.specs.Prelude.{◌≡◌, ◌<◌, ℕ, length, IfOk, IfErr, IfNone, IfSome, OnOk, map};
ghost use Rattle.just_names.specs.Name.{text_of_name};
ghost use Rattle.just_ast_definitions.specs.declared.parameter.Parameter.{Parameter};
ghost use Rattle.just_names.specs.Index.{AreDifferent, texts_of_names};
ghost use Rattle.just_module_contents.specs.Recipes.{FollowsDefault, is_defaulted, is_needed, parameter_names, recipe_at};
ghost use Rattle.just_module_contents.specs.loops.Recipes.{NoneFollows};
ghost use Rattle.just_module_contents.specs.Contents.{texts_of_named};
ghost use Rattle.just_module_contents.specs.Definitions.{contents_in, recipes_in};
ghost use Rattle.just_errors.specs.Causes.{Keeps, Reports};
ghost use Rattle.just_module_contents.specs.Rules.{BreaksHeaders, BreaksNamings, BreaksParameters, BreaksUnexports};

use crate::settings::check_sets;
use just_data::BorrowedText;
use just_module_contents::definitions::{Definitions, Naming};
use just_module_contents::redefinition::redefinition;
use just_names::{index_names, repeated_name};
use just_parts::layers::{CompileError, CompileErrorKind, Error, Parameter, Syntax};
use std::alloc::{AllocError, Global};

fn parameter_names<'src>(
    alloc: Global,
    parameters: &[Parameter<'src>],
) -> Result<Vec<BorrowedText<'src>>, AllocError>
    ensures { IfOk result (λ names. names.items ≡ map (λ (p : Parameter). text_of_name p.name) parameters.now) }
{
    let mut names = Vec::new(alloc);
    for parameter in parameters {
        names.push(BorrowedText::new(parameter.name.lexeme()))?;
    }
    Ok(names)
}

// Whether a parameter is given by its place and has a default.
fn is_defaulted(parameter: &Parameter) -> bool
    ensures { result ≡ is_defaulted parameter.now }
{
    !parameter.is_option() && parameter.default.is_some()
}

// Whether a parameter is given by its place and its group may not be empty.
fn is_needed(parameter: &Parameter) -> bool
    ensures { result ≡ is_needed parameter.now }
{
    !parameter.is_option() && parameter.is_required()
}

// The place of the first parameter whose group may not be empty after one that has a default.
fn needed_after_default(parameters: &[Parameter]) -> Option<usize>
    ensures within { IfSome result (λ q. q < length parameters.now) }
    ensures found { IfSome result (FollowsDefault parameters.now) }
    ensures none { IfNone result (NoneFollows parameters.now) }
{
    let mut passed = false;
    for place in 0..parameters.len() {
        let parameter = &parameters[place];
        if passed && is_needed(parameter) {
            return Some(place);
        }
        if is_defaulted(parameter) {
            passed = true;
        }
    }
    None
}

// Refuses a recipe where a parameter that needs a word follows one with a default.
fn check_defaults_at<'a, 'src>(
    definitions: &Definitions<'src, 'a>,
    place: usize,
) -> Result<(), Error<'src>>
    requires { place < length definitions.now.recipes.items }
    ensures kept { OnOk result (NoneFollows (recipe_at (recipes_in definitions.now) place).parameters) }
    ensures named { IfErr result (Reports (BreaksParameters (recipes_in definitions.now))) }
{
    let parameters = definitions.recipe_at(place).parameters.as_slice();
    match needed_after_default(parameters) {
        None => Ok(()),
        Some(at) => {
            let name = &parameters[at].name;
            Err(Error::Compile(CompileError {
                token: name.token.copied(),
                kind: CompileErrorKind::RequiredParameterFollowsDefaultParameter {
                    parameter: BorrowedText::new(name.lexeme()),
                },
            }))
        }
    }
}

// Refuses a recipe that has two parameters of one name.
fn check_names_at<'a, 'src>(
    alloc: Global,
    definitions: &Definitions<'src, 'a>,
    place: usize,
) -> Result<(), Error<'src>>
    requires { place < length definitions.now.recipes.items }
    ensures kept { OnOk result (AreDifferent (parameter_names (recipe_at (recipes_in definitions.now) place))) }
    ensures named { IfErr result (Reports (BreaksParameters (recipes_in definitions.now))) }
{
    let recipe = definitions.recipe_at(place);
    let parameters = recipe.parameters.as_slice();
    let names = parameter_names(alloc, parameters)?;
    match index_names(alloc, names.as_slice())? {
        Ok(_) => Ok(()),
        Err((_, second)) => {
            let name = &parameters[second].name;
            Err(Error::Compile(CompileError {
                token: name.token.copied(),
                kind: CompileErrorKind::DuplicateParameter {
                    recipe: BorrowedText::new(recipe.name.lexeme()),
                    parameter: BorrowedText::new(name.lexeme()),
                },
            }))
        }
    }
}

// Refuses the first recipe that has two parameters of one name, or one without a default after one that has one.
fn check_parameters<'a, 'src>(
    alloc: Global,
    definitions: &Definitions<'src, 'a>,
) -> Result<(), Error<'src>>
    ensures kept { OnOk result (Keeps (BreaksParameters (recipes_in definitions.now))) }
    ensures named { IfErr result (Reports (BreaksParameters (recipes_in definitions.now))) }
{
    for place in 0..definitions.recipes.len() {
        check_names_at(alloc, definitions, place)?;
        check_defaults_at(definitions, place)?;
    }
    Ok(())
}

/// Checks that the names of a module's modules and aliases are different.
pub fn check_named<'src>(alloc: Global, namings: &[Naming<'src>]) -> Result<(), Error<'src>>
    ensures kept { OnOk result (AreDifferent (texts_of_named namings.now)) }
    ensures named { IfErr result (Reports (BreaksNamings namings.now)) }
{
    let texts = Naming::texts(alloc, namings)?;
    match index_names(alloc, texts.as_slice())? {
        Ok(_) => Ok(()),
        Err((first, second)) => {
            let (first, first_name) = namings[first].defined();
            let (second, second_name) = namings[second].defined();
            Err(Error::Compile(redefinition(first, first_name, second, second_name)))
        }
    }
}

// Refuses the first variable that is unexported twice.
fn check_unexports<'a, 'src>(
    alloc: Global,
    definitions: &Definitions<'src, 'a>,
) -> Result<(), Error<'src>>
    ensures kept { OnOk result (AreDifferent (texts_of_names definitions.now.unexports.items)) }
    ensures named { IfErr result (Reports (BreaksUnexports definitions.now.unexports.items)) }
{
    let names = definitions.unexports.as_slice();
    match repeated_name(alloc, names)? {
        None => Ok(()),
        Some((_, second)) => {
            let name = &names[second];
            Err(Error::Compile(CompileError {
                token: name.token.copied(),
                kind: CompileErrorKind::DuplicateUnexport {
                    variable: BorrowedText::new(name.lexeme()),
                },
            }))
        }
    }
}

/// Refuses a rule that is broken in the headers of a module whose modules and aliases have different names: of its recipes, of what
/// it sets, or of what it unexports.
pub fn check_headers<'a, 'src, S: Syntax>(
    alloc: Global,
    definitions: &Definitions<'src, 'a>,
    syntax: &S,
) -> Result<(), Error<'src>>
    requires { AreDifferent (texts_of_named definitions.now.named.items) }
    ensures kept { OnOk result (Keeps (BreaksHeaders (S.answers syntax.now).conflicts (contents_in definitions.now))) }
    ensures named { IfErr result (Reports (BreaksHeaders (S.answers syntax.now).conflicts (contents_in definitions.now))) }
{
    check_parameters(alloc, definitions)?;
    check_sets(alloc, definitions, syntax)?;
    check_unexports(alloc, definitions)
}
