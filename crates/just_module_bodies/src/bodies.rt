//! The rules of a module's bodies: what needs lists, the name space of modules, aliases and recipes, and what shells run.

ghost use Rattle.std.specs.Prelude.{◌≡◌, ◌+◌, ◌<◌, false, IfOk, IfErr, IsTrue, OnOk, Some, length, slice_get};
ghost use Rattle.std.specs.Str.{bytes_eq};
ghost use Rattle.std.specs.HashMap.{get};
ghost use Rattle.just_errors.specs.Causes.{Keeps, Reports};
ghost use Rattle.just_module_contents.specs.Contents.{defined, defined_in, function_texts, texts_of_defined};
ghost use Rattle.just_module_contents.specs.Definitions.{contents_in, lists_in};
ghost use Rattle.just_names.specs.Index.{IsIndex};
ghost use Rattle.just_module_contents.specs.Rules.{BreaksBodies, BreaksLists, BreaksRedefinition, StandsFor};

use crate::shells::check_shells;
use just_data::BorrowedText;
use just_module_contents::definitions::{Definitions, Naming};
use just_module_contents::redefinition::redefinition;
use just_names::{index_last, repeated_below, texts_of};
use just_parts::layers::{
    CompileError, CompileErrorKind, Definition, Error, ListUse, Name, Settings, Syntax,
};
use std::alloc::{AllocError, Global};
use std::collections::HashMap;

// The names of the functions, as texts.
fn function_texts<'a, 'src>(
    alloc: Global,
    definitions: &Definitions<'src, 'a>,
) -> Result<Vec<BorrowedText<'src>>, AllocError>
    ensures { IfOk result (λ names. names.items ≡ function_texts (contents_in definitions.now)) }
{
    let names = definitions.function_names(alloc)?;
    texts_of(alloc, names.as_slice())
}

// Whether a function of one of these names stands for what needs lists.
fn stands_for<'src>(
    names: &[BorrowedText<'src>],
    index: &HashMap<BorrowedText<'src>, usize>,
    used: &ListUse<'src>,
) -> bool
    requires { IsIndex names.now (get bytes_eq index.now) }
    ensures yes { IsTrue result → StandsFor names.now used.now }
    ensures no { result ≡ false → StandsFor names.now used.now → ⊥ }
{
    used.feature.function() && index.contains_key(&BorrowedText::new(used.token.lexeme()))
}

// Refuses the first that needs lists and that no function stands for.
fn check_uses<'a, 'src>(
    alloc: Global,
    definitions: &Definitions<'src, 'a>,
) -> Result<(), Error<'src>>
    ensures kept { OnOk result (Keeps (BreaksLists false (function_texts (contents_in definitions.now)) (lists_in definitions.now))) }
    ensures named { IfErr result (Reports (BreaksLists false (function_texts (contents_in definitions.now)) (lists_in definitions.now))) }
{
    let names = function_texts(alloc, definitions)?;
    let index = index_last(alloc, names.as_slice())?;
    for place in 0..definitions.lists.len() {
        let used = definitions.list_at(place);
        if stands_for(names.as_slice(), &index, used) {
            continue;
        }
        return Err(Error::Compile(CompileError {
            token: used.token.copied(),
            kind: CompileErrorKind::ListFeature {
                feature: used.feature,
            },
        }));
    }
    Ok(())
}

// The names of what is defined: of the modules and aliases, then of the recipes.
fn defined_names<'a, 'src>(
    alloc: Global,
    definitions: &Definitions<'src, 'a>,
) -> Result<Vec<BorrowedText<'src>>, AllocError>
    ensures { IfOk result (λ names. names.items ≡ texts_of_defined (defined_in (contents_in definitions.now))) }
{
    let mut names = Naming::texts(alloc, definitions.named.as_slice())?;
    for place in 0..definitions.recipes.len() {
        names.push(BorrowedText::new(definitions.recipe_at(place).name.lexeme()))?;
    }
    Ok(names)
}

// What is defined at a place, and its name.
fn defined_at<'b, 'a, 'src>(
    definitions: &'b Definitions<'src, 'a>,
    place: usize,
) -> (Definition, &'b Name<'src>)
    requires { place < length definitions.now.named.items + length definitions.now.recipes.items }
    ensures { slice_get (defined_in (contents_in definitions.now)) place ≡ Some (defined result.0 result.1.now) }
{
    let named = definitions.named.len();
    if place < named {
        return definitions.naming_at(place);
    }
    let recipe = definitions.recipe_at(place - named);
    (Definition::Recipe, &recipe.name)
}

// Refuses two modules, aliases and recipes of one name; two recipes may have it where that is allowed.
fn check_defined<'a, 'src>(
    alloc: Global,
    definitions: &Definitions<'src, 'a>,
    allowed: bool,
) -> Result<(), Error<'src>>
    ensures kept { OnOk result (Keeps (BreaksRedefinition allowed (defined_in (contents_in definitions.now)))) }
    ensures named { IfErr result (Reports (BreaksRedefinition allowed (defined_in (contents_in definitions.now)))) }
{
    let names = defined_names(alloc, definitions)?;
    let named = definitions.named.len();
    let bound = if allowed { named } else { names.len() };
    match repeated_below(alloc, names.as_slice(), bound)? {
        None => Ok(()),
        Some((first, second)) => {
            let (first, first_name) = defined_at(definitions, first);
            let (second, second_name) = defined_at(definitions, second);
            Err(Error::Compile(redefinition(first, first_name, second, second_name)))
        }
    }
}

/// Refuses a rule that is broken in the bodies of a module with these settings: something needs lists, which are off, two
/// of its modules, aliases and recipes have one name, or a recipe that a shell runs has what it may not have.
pub fn check_bodies<'a, 'src, S: Syntax>(
    alloc: Global,
    syntax: &S,
    definitions: &Definitions<'src, 'a>,
    settings: &Settings,
) -> Result<(), Error<'src>>
    ensures kept { OnOk result (Keeps (BreaksBodies (S.answers syntax.now) settings.now (contents_in definitions.now))) }
    ensures named { IfErr result (Reports (BreaksBodies (S.answers syntax.now) settings.now (contents_in definitions.now))) }
{
    if !settings.lists {
        check_uses(alloc, definitions)?;
    }
    check_defined(alloc, definitions, settings.allow_duplicate_recipes)?;
    check_shells(alloc, syntax, definitions, settings)
}
