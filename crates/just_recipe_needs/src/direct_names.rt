//! What a recipe names itself: variables of the module where they are not hidden, and functions of the module that it calls.

ghost use Rattle.std.specs.Prelude.{◌≡◌, ◌||◌, ◌∷◌, [], List, ℕ, IfOk, OnOk};
ghost use Rattle.std.specs.HashSet.{contains};
ghost use Rattle.std.specs.Str.{bytes_eq};
ghost use Rattle.just_names.specs.Name.{text_of_name};
ghost use Rattle.just_ast_references.specs.Mentions.{Names, mention_of};
ghost use Rattle.just_name_resolution.specs.Lent.{tables_in};
ghost use Rattle.just_parts.specs.Reading.{mentions};
ghost use Rattle.just_module_contents.specs.RecipeNames.{written_scopes};
ghost use Rattle.just_recipe_needs.specs.loops.Direct.{AreDirect, GainsNames, Notes, NotesCall};

use just_ast_references::{Reference, References};
use just_data::BorrowedText;
use just_name_resolution::Tables;
use just_parts::UnresolvedRecipe;
use just_parts::layers::{Expression, Name, Parameter, Settings, Syntax};
use just_recipe_names::steps::{Step, steps};
use std::alloc::{AllocError, Global};
use std::collections::{BTreeSet, HashSet};

/// What a recipe names itself, in the byte order of the names.
#[derive(PartialEq, Eq, Hash, Drop)]
pub struct DirectNames<'src> {
    /// The variables of the module that it names where they are not hidden.
    pub variables: BTreeSet<BorrowedText<'src>>,
    /// The functions of the module that it calls.
    pub functions: BTreeSet<BorrowedText<'src>>,
}

// Adds a name to others.
fn add<'src>(name: &Name<'src>, names: &mut BTreeSet<BorrowedText<'src>>) -> Result<(), AllocError>
    ensures { OnOk result (GainsNames (text_of_name name.now ∷ []) names.old.keys names.new.keys) }
{
    names.insert(BorrowedText::new(name.lexeme()))?;
    Ok(())
}

// Notes a call.
fn note_call<'a, 'src>(
    tables: &Tables<'a, 'src>,
    name: &Name<'src>,
    names: &mut DirectNames<'src>,
) -> Result<(), AllocError>
    ensures { OnOk result (NotesCall (tables_in tables.now) (text_of_name name.now) names.old names.new) }
{
    if !tables.functions.contains_key(name.lexeme()) {
        return Ok(());
    }
    add(name, &mut names.functions)?;
    Ok(())
}

// Notes a variable.
fn note_variable<'a, 'src>(
    tables: &Tables<'a, 'src>,
    hidden: &HashSet<BorrowedText<'src>>,
    name: &Name<'src>,
    names: &mut DirectNames<'src>,
) -> Result<(), AllocError>
    ensures { let said = Names (text_of_name name.now) ∷ [] in
        OnOk result (Notes (tables_in tables.now) (contains bytes_eq hidden.now) said names.old names.new) }
{
    if !tables.assignments.contains_key(name.lexeme()) {
        return Ok(());
    }
    if hidden.contains(&BorrowedText::new(name.lexeme())) {
        return Ok(());
    }
    add(name, &mut names.variables)?;
    Ok(())
}

// Notes a call or a variable.
fn note<'a, 'src>(
    tables: &Tables<'a, 'src>,
    hidden: &HashSet<BorrowedText<'src>>,
    reference: &Reference<'src>,
    names: &mut DirectNames<'src>,
) -> Result<(), AllocError>
    ensures { let said = mention_of reference.now ∷ [] in
        OnOk result (Notes (tables_in tables.now) (contains bytes_eq hidden.now) said names.old names.new) }
{
    match reference {
        Reference::Call { name, .. } => note_call(tables, name, names),
        Reference::Variable { name } => note_variable(tables, hidden, name, names),
    }
}

// Notes what an expression names.
fn note_expression<'a, 'src>(
    alloc: Global,
    tables: &Tables<'a, 'src>,
    hidden: &HashSet<BorrowedText<'src>>,
    expression: &Expression<'src>,
    names: &mut DirectNames<'src>,
) -> Result<(), AllocError>
    ensures { let said = mentions expression.now in
        OnOk result (Notes (tables_in tables.now) (contains bytes_eq hidden.now) said names.old names.new) }
{
    for reference in References::new(alloc, expression)? {
        note(tables, hidden, &reference, names)?;
    }
    Ok(())
}

// Hides the name of a parameter too.
fn hide<'src>(
    parameter: &Parameter<'src>,
    hidden: &mut HashSet<BorrowedText<'src>>,
) -> Result<(), AllocError>
    ensures { let is_name = bytes_eq (text_of_name parameter.now.name) in
        OnOk result ((name : List ℕ) → contains bytes_eq hidden.new name ≡ (is_name name || contains bytes_eq hidden.old name)) }
{
    hidden.insert(BorrowedText::new(parameter.name.lexeme()))?;
    Ok(())
}

/// What a recipe names itself under the settings of its module, each name in the scope in which it stands: a parameter hides
/// its name in what comes after it. Want of memory is the only error.
pub fn direct_names<'a, 'src, S: Syntax>(
    alloc: Global,
    tables: &Tables<'a, 'src>,
    syntax: &S,
    settings: &Settings,
    recipe: &UnresolvedRecipe<'src>,
) -> Result<DirectNames<'src>, AllocError>
    ensures { let scopes = written_scopes (S.answers syntax.now) settings.now recipe.now in
        IfOk result (AreDirect (tables_in tables.now) scopes) }
{
    let mut hidden = HashSet::new(alloc);
    let mut names = DirectNames {
        variables: BTreeSet::new(alloc),
        functions: BTreeSet::new(alloc),
    };
    for step in steps(alloc, syntax, settings, recipe)? {
        match step {
            Step::Reads(expression) => {
                note_expression(alloc, tables, &hidden, expression, &mut names)?
            }
            Step::Hides(parameter) => hide(parameter, &mut hidden)?,
        }
    }
    Ok(names)
}
