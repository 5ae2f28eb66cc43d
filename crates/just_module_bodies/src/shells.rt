//! The rules of recipes that a shell runs.
ghost use Rattle.std.specs.Prelude.{◌≡◌, IfErr, OnOk};
ghost use Rattle.just_errors.specs.Causes.{Keeps, Reports};
ghost use Rattle.just_parts.specs.Groups.{front, is_indented, ends_group};
ghost use Rattle.just_module_contents.specs.Definitions.{recipes_in};
ghost use Rattle.just_module_contents.specs.Shells.{BreaksFirstLine, BreaksLines, ScriptAttribute, BreaksShellRecipe, BreaksShells, is_of_scripts};

use just_data::BorrowedText;
use just_module_contents::definitions::Definitions;
use just_names::Token;
use just_parts::UnresolvedRecipe;
use just_parts::layers::{
    Attribute, CompileError, CompileErrorKind, Error, Fragment, Line, Settings, Sigil, Syntax,
};
use std::alloc::Global;

// The text that a line begins with, where it begins with text.
fn front<'src>(line: &Line<'src>) -> Option<Token<'src>>
    ensures { result ≡ front line.now.fragments }
{
    match line.fragments.as_slice().first() {
        Some(Fragment::Text { token }) => Some(token.copied()),
        _ => None,
    }
}

// Whether a text begins with a blank or a tab.
fn is_indented(text: &str) -> bool
    ensures { result ≡ is_indented text.now }
{
    text.starts_with(' ') || text.starts_with('\t')
}

// Refuses what a line that begins a group may not begin with.
fn check_first_line<'src, S: Syntax>(
    alloc: Global,
    syntax: &S,
    line: &Line<'src>,
    settings: &Settings,
) -> Result<(), Error<'src>>
    ensures kept { OnOk result (Keeps (BreaksFirstLine (S.answers syntax.now) settings.now line.now)) }
    ensures named { IfErr result (Reports (BreaksFirstLine (S.answers syntax.now) settings.now line.now)) }
{
    let sigils = syntax.sigils(alloc, line, settings)?;
    let Some(token) = front(line) else {
        return Ok(());
    };
    let sigils = sigils.as_slice();
    if sigils.contains(&Sigil::Guard) && sigils.contains(&Sigil::Infallible) {
        let kind = CompileErrorKind::GuardAndInfallibleSigil;
        return Err(Error::Compile(CompileError { token, kind }));
    }
    if is_indented(token.lexeme()) {
        let kind = CompileErrorKind::ExtraLeadingWhitespace;
        return Err(Error::Compile(CompileError { token, kind }));
    }
    Ok(())
}

// Whether the line after one begins a group, where this one does or not.
fn ends<'src, S: Syntax>(syntax: &S, line: &Line<'src>, settings: &Settings, begins: bool) -> bool
    ensures { result ≡ ends_group (S.answers syntax.now) settings.now line.now begins }
{
    if !syntax.is_continuation(line) {
        return true;
    }
    begins && settings.ignore_comments && syntax.is_comment(line)
}

// Refuses a line that begins a group with what it may not begin with.
fn check_lines<'src, S: Syntax>(
    alloc: Global,
    syntax: &S,
    lines: &[Line<'src>],
    settings: &Settings,
) -> Result<(), Error<'src>>
    ensures kept { OnOk result (Keeps (BreaksLines (S.answers syntax.now) settings.now lines.now)) }
    ensures named { IfErr result (Reports (BreaksLines (S.answers syntax.now) settings.now lines.now)) }
{
    let mut begins = true;
    for place in 0..lines.len() {
        let line = &lines[place];
        if begins {
            check_first_line(alloc, syntax, line, settings)?;
        }
        begins = ends(syntax, line, settings, begins);
    }
    Ok(())
}

// Whether only a script may have it.
fn is_of_scripts(attribute: &Attribute) -> bool
    ensures { result ≡ is_of_scripts attribute.now }
{
    matches!(attribute, Attribute::Cache(_) | Attribute::Extension(_))
}

// Refuses an attribute that only a script may have.
fn check_attributes<'src>(recipe: &UnresolvedRecipe<'src>) -> Result<(), Error<'src>>
    ensures kept { OnOk result (Keeps (ScriptAttribute recipe.now)) }
    ensures named { IfErr result (Reports (ScriptAttribute recipe.now)) }
{
    let attributes = recipe.attributes.as_slice();
    for place in 0..attributes.len() {
        let named = &attributes[place];
        if is_of_scripts(&named.attribute) {
            return Err(Error::Compile(CompileError {
                token: recipe.name.token.copied(),
                kind: CompileErrorKind::InvalidShellRecipeAttribute {
                    recipe: BorrowedText::new(recipe.name.lexeme()),
                    attribute: BorrowedText::new(named.name.lexeme()),
                },
            }));
        }
    }
    Ok(())
}

// Refuses what a recipe that a shell runs may not have.
fn check_shell<'src, S: Syntax>(
    alloc: Global,
    syntax: &S,
    recipe: &UnresolvedRecipe<'src>,
    settings: &Settings,
) -> Result<(), Error<'src>>
    ensures kept { OnOk result (Keeps (BreaksShellRecipe (S.answers syntax.now) settings.now recipe.now)) }
    ensures named { IfErr result (Reports (BreaksShellRecipe (S.answers syntax.now) settings.now recipe.now)) }
{
    if recipe.is_script(settings) {
        return Ok(());
    }
    check_lines(alloc, syntax, recipe.body.as_slice(), settings)?;
    check_attributes(recipe)
}

/// Refuses a rule that is broken by a recipe that a shell runs under these settings: a line that begins a command has both
/// sigils, or is indented, or the recipe has an attribute that only a script may have.
pub fn check_shells<'a, 'src, S: Syntax>(
    alloc: Global,
    syntax: &S,
    definitions: &Definitions<'src, 'a>,
    settings: &Settings,
) -> Result<(), Error<'src>>
    ensures kept { OnOk result (Keeps (BreaksShells (S.answers syntax.now) settings.now (recipes_in definitions.now))) }
    ensures named { IfErr result (Reports (BreaksShells (S.answers syntax.now) settings.now (recipes_in definitions.now))) }
{
    for place in 0..definitions.recipes.len() {
        check_shell(alloc, syntax, definitions.recipe_at(place), settings)?;
    }
    Ok(())
}
