//! The rule of recipes that are run by default.
ghost use Rattle.std.specs.Prelude.{◌≡◌, ◌≢◌, ◌<◌, true, length, IsTrue, false, IfErr, IfOk, OnOk};
ghost use Rattle.std.specs.List.{list_any};
ghost use Rattle.just_errors.specs.Causes.{Broken, Keeps, Reports};
ghost use Rattle.just_module_contents.specs.Defaults.{BreaksDefaults, IsLater, is_default, is_marked};
ghost use Rattle.just_module_contents.specs.loops.Defaults.{IsMarkedPlace};
ghost use Rattle.just_module_contents.specs.Definitions.{recipes_in};
ghost use Rattle.just_module_contents.specs.Recipes.{recipe_at};

use just_data::BorrowedText;
use just_module_contents::definitions::Definitions;
use just_parts::UnresolvedRecipe;
use just_parts::layers::{Attribute, CompileError, CompileErrorKind, Error, NamedAttribute};

// Whether one of them says that a recipe is run by default.
fn has_default(attributes: &[NamedAttribute]) -> bool
    ensures { result ≡ list_any is_default attributes.now }
{
    attributes
        .iter()
        .any(|named| matches!(named.attribute, Attribute::Default))
}

// Whether a recipe has that attribute.
fn is_marked(recipe: &UnresolvedRecipe) -> bool
    ensures { result ≡ is_marked recipe.now }
{
    has_default(recipe.attributes.as_slice())
}

// Whether the second recipe is the later one: by its line, and on equal lines by the greater name.
fn is_later<'src>(first: &UnresolvedRecipe<'src>, second: &UnresolvedRecipe<'src>) -> bool
    ensures yes { IsTrue result → IsLater first.now second.now }
    ensures no { result ≡ false → IsLater second.now first.now }
{
    if first.name.line() == second.name.line() {
        return first.name.lexeme() < second.name.lexeme();
    }
    first.name.line() < second.name.line()
}

// That the later of two recipes has the attribute as the other has.
fn duplicate<'a, 'src>(
    definitions: &Definitions<'src, 'a>,
    first: usize,
    second: usize,
) -> CompileError<'src>
    requires first { first < length definitions.now.recipes.items }
    requires second { second < length definitions.now.recipes.items }
    requires apart { first ≢ second }
    requires first_marked { is_marked (recipe_at (recipes_in definitions.now) first) ≡ true }
    requires second_marked { is_marked (recipe_at (recipes_in definitions.now) second) ≡ true }
    ensures { BreaksDefaults (recipes_in definitions.now) (Broken result.token result.kind) }
{
    let one = definitions.recipe_at(first);
    let other = definitions.recipe_at(second);
    let later = if is_later(one, other) { other } else { one };
    CompileError {
        token: later.name.token.copied(),
        kind: CompileErrorKind::DuplicateDefault {
            recipe: BorrowedText::new(later.name.lexeme()),
        },
    }
}

/// The place of the recipe that has the attribute `default`, if one has it. An error says that two have it, at the later
/// of them.
pub fn marked_place<'a, 'src>(
    definitions: &Definitions<'src, 'a>,
) -> Result<Option<usize>, Error<'src>>
    ensures kept { OnOk result (Keeps (BreaksDefaults (recipes_in definitions.now))) }
    ensures place { IfOk result (IsMarkedPlace (recipes_in definitions.now) (length (recipes_in definitions.now))) }
    ensures named { IfErr result (Reports (BreaksDefaults (recipes_in definitions.now))) }
{
    let mut marked = None;
    for place in 0..definitions.recipes.len() {
        if !is_marked(definitions.recipe_at(place)) {
            continue;
        }
        if let Some(first) = marked {
            return Err(Error::Compile(duplicate(definitions, first, place)));
        }
        marked = Some(place);
    }
    Ok(marked)
}
