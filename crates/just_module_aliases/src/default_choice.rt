//! Which recipe of a module is run by default.

ghost use Rattle.std.specs.Prelude.{◌≡◌, ◌<◌, false, IsTrue, IfErr, IfOk, IfSome, OnOk, Some, length};
ghost use Rattle.just_errors.specs.Causes.{Keeps, Reports};
ghost use Rattle.just_recipe.specs.Recipes.{numbers};
ghost use Rattle.just_module_contents.specs.Defaults.{BreaksDefaults, IsBefore, IsDefaultBy, IsDefaultOf, IsDefaultPlace};
ghost use Rattle.just_module_contents.specs.loops.Defaults.{IsBetter};
ghost use Rattle.just_module_contents.specs.Definitions.{recipes_in};
ghost use Rattle.just_module_contents.specs.Named.{recipes_by};

use crate::default_mark::marked_place;
use just_module_contents::definitions::Definitions;
use just_parts::UnresolvedRecipe;
use just_parts::layers::{Ast, Error, Number, Syntax};
use just_recipes::Recipes;
use std::alloc::{AllocError, Global};

// Whether a recipe is the default before another: by line, and on equal lines by the greater name.
fn comes_before<'src>(recipe: &UnresolvedRecipe<'src>, other: &UnresolvedRecipe<'src>) -> bool
    ensures yes { IsTrue result → IsBefore recipe.now other.now }
    ensures no { result ≡ false → IsBefore other.now recipe.now }
{
    if recipe.name.line() == other.name.line() {
        return other.name.lexeme() < recipe.name.lexeme();
    }
    recipe.name.line() < other.name.line()
}

// The place of the default of two: of the best one so far, where there is one, and of another.
fn better<'a, 'src>(own: &Definitions<'src, 'a>, best: Option<usize>, place: usize) -> usize
    requires best { IfSome best (λ b. b < length own.now.recipes.items) }
    requires place { place < length own.now.recipes.items }
    ensures { IsBetter (recipes_in own.now) best place result }
{
    match best {
        None => place,
        Some(best) => {
            if comes_before(own.recipe_at(place), own.recipe_at(best)) {
                place
            } else {
                best
            }
        }
    }
}

// The place of the default among the recipes of a module's own file: of those that are resolved the one on the least
// line, and of those there the one of the greatest name.
fn default_place<'a, 'src>(own: &Definitions<'src, 'a>, resolved: &Recipes<'src>) -> Option<usize>
    ensures { IsDefaultPlace (numbers resolved.now) (recipes_in own.now) (length own.now.recipes.items) result }
{
    let mut best = None;
    for place in 0..own.recipes.len() {
        if resolved.get(own.recipe_at(place).number).is_none() {
            continue;
        }
        best = Some(better(own, best, place));
    }
    best
}

// The number of the recipe that is run by default where none is marked: one that the module's own file has, of those
// that are resolved.
fn own_default<'src, S: Syntax>(
    alloc: Global,
    ast: &Ast<'src>,
    syntax: &S,
    resolved: &Recipes<'src>,
) -> Result<Option<Number>, AllocError>
    ensures { IfOk result (IsDefaultOf (numbers resolved.now) (recipes_by (S.answers syntax.now).enabled (Some ast.now))) }
{
    let mut own = Definitions::new(alloc);
    own.add(ast.items.as_slice(), syntax)?;
    match default_place(&own, resolved) {
        None => Ok(None),
        Some(place) => Ok(Some(own.recipe_at(place).number)),
    }
}

/// The number of the recipe that is run by default: of those that are kept the one with the attribute `default`, or
/// else one that the module's own file has, of those that are resolved. An error says that two have the attribute.
pub fn default_of<'a, 'src, S: Syntax>(
    alloc: Global,
    kept: &Definitions<'src, 'a>,
    ast: &Ast<'src>,
    syntax: &S,
    resolved: &Recipes<'src>,
) -> Result<Option<Number>, Error<'src>>
    ensures kept { OnOk result (Keeps (BreaksDefaults (recipes_in kept.now))) }
    ensures default { IfOk result (IsDefaultBy (recipes_in kept.now) (numbers resolved.now) (recipes_by (S.answers syntax.now).enabled (Some ast.now))) }
    ensures named { IfErr result (Reports (BreaksDefaults (recipes_in kept.now))) }
{
    match marked_place(kept)? {
        Some(place) => Ok(Some(kept.recipe_at(place).number)),
        None => Ok(own_default(alloc, ast, syntax, resolved)?),
    }
}
