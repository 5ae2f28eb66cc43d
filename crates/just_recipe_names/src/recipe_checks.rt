//! Checks the names in a recipe.

ghost use Rattle.std.specs.Prelude.{IfErr, OnOk};
ghost use Rattle.just_errors.specs.Causes.{Keeps, Reports};
ghost use Rattle.just_name_resolution.specs.Lent.{known_in};
ghost use Rattle.just_module_contents.specs.RecipeNames.{BreaksRecipeNames};

use crate::hidden_names::hide;
use crate::steps::{Step, steps};
use just_name_resolution::{Known, check_expression};
use just_parts::UnresolvedRecipe;
use just_parts::layers::{Error, Settings, Syntax};
use std::alloc::Global;
use std::collections::HashSet;

/// Checks the names in the expressions that a recipe reads under the settings of its module: each call names a function and
/// gives it as many arguments as it takes, and each variable is a parameter that is seen there, an assignment or a constant.
/// Docs, helps, patterns and the environment see no parameters, and a parameter's default and value see those before it. An
/// error tells a call or a variable that is at fault; want of memory is the only other.
pub fn check_recipe<'a, 'src, S: Syntax>(
    alloc: Global,
    known: &Known<'a, 'src, S>,
    settings: &Settings,
    recipe: &UnresolvedRecipe<'src>,
) -> Result<(), Error<'src>>
    ensures kept { let answers = S.answers known.now.syntax.now in
        OnOk result (Keeps (BreaksRecipeNames answers (known_in answers known.now) settings.now recipe.now)) }
    ensures named { let answers = S.answers known.now.syntax.now in
        IfErr result (Reports (BreaksRecipeNames answers (known_in answers known.now) settings.now recipe.now)) }
{
    let mut hidden = HashSet::new(alloc);
    for step in steps(alloc, known.syntax, settings, recipe)? {
        match step {
            Step::Reads(expression) => check_expression(alloc, known, &hidden, expression)?,
            Step::Hides(parameter) => hide(parameter, &mut hidden)?,
        }
    }
    Ok(())
}
