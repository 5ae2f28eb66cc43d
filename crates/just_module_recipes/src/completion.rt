//! Recipes, completed before they are linked.

ghost use Rattle.std.specs.Prelude.{◌≡◌, ◌<◌, [], IfErr, IfOk, get_or, length};
ghost use Rattle.just_errors.specs.Causes.{Keeps, Reports};
ghost use Rattle.just_module_recipes.specs.Completed.{BreaksOne, TellsOne, completed_by, with_needed};
ghost use Rattle.just_recipe_values.specs.Among.{CoversRecipe};

use just_data::{Sequence, Shared};
use just_name_resolution::Known;
use just_parts::UnresolvedRecipe;
use just_parts::layers::{ConstantEvaluation, Error, Number, Syntax};
use just_recipe_names::{Meanings, check_recipe, numbered_recipe};
use just_recipe_values::{Among, valued_recipe};
use std::alloc::Global;

/// What the recipes of a module are completed by.
#[derive(Drop)]
pub struct Completing<'m, 'src, S: Syntax, E: ConstantEvaluation> {
    /// What the names in them mean.
    pub meanings: Meanings<'m, 'src, S>,
    /// What their docs, helps and patterns are evaluated among.
    pub among: Among<'m, 'src, E>,
    /// For each of them the numbers of the variables that it needs.
    pub references: &'m [Shared<Sequence<Number>>],
}

/// The recipe that stands at a place of a module, completed: with the numbers of what the names in it mean and of what it
/// needs, and with what its doc, helps and patterns come to. An error tells a name in it that is at fault, what of these has
/// no value, or a pattern that is refused.
pub fn complete<'m, 'src, S: Syntax, E: ConstantEvaluation>(
    alloc: Global,
    completing: &Completing<'m, 'src, S, E>,
    recipe: &UnresolvedRecipe<'src>,
    place: usize,
) -> Result<UnresolvedRecipe<'src>, Error<'src>>
    requires covered { CoversRecipe completing.now.among recipe.now }
    requires place { place < length completing.now.references.now }
    ensures kept { let it = completing.now in
        IfOk result (λ _. Keeps (BreaksOne (S.answers it.meanings.syntax.now) (E.answers it.among.evaluation.now) it recipe.now)) }
    ensures made { let it = completing.now in
        let by = completed_by (S.answers it.meanings.syntax.now) (E.answers it.among.evaluation.now) it in
        IfOk result (λ made. made ≡ with_needed (by recipe.now) (get_or it.references.now place [])) }
    ensures named { let it = completing.now in
        IfErr result (Reports (TellsOne (S.answers it.meanings.syntax.now) (E.answers it.among.evaluation.now) it recipe.now)) }
{
    let known = Known {
        assignments: completing.among.assignments,
        functions: completing.among.functions,
        syntax: completing.meanings.syntax,
    };
    check_recipe(alloc, &known, completing.meanings.settings, recipe)?;
    let numbered = numbered_recipe(alloc, &completing.meanings, recipe)?;
    let mut made = valued_recipe(alloc, &completing.among, numbered)?;
    made.variable_references = completing.references[place].clone()?;
    Ok(made)
}
