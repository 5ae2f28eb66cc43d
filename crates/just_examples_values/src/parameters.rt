//! What the parameters of recipes come to.
ghost use Rattle.std.specs.Prelude.{IfOk};
ghost use Rattle.just_examples_values.specs.loops.Bound.{BindsAll};

use crate::arguments::groups_of;
use crate::place::Place;
use crate::variables::add_scope;
use just_errors::Refusal;
use just_examples_format::lists::add_group;
use just_parts::Recipe;
use just_run_layers::{Evaluation, Held};
use std::alloc::{AllocError, Global};

/// What the parameters of a recipe come to among values, by groups that are words.
pub fn bound<'src, E: Evaluation>(
    alloc: Global,
    evaluation: &mut E,
    place: &Place<'_, 'src>,
    recipe: &Recipe<'src>,
    words: &[&str],
) -> Result<Held<'src>, Refusal>
    requires { BindsAll place.now.context.now place.now.scope.now }
    ensures { IfOk result (λ held. BindsAll place.now.context.now held.scope) }
{
    let groups = groups_of(alloc, words)?;
    evaluation.parameters(
        alloc,
        place.context,
        place.scope,
        &groups,
        place.is_dependency,
        recipe.parameters.as_slice(),
        recipe.name.lexeme(),
    )
}

/// Adds what parameters come to.
pub fn add_held(alloc: Global, held: &Held, text: &mut String) -> Result<(), AllocError> {
    add_scope(alloc, &held.scope, text)?;
    text.push_str("positional")?;
    add_group(text, held.positional.as_slice())?;
    text.push_str("\npairs")?;
    for pair in held.environment.as_slice() {
        write!(text, " {}='{}'", pair.name, pair.value)?;
    }
    text.push('\n')
}
