ghost use Rattle.std.specs.Prelude.{◌≡◌, length, IfOk};
ghost use Rattle.std.specs.List.{All};
ghost use Rattle.just_tasks.specs.Pairs.{AllBelow};
ghost use Rattle.just_invocations.specs.declared.invocation.Invocation.{Invocation};
ghost use Rattle.just_justfile.specs.Closed.{IsHeld};
ghost use Rattle.just_invoke.specs.loops.Outcome.{tops_of};

use crate::groups::copy_groups;
use just_invocations::Invocation;
use just_recipes::Recipes;
use just_tasks::{Pair, Task};
use std::alloc::{AllocError, Global};

/// The tasks of invocations.
pub fn name_tops<'src>(
    alloc: Global,
    recipes: &Recipes<'src>,
    invocations: &[Invocation<'_, 'src, '_>],
) -> Result<Vec<Task>, AllocError>
    requires { All (λ (i : Invocation). IsHeld recipes.now i.recipe.now) invocations.now }
    ensures named { IfOk result (λ tasks. tasks.items ≡ tops_of recipes.now invocations.now) }
    ensures below { IfOk result (λ tasks. AllBelow (length recipes.now) tasks.items) }
{
    let mut tasks = Vec::new(alloc);
    for invocation in invocations {
        let recipe = recipes.place_of(invocation.recipe.number).unwrap();
        let groups = copy_groups(alloc, &invocation.arguments)?;
        tasks.push(Task {
            pair: Pair { recipe, groups },
            dependency: false,
        })?;
    }
    Ok(tasks)
}
