//! Whether a task may run: its confirmation.
ghost use Rattle.std.specs.Prelude.{◌≡◌};
ghost use Rattle.just_execution.specs.loops.Homes.{ServesIn};
ghost use Rattle.just_execution.specs.TaskInteractions.{consent_by, consent_steps};
ghost use Rattle.just_tasks.specs.Scene.{scope_contents_of};
ghost use Rattle.just_run_layers.specs.Host.{KeepsPromises};
ghost use Rattle.just_run_layers.specs.Interactions.{HasTrace, both, log_of};

use just_data::BorrowedText;
use just_parts::Recipe;
use just_parts::layers::{Halt, RunError, Syntax};
use just_recipe_body::body::Body;
use just_recipe_body::confirmation::confirm;
use just_run_layers::{Evaluation, Held, Host};
use just_tasks::{ModuleScope, Task};
use std::alloc::Global;

/// Asks whether a task may run, by what is held for it, unless the configuration says yes to all. A task whose recipe is not
/// confirmed does not run.
pub fn ask_consent<'src, S: Syntax, E: Evaluation, H: Host>(
    alloc: Global,
    syntax: &S,
    home: &ModuleScope<'_, 'src>,
    recipe: &Recipe<'src>,
    evaluation: &mut E,
    host: &mut H,
    task: &Task,
    held: &Held<'src>,
) -> Result<(), Halt<'src>>
    requires { ServesIn (S.answers syntax.now) home.now recipe.now held.now }
    ensures keeps { KeepsPromises (E.promised evaluation.old) (E.promised evaluation.new) }
    ensures keeps_host { KeepsPromises (H.promised host.old) (H.promised host.new) }
    ensures took { let first = log_of (H.entries host.old) (E.requests evaluation.old) in
        let last = log_of (H.entries host.new) (E.requests evaluation.new) in
        let steps = consent_steps (consent_by (S.answers syntax.now) task.now recipe.now (scope_contents_of home.now) held.now) in
        HasTrace (both (E.promised evaluation.old) (H.promised host.old)) steps first last result }
{
    if home.context.config.yes {
        return Ok(());
    }
    let body = Body {
        recipe,
        context: &home.context,
        syntax,
        scope: &held.scope,
        is_dependency: task.dependency,
        environment: &[],
        positional: &held.positional,
    };
    if confirm(alloc, &body, evaluation, host)? {
        return Ok(());
    }
    Err(Halt::Failed(RunError::NotConfirmed {
        recipe: BorrowedText::new(recipe.name.lexeme()),
    }))
}
