//! What is shown before a body, and the body.
ghost use Rattle.std.specs.Prelude.{◌≡◌, IfOk, IsSome, Some};
ghost use Rattle.just_run_layers.specs.Covering.{module_of};
ghost use Rattle.just_run_layers.specs.Host.{KeepsPromises};
ghost use Rattle.just_run_layers.specs.LineTexts.{AgreesWith};
ghost use Rattle.just_run_layers.specs.Interactions.{HasTrace, both, log_of};
ghost use Rattle.just_recipe_body.specs.Body.{body_contents_of};
ghost use Rattle.just_recipe_body.specs.Taking.{AsksHost};
ghost use Rattle.just_recipe_body.specs.Covering.{IsBodyCovered};
ghost use Rattle.just_recipe_run.specs.RecipeRun as spec;

use just_data::Text;
use just_errors::Halt;
use just_parts::layers::Syntax;
use just_paths::Modulepath;
use just_recipe_body::body::{Body, is_loquacious};
use just_run_layers::{Evaluation, Host};
use just_script_body::run_script;
use just_shell_body::run_shell;
use std::alloc::{AllocError, Global};

// That a recipe runs, as it is shown.
fn running(alloc: Global, path: &Modulepath) -> Result<Text, AllocError>
    ensures { IfOk result (λ line. line ≡ spec.running_text path.now) }
{
    Text::from_string(format!(in alloc; "===> running recipe `{path}`...")?)
}

// That a recipe runs is shown, where much is.
fn show_running<'src, H: Host>(
    alloc: Global,
    loquacious: bool,
    path: &Modulepath,
    host: &mut H,
) -> Result<(), Halt<'src>>
    ensures keeps { KeepsPromises (H.promised host.old) (H.promised host.new) }
    ensures took { let steps = spec.running_steps loquacious (Some path.now) in
        AsksHost (H.promised host.old) steps (H.entries host.old) (H.entries host.new) result }
{
    if !loquacious {
        return Ok(());
    }
    let line = running(alloc, path)?;
    host.show(&line)?;
    Ok(())
}

// What a recipe is for, as it is shown.
fn explained(alloc: Global, doc: &Text) -> Result<Text, AllocError>
    ensures { IfOk result (λ line. line ≡ spec.explained doc.now) }
{
    Text::from_string(format!(in alloc; "#### {doc}")?)
}

// What a recipe is for is shown, where that is asked for.
fn show_doc<'src, H: Host>(
    alloc: Global,
    explain: bool,
    doc: &Option<Text>,
    host: &mut H,
) -> Result<(), Halt<'src>>
    ensures keeps { KeepsPromises (H.promised host.old) (H.promised host.new) }
    ensures took { let steps = spec.explained_steps explain doc.now in
        AsksHost (H.promised host.old) steps (H.entries host.old) (H.entries host.new) result }
{
    let Some(doc) = doc else {
        return Ok(());
    };
    if !explain {
        return Ok(());
    }
    let line = explained(alloc, doc)?;
    host.show(&line)?;
    Ok(())
}

// The body, a script or lines for a shell.
fn run_body<'a, 'run, 'src, S: Syntax, E: Evaluation, H: Host>(
    alloc: Global,
    body: &Body<'a, 'run, 'src, S>,
    evaluation: &mut E,
    host: &mut H,
) -> Result<(), Halt<'src>>
    requires same { AgreesWith E.sigils E.continues (S.answers body.now.syntax.now) }
    requires covered { let covered = IsBodyCovered (S.answers body.now.syntax.now) body.now.context.now.settings.now in
        covered (module_of body.now.context.now) body.now.scope.now body.now.recipe.now }
    ensures keeps { KeepsPromises (E.promised evaluation.old) (E.promised evaluation.new) }
    ensures keeps_host { KeepsPromises (H.promised host.old) (H.promised host.new) }
    ensures took { let first = log_of (H.entries host.old) (E.requests evaluation.old) in
        let last = log_of (H.entries host.new) (E.requests evaluation.new) in
        let steps = spec.body_steps (body_contents_of (S.answers body.now.syntax.now) body.now) in
        HasTrace (both (E.promised evaluation.old) (H.promised host.old)) steps first last result }
{
    if body.recipe.is_script(body.context.settings) {
        run_script(alloc, body, evaluation, host)
    } else {
        run_shell(alloc, body, evaluation, host)
    }
}

/// Runs a recipe by what its body runs by: what is shown before its body, and the body.
pub fn run_recipe<'a, 'run, 'src, S: Syntax, E: Evaluation, H: Host>(
    alloc: Global,
    body: &Body<'a, 'run, 'src, S>,
    evaluation: &mut E,
    host: &mut H,
) -> Result<(), Halt<'src>>
    requires same { AgreesWith E.sigils E.continues (S.answers body.now.syntax.now) }
    requires path { IsSome body.now.recipe.now.recipe_path }
    requires covered { let covered = IsBodyCovered (S.answers body.now.syntax.now) body.now.context.now.settings.now in
        covered (module_of body.now.context.now) body.now.scope.now body.now.recipe.now }
    ensures keeps { KeepsPromises (E.promised evaluation.old) (E.promised evaluation.new) }
    ensures keeps_host { KeepsPromises (H.promised host.old) (H.promised host.new) }
    ensures took { let first = log_of (H.entries host.old) (E.requests evaluation.old) in
        let last = log_of (H.entries host.new) (E.requests evaluation.new) in
        let steps = spec.recipe_steps (body_contents_of (S.answers body.now.syntax.now) body.now) in
        HasTrace (both (E.promised evaluation.old) (H.promised host.old)) steps first last result }
{
    let config = body.context.config;
    show_running(
        alloc,
        is_loquacious(config.verbosity),
        body.recipe.recipe_path(),
        host,
    )?;
    show_doc(alloc, config.explain, &body.recipe.doc, host)?;
    run_body(alloc, body, evaluation, host)
}
