//! A whole shell body: its groups of lines, one after another.
ghost use Rattle.std.specs.Prelude.{◌≡◌, ◌<◌, ◌≤◌, ◌+◌, ◌∷◌, drop, length};
ghost use Rattle.std.specs.List.{All};
ghost use Rattle.just_parts.specs.Scopes.{attribute_expressions, in_attributes};
ghost use Rattle.just_run_layers.specs.Covering.{IsCovered, module_of};
ghost use Rattle.just_run_layers.specs.Host.{KeepsPromises};
ghost use Rattle.just_run_layers.specs.LineTexts.{AgreesWith};
ghost use Rattle.just_run_layers.specs.Interactions.{HasTrace, both, log_of};
ghost use Rattle.just_recipe_body.specs.Body.{body_contents_of};
ghost use Rattle.just_shell_body.specs.Lines.{AreGroupsCovered, groups};
ghost use Rattle.just_shell_body.specs.ShellBody as spec;

use crate::lines::group_length;
use crate::shell::run_group;
use just_ast_definitions::Line;
use just_errors::Halt;
use just_parts::layers::Syntax;
use just_recipe_body::body::{Body, Preparation, prepare};
use just_recipe_body::judgement::Next;
use just_run_layers::{Evaluation, Host};
use std::alloc::Global;

// The first group of the lines from a place on.
fn group_at<'l, 'a, 'run, 'src, S: Syntax>(
    body: &Body<'a, 'run, 'src, S>,
    lines: &'l [Line<'src>],
    at: usize,
) -> &'l [Line<'src>]
    requires { at < length lines.now }
    ensures first { let cut = groups (S.answers body.now.syntax.now) body.now.context.now.settings.now in
        cut (drop at lines.now) ≡ result.now ∷ cut (drop (at + length result.now) lines.now) }
    ensures some { 0 < length result.now }
    ensures within { at + length result.now ≤ length lines.now }
{
    let (_, rest) = lines.split_at(at);
    let (group, _) = rest.split_at(group_length(rest, body.syntax, body.context.settings));
    group
}

// Runs the groups of lines one after another, until one ends the recipe.
fn run_groups<'a, 'run, 'src, S: Syntax, E: Evaluation, H: Host>(
    alloc: Global,
    body: &Body<'a, 'run, 'src, S>,
    lines: &[Line<'src>],
    preparation: &Preparation,
    evaluation: &mut E,
    host: &mut H,
) -> Result<(), Halt<'src>>
    requires same { AgreesWith E.sigils E.continues (S.answers body.now.syntax.now) }
    requires covered { let covered = AreGroupsCovered (S.answers body.now.syntax.now) body.now.context.now.settings.now in
        covered (module_of body.now.context.now) body.now.scope.now lines.now }
    ensures keeps { KeepsPromises (E.promised evaluation.old) (E.promised evaluation.new) }
    ensures keeps_host { KeepsPromises (H.promised host.old) (H.promised host.new) }
    ensures took { let first = log_of (H.entries host.old) (E.requests evaluation.old) in
        let last = log_of (H.entries host.new) (E.requests evaluation.new) in
        let steps = spec.lines_steps (body_contents_of (S.answers body.now.syntax.now) body.now) preparation.now lines.now in
        HasTrace (both (E.promised evaluation.old) (H.promised host.old)) steps first last result }
{
    let mut at = 0;
    while at < lines.len() {
        let group = group_at(body, lines, at);
        match run_group(alloc, body, group, preparation, evaluation, host)? {
            Next::Ended => return Ok(()),
            Next::Onward => {}
        }
        at += group.len();
    }
    Ok(())
}

/// Runs a shell body: the working directory and the format of the time are evaluated, and then its groups of lines run one
/// after another, until one ends the recipe or comes to an error.
pub fn run_shell<'a, 'run, 'src, S: Syntax, E: Evaluation, H: Host>(
    alloc: Global,
    body: &Body<'a, 'run, 'src, S>,
    evaluation: &mut E,
    host: &mut H,
) -> Result<(), Halt<'src>>
    requires same { AgreesWith E.sigils E.continues (S.answers body.now.syntax.now) }
    requires attributes { All (IsCovered (module_of body.now.context.now) body.now.scope.now) (in_attributes attribute_expressions body.now.recipe.now) }
    requires lines { let covered = AreGroupsCovered (S.answers body.now.syntax.now) body.now.context.now.settings.now in
        covered (module_of body.now.context.now) body.now.scope.now body.now.recipe.now.body }
    ensures keeps { KeepsPromises (E.promised evaluation.old) (E.promised evaluation.new) }
    ensures keeps_host { KeepsPromises (H.promised host.old) (H.promised host.new) }
    ensures took { let first = log_of (H.entries host.old) (E.requests evaluation.old) in
        let last = log_of (H.entries host.new) (E.requests evaluation.new) in
        let steps = spec.shell_steps (body_contents_of (S.answers body.now.syntax.now) body.now) in
        HasTrace (both (E.promised evaluation.old) (H.promised host.old)) steps first last result }
{
    let preparation = prepare(alloc, body, evaluation)?;
    let lines = body.recipe.body.as_slice();
    run_groups(alloc, body, lines, &preparation, evaluation, host)
}
