//! The lines of a shell body: the groups that a shell is handed as one command each.
ghost use Rattle.std.specs.Prelude.{◌≡◌, ◌<◌, ◌≤◌, ◌∷◌, [], drop, false, length, take, true, IfOk};
ghost use Rattle.std.specs.List.{All};
ghost use Rattle.just_parts.specs.Groups.{ends_group};
ghost use Rattle.just_run_layers.specs.Covering.{module_of};
ghost use Rattle.just_run_layers.specs.Host.{KeepsPromises};
ghost use Rattle.just_run_layers.specs.LineTexts.{AgreesWith, BeginsPlain, EndsWithBackslash};
ghost use Rattle.just_recipe_body.specs.Body.{body_contents_of};
ghost use Rattle.just_recipe_body.specs.Covering.{IsLineCovered};
ghost use Rattle.just_shell_body.specs.Lines as spec;
ghost use Rattle.just_shell_body.specs.Lines.{IsGroupCovered};
ghost use Rattle.just_shell_body.specs.loops.Lines.{TextBeginsGroup};
ghost use Rattle.just_recipe_body.specs.Taking.{AsksEvaluator};

use just_ast_definitions::Line;
use just_ast_expressions::{Settings, Sigil};
use just_data::Text;
use just_errors::Halt;
use just_parts::layers::Syntax;
use just_recipe_body::body::{Body, ask_line};
use just_recipe_body::judgement::{Marks, marks_of, number_from_one};
use just_run_layers::Evaluation;
use std::alloc::{AllocError, Global};

/// The command of a group of lines.
#[derive(Drop)]
pub struct GroupCommand {
    /// What a shell is handed.
    pub text: Text,
    /// Which sigils the first line of the group has.
    pub marks: Marks,
    /// The number of the last line of the group, from 1 on.
    pub line_number: Option<usize>,
}

// Whether the line after one begins a group, where this one does or not.
fn ends<'src, S: Syntax>(syntax: &S, line: &Line<'src>, settings: &Settings, begins: bool) -> bool
    ensures { result ≡ ends_group (S.answers syntax.now) settings.now line.now begins }
{
    if !syntax.is_continuation(line) {
        return true;
    }
    begins && settings.ignore_comments && syntax.is_comment(line)
}

/// How many of the lines are those of the first group.
pub fn group_length<'src, S: Syntax>(lines: &[Line<'src>], syntax: &S, settings: &Settings) -> usize
    requires { 0 < length lines.now }
    ensures some { 0 < result }
    ensures within { result ≤ length lines.now }
    ensures first { let groups = spec.groups (S.answers syntax.now) settings.now in
        groups lines.now ≡ take result lines.now ∷ groups (drop result lines.now) }
{
    for (i, line) in lines.iter().enumerate() {
        if ends(syntax, line, settings, i == 0) {
            return i + 1;
        }
    }
    lines.len()
}

// A text without the backslash at its end, where the next line goes on with it.
fn trimmed(text: &str, continues: bool) -> &str
    requires { continues ≡ true → EndsWithBackslash text.now }
    ensures { result.now ≡ spec.trimmed continues text.now }
{
    if continues {
        &text[..text.len() - 1]
    } else {
        text
    }
}

// The joined text of the lines of a group. It begins as the first does.
fn ask_text<'a, 'run, 'src, S: Syntax, E: Evaluation>(
    alloc: Global,
    body: &Body<'a, 'run, 'src, S>,
    lines: &[Line<'src>],
    evaluation: &mut E,
) -> Result<Text, Halt<'src>>
    requires same { AgreesWith E.sigils E.continues (S.answers body.now.syntax.now) }
    requires covered { All (IsLineCovered (module_of body.now.context.now) body.now.scope.now) lines.now }
    ensures begins { IfOk result (TextBeginsGroup (S.answers body.now.syntax.now) body.now.context.now.settings.now lines.now) }
    ensures keeps { KeepsPromises (E.promised evaluation.old) (E.promised evaluation.new) }
    ensures took { let steps = spec.lines_text_steps (body_contents_of (S.answers body.now.syntax.now) body.now) false [] lines.now in
        AsksEvaluator (E.promised evaluation.old) steps (E.requests evaluation.old) (E.requests evaluation.new) result }
{
    let mut text = String::new(alloc);
    let mut continued = false;
    for line in lines {
        let part = ask_line(alloc, body, line, continued, evaluation)?;
        text.push_str(trimmed(part.as_str(), body.syntax.is_continuation(line)))?;
        continued = true;
    }
    Ok(Text::from_string(text)?)
}

// The number of the last of some lines, or else another one.
fn last_number(number: usize, lines: &[Line]) -> usize
    ensures { result ≡ spec.last_number number lines.now }
{
    let mut last = number;
    for line in lines {
        last = line.number;
    }
    last
}

// The command of a group with this first line, these lines after it and this text; none where nothing but sigils is there.
fn command_said<'src>(
    alloc: Global,
    first: &Line<'src>,
    rest: &[Line<'src>],
    sigils: &[Sigil],
    text: &str,
) -> Result<Option<GroupCommand>, AllocError>
    requires { BeginsPlain (length sigils.now) text.now }
    ensures { IfOk result (λ made. made ≡ spec.command_said sigils.now first.now rest.now (drop (length sigils.now) text.now)) }
{
    let command = &text[sigils.len()..];
    if command.is_empty() {
        return Ok(None);
    }
    Ok(Some(GroupCommand {
        text: Text::from_str(alloc, command)?,
        marks: marks_of(sigils),
        line_number: number_from_one(last_number(first.number, rest)),
    }))
}

/// The command of a group of lines; none where it is skipped, or nothing but sigils is there.
pub fn ask_command<'a, 'run, 'src, S: Syntax, E: Evaluation>(
    alloc: Global,
    body: &Body<'a, 'run, 'src, S>,
    lines: &[Line<'src>],
    evaluation: &mut E,
) -> Result<Option<GroupCommand>, Halt<'src>>
    requires same { AgreesWith E.sigils E.continues (S.answers body.now.syntax.now) }
    requires covered { let covered = IsGroupCovered (S.answers body.now.syntax.now) body.now.context.now.settings.now in
        covered (module_of body.now.context.now) body.now.scope.now lines.now }
    ensures keeps { KeepsPromises (E.promised evaluation.old) (E.promised evaluation.new) }
    ensures took { let steps = spec.group_command_steps (body_contents_of (S.answers body.now.syntax.now) body.now) lines.now in
        AsksEvaluator (E.promised evaluation.old) steps (E.requests evaluation.old) (E.requests evaluation.new) result }
{
    let Some((first, rest)) = lines.split_first() else {
        return Ok(None);
    };
    let settings = body.context.settings;
    if is_skipped(body.syntax, first, settings) {
        return Ok(None);
    }
    let text = ask_text(alloc, body, lines, evaluation)?;
    let sigils = body.syntax.sigils(alloc, first, settings)?;
    Ok(command_said(alloc, first, rest, sigils.as_slice(), text.as_str())?)
}

// Whether the group that a line begins is skipped.
fn is_skipped<'src, S: Syntax>(syntax: &S, line: &Line<'src>, settings: &Settings) -> bool
    ensures { result ≡ spec.is_skipped (S.answers syntax.now) settings.now line.now }
{
    settings.ignore_comments && syntax.is_comment(line)
}
