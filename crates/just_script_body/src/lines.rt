//! The lines of a script body: their texts, and the show of texts.
ghost use Rattle.std.specs.Prelude.{◌≡◌};
ghost use Rattle.std.specs.List.{All};
ghost use Rattle.just_run_layers.specs.Covering.{module_of};
ghost use Rattle.just_run_layers.specs.Host.{KeepsPromises};
ghost use Rattle.just_recipe_body.specs.Body.{body_contents_of, show_steps};
ghost use Rattle.just_recipe_body.specs.Covering.{IsLineCovered};
ghost use Rattle.just_recipe_body.specs.Taking.{AsksEvaluator, AsksHost};
ghost use Rattle.just_script_body.specs.ScriptBody as spec;

use just_ast_definitions::Line;
use just_data::{Sequence, Text};
use just_errors::Halt;
use just_parts::layers::Syntax;
use just_recipe_body::body::{Body, ask_line};
use just_run_layers::{Evaluation, Host};
use std::alloc::Global;

/// The texts of lines, each by itself.
pub fn ask_texts<'a, 'run, 'src, S: Syntax, E: Evaluation>(
    alloc: Global,
    body: &Body<'a, 'run, 'src, S>,
    lines: &[Line<'src>],
    evaluation: &mut E,
) -> Result<Sequence<Text>, Halt<'src>>
    requires covered { All (IsLineCovered (module_of body.now.context.now) body.now.scope.now) lines.now }
    ensures keeps { KeepsPromises (E.promised evaluation.old) (E.promised evaluation.new) }
    ensures took { let steps = spec.texts_steps (body_contents_of (S.answers body.now.syntax.now) body.now) lines.now in
        AsksEvaluator (E.promised evaluation.old) steps (E.requests evaluation.old) (E.requests evaluation.new) result }
{
    let mut texts = Sequence::new(alloc);
    for line in lines {
        let text = ask_line(alloc, body, line, false, evaluation)?;
        texts.push(text)?;
    }
    Ok(texts)
}

/// A text is shown.
pub fn show_text<'src, H: Host>(host: &mut H, text: &Text) -> Result<(), Halt<'src>>
    ensures keeps { KeepsPromises (H.promised host.old) (H.promised host.new) }
    ensures took { AsksHost (H.promised host.old) (show_steps text.now) (H.entries host.old) (H.entries host.new) result }
{
    host.show(text)?;
    Ok(())
}

// Texts are shown one after another.
fn show_all<'src, H: Host>(host: &mut H, texts: &[Text]) -> Result<(), Halt<'src>>
    ensures keeps { KeepsPromises (H.promised host.old) (H.promised host.new) }
    ensures took { AsksHost (H.promised host.old) (spec.show_all_steps texts.now) (H.entries host.old) (H.entries host.new) result }
{
    for text in texts {
        show_text(host, text)?;
    }
    Ok(())
}

/// Texts are shown one after another, or none is.
pub fn show_if<'src, H: Host>(
    host: &mut H,
    is_shown: bool,
    texts: &Sequence<Text>,
) -> Result<(), Halt<'src>>
    ensures keeps { KeepsPromises (H.promised host.old) (H.promised host.new) }
    ensures took { let steps = spec.show_if_steps is_shown texts.now in
        AsksHost (H.promised host.old) steps (H.entries host.old) (H.entries host.new) result }
{
    if is_shown {
        return show_all(host, texts.as_slice());
    }
    Ok(())
}
