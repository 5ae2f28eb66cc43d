//! The texts of lines, and of values as they are shown.
ghost use Rattle.std.specs.Prelude.{◌≡◌, IfOk, map};
ghost use Rattle.just_run_layers.specs.Evaluation.{context_contents_of};
ghost use Rattle.just_bench_evaluation.specs.Answered.{run_value};
ghost use Rattle.just_bench_evaluation.specs.Lines as spec;
ghost use Rattle.just_bench_evaluation.specs.loops.Refusals.{TellsValue};

use crate::expressions::run_text;
use just_ast_definitions::Fragment;
use just_bench_values::Buffer;
use just_data::{Sequence, Text};
use just_errors::Refusal;
use just_parts::layers::{Scope, joined};
use just_run_layers::Context;
use std::alloc::{AllocError, Global};

// The text of a part of a line.
fn fragment_text<'src>(
    alloc: Global,
    context: &Context<'_, 'src>,
    scope: &Scope<'src>,
    is_dependency: bool,
    fragment: &Fragment<'src>,
) -> Result<Text, Refusal>
    ensures { TellsValue (spec.fragment_text (run_value (context_contents_of context.now) is_dependency scope.now) fragment.now) result }
{
    match fragment {
        Fragment::Text { token } => Ok(Text::from_str(alloc, token.lexeme())?),
        Fragment::Interpolation { expression } => run_text(
            alloc,
            context,
            scope,
            is_dependency,
            expression,
        ),
    }
}

/// The text of the parts of a line, one after another. Where one has none that is told.
pub fn fragments_text<'src>(
    alloc: Global,
    context: &Context<'_, 'src>,
    scope: &Scope<'src>,
    is_dependency: bool,
    fragments: &[Fragment<'src>],
) -> Result<Text, Refusal>
    ensures { TellsValue (spec.fragments_text (run_value (context_contents_of context.now) is_dependency scope.now) fragments.now) result }
{
    let mut text = Buffer::new(alloc);
    for fragment in fragments {
        let part = fragment_text(alloc, context, scope, is_dependency, fragment)?;
        text.push(part.as_str())?;
    }
    Ok(text.into_text()?)
}

// A text in double quotes.
fn quoted(alloc: Global, text: &Text) -> Result<Text, AllocError>
    ensures { IfOk result (λ made. made ≡ spec.quoted text.now) }
{
    let mut made = Buffer::new(alloc);
    made.push("\"")?;
    made.push(text.as_str())?;
    made.push("\"")?;
    made.into_text()
}

/// A value as it is shown: each of its texts in double quotes, with a blank between them.
pub fn displayed(alloc: Global, value: &[Text]) -> Result<Text, AllocError>
    ensures { IfOk result (λ text. text ≡ spec.displayed value.now) }
{
    let mut texts = Sequence::new(alloc);
    for text in value {
        texts.push(quoted(alloc, text)?)?;
    }
    joined(alloc, texts.as_slice())
}
