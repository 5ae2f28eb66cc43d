//! Whether a recipe may run: what is asked where it wants confirmation.
ghost use Rattle.std.specs.Prelude.{◌≡◌, IfOk};
ghost use Rattle.std.specs.List.{All};
ghost use Rattle.std.specs.Option.{option_copied};
ghost use Rattle.just_parts.specs.Scopes.{attribute_expressions, in_attributes};
ghost use Rattle.just_run_layers.specs.Covering.{IsCovered, module_of};
ghost use Rattle.just_run_layers.specs.Host.{KeepsPromises};
ghost use Rattle.just_run_layers.specs.Interactions.{HasTrace, both, log_of};
ghost use Rattle.just_recipe_body.specs.Attributes.{first_said};
ghost use Rattle.just_recipe_body.specs.Body.{body_contents_of};
ghost use Rattle.just_recipe_body.specs.Confirmation as spec;
ghost use Rattle.just_recipe_body.specs.Taking.{AsksEvaluator, AsksHost};

use crate::body::{Body, ask_string};
use just_ast_definitions::{Attribute, NamedAttribute};
use just_ast_expressions::Expression;
use just_data::Text;
use just_errors::{Halt, Refusal, RunError};
use just_parts::layers::Syntax;
use just_run_layers::{Evaluation, Host};
use std::alloc::{AllocError, Global};

// The prompt that an attribute says, which may be left to the recipe's name.
fn confirmation_in<'a, 'src>(attribute: &'a Attribute<'src>) -> Option<&'a Option<Expression<'src>>>
    ensures { option_copied result ≡ spec.confirmation_in attribute.now }
{
    match attribute {
        Attribute::Confirm(prompt) => Some(prompt),
        _ => None,
    }
}

// The prompt that attributes say: that of the first which wants confirmation.
fn confirmation_of<'a, 'src>(
    attributes: &'a [NamedAttribute<'src>],
) -> Option<&'a Option<Expression<'src>>>
    ensures { option_copied result ≡ first_said spec.confirmation_in attributes.now }
{
    for named in attributes {
        if let Some(prompt) = confirmation_in(&named.attribute) {
            return Some(prompt);
        }
    }
    None
}

// Whether a line says yes.
fn is_yes(line: &str) -> bool
    ensures { result ≡ spec.is_yes line.now }
{
    let answer = line.trim();
    answer.eq_ignore_ascii_case("y") || answer.eq_ignore_ascii_case("yes")
}

// Whether the line after a prompt says yes.
fn ask_host<'src, H: Host>(prompt: &Text, host: &mut H) -> Result<bool, Halt<'src>>
    ensures keeps { KeepsPromises (H.promised host.old) (H.promised host.new) }
    ensures took { AsksHost (H.promised host.old) (spec.prompt_steps prompt.now) (H.entries host.old) (H.entries host.new) result }
{
    match host.confirm(prompt) {
        Ok(line) => Ok(is_yes(line.as_str())),
        Err(Refusal::Memory) => Err(Halt::Memory),
        Err(Refusal::Fault(fault)) => Err(Halt::Failed(RunError::GetConfirmation(fault))),
    }
}

// The prompt where none is said.
fn usual_prompt(alloc: Global, name: &str) -> Result<Text, AllocError>
    ensures { IfOk result (λ prompt. prompt ≡ spec.usual_prompt name.now) }
{
    Text::from_string(format!(in alloc; "Run recipe `{name}`? ")?)
}

// The prompt of what an attribute says.
fn said_prompt(alloc: Global, text: &Text) -> Result<Text, AllocError>
    ensures { IfOk result (λ prompt. prompt ≡ spec.said_prompt text.now) }
{
    Text::from_string(format!(in alloc; "{text} ")?)
}

/// Whether a recipe may run: one that wants no confirmation may, and another one where the line that the host reads after its
/// prompt is `y` or `yes`, whatever its case and the white space around it. The prompt is the text of its expression and a
/// blank, or asks for the recipe by its name.
pub fn confirm<'a, 'run, 'src, S: Syntax, E: Evaluation, H: Host>(
    alloc: Global,
    body: &Body<'a, 'run, 'src, S>,
    evaluation: &mut E,
    host: &mut H,
) -> Result<bool, Halt<'src>>
    requires covered { All (IsCovered (module_of body.now.context.now) body.now.scope.now) (in_attributes attribute_expressions body.now.recipe.now) }
    ensures keeps { KeepsPromises (E.promised evaluation.old) (E.promised evaluation.new) }
    ensures keeps_host { KeepsPromises (H.promised host.old) (H.promised host.new) }
    ensures took { let first = log_of (H.entries host.old) (E.requests evaluation.old) in
        let last = log_of (H.entries host.new) (E.requests evaluation.new) in
        let steps = spec.confirm_steps (body_contents_of (S.answers body.now.syntax.now) body.now) in
        HasTrace (both (E.promised evaluation.old) (H.promised host.old)) steps first last result }
{
    match confirmation_of(body.recipe.attributes.as_slice()) {
        Some(Some(expression)) => {
            let text = ask_string(alloc, body, expression, evaluation)?;
            ask_host(&said_prompt(alloc, &text)?, host)
        }
        Some(None) => ask_host(&usual_prompt(alloc, body.recipe.name.lexeme())?, host),
        None => Ok(true),
    }
}
