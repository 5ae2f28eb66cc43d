//! What expressions among constants come to: values, helps and patterns.

ghost use Rattle.std.specs.Prelude.{◌≡◌, [], ◌∷◌, IfOk, IfErr, Some, option_to_list};
ghost use Rattle.std.specs.Option.{option_and_then, option_or};
ghost use Rattle.just_errors.specs.Causes.{Reports};
ghost use Rattle.just_module_contents.specs.RecipeValues.{text_said};
ghost use Rattle.just_parts.specs.Scopes.{property_expressions};
ghost use Rattle.just_recipe_values.specs.Among.{value_in_module};
ghost use Rattle.just_recipe_values.specs.loops.Judged.{AreSound, CoversEach, Faults};

use crate::among::Among;
use just_data::{Sequence, Text};
use just_module_contents::text_of_value;
use just_parts::layers::{
    ArgumentAttribute, ArgumentProperty, ConstantEvaluation, Error, Expression, Pattern,
};
use std::alloc::Global;

/// The value of an expression.
pub fn value_of<'a, 'src, E: ConstantEvaluation>(
    alloc: Global,
    among: &Among<'a, 'src, E>,
    expression: &Expression<'src>,
) -> Result<Sequence<Text>, Error<'src>>
    requires { CoversEach among.now (expression.now ∷ []) }
    ensures kept { let value = value_in_module (E.answers among.now.evaluation.now) among.now in
        IfOk result (λ _. AreSound value (expression.now ∷ []) []) }
    ensures value { let value = value_in_module (E.answers among.now.evaluation.now) among.now in
        IfOk result (λ texts. value expression.now ≡ Some texts) }
    ensures named { let value = value_in_module (E.answers among.now.evaluation.now) among.now in
        IfErr result (Reports (Faults value (expression.now ∷ []) [])) }
{
    among.evaluation.value_const(
        alloc,
        among.constants,
        among.assignments,
        among.functions,
        expression,
    )
}

// The text that a property says; an empty list says none.
fn text_said<'a, 'src, E: ConstantEvaluation>(
    alloc: Global,
    among: &Among<'a, 'src, E>,
    property: &ArgumentProperty<'src, Expression<'src>>,
) -> Result<Option<Text>, Error<'src>>
    requires { CoversEach among.now (property.now.value ∷ []) }
    ensures kept { let value = value_in_module (E.answers among.now.evaluation.now) among.now in
        IfOk result (λ _. AreSound value (property.now.value ∷ []) []) }
    ensures text { let value = value_in_module (E.answers among.now.evaluation.now) among.now in
        IfOk result (λ text. text ≡ text_said value property.now) }
    ensures named { let value = value_in_module (E.answers among.now.evaluation.now) among.now in
        IfErr result (Reports (Faults value (property.now.value ∷ []) [])) }
{
    let value = value_of(alloc, among, &property.value)?;
    Ok(text_of_value(alloc, value.as_slice())?)
}

/// The help of an argument attribute, once its property is evaluated.
pub fn help_of<'a, 'src, E: ConstantEvaluation>(
    alloc: Global,
    among: &Among<'a, 'src, E>,
    argument: &ArgumentAttribute<'src, Expression<'src>>,
) -> Result<Option<Text>, Error<'src>>
    requires { CoversEach among.now (property_expressions argument.now.help_property) }
    ensures kept { let value = value_in_module (E.answers among.now.evaluation.now) among.now in
        IfOk result (λ _. AreSound value (property_expressions argument.now.help_property) []) }
    ensures help { let value = value_in_module (E.answers among.now.evaluation.now) among.now in
        IfOk result (λ help. help ≡ option_or (option_and_then (text_said value) argument.now.help_property) argument.now.help) }
    ensures named { let value = value_in_module (E.answers among.now.evaluation.now) among.now in
        IfErr result (Reports (Faults value (property_expressions argument.now.help_property) [])) }
{
    let Some(property) = &argument.help_property else {
        return Ok(argument.help.clone()?);
    };
    match text_said(alloc, among, property)? {
        Some(help) => Ok(Some(help)),
        None => Ok(argument.help.clone()?),
    }
}

/// The pattern of an argument attribute, once its property is evaluated. One that is refused is told at its key.
pub fn pattern_of<'a, 'src, E: ConstantEvaluation>(
    alloc: Global,
    among: &Among<'a, 'src, E>,
    argument: &ArgumentAttribute<'src, Expression<'src>>,
) -> Result<Option<Pattern>, Error<'src>>
    requires { CoversEach among.now (property_expressions argument.now.pattern_property) }
    ensures kept { let value = value_in_module (E.answers among.now.evaluation.now) among.now in
        let said = argument.now.pattern_property in
        IfOk result (λ _. AreSound value (property_expressions said) (option_to_list said)) }
    ensures pattern { let value = value_in_module (E.answers among.now.evaluation.now) among.now in
        let said = argument.now.pattern_property in
        IfOk result (λ pattern. pattern ≡ option_or (option_and_then (text_said value) said) argument.now.pattern) }
    ensures named { let value = value_in_module (E.answers among.now.evaluation.now) among.now in
        let said = argument.now.pattern_property in
        IfErr result (Reports (Faults value (property_expressions said) (option_to_list said))) }
{
    let Some(property) = &argument.pattern_property else {
        return Ok(argument.pattern.clone()?);
    };
    match text_said(alloc, among, property)? {
        Some(text) => Ok(Some(Pattern::new(alloc, text, property.key.token.copied())?)),
        None => Ok(argument.pattern.clone()?),
    }
}
