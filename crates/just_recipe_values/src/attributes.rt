//! Attributes with what their helps and patterns come to, and the doc that they say.

ghost use Rattle.std.specs.Prelude.{◌≡◌, [], ◌∷◌, IfOk, IfErr, map, option_to_list};
ghost use Rattle.std.specs.Option.{option_and_then};
ghost use Rattle.just_errors.specs.Causes.{Reports};
ghost use Rattle.just_module_contents.specs.RecipeValues.{patterns_in};
ghost use Rattle.just_parts.specs.Scopes.{compiled_expressions};
ghost use Rattle.just_recipe_values.specs.Among.{value_in_module};
ghost use Rattle.just_recipe_values.specs.loops.Judged.{AreSound, CoversEach, Faults, argument_expressions, expressions_among, patterns_among};
ghost use Rattle.just_recipe_values.specs.Valued.{doc_after, doc_of_value, last_doc, valued_argument, valued_attribute, valued_named};

use crate::among::Among;
use crate::properties::{help_of, pattern_of, value_of};
use just_data::{Sequence, Text};
use just_parts::layers::{
    ArgumentAttribute, Attribute, ConstantEvaluation, Error, Expression, NamedAttribute, joined,
};
use std::alloc::{AllocError, Global};

// What an attribute says of a parameter, with its help and its pattern.
fn valued_argument<'a, 'src, E: ConstantEvaluation>(
    alloc: Global,
    among: &Among<'a, 'src, E>,
    argument: ArgumentAttribute<'src, Expression<'src>>,
) -> Result<ArgumentAttribute<'src, Expression<'src>>, Error<'src>>
    requires { CoversEach among.now (argument_expressions argument) }
    ensures kept { let value = value_in_module (E.answers among.now.evaluation.now) among.now in
        IfOk result (λ _. AreSound value (argument_expressions argument.entry) (option_to_list argument.entry.pattern_property)) }
    ensures made { let value = value_in_module (E.answers among.now.evaluation.now) among.now in
        IfOk result (λ made. made ≡ valued_argument value argument.entry) }
    ensures named { let value = value_in_module (E.answers among.now.evaluation.now) among.now in
        let faults = Faults value (argument_expressions argument.entry) (option_to_list argument.entry.pattern_property) in
        IfErr result (Reports faults) }
{
    let help = help_of(alloc, among, &argument)?;
    let pattern = pattern_of(alloc, among, &argument)?;
    Ok(ArgumentAttribute {
        name: argument.name,
        help,
        help_property: argument.help_property,
        pattern,
        pattern_property: argument.pattern_property,
    })
}

// The doc that a value is.
fn doc_of_value(alloc: Global, value: &[Text]) -> Result<Option<Text>, AllocError>
    ensures { IfOk result (λ doc. doc ≡ doc_of_value value.now) }
{
    let text = joined(alloc, value)?;
    let doc = text.as_str().trim();
    if doc.is_empty() {
        return Ok(None);
    }
    Ok(Some(Text::from_str(alloc, doc)?))
}

// The doc that an expression says.
fn doc_of<'a, 'src, E: ConstantEvaluation>(
    alloc: Global,
    among: &Among<'a, 'src, E>,
    expression: &Expression<'src>,
) -> Result<Option<Text>, Error<'src>>
    requires { CoversEach among.now (expression.now ∷ []) }
    ensures kept { let value = value_in_module (E.answers among.now.evaluation.now) among.now in
        IfOk result (λ _. AreSound value (expression.now ∷ []) []) }
    ensures doc { let value = value_in_module (E.answers among.now.evaluation.now) among.now in
        IfOk result (λ doc. doc ≡ option_and_then doc_of_value (value expression.now)) }
    ensures named { let value = value_in_module (E.answers among.now.evaluation.now) among.now in
        IfErr result (Reports (Faults value (expression.now ∷ []) [])) }
{
    let value = value_of(alloc, among, expression)?;
    Ok(doc_of_value(alloc, value.as_slice())?)
}

// An attribute, and the doc after it.
fn valued_attribute<'a, 'src, E: ConstantEvaluation>(
    alloc: Global,
    among: &Among<'a, 'src, E>,
    attribute: Attribute<'src>,
    doc: Option<Text>,
) -> Result<(Attribute<'src>, Option<Text>), Error<'src>>
    requires { CoversEach among.now (compiled_expressions attribute) }
    ensures kept { let value = value_in_module (E.answers among.now.evaluation.now) among.now in
        IfOk result (λ _. AreSound value (compiled_expressions attribute.entry) (patterns_in attribute.entry)) }
    ensures attribute { let value = value_in_module (E.answers among.now.evaluation.now) among.now in
        IfOk result (λ both. both.0 ≡ valued_attribute value attribute.entry) }
    ensures doc { let value = value_in_module (E.answers among.now.evaluation.now) among.now in
        IfOk result (λ both. both.1 ≡ doc_after value attribute.entry doc) }
    ensures named { let value = value_in_module (E.answers among.now.evaluation.now) among.now in
        IfErr result (Reports (Faults value (compiled_expressions attribute.entry) (patterns_in attribute.entry))) }
{
    match attribute {
        Attribute::Arg(argument) => {
            let argument = valued_argument(alloc, among, argument)?;
            Ok((Attribute::Arg(argument), doc))
        }
        Attribute::Doc(Some(expression)) => {
            let doc = doc_of(alloc, among, &expression)?;
            Ok((Attribute::Doc(Some(expression)), doc))
        }
        other => Ok((other, doc)),
    }
}

/// Attributes with what their helps and patterns come to, and the doc after them.
pub fn valued_attributes<'a, 'src, E: ConstantEvaluation>(
    alloc: Global,
    among: &Among<'a, 'src, E>,
    attributes: Sequence<NamedAttribute<'src>>,
    mut doc: Option<Text>,
) -> Result<(Sequence<NamedAttribute<'src>>, Option<Text>), Error<'src>>
    requires { CoversEach among.now (expressions_among attributes) }
    ensures kept { let value = value_in_module (E.answers among.now.evaluation.now) among.now in
        IfOk result (λ _. AreSound value (expressions_among attributes.entry) (patterns_among attributes.entry)) }
    ensures attributes { let value = value_in_module (E.answers among.now.evaluation.now) among.now in
        IfOk result (λ both. both.0 ≡ map (valued_named value) attributes.entry) }
    ensures doc { let value = value_in_module (E.answers among.now.evaluation.now) among.now in
        IfOk result (λ both. both.1 ≡ last_doc value attributes.entry doc) }
    ensures named { let value = value_in_module (E.answers among.now.evaluation.now) among.now in
        IfErr result (Reports (Faults value (expressions_among attributes.entry) (patterns_among attributes.entry))) }
{
    let mut made = Vec::with_capacity(alloc, attributes.len())?;
    for named in attributes.into_vec() {
        let (attribute, next) = valued_attribute(alloc, among, named.attribute, doc)?;
        doc = next;
        made.push(NamedAttribute {
            name: named.name,
            attribute,
        })?;
    }
    Ok((Sequence::from_vec(made), doc))
}
