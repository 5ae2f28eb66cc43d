//! Attributes with the numbers of what the names in their expressions mean.

ghost use Rattle.std.specs.Prelude.{◌≡◌, IfOk, map};
ghost use Rattle.std.specs.Option.{option_map};
ghost use Rattle.just_recipe_names.specs.Numbered.{argument_by, attribute_by, cache_by, environment_by, attribute_with, property_by};
ghost use Rattle.just_recipe_names.specs.loops.Numbered.{looked_up};

use just_data::Sequence;
use just_name_resolution::{Numbers, numbered};
use just_parts::layers::{
    ArgumentAttribute, ArgumentProperty, Attribute, CacheAttribute, EnvironmentAttribute,
    Expression, NamedAttribute, Syntax,
};
use std::alloc::{AllocError, Global};

/// An expression that may be missing.
pub fn numbered_optional<'a, 'src, S: Syntax>(
    alloc: Global,
    expression: &Option<Expression<'src>>,
    numbers: &Numbers<'a, 'src, S>,
) -> Result<Option<Expression<'src>>, AllocError>
    ensures { let by = looked_up (S.answers numbers.now.syntax.now) numbers.now in
        IfOk result (λ made. made ≡ option_map by expression.now) }
{
    match expression {
        Some(expression) => Ok(Some(numbered(alloc, expression, numbers)?)),
        None => Ok(None),
    }
}

// A property that may be missing.
fn numbered_property<'a, 'src, S: Syntax>(
    alloc: Global,
    property: &Option<ArgumentProperty<'src, Expression<'src>>>,
    numbers: &Numbers<'a, 'src, S>,
) -> Result<Option<ArgumentProperty<'src, Expression<'src>>>, AllocError>
    ensures { let by = looked_up (S.answers numbers.now.syntax.now) numbers.now in
        IfOk result (λ made. made ≡ option_map (property_by by) property.now) }
{
    match property {
        Some(property) => Ok(Some(ArgumentProperty {
            key: property.key.copied(),
            value: numbered(alloc, &property.value, numbers)?,
        })),
        None => Ok(None),
    }
}

// What an attribute says of a parameter.
fn numbered_argument<'a, 'src, S: Syntax>(
    alloc: Global,
    argument: &ArgumentAttribute<'src, Expression<'src>>,
    numbers: &Numbers<'a, 'src, S>,
) -> Result<ArgumentAttribute<'src, Expression<'src>>, AllocError>
    ensures { let by = looked_up (S.answers numbers.now.syntax.now) numbers.now in
        IfOk result (λ made. made ≡ argument_by by argument.now) }
{
    Ok(ArgumentAttribute {
        name: argument.name.clone()?,
        help: argument.help.clone()?,
        help_property: numbered_property(alloc, &argument.help_property, numbers)?,
        pattern: argument.pattern.clone()?,
        pattern_property: numbered_property(alloc, &argument.pattern_property, numbers)?,
    })
}

// A variable of the environment.
fn numbered_environment<'a, 'src, S: Syntax>(
    alloc: Global,
    variable: &EnvironmentAttribute<Expression<'src>>,
    numbers: &Numbers<'a, 'src, S>,
) -> Result<EnvironmentAttribute<Expression<'src>>, AllocError>
    ensures { let by = looked_up (S.answers numbers.now.syntax.now) numbers.now in
        IfOk result (λ made. made ≡ environment_by by variable.now) }
{
    Ok(EnvironmentAttribute {
        name: numbered(alloc, &variable.name, numbers)?,
        value: numbered(alloc, &variable.value, numbers)?,
    })
}

// What is said of a script whose result is kept.
fn numbered_cache<'a, 'src, S: Syntax>(
    alloc: Global,
    cache: &CacheAttribute<Expression<'src>>,
    numbers: &Numbers<'a, 'src, S>,
) -> Result<CacheAttribute<Expression<'src>>, AllocError>
    ensures { let by = looked_up (S.answers numbers.now.syntax.now) numbers.now in
        IfOk result (λ made. made ≡ cache_by by cache.now) }
{
    Ok(CacheAttribute {
        extra: numbered_optional(alloc, &cache.extra, numbers)?,
        inputs: numbered_optional(alloc, &cache.inputs, numbers)?,
        outputs: numbered_optional(alloc, &cache.outputs, numbers)?,
    })
}

// An attribute. Docs, helps, patterns and the environment see no parameters.
fn numbered_attribute<'a, 'src, S: Syntax>(
    alloc: Global,
    attribute: &Attribute<'src>,
    outer: &Numbers<'a, 'src, S>,
    inner: &Numbers<'a, 'src, S>,
) -> Result<Attribute<'src>, AllocError>
    ensures { let outer = looked_up (S.answers outer.now.syntax.now) outer.now in
        let inner = looked_up (S.answers inner.now.syntax.now) inner.now in
        IfOk result (λ made. made ≡ attribute_by outer inner attribute.now) }
{
    match attribute {
        Attribute::Arg(argument) => Ok(Attribute::Arg(numbered_argument(alloc, argument, outer)?)),
        Attribute::Doc(doc) => Ok(Attribute::Doc(numbered_optional(alloc, doc, outer)?)),
        Attribute::Env(variable) => Ok(Attribute::Env(numbered_environment(
            alloc, variable, outer,
        )?)),
        Attribute::Cache(cache) => Ok(Attribute::Cache(numbered_cache(alloc, cache, inner)?)),
        Attribute::Confirm(prompt) => {
            Ok(Attribute::Confirm(numbered_optional(alloc, prompt, inner)?))
        }
        Attribute::Timestamp(format) => {
            Ok(Attribute::Timestamp(numbered_optional(alloc, format, inner)?))
        }
        Attribute::WorkingDirectory(folder) => {
            Ok(Attribute::WorkingDirectory(numbered(alloc, folder, inner)?))
        }
        other => other.clone(),
    }
}

// An attribute with its name.
fn numbered_named<'a, 'src, S: Syntax>(
    alloc: Global,
    named: &NamedAttribute<'src>,
    outer: &Numbers<'a, 'src, S>,
    inner: &Numbers<'a, 'src, S>,
) -> Result<NamedAttribute<'src>, AllocError>
    ensures { let outer = looked_up (S.answers outer.now.syntax.now) outer.now in
        let inner = looked_up (S.answers inner.now.syntax.now) inner.now in
        IfOk result (λ made. made ≡ attribute_with outer inner named.now) }
{
    Ok(NamedAttribute {
        name: named.name.copied(),
        attribute: numbered_attribute(alloc, &named.attribute, outer, inner)?,
    })
}

/// Attributes, whose docs, helps, patterns and environment see no parameters.
pub fn numbered_attributes<'a, 'src, S: Syntax>(
    alloc: Global,
    attributes: &[NamedAttribute<'src>],
    outer: &Numbers<'a, 'src, S>,
    inner: &Numbers<'a, 'src, S>,
) -> Result<Sequence<NamedAttribute<'src>>, AllocError>
    ensures { let outer = looked_up (S.answers outer.now.syntax.now) outer.now in
        let inner = looked_up (S.answers inner.now.syntax.now) inner.now in
        IfOk result (λ made. made ≡ map (attribute_with outer inner) attributes.now) }
{
    let mut made = Vec::with_capacity(alloc, attributes.len())?;
    for named in attributes {
        made.push(numbered_named(alloc, named, outer, inner)?)?;
    }
    Ok(Sequence::from_vec(made))
}
