//! What the declaration of a module says of it.
ghost use Rattle.std.specs.Prelude.{◌≡◌, ◌++◌, IfOk, OnOk};
ghost use Rattle.std.specs.List.{list_any};
ghost use Rattle.std.specs.Option.{option_copied};
ghost use Rattle.just_module_contents.specs.Labels.{doc_in, doc_of, group_in, groups_of, is_private, label_by, label_said};
ghost use Rattle.just_module_contents.specs.Said.{said};

use crate::platforms::is_enabled;
use just_data::{Exact, Sequence, Text};
use just_parts::layers::{
    Attribute, Expression, Item, Name, NamedAttribute, StringLiteral, Syntax,
};
use std::alloc::{AllocError, Global};

/// What the declaration of a module says of it.
#[derive(Clone, Drop)]
pub struct Label<'src> {
    /// The name; the root's module has none.
    pub name: Option<Name<'src>>,
    /// What a listing says of it, where nothing is evaluated for that.
    pub doc: Option<Text>,
    /// What that is evaluated from, where an attribute says it.
    pub doc_expression: Option<Expression<'src>>,
    /// The groups that a listing has it in.
    pub groups: Sequence<StringLiteral<'src>>,
    /// Whether a listing leaves it out.
    pub private: bool,
}

impl<'src> Exact for Label<'src> {
    ghost use Rattle.std.proofs.Common.{rules};

    ghost exact = { Prim.search rules };
}

// The group that an attribute names.
fn group_in<'a, 'src>(attribute: &'a Attribute<'src>) -> Option<&'a StringLiteral<'src>>
    ensures { option_copied result ≡ group_in attribute.now }
{
    match attribute {
        Attribute::Group(group) => Some(group),
        _ => None,
    }
}

// The groups that attributes name, in order.
fn groups_of<'src>(
    alloc: Global,
    attributes: &[NamedAttribute<'src>],
) -> Result<Sequence<StringLiteral<'src>>, AllocError>
    ensures { IfOk result (λ groups. groups ≡ groups_of attributes.now) }
{
    let mut groups = Sequence::new(alloc);
    for named in attributes {
        if let Some(group) = group_in(&named.attribute) {
            groups.push(group.clone()?)?;
        }
    }
    Ok(groups)
}

// The expression of a doc that an attribute names.
fn doc_in<'a, 'src>(attribute: &'a Attribute<'src>) -> Option<&'a Expression<'src>>
    ensures { option_copied result ≡ doc_in attribute.now }
{
    match attribute {
        Attribute::Doc(expression) => expression.as_ref(),
        _ => None,
    }
}

/// The expression of the doc that attributes name: that of the first which has one.
pub fn doc_of<'a, 'src>(attributes: &'a [NamedAttribute<'src>]) -> Option<&'a Expression<'src>>
    ensures { option_copied result ≡ doc_of attributes.now }
{
    for named in attributes {
        if let Some(expression) = doc_in(&named.attribute) {
            return Some(expression);
        }
    }
    None
}

// Whether an attribute says that a listing leaves it out.
fn is_private(attributes: &[NamedAttribute]) -> bool
    ensures { result ≡ list_any is_private attributes.now }
{
    attributes
        .iter()
        .any(|named| matches!(named.attribute, Attribute::Private))
}

// What a declaration with this name, these attributes and this doc says.
fn label_said<'src>(
    alloc: Global,
    name: &Name<'src>,
    attributes: &[NamedAttribute<'src>],
    doc: &Option<Text>,
) -> Result<Label<'src>, AllocError>
    ensures { IfOk result (λ label. label ≡ label_said name.now attributes.now doc.now) }
{
    let groups = groups_of(alloc, attributes)?;
    let doc = doc.clone()?;
    let doc_expression = match doc_of(attributes) {
        Some(expression) => Some(expression.clone()?),
        None => None,
    };
    Ok(Label {
        name: Some(name.copied()),
        doc,
        doc_expression,
        groups,
        private: is_private(attributes),
    })
}

/// Adds the label of each module that an enabled item declares and that has a file, in the order of the text.
pub fn push_labels<'src, S: Syntax>(
    alloc: Global,
    items: &[Item<'src>],
    syntax: &S,
    labels: &mut Vec<Label<'src>>,
) -> Result<(), AllocError>
    ensures { OnOk result (labels.new.items ≡ labels.old.items ++ said label_by (S.answers syntax.now).enabled items.now) }
{
    for item in items {
        if !is_enabled(item, syntax) {
            continue;
        }
        match item {
            Item::Module {
                name,
                absolute: Some(_),
                attributes,
                doc,
                ..
            } => labels.push(label_said(alloc, name, attributes.as_slice(), doc)?)?,
            _ => continue,
        }
    }
    Ok(())
}
