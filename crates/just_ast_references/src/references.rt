//! The calls and variables of an expression.

ghost use Rattle.std.specs.Prelude.{◌≡◌, ◌++◌, All, IfOk, OnOk};
ghost use Rattle.std.specs.List.{flat_map};
ghost use Rattle.std.specs.Option.{option_to_list};
ghost use Rattle.std.specs.Iterator.{YieldsFirst, item_count};
ghost use Rattle.just_ast_references.specs.Parts.{borrowed};
ghost use Rattle.just_ast_references.specs.References.{IsReference, mention, references};

use crate::parts::push_parts;
use just_ast_expressions::{Expression, Shape};
use just_names::Name;
use std::alloc::{AllocError, Global};
use std::marker::Model;

/// A call or a variable, as an expression writes it.
#[derive(Drop)]
pub enum Reference<'src> {
    /// A call of a function, which is given so many arguments.
    Call { name: Name<'src>, arguments: usize },
    /// A variable, a parameter or a constant.
    Variable { name: Name<'src> },
}

/// The calls and variables in an expression, from left to right, a call before its arguments. Contracts see it as the
/// list of those that are left.
#[derive(Drop)]
pub struct References<'a, 'src> {
    // from right to left
    left: Vec<&'a Expression<'src>>,
}

impl<'a, 'src> Model for References<'a, 'src> {
    ghost use Rattle.std.specs.Prelude.{List, All};
    ghost use Rattle.std.specs.List.{flat_map};
    ghost use Rattle.just_ast_references.specs.Parts.{waiting};
    ghost use Rattle.just_ast_references.specs.References.{IsReference, mention};
    ghost use Rattle.just_ast_references.specs.declared.references.Reference.{Reference};

    ghost Value = { List Reference };

    ghost view = { λ r. flat_map mention (waiting r.left.items) };

    ghost invariant = { λ r. All IsReference (waiting r.left.items) };
}

impl<'a, 'src> References<'a, 'src> {
    /// Those of an expression. All memory that it needs is taken here.
    pub fn new(
        alloc: Global,
        expression: &'a Expression<'src>,
    ) -> Result<References<'a, 'src>, AllocError>
        ensures { IfOk result (λ left. left ≡ references expression.now) }
    {
        let mut left = collect(alloc, expression)?;
        left.reverse();
        Ok(References { left })
    }
}

impl<'a, 'src> Iterator for References<'a, 'src> {
    type Item = Reference<'src>;

    ghost next_gives = { YieldsFirst (λ left. left) };

    ghost remaining = { item_count (λ left. left) };

    fn next(&mut self) -> Option<Reference<'src>> {
        let expression = self.left.pop()?;
        own_reference(expression)
    }
}

// The call or the variable that an expression is.
#[tactic(auto, using(crate::proofs::MentionsOf::mentions))]
fn own_reference<'src>(expression: &Expression<'src>) -> Option<Reference<'src>>
    ensures { option_to_list result ≡ mention expression.now }
{
    match expression.shape.get() {
        Shape::Call { name, arguments } => Some(Reference::Call {
            name: name.copied(),
            arguments: arguments.len(),
        }),
        Shape::Variable { name, .. } => Some(Reference::Variable {
            name: name.copied(),
        }),
        Shape::And { .. }
        | Shape::Assert { .. }
        | Shape::Backtick { .. }
        | Shape::Comparison { .. }
        | Shape::Concatenation { .. }
        | Shape::Conditional { .. }
        | Shape::FormatString { .. }
        | Shape::Group { .. }
        | Shape::Join { .. }
        | Shape::List { .. }
        | Shape::ListConcatenation { .. }
        | Shape::Not { .. }
        | Shape::Or { .. }
        | Shape::StringLiteral { .. } => None,
    }
}

// Adds an expression to others if it is a call or a variable.
fn push_reference<'a, 'src>(
    expression: &'a Expression<'src>,
    found: &mut Vec<&'a Expression<'src>>,
) -> Result<(), AllocError>
    ensures each { OnOk result (All IsReference (borrowed found.old.items) → All IsReference (borrowed found.new.items)) }
    ensures found { OnOk result (flat_map mention (borrowed found.new.items) ≡ flat_map mention (borrowed found.old.items) ++ mention expression.now) }
{
    if own_reference(expression).is_some() {
        found.push(expression)?;
    }
    Ok(())
}

// The calls and variables in an expression, from left to right. The parts that wait stand on a stack, so nothing recurses.
fn collect<'a, 'src>(
    alloc: Global,
    expression: &'a Expression<'src>,
) -> Result<Vec<&'a Expression<'src>>, AllocError>
    ensures each { IfOk result (λ found. All IsReference (borrowed found.items)) }
    ensures found { IfOk result (λ found. flat_map mention (borrowed found.items) ≡ references expression.now) }
{
    let mut found = Vec::new(alloc);
    let mut stack = Vec::new(alloc);
    stack.push(expression)?;
    while let Some(next) = stack.pop() {
        push_reference(next, &mut found)?;
        push_parts(next, &mut stack)?;
    }
    Ok(found)
}
