//! The parts of an expression, on a stack.

ghost use Rattle.std.specs.Prelude.{◌≡◌, ◌∷◌, ◌++◌, OnOk};
ghost use Rattle.std.specs.Option.{option_to_list};
ghost use Rattle.just_ast_expressions.specs.Parts.{parts};
ghost use Rattle.just_ast_references.specs.Parts.{waiting};

use just_ast_expressions::{Expression, Shape};
use std::alloc::AllocError;

// Puts an expression where it is popped next.
#[tactic(auto, using(crate::proofs::Stack::waiting_push))]
fn push<'a, 'src>(
    part: &'a Expression<'src>,
    stack: &mut Vec<&'a Expression<'src>>,
) -> Result<(), AllocError>
    ensures { OnOk result (waiting stack.new.items ≡ part.now ∷ waiting stack.old.items) }
{
    stack.push(part)?;
    Ok(())
}

// The same of one that may be missing.
fn push_optional<'a, 'src>(
    part: &'a Option<Expression<'src>>,
    stack: &mut Vec<&'a Expression<'src>>,
) -> Result<(), AllocError>
    ensures { OnOk result (waiting stack.new.items ≡ option_to_list part.now ++ waiting stack.old.items) }
{
    match part {
        Some(part) => push(part, stack),
        None => Ok(()),
    }
}

// The same of several, of which the first is popped next.
fn push_all<'a, 'src>(
    all: &'a [Expression<'src>],
    stack: &mut Vec<&'a Expression<'src>>,
) -> Result<(), AllocError>
    ensures { OnOk result (waiting stack.new.items ≡ all.now ++ waiting stack.old.items) }
{
    for place in (0..all.len()).rev() {
        push(&all[place], stack)?;
    }
    Ok(())
}

/// Puts the parts of an expression on a stack, where the first of them is popped next. Where memory is refused, some of
/// them may be there.
#[tactic(auto, using(just_ast_expressions::proofs::PartsOf::shapes))]
pub fn push_parts<'a, 'src>(
    expression: &'a Expression<'src>,
    stack: &mut Vec<&'a Expression<'src>>,
) -> Result<(), AllocError>
    ensures { OnOk result (waiting stack.new.items ≡ parts expression.now ++ waiting stack.old.items) }
{
    match expression.shape.get() {
        Shape::And { lhs, rhs }
        | Shape::Comparison { lhs, rhs, .. }
        | Shape::Concatenation { lhs, rhs }
        | Shape::ListConcatenation { lhs, rhs }
        | Shape::Or { lhs, rhs } => {
            push(rhs, stack)?;
            push(lhs, stack)
        }
        Shape::Assert { condition, message } => {
            push_optional(message, stack)?;
            push(condition, stack)
        }
        Shape::Conditional {
            condition,
            then,
            otherwise,
        } => {
            push_optional(otherwise, stack)?;
            push(then, stack)?;
            push(condition, stack)
        }
        Shape::Join { lhs, rhs } => {
            push(rhs, stack)?;
            push_optional(lhs, stack)
        }
        Shape::Call { arguments, .. } => push_all(arguments.as_slice(), stack),
        Shape::FormatString { expressions, .. } => push_all(expressions.as_slice(), stack),
        Shape::List { elements } => push_all(elements.as_slice(), stack),
        Shape::Group { contents: part } | Shape::Not { operand: part } => push(part, stack),
        Shape::Backtick { .. } | Shape::StringLiteral { .. } | Shape::Variable { .. } => Ok(()),
    }
}
