ghost use Rattle.std.specs.Prelude.{◌≡◌, [], ◌∷◌, ◌++◌, IfSome, IfNone};
ghost use Rattle.just_ast_expressions.specs.Parts.{shape_parts};
ghost use Rattle.just_ast_expressions.specs.loops.Taken.{untaken};

use crate::expression::{Expression, Shape};

/// The parts of an expression that are not taken yet.
pub(crate) enum Parts<'src> {
    /// None.
    Empty,
    /// One part.
    One(Expression<'src>),
    /// Two parts.
    Two(Expression<'src>, Expression<'src>),
    /// Three parts.
    Three(Expression<'src>, Expression<'src>, Expression<'src>),
    /// The parts of a list.
    Listed(Vec<Expression<'src>>),
}

impl<'src> Parts<'src> {
    /// The parts of a form.
    #[tactic(auto, using(crate::proofs::PartsOf::shapes))]
    pub(crate) fn of(shape: Shape<'src>) -> Parts<'src>
        ensures { untaken result ≡ shape_parts shape.entry }
    {
        match shape {
            Shape::And { lhs, rhs }
            | Shape::Comparison { lhs, rhs, .. }
            | Shape::Concatenation { lhs, rhs }
            | Shape::ListConcatenation { lhs, rhs }
            | Shape::Or { lhs, rhs } => Parts::Two(lhs, rhs),
            Shape::Assert { condition, message } => match message {
                Some(message) => Parts::Two(condition, message),
                None => Parts::One(condition),
            },
            Shape::Conditional {
                condition,
                then,
                otherwise,
            } => match otherwise {
                Some(otherwise) => Parts::Three(condition, then, otherwise),
                None => Parts::Two(condition, then),
            },
            Shape::Join { lhs, rhs } => match lhs {
                Some(lhs) => Parts::Two(lhs, rhs),
                None => Parts::One(rhs),
            },
            Shape::Call { arguments, .. } => Parts::Listed(arguments.into_vec()),
            Shape::FormatString { expressions, .. } => Parts::Listed(expressions.into_vec()),
            Shape::List { elements } => Parts::Listed(elements.into_vec()),
            Shape::Group { contents: part } | Shape::Not { operand: part } => Parts::One(part),
            Shape::Backtick { .. } | Shape::StringLiteral { .. } | Shape::Variable { .. } => {
                Parts::Empty
            }
        }
    }

    /// Takes the last part, while there is one.
    pub(crate) fn split_last(self) -> Option<(Parts<'src>, Expression<'src>)>
        ensures some { IfSome result (λ split. untaken self.entry ≡ untaken split.0 ++ split.1 ∷ []) }
        ensures none { IfNone result (untaken self.entry ≡ []) }
    {
        match self {
            Parts::Empty => None,
            Parts::One(first) => Some((Parts::Empty, first)),
            Parts::Two(first, second) => Some((Parts::One(first), second)),
            Parts::Three(first, second, third) => Some((Parts::Two(first, second), third)),
            Parts::Listed(mut parts) => match parts.pop() {
                Some(last) => Some((Parts::Listed(parts), last)),
                None => {
                    parts.destroy_empty();
                    None
                }
            },
        }
    }
}
