ghost use Rattle.std.specs.Prelude.{◌≡◌, ◌⊎◌, []};
ghost use Rattle.just_ast_expressions.specs.Parts.{parts};
ghost use Rattle.just_ast_expressions.specs.loops.Taken.{untaken};

use crate::parts::Parts;
use just_data::{Exact, Excerpt, Sequence, Shared, Text};
use just_names::{Name, Number};
use std::alloc::AllocError;
use std::fmt;

/// How two values are compared.
#[derive(Clone, Copy, PartialEq, Eq)]
pub enum ConditionalOperator {
    /// Whether they are equal.
    Equality,
    /// Whether they differ.
    Inequality,
    /// Whether the first matches the second, a regular expression.
    RegexMatch,
    /// Whether it does not.
    RegexMismatch,
}

/// What a value is evaluated from. A clone shares its parts.
#[cycle(expression)]
#[derive(PartialEq, Eq)]
pub struct Expression<'src> {
    /// Its form, with its parts.
    pub shape: Shared<Shape<'src>>,
    /// How it is spelled.
    pub text: Excerpt,
}

/// The form of an expression. Its parts stand in the order of the text.
#[cycle(expression)]
#[derive(PartialEq, Eq, Drop)]
pub enum Shape<'src> {
    /// `lhs && rhs`.
    And {
        lhs: Expression<'src>,
        rhs: Expression<'src>,
    },
    /// `assert(condition, message)`.
    Assert {
        condition: Expression<'src>,
        message: Option<Expression<'src>>,
    },
    /// The output of a command.
    Backtick {
        contents: Text,
    },
    /// A call of a function.
    Call {
        name: Name<'src>,
        arguments: Sequence<Expression<'src>>,
    },
    /// A comparison of two values.
    Comparison {
        operator: ConditionalOperator,
        lhs: Expression<'src>,
        rhs: Expression<'src>,
    },
    /// `lhs + rhs`.
    Concatenation {
        lhs: Expression<'src>,
        rhs: Expression<'src>,
    },
    /// `if condition { then } else { otherwise }`.
    Conditional {
        condition: Expression<'src>,
        then: Expression<'src>,
        otherwise: Option<Expression<'src>>,
    },
    /// Texts with expressions between them: a text stands before each expression, and one after the last.
    FormatString {
        texts: Sequence<Text>,
        expressions: Sequence<Expression<'src>>,
    },
    /// `(contents)`.
    Group {
        contents: Expression<'src>,
    },
    /// `lhs / rhs`.
    Join {
        lhs: Option<Expression<'src>>,
        rhs: Expression<'src>,
    },
    /// `[elements]`.
    List {
        elements: Sequence<Expression<'src>>,
    },
    /// Two lists, one after the other.
    ListConcatenation {
        lhs: Expression<'src>,
        rhs: Expression<'src>,
    },
    /// `!operand`.
    Not {
        operand: Expression<'src>,
    },
    /// `lhs || rhs`.
    Or {
        lhs: Expression<'src>,
        rhs: Expression<'src>,
    },
    /// A quoted text, as it stands between the quotes.
    StringLiteral {
        cooked: Text,
    },
    /// A variable, a parameter or a constant; its number is there once the expression is resolved.
    Variable {
        name: Name<'src>,
        number: Option<Number>,
    },
}

impl<'src> Expression<'src> {
    // Its parts. What other clones share stays theirs.
    fn into_parts(self) -> Parts<'src>
        ensures { (untaken result ≡ parts self.entry) ⊎ (untaken result ≡ []) }
    {
        let Expression { shape, text: _ } = self;
        match shape.into_inner() {
            Some(shape) => Parts::of(shape),
            None => Parts::Empty,
        }
    }
}

// A loop over what is left, so that a deep expression is dropped in little stack. Where there is no memory for the list
// of what is left, a part is dropped at once.
impl<'src> Drop for Expression<'src> {
    fn drop(self) {
        let mut pending = Vec::new(self.text.alloc());
        let mut parts = self.into_parts();
        loop {
            if let Some((others, last)) = parts.split_last() {
                parts = others;
                if let Err(refused) = pending.push(last) {
                    drop(refused.value);
                }
            } else if let Some(next) = pending.pop() {
                parts = next.into_parts();
            } else {
                break;
            }
        }
        pending.destroy_empty();
    }
}

impl<'src> Clone for Expression<'src> {
    ghost is_clone = { λ expression copy. copy ≡ expression };

    fn clone(&self) -> Result<Expression<'src>, AllocError> {
        Ok(Expression {
            shape: self.shape.clone()?,
            text: self.text.clone()?,
        })
    }
}

impl<'src> Exact for Expression<'src> {
    ghost exact = { λ x y h. h };
}

/// An expression is shown as it is spelled, so this takes little stack also for a deep one.
impl<'src> fmt::Display for Expression<'src> {
    ghost use Rattle.std.specs.Prelude.{Some};
    ghost use Rattle.just_ast_expressions.specs.ExpressionText.{expression_text};

    ghost output = { λ expression. Some (expression_text expression) };

    fn fmt<W: fmt::Write>(&self, f: &mut fmt::Formatter<W>) -> fmt::Result {
        fmt::Display::fmt(&self.text, f)
    }
}
