//! The numbers of variables.

ghost use Rattle.std.specs.Prelude.{◌≡◌, ◌+◌, ◌<◌, ◌≤◌, [], ◌∷◌, ◌++◌, IfOk, length, reverse, take};
ghost use Rattle.std.specs.Option.{option_to_list};
ghost use Rattle.just_names.specs.Name.{text_of_name};
ghost use Rattle.just_name_resolution.specs.loops.Nodes.{LeadsBack, LieOn};
ghost use Rattle.just_name_resolution.specs.Numbers.{number_in};
ghost use Rattle.just_ast_references.specs.Numbers.{with_numbers};
ghost use Rattle.just_ast_references.specs.loops.Numbers.{shape_with_numbers};
ghost use Rattle.just_ast_expressions.specs.Parts.{parts, shape_parts};
ghost use Rattle.just_ast_references.specs.Parts.{waiting};

use just_ast_expressions::{Expression, Shape};
use just_ast_references::push_parts;
use just_data::{BorrowedText, Sequence, Shared};
use just_names::{Name, Number};
use just_parts::layers::Syntax;
use std::alloc::{AllocError, Global};
use std::collections::HashMap;

/// Where the numbers of variables are looked up by their names. A parameter hides an assignment and a constant of its
/// name, and an assignment hides a constant.
#[derive(Drop)]
pub struct Numbers<'a, 'src, S> {
    /// Of the parameters that are in scope.
    pub parameters: &'a HashMap<BorrowedText<'src>, Number>,
    /// Of the assignments of the module.
    pub assignments: &'a HashMap<BorrowedText<'src>, Number>,
    /// What has the constants of the language.
    pub syntax: &'a S,
}

impl<'a, 'src, S: Syntax> Numbers<'a, 'src, S> {
    /// The number of what a name means here, if it means something. It takes two look-ups at most, and a question to the
    /// syntax layer.
    pub fn number_of(&self, name: &Name<'src>) -> Option<Number>
        ensures { result ≡ number_in (S.answers self.now.syntax.now) self.now (text_of_name name.now) }
    {
        let text = BorrowedText::new(name.lexeme());
        if let Some(number) = self.parameters.get(&text) {
            return Some(*number);
        }
        if let Some(number) = self.assignments.get(&text) {
            return Some(*number);
        }
        self.syntax.constant(name.lexeme())
    }
}

// All expressions in one, each before its parts, and these from left to right.
fn nodes<'a, 'src>(
    alloc: Global,
    expression: &'a Expression<'src>,
) -> Result<Vec<&'a Expression<'src>>, AllocError>
    ensures { IfOk result (λ found. LeadsBack expression.now (waiting found.items) []) }
{
    let mut found = Vec::new(alloc);
    let mut stack = Vec::new(alloc);
    stack.push(expression)?;
    while let Some(next) = stack.pop() {
        found.push(next)?;
        push_parts(next, &mut stack)?;
    }
    Ok(found)
}

// Takes the last expression off a stack.
fn taken<'src>(built: &mut Vec<Expression<'src>>) -> Expression<'src>
    requires { 0 < length built.old.items }
    ensures items { reverse built.old.items ≡ result ∷ reverse built.new.items }
    ensures left { length built.old.items ≡ length built.new.items + 1 }
{
    match built.pop() {
        Some(part) => part,
        None => unreachable!(),
    }
}

// The same where a part may be missing.
fn optional_taken<'src>(
    part: &Option<Expression<'src>>,
    built: &mut Vec<Expression<'src>>,
) -> Option<Expression<'src>>
    requires { length (option_to_list part.now) ≤ length built.old.items }
    ensures items { reverse built.old.items ≡ option_to_list result ++ reverse built.new.items }
    ensures count { length (option_to_list result) ≡ length (option_to_list part.now) }
    ensures left { length built.old.items ≡ length built.new.items + length (option_to_list part.now) }
{
    match part {
        Some(_) => Some(taken(built)),
        None => None,
    }
}

// The same of several.
fn all_taken<'src>(
    count: usize,
    built: &mut Vec<Expression<'src>>,
) -> Result<Sequence<Expression<'src>>, AllocError>
    requires { count ≤ length built.old.items }
    ensures items { IfOk result (λ made. reverse built.old.items ≡ made ++ reverse built.new.items) }
    ensures made { IfOk result (λ made. made ≡ take count (reverse built.old.items)) }
{
    let mut made = built.split_off(built.len() - count)?;
    made.reverse();
    Ok(Sequence::from_vec(made))
}

// The form of an expression again, whose parts are taken off a stack, the first of them first.
fn remade_shape<'a, 'src, S: Syntax>(
    shape: &Shape<'src>,
    built: &mut Vec<Expression<'src>>,
    numbers: &Numbers<'a, 'src, S>,
) -> Result<Shape<'src>, AllocError>
    requires count { length (shape_parts shape.now) ≤ length built.old.items }
    requires parts { LieOn (shape_parts (shape_with_numbers (number_in (S.answers numbers.now.syntax.now) numbers.now) shape.now)) (reverse built.old.items) }
    ensures made { IfOk result (λ made. made ≡ shape_with_numbers (number_in (S.answers numbers.now.syntax.now) numbers.now) shape.now) }
    ensures left { IfOk result (λ made. reverse built.old.items ≡ shape_parts made ++ reverse built.new.items) }
{
    match shape {
        Shape::And { .. } => Ok(Shape::And {
            lhs: taken(built),
            rhs: taken(built),
        }),
        Shape::Assert { message, .. } => Ok(Shape::Assert {
            condition: taken(built),
            message: optional_taken(message, built),
        }),
        Shape::Backtick { contents } => Ok(Shape::Backtick {
            contents: contents.clone()?,
        }),
        Shape::Call { name, arguments } => Ok(Shape::Call {
            name: name.copied(),
            arguments: all_taken(arguments.len(), built)?,
        }),
        Shape::Comparison { operator, .. } => Ok(Shape::Comparison {
            operator: *operator,
            lhs: taken(built),
            rhs: taken(built),
        }),
        Shape::Concatenation { .. } => Ok(Shape::Concatenation {
            lhs: taken(built),
            rhs: taken(built),
        }),
        Shape::Conditional { otherwise, .. } => Ok(Shape::Conditional {
            condition: taken(built),
            then: taken(built),
            otherwise: optional_taken(otherwise, built),
        }),
        Shape::FormatString { texts, expressions } => Ok(Shape::FormatString {
            texts: texts.clone()?,
            expressions: all_taken(expressions.len(), built)?,
        }),
        Shape::Group { .. } => Ok(Shape::Group {
            contents: taken(built),
        }),
        Shape::Join { lhs, .. } => Ok(Shape::Join {
            lhs: optional_taken(lhs, built),
            rhs: taken(built),
        }),
        Shape::List { elements } => Ok(Shape::List {
            elements: all_taken(elements.len(), built)?,
        }),
        Shape::ListConcatenation { .. } => Ok(Shape::ListConcatenation {
            lhs: taken(built),
            rhs: taken(built),
        }),
        Shape::Not { .. } => Ok(Shape::Not {
            operand: taken(built),
        }),
        Shape::Or { .. } => Ok(Shape::Or {
            lhs: taken(built),
            rhs: taken(built),
        }),
        Shape::StringLiteral { cooked } => Ok(Shape::StringLiteral {
            cooked: cooked.clone()?,
        }),
        Shape::Variable { name, .. } => Ok(Shape::Variable {
            name: name.copied(),
            number: numbers.number_of(name),
        }),
    }
}

// An expression again, whose parts are taken off a stack, the first of them first.
#[tactic(auto, using(just_ast_references::proofs::NumbersOf::numbers_out))]
fn remade<'a, 'src, S: Syntax>(
    alloc: Global,
    expression: &Expression<'src>,
    built: &mut Vec<Expression<'src>>,
    numbers: &Numbers<'a, 'src, S>,
) -> Result<Expression<'src>, AllocError>
    requires count { length (parts expression.now) ≤ length built.old.items }
    requires parts { LieOn (parts (with_numbers (number_in (S.answers numbers.now.syntax.now) numbers.now) expression.now)) (reverse built.old.items) }
    ensures made { IfOk result (λ made. made ≡ with_numbers (number_in (S.answers numbers.now.syntax.now) numbers.now) expression.now) }
    ensures left { IfOk result (λ made. reverse built.old.items ≡ parts made ++ reverse built.new.items) }
{
    let shape = remade_shape(expression.shape.get(), built, numbers)?;
    let shape = Shared::new(alloc, shape)?;
    let text = expression.text.clone()?;
    Ok(Expression { shape, text })
}

/// An expression again, whose variables have the numbers of what their names mean here, or none. The parts that are made
/// wait on a stack for what they are parts of, so nothing recurses.
pub fn numbered<'a, 'src, S: Syntax>(
    alloc: Global,
    expression: &Expression<'src>,
    numbers: &Numbers<'a, 'src, S>,
) -> Result<Expression<'src>, AllocError>
    ensures { IfOk result (λ made. made ≡ with_numbers (number_in (S.answers numbers.now.syntax.now) numbers.now) expression.now) }
{
    let mut left = nodes(alloc, expression)?;
    let mut built = Vec::new(alloc);
    while let Some(next) = left.pop() {
        let made = remade(alloc, next, &mut built, numbers)?;
        built.push(made)?;
    }
    Ok(taken(&mut built))
}
