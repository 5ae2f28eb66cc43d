//! The built-in function.
ghost use Rattle.std.specs.Prelude.{◌≡◌, IfOk};
ghost use Rattle.just_bench_evaluation.specs.Dependency as spec;

use just_ast_expressions::{Expression, Shape};
use just_data::{BorrowedText, Excerpt, Sequence, Shared, Text};
use just_names::{Name, Token};
use just_parts::layers::FunctionDefinition;
use std::alloc::{AllocError, Global};

// The text of its value.
fn told(is_dependency: bool) -> &'static str
    ensures { result.now ≡ spec.told is_dependency }
{
    if is_dependency { "true" } else { "false" }
}

/// The function that tells whether the recipe that runs is a dependency.
pub fn dependency_function<'src>(
    alloc: Global,
    is_dependency: bool,
) -> Result<FunctionDefinition<'src>, AllocError>
    ensures { IfOk result (λ function. function ≡ spec.dependency_function is_dependency) }
{
    let cooked = Text::from_str(alloc, told(is_dependency))?;
    let empty = Text::from_str(alloc, "")?;
    let source = BorrowedText::new("is_dependency");
    let token = Token::new(0, 0, 0, 13, BorrowedText::new(""), source);
    Ok(FunctionDefinition {
        name: Name { token },
        parameters: Sequence::new(alloc),
        body: Expression {
            shape: Shared::new(alloc, Shape::StringLiteral { cooked })?,
            text: Excerpt::new(empty, 0, 0),
        },
    })
}
