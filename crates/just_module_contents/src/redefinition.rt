//! The error of two definitions of one name.

ghost use Rattle.std.specs.Prelude.{◌≡◌};
ghost use Rattle.just_names.specs.Name.{text_of_name};
ghost use Rattle.just_errors.specs.declared.compile_error.CompileErrorKind.TheVariants as kind;
ghost use Rattle.just_module_contents.specs.Contents.{defined};
ghost use Rattle.just_module_contents.specs.Rules.{IsRedefinition};

use just_data::BorrowedText;
use just_parts::layers::{CompileError, CompileErrorKind, Definition, Name};

/// Tells a definition that comes after another one of its name.
pub fn told<'src>(
    first: Definition,
    first_name: &Name<'src>,
    second: Definition,
    second_name: &Name<'src>,
) -> CompileError<'src>
    ensures token { result.token ≡ second_name.now.token }
    ensures kind { result.kind ≡ kind.Redefinition first second (text_of_name second_name.now) first_name.now.token.line }
{
    CompileError {
        token: second_name.token.copied(),
        kind: CompileErrorKind::Redefinition {
            first_type: first,
            second_type: second,
            name: BorrowedText::new(second_name.lexeme()),
            first: first_name.line(),
        },
    }
}

/// The error of two definitions of one name, in the order in which they are met: the one on the smaller line is the first.
pub fn redefinition<'src>(
    first: Definition,
    first_name: &Name<'src>,
    second: Definition,
    second_name: &Name<'src>,
) -> CompileError<'src>
    ensures { IsRedefinition (defined first first_name.now) (defined second second_name.now) result.token result.kind }
{
    if second_name.line() < first_name.line() {
        return told(second, second_name, first, first_name);
    }
    told(first, first_name, second, second_name)
}
