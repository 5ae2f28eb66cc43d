//! Checks the names in expressions.

ghost use Rattle.std.specs.Prelude.{◌≡◌, ℕ, List, IfErr, IfOk, OnOk};
ghost use Rattle.std.specs.HashSet.{contains};
ghost use Rattle.std.specs.Str.{bytes_eq};
ghost use Rattle.just_errors.specs.Causes.{Keeps, Reports};
ghost use Rattle.just_names.specs.Name.{text_of_name};
ghost use Rattle.just_parts.specs.Known.{defines, hides, range_of};
ghost use Rattle.just_name_resolution.specs.Lent.{known_in};
ghost use Rattle.just_parts.specs.Misnaming.{Expressions, HaveFunctionNames, HaveNames, Misnames, MisnamesAt, MisnamesCall};
ghost use Rattle.just_parts.specs.loops.Misnaming.{MisnamesVariable};

use just_ast_references::{Reference, References};
use just_data::BorrowedText;
use just_parts::layers::{
    ArgumentRange, Assignment, CompileError, CompileErrorKind, Error, Expression,
    FunctionDefinition, FunctionParameter, Name, Syntax,
};
use just_table::Table;
use std::alloc::{AllocError, Global};
use std::collections::HashSet;

/// What names stand for in the expressions of a module.
#[derive(Drop)]
pub struct Known<'a, 'src, S> {
    /// The variables of the module, each under its name.
    pub assignments: &'a Table<'src, Assignment<'src>>,
    /// Its functions, each under its name.
    pub functions: &'a Table<'src, FunctionDefinition<'src>>,
    /// What has constants and built-in functions.
    pub syntax: &'a S,
}

// How many arguments a function takes. One of the module comes before a built-in one of its name.
fn expected<'a, 'src, S: Syntax>(known: &Known<'a, 'src, S>, name: &str) -> Option<ArgumentRange>
    ensures { result ≡ range_of (known_in (S.answers known.now.syntax.now) known.now) name.now }
{
    match known.functions.get(name) {
        Some(function) => {
            let count = function.parameters.len();
            Some(ArgumentRange {
                min: count,
                max: count,
            })
        }
        None => known.syntax.builtin(name),
    }
}

// Whether a variable is hidden by a parameter, an assignment or a constant.
fn is_defined<'a, 'src, S: Syntax>(
    known: &Known<'a, 'src, S>,
    hidden: &HashSet<BorrowedText<'src>>,
    name: &Name<'src>,
) -> bool
    ensures { result ≡ defines (known_in (S.answers known.now.syntax.now) known.now) (contains bytes_eq hidden.now) (text_of_name name.now) }
{
    if hidden.contains(&BorrowedText::new(name.lexeme())) {
        return true;
    }
    if known.assignments.contains_key(name.lexeme()) {
        return true;
    }
    known.syntax.constant(name.lexeme()).is_some()
}

/// Checks a call: that it names a function of the module or a built-in one, and gives it as many arguments as it takes.
pub fn check_call<'a, 'src, S: Syntax>(
    known: &Known<'a, 'src, S>,
    name: &Name<'src>,
    arguments: usize,
) -> Result<(), Error<'src>>
    ensures kept { OnOk result (Keeps (MisnamesCall (known_in (S.answers known.now.syntax.now) known.now) name.now arguments)) }
    ensures named { IfErr result (Reports (MisnamesCall (known_in (S.answers known.now.syntax.now) known.now) name.now arguments)) }
{
    let Some(expected) = expected(known, name.lexeme()) else {
        return Err(Error::Compile(CompileError {
            token: name.token.copied(),
            kind: CompileErrorKind::UndefinedFunction {
                function: BorrowedText::new(name.lexeme()),
            },
        }));
    };
    if expected.contains(arguments) {
        return Ok(());
    }
    Err(Error::Compile(CompileError {
        token: name.token.copied(),
        kind: CompileErrorKind::FunctionArgumentCountMismatch {
            function: BorrowedText::new(name.lexeme()),
            arguments,
            expected,
        },
    }))
}

// Checks a variable.
fn check_variable<'a, 'src, S: Syntax>(
    known: &Known<'a, 'src, S>,
    hidden: &HashSet<BorrowedText<'src>>,
    name: &Name<'src>,
) -> Result<(), Error<'src>>
    ensures kept { OnOk result (Keeps (MisnamesVariable (known_in (S.answers known.now.syntax.now) known.now) (contains bytes_eq hidden.now) name.now)) }
    ensures named { IfErr result (Reports (MisnamesVariable (known_in (S.answers known.now.syntax.now) known.now) (contains bytes_eq hidden.now) name.now)) }
{
    if is_defined(known, hidden, name) {
        return Ok(());
    }
    Err(Error::Compile(CompileError {
        token: name.token.copied(),
        kind: CompileErrorKind::UndefinedVariable {
            variable: BorrowedText::new(name.lexeme()),
        },
    }))
}

// Checks a call or a variable.
fn check_reference<'a, 'src, S: Syntax>(
    known: &Known<'a, 'src, S>,
    hidden: &HashSet<BorrowedText<'src>>,
    reference: &Reference<'src>,
) -> Result<(), Error<'src>>
    ensures kept { OnOk result (Keeps (MisnamesAt (known_in (S.answers known.now.syntax.now) known.now) (contains bytes_eq hidden.now) reference.now)) }
    ensures named { IfErr result (Reports (MisnamesAt (known_in (S.answers known.now.syntax.now) known.now) (contains bytes_eq hidden.now) reference.now)) }
{
    match reference {
        Reference::Call { name, arguments } => check_call(known, name, *arguments),
        Reference::Variable { name } => check_variable(known, hidden, name),
    }
}

/// Checks the calls and the variables of an expression in whose scope some names are hidden.
pub fn check_expression<'a, 'src, S: Syntax>(
    alloc: Global,
    known: &Known<'a, 'src, S>,
    hidden: &HashSet<BorrowedText<'src>>,
    expression: &Expression<'src>,
) -> Result<(), Error<'src>>
    ensures kept { OnOk result (Keeps (Misnames (known_in (S.answers known.now.syntax.now) known.now) (contains bytes_eq hidden.now) expression.now)) }
    ensures named { IfErr result (Reports (Misnames (known_in (S.answers known.now.syntax.now) known.now) (contains bytes_eq hidden.now) expression.now)) }
{
    let references = References::new(alloc, expression)?;
    for reference in references {
        check_reference(known, hidden, &reference)?;
    }
    Ok(())
}

/// The names of parameters.
pub fn hidden_names<'src>(
    alloc: Global,
    parameters: &[FunctionParameter<'src>],
) -> Result<HashSet<BorrowedText<'src>>, AllocError>
    ensures { IfOk result (λ names. (name : List ℕ) → contains bytes_eq names name ≡ hides parameters.now name) }
{
    let mut names = HashSet::new(alloc);
    for parameter in parameters {
        names.insert(BorrowedText::new(parameter.name.lexeme()))?;
    }
    Ok(names)
}

// Checks the value of each variable.
fn check_values<'a, 'src, S: Syntax>(
    alloc: Global,
    known: &Known<'a, 'src, S>,
) -> Result<(), Error<'src>>
    ensures kept { OnOk result (HaveNames (known_in (S.answers known.now.syntax.now) known.now)) }
    ensures named { IfErr result (Reports (Expressions (known_in (S.answers known.now.syntax.now) known.now))) }
{
    let hidden = HashSet::new(alloc);
    for assignment in known.assignments.values() {
        check_expression(alloc, known, &hidden, &assignment.value)?;
    }
    Ok(())
}

// Checks the body of a function under its parameters.
fn check_body<'a, 'src, S: Syntax>(
    alloc: Global,
    known: &Known<'a, 'src, S>,
    function: &FunctionDefinition<'src>,
) -> Result<(), Error<'src>>
    ensures kept { OnOk result (Keeps (Misnames (known_in (S.answers known.now.syntax.now) known.now) (hides function.now.parameters) function.now.body)) }
    ensures named { IfErr result (Reports (Misnames (known_in (S.answers known.now.syntax.now) known.now) (hides function.now.parameters) function.now.body)) }
{
    let hidden = hidden_names(alloc, function.parameters.as_slice())?;
    check_expression(alloc, known, &hidden, &function.body)
}

// Checks the body of each function.
fn check_bodies<'a, 'src, S: Syntax>(
    alloc: Global,
    known: &Known<'a, 'src, S>,
) -> Result<(), Error<'src>>
    ensures kept { OnOk result (HaveFunctionNames (known_in (S.answers known.now.syntax.now) known.now)) }
    ensures named { IfErr result (Reports (Expressions (known_in (S.answers known.now.syntax.now) known.now))) }
{
    for function in known.functions.values() {
        check_body(alloc, known, function)?;
    }
    Ok(())
}

/// Checks the names in the values of variables and in the bodies of functions.
pub fn check_names<'a, 'src, S: Syntax>(
    alloc: Global,
    known: &Known<'a, 'src, S>,
) -> Result<(), Error<'src>>
    ensures values { OnOk result (HaveNames (known_in (S.answers known.now.syntax.now) known.now)) }
    ensures bodies { OnOk result (HaveFunctionNames (known_in (S.answers known.now.syntax.now) known.now)) }
    ensures named { IfErr result (Reports (Expressions (known_in (S.answers known.now.syntax.now) known.now))) }
{
    check_values(alloc, known)?;
    check_bodies(alloc, known)
}
