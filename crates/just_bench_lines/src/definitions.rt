//! The lines of settings, variables and functions.
ghost use Rattle.std.specs.Prelude.{◌≡◌, ◌<◌, ◌≤◌, length, IfOk, IfSome};
ghost use Rattle.just_bench_lines.specs.Definitions as spec;

use crate::places::{mark_at, name_at, word_at};
use just_ast_definitions::{Assignment, FunctionDefinition, FunctionParameter, Set, Setting};
use just_ast_expressions::{Expression, Interpreter, Shape};
use just_bench_expressions::expressions::{Found, read_expression};
use just_bench_expressions::lexer::{Kind, Lexeme};
use just_bench_expressions::spelling::Spelling;
use just_data::Sequence;
use just_names::{Name, Number};
use std::alloc::{AllocError, Global};

/// Whether a name begins with `_`.
pub fn is_private<'src>(name: &Name<'src>) -> bool
    ensures { result ≡ spec.has_low_name name.now }
{
    name.lexeme().starts_with('_')
}

/// The expression that the lexemes from a place on are, all of them. The error is want of memory.
#[tactic(auto, unfolding(crate::specs::Definitions::whole_expression))]
pub fn whole_expression<'src>(
    spelling: &Spelling<'src>,
    at: usize,
) -> Result<Option<Expression<'src>>, AllocError>
    ensures { IfOk result (λ found. found ≡ spec.whole_expression spelling.now at) }
{
    let Some(Found { made, end }) = read_expression(spelling, at)? else {
        return Ok(None);
    };
    if end == spelling.as_slice().len() {
        Ok(Some(made))
    } else {
        Ok(None)
    }
}

/// The place after a part of what stands between two parentheses: that of the next part after a comma, or of the `)`. A
/// comma stands between two parts, and not before the `)`.
pub fn after_part<'src>(lexemes: &[Lexeme<'src>], at: usize) -> Option<usize>
    ensures is { result ≡ spec.after_part lexemes.now at }
    ensures within { IfSome result (λ next. (at ≤ next) × (next ≤ length lexemes.now)) }
{
    if mark_at(lexemes, at, Kind::Comma) {
        return if mark_at(lexemes, at + 1, Kind::ParenClose) {
            None
        } else {
            Some(at + 1)
        };
    }
    if mark_at(lexemes, at, Kind::ParenClose) {
        Some(at)
    } else {
        None
    }
}

/// The setting of a name that is on or off, to this value.
pub fn setting<'src>(name: &str, value: bool) -> Option<Setting<'src>>
    ensures { result ≡ spec.setting name.now value }
{
    match name {
        "allow-duplicate-recipes" => Some(Setting::AllowDuplicateRecipes(value)),
        "allow-duplicate-variables" => Some(Setting::AllowDuplicateVariables(value)),
        "export" => Some(Setting::Export(value)),
        "ignore-comments" => Some(Setting::IgnoreComments(value)),
        "lazy" => Some(Setting::Lazy(value)),
        "lists" => Some(Setting::Lists(value)),
        "positional-arguments" => Some(Setting::PositionalArguments(value)),
        "quiet" => Some(Setting::Quiet(value)),
        _ => None,
    }
}

// What a setting is set to, from the place after its name on.
fn set_to<'src>(lexemes: &[Lexeme<'src>]) -> Option<bool>
    ensures { result ≡ spec.set_to lexemes.now }
{
    if lexemes.len() == 2 {
        return Some(true);
    }
    if lexemes.len() != 4 || !mark_at(lexemes, 2, Kind::Assign) {
        return None;
    }
    if word_at(lexemes, 3, "true") {
        return Some(true);
    }
    if word_at(lexemes, 3, "false") {
        return Some(false);
    }
    None
}

// Expressions, once more.
fn copied<'src>(
    alloc: Global,
    expressions: &[Expression<'src>],
) -> Result<Sequence<Expression<'src>>, AllocError>
    ensures { IfOk result (λ copies. copies ≡ expressions.now) }
{
    let mut copies = Sequence::new(alloc);
    for expression in expressions {
        copies.push(expression.clone()?)?;
    }
    Ok(copies)
}

// The first of some expressions as a program, with the others as its arguments.
fn program_of<'src>(
    alloc: Global,
    expressions: &[Expression<'src>],
) -> Result<Option<Interpreter<Expression<'src>>>, AllocError>
    ensures { IfOk result (λ found. found ≡ spec.program_of expressions.now) }
{
    match expressions.split_first() {
        None => Ok(None),
        Some((command, arguments)) => Ok(Some(Interpreter {
            command: command.clone()?,
            arguments: copied(alloc, arguments)?,
        })),
    }
}

// The program that a list is.
#[tactic(auto, using(crate::proofs::Programs::list_listed, crate::proofs::Programs::other_unlisted))]
fn listed<'src>(
    alloc: Global,
    shape: &Shape<'src>,
) -> Result<Option<Interpreter<Expression<'src>>>, AllocError>
    ensures { IfOk result (λ found. found ≡ spec.listed shape.now) }
{
    match shape {
        Shape::List { elements } => program_of(alloc, elements.as_slice()),
        _ => Ok(None),
    }
}

// The program that a setting is set to, from the place after its name on.
fn program<'src>(
    spelling: &Spelling<'src>,
) -> Result<Option<Interpreter<Expression<'src>>>, AllocError>
    ensures { IfOk result (λ found. found ≡ spec.program spelling.now) }
{
    if !mark_at(spelling.as_slice(), 2, Kind::Assign) {
        return Ok(None);
    }
    match whole_expression(spelling, 3)? {
        Some(expression) => listed(spelling.alloc(), expression.shape.get()),
        None => Ok(None),
    }
}

// The setting of a name, to what stands after it.
fn setting_by<'src>(
    spelling: &Spelling<'src>,
    name: &str,
) -> Result<Option<Setting<'src>>, AllocError>
    ensures { IfOk result (λ found. found ≡ spec.setting_by spelling.now name.now) }
{
    match name {
        "shell" => match program(spelling)? {
            Some(program) => Ok(Some(Setting::Shell(program))),
            None => Ok(None),
        },
        "script-interpreter" => match program(spelling)? {
            Some(program) => Ok(Some(Setting::ScriptInterpreter(program))),
            None => Ok(None),
        },
        _ => match set_to(spelling.as_slice()) {
            Some(value) => Ok(setting(name, value)),
            None => Ok(None),
        },
    }
}

/// The setting that the lexemes of a line are: `set NAME`, which is set to true, `set NAME := true` or `false`, or
/// `set NAME := [E, ..]` for one that names a program. The error is want of memory.
pub fn read_set<'src>(spelling: &Spelling<'src>) -> Result<Option<Set<'src>>, AllocError>
    ensures { IfOk result (λ found. found ≡ spec.set spelling.now) }
{
    let lexemes = spelling.as_slice();
    if !word_at(lexemes, 0, "set") {
        return Ok(None);
    }
    let Some(name) = name_at(lexemes, 1) else {
        return Ok(None);
    };
    match setting_by(spelling, name.lexeme())? {
        Some(value) => Ok(Some(Set { name, value })),
        None => Ok(None),
    }
}

/// The name that is not exported, where the lexemes of a line say so: `unexport NAME`.
pub fn read_unexport<'src>(lexemes: &[Lexeme<'src>]) -> Option<Name<'src>>
    ensures { result ≡ spec.unexport lexemes.now }
{
    if lexemes.len() != 2 || !word_at(lexemes, 0, "unexport") {
        return None;
    }
    name_at(lexemes, 1)
}

// The variable whose name stands at a place, without a number.
#[tactic(auto, unfolding(crate::specs::Definitions::assignment_at))]
fn assignment_at<'src>(
    spelling: &Spelling<'src>,
    at: usize,
    eager: bool,
    export: bool,
) -> Result<Option<Assignment<'src>>, AllocError>
    ensures { IfOk result (λ found. found ≡ spec.assignment_at spelling.now at eager export) }
{
    let lexemes = spelling.as_slice();
    let Some(name) = name_at(lexemes, at) else {
        return Ok(None);
    };
    if !mark_at(lexemes, at + 1, Kind::Assign) {
        return Ok(None);
    }
    let private = is_private(&name);
    match whole_expression(spelling, at + 2)? {
        None => Ok(None),
        Some(value) => Ok(Some(Assignment {
            name,
            number: Number(0),
            value,
            eager,
            export,
            private,
            file_depth: 0,
        })),
    }
}

/// The variable that the lexemes of a line are, without a number: `NAME := E`, with `export` or `eager` before it or
/// nothing. The error is want of memory.
pub fn read_assignment<'src>(
    spelling: &Spelling<'src>,
) -> Result<Option<Assignment<'src>>, AllocError>
    ensures { IfOk result (λ found. found ≡ spec.assignment spelling.now) }
{
    let lexemes = spelling.as_slice();
    if mark_at(lexemes, 1, Kind::Assign) {
        return assignment_at(spelling, 0, false, false);
    }
    if word_at(lexemes, 0, "export") {
        return assignment_at(spelling, 1, false, true);
    }
    if word_at(lexemes, 0, "eager") {
        return assignment_at(spelling, 1, true, false);
    }
    Ok(None)
}

// The parameters of a function from a place on, without numbers, and the place after the `)`.
#[tactic(auto, using(crate::proofs::Listed::listed_start, crate::proofs::Listed::listed_step, crate::proofs::Listed::listed_end, crate::proofs::Listed::listed_fail, crate::proofs::Listed::listed_stuck))]
fn read_parameters<'src>(
    alloc: Global,
    lexemes: &[Lexeme<'src>],
    start: usize,
) -> Result<Option<(Sequence<FunctionParameter<'src>>, usize)>, AllocError>
    ensures { IfOk result (λ found. found ≡ spec.parameters lexemes.now start) }
{
    let mut made = Sequence::new(alloc);
    let mut at = start;
    while let Some(name) = name_at(lexemes, at) {
        made.push(FunctionParameter {
            name,
            number: Number(0),
        })?;
        match after_part(lexemes, at + 1) {
            Some(next) => at = next,
            None => return Ok(None),
        }
    }
    if mark_at(lexemes, at, Kind::ParenClose) {
        Ok(Some((made, at + 1)))
    } else {
        Ok(None)
    }
}

/// The function that the lexemes of a line are, whose parameters have no numbers: `NAME(A, ..) := E`. The error is want
/// of memory.
pub fn read_function<'src>(
    spelling: &Spelling<'src>,
) -> Result<Option<FunctionDefinition<'src>>, AllocError>
    ensures { IfOk result (λ found. found ≡ spec.function spelling.now) }
{
    let lexemes = spelling.as_slice();
    let Some(name) = name_at(lexemes, 0) else {
        return Ok(None);
    };
    if !mark_at(lexemes, 1, Kind::ParenOpen) {
        return Ok(None);
    }
    let Some((parameters, end)) = read_parameters(spelling.alloc(), lexemes, 2)? else {
        return Ok(None);
    };
    if !mark_at(lexemes, end, Kind::Assign) {
        return Ok(None);
    }
    match whole_expression(spelling, end + 1)? {
        None => Ok(None),
        Some(body) => Ok(Some(FunctionDefinition {
            name,
            parameters,
            body,
        })),
    }
}
