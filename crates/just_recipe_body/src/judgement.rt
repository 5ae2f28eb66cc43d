//! What the end of a program comes to.
ghost use Rattle.std.specs.Prelude.{◌≡◌, Ok};
ghost use Rattle.std.specs.List.{list_any};
ghost use Rattle.just_recipe_body.specs.Attributes.{continues_on};
ghost use Rattle.just_recipe_body.specs.Judging as spec;

use crate::attributes::continues_on;
use just_ast_expressions::Sigil;
use just_data::{BorrowedText, Text};
use just_errors::{RunError, Signal, Status};
use just_recipe::Recipe;
use just_run_layers::RunAnswer;

/// What comes after the command of a group of lines.
#[derive(Clone, Copy)]
pub enum Next {
    /// The next group.
    Onward,
    /// Nothing: the recipe ends with success.
    Ended,
}

/// What runs.
#[derive(Clone, Copy)]
pub enum Program {
    /// A shell, with a command.
    Shell,
    /// A script.
    Script,
}

/// The sigils of a line: which of the three it has.
#[derive(Clone, Copy)]
pub struct Marks {
    /// Its failure ends the recipe, and may be none.
    pub guard: bool,
    /// Its failure is no failure.
    pub infallible: bool,
    /// It is not shown, or is shown where the others are not.
    pub quiet: bool,
}

/// What errors tell: the name of a recipe, the number of a line, and whether the failure is shown.
#[derive(Drop)]
pub struct Teller<'src> {
    /// The name of the recipe.
    pub recipe: BorrowedText<'src>,
    /// The number of the line, from 1 on; none of a script.
    pub line_number: Option<usize>,
    /// Whether the failure is shown.
    pub print_message: bool,
}

fn has_guard(sigils: &[Sigil]) -> bool
    ensures { result ≡ list_any spec.is_guard sigils.now }
{
    sigils.iter().any(|sigil| matches!(*sigil, Sigil::Guard))
}

fn has_infallible(sigils: &[Sigil]) -> bool
    ensures { result ≡ list_any spec.is_infallible sigils.now }
{
    sigils
        .iter()
        .any(|sigil| matches!(*sigil, Sigil::Infallible))
}

fn has_quiet(sigils: &[Sigil]) -> bool
    ensures { result ≡ list_any spec.is_quiet sigils.now }
{
    sigils.iter().any(|sigil| matches!(*sigil, Sigil::Quiet))
}

/// Which sigils a line has.
pub fn marks_of(sigils: &[Sigil]) -> Marks
    ensures { result ≡ spec.marks_of sigils.now }
{
    Marks {
        guard: has_guard(sigils),
        infallible: has_infallible(sigils),
        quiet: has_quiet(sigils),
    }
}

/// The number of a line that counts from 0, from 1 on; none where that does not fit.
pub fn number_from_one(number: usize) -> Option<usize>
    ensures { result ≡ spec.number_from_one number }
{
    number.checked_add(1)
}

// What a code comes to.
fn judge_code<'src>(teller: &Teller<'src>, marks: Marks, code: i32) -> Result<Next, RunError<'src>>
    ensures { result ≡ spec.judged_code teller.now marks code }
{
    if code == 0 {
        return Ok(Next::Onward);
    }
    if marks.guard {
        if code == 1 {
            return Ok(Next::Ended);
        }
        return Err(RunError::GuardCode {
            recipe: teller.recipe.copied(),
            line_number: teller.line_number,
            code,
        });
    }
    if marks.infallible {
        return Ok(Next::Onward);
    }
    Err(RunError::Code {
        recipe: teller.recipe.copied(),
        line_number: teller.line_number,
        code,
        print_message: teller.print_message,
    })
}

// The error for an end without a code.
fn signal_error<'src>(teller: &Teller<'src>, number: Option<i32>) -> RunError<'src>
    ensures { result ≡ spec.signal_error teller.now number }
{
    match number {
        Some(signal) => RunError::Signal {
            recipe: teller.recipe.copied(),
            line_number: teller.line_number,
            signal,
            print_message: teller.print_message,
        },
        None => RunError::Unknown {
            recipe: teller.recipe.copied(),
            line_number: teller.line_number,
            print_message: teller.print_message,
        },
    }
}

// The error for no start.
fn start_error<'src>(teller: &Teller<'src>, program: Program, message: Text) -> RunError<'src>
    ensures { result ≡ spec.start_error program teller.now message }
{
    let recipe = teller.recipe.copied();
    match program {
        Program::Shell => RunError::ShellIo { recipe, message },
        Program::Script => RunError::ScriptStart { recipe, message },
    }
}

// What the end of a program comes to, whatever the run was sent meanwhile.
fn judge_status<'src>(
    teller: &Teller<'src>,
    program: Program,
    marks: Marks,
    status: Status,
) -> Result<Next, RunError<'src>>
    ensures { result ≡ spec.judged_status program teller.now marks status }
{
    match status {
        Status::Code(code) => judge_code(teller, marks, code),
        Status::NoCode(number) => {
            if marks.infallible {
                return Ok(Next::Onward);
            }
            Err(signal_error(teller, number))
        }
        Status::NotStarted(message) => Err(start_error(teller, program, message)),
    }
}

// What a signal comes to that the run was sent meanwhile.
fn judge_signal<'src>(
    recipe: &Recipe<'src>,
    marks: Marks,
    signal: Option<Signal>,
    next: Next,
) -> Result<Next, RunError<'src>>
    ensures { result ≡ spec.judged_signal (continues_on recipe.now) marks signal (Ok next) }
{
    match (signal, next) {
        (Some(signal), Next::Onward) => {
            if continues_on(recipe, signal) || marks.infallible {
                return Ok(Next::Onward);
            }
            Err(RunError::Interrupted { signal })
        }
        (_, next) => Ok(next),
    }
}

/// What the end of a program of a recipe comes to: the next group of lines, the end of the recipe with success, or an error.
pub fn judge<'src>(
    recipe: &Recipe<'src>,
    teller: &Teller<'src>,
    program: Program,
    marks: Marks,
    answer: RunAnswer,
) -> Result<Next, RunError<'src>>
    ensures { result ≡ spec.judged program teller.now (continues_on recipe.now) marks answer }
{
    let RunAnswer { status, signal } = answer;
    let next = judge_status(teller, program, marks, status)?;
    judge_signal(recipe, marks, signal, next)
}
