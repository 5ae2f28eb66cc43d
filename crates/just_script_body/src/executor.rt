//! What runs a script.
ghost use Rattle.std.specs.Prelude.{◌≡◌, IfOk, map};
ghost use Rattle.std.specs.Option.{option_copied};
ghost use Rattle.just_recipe_body.specs.Body.{body_contents_of};
ghost use Rattle.just_script_body.specs.Executors as spec;
ghost use Rattle.just_script_body.specs.loops.Executors.{IsOrMemory};

use crate::attributes::script_of;
use just_ast_definitions::Line;
use just_ast_expressions::{Interpreter, StringLiteral};
use just_data::{BorrowedText, Sequence, Text};
use just_errors::{Halt, RunError};
use just_parts::layers::{Shebang, Syntax};
use just_recipe_body::body::Body;
use just_run_layers::Executor;
use std::alloc::{AllocError, Global};

// What stands between the quotes of texts.
fn cooked_texts(alloc: Global, literals: &[StringLiteral]) -> Result<Sequence<Text>, AllocError>
    ensures { IfOk result (λ texts. texts ≡ map spec.cooked_text literals.now) }
{
    let mut texts = Sequence::new(alloc);
    for literal in literals {
        texts.push(literal.cooked.clone()?)?;
    }
    Ok(texts)
}

// An interpreter of quoted texts, by what stands between their quotes.
fn cooked<'src>(
    alloc: Global,
    interpreter: &Interpreter<StringLiteral<'src>>,
) -> Result<Interpreter<Text>, AllocError>
    ensures { IfOk result (λ made. made ≡ spec.cooked interpreter.now) }
{
    Ok(Interpreter {
        command: interpreter.command.cooked.clone()?,
        arguments: cooked_texts(alloc, interpreter.arguments.as_slice())?,
    })
}

// What runs scripts where no setting says it.
fn usual_interpreter(alloc: Global) -> Result<Interpreter<Text>, AllocError>
    ensures { IfOk result (λ interpreter. interpreter ≡ spec.usual_interpreter) }
{
    let mut arguments = Sequence::new(alloc);
    arguments.push(Text::from_str(alloc, "-eu")?)?;
    Ok(Interpreter {
        command: Text::from_str(alloc, "sh")?,
        arguments,
    })
}

// What runs scripts by the settings.
fn set_interpreter<'a, 'run, 'src, S: Syntax>(
    alloc: Global,
    body: &Body<'a, 'run, 'src, S>,
) -> Result<Interpreter<Text>, AllocError>
    ensures { let contents = body_contents_of (S.answers body.now.syntax.now) body.now in
        IfOk result (λ interpreter. interpreter ≡ spec.set_interpreter contents) }
{
    match &body.context.settings.script_interpreter {
        Some(interpreter) => interpreter.clone(),
        None => usual_interpreter(alloc),
    }
}

// The interpreter that an attribute says, or else that of the settings.
fn said_interpreter<'a, 'run, 'src, S: Syntax>(
    alloc: Global,
    body: &Body<'a, 'run, 'src, S>,
    said: &Option<Interpreter<StringLiteral<'src>>>,
) -> Result<Interpreter<Text>, AllocError>
    ensures { let contents = body_contents_of (S.answers body.now.syntax.now) body.now in
        IfOk result (λ interpreter. interpreter ≡ spec.said_interpreter contents said.now) }
{
    match said {
        Some(interpreter) => cooked(alloc, interpreter),
        None => set_interpreter(alloc, body),
    }
}

// An interpreter as what runs a script.
fn command_of(interpreter: Interpreter<Text>) -> Executor
    ensures { result ≡ spec.command_of interpreter }
{
    let Interpreter { command, arguments } = interpreter;
    Executor::Command {
        interpreter: command,
        arguments,
    }
}

// A copy of a text, where there is one.
fn owned<'text>(
    alloc: Global,
    text: &Option<BorrowedText<'text>>,
) -> Result<Option<Text>, AllocError>
    ensures { IfOk result (λ made. made ≡ text.now) }
{
    match text {
        Some(text) => Ok(Some(Text::from_str(alloc, text.as_str())?)),
        None => Ok(None),
    }
}

// What a shebang line names as what runs a script.
fn named<'text>(alloc: Global, shebang: &Shebang<'text>) -> Result<Executor, AllocError>
    ensures { IfOk result (λ executor. executor ≡ spec.named shebang.now) }
{
    Ok(Executor::Shebang {
        interpreter: Text::from_str(alloc, shebang.interpreter.as_str())?,
        argument: owned(alloc, &shebang.argument)?,
    })
}

// What a shebang line with this text names.
fn named_by<'a, 'run, 'src, S: Syntax>(
    alloc: Global,
    body: &Body<'a, 'run, 'src, S>,
    text: &Text,
) -> Result<Executor, Halt<'src>>
    ensures { let contents = body_contents_of (S.answers body.now.syntax.now) body.now in
        IsOrMemory (spec.named_in_shebang contents text.now (contents.syntax.shebang text.now)) result }
{
    match body.syntax.shebang(text.as_str()) {
        Some(shebang) => Ok(named(alloc, &shebang)?),
        None => Err(Halt::Failed(RunError::InvalidShebang {
            recipe: BorrowedText::new(body.recipe.name.lexeme()),
            shebang: text.clone()?,
        })),
    }
}

// The text of the first line, where that is a shebang line.
fn shebang_text<'a, 'src, S: Syntax>(
    syntax: &S,
    lines: &[Line<'src>],
    texts: &'a [Text],
) -> Option<&'a Text>
    ensures { option_copied result ≡ spec.shebang_text (S.answers syntax.now) lines.now texts.now }
{
    let line = lines.first()?;
    if !syntax.is_shebang(line) {
        return None;
    }
    texts.first()
}

// What a shebang line with this text names, or else the interpreter of the settings.
fn executor_by<'a, 'run, 'src, S: Syntax>(
    alloc: Global,
    body: &Body<'a, 'run, 'src, S>,
    text: Option<&Text>,
) -> Result<Executor, Halt<'src>>
    ensures { let contents = body_contents_of (S.answers body.now.syntax.now) body.now in
        IsOrMemory (spec.executor_by contents (option_copied text.entry)) result }
{
    match text {
        Some(text) => named_by(alloc, body, text),
        None => Ok(command_of(set_interpreter(alloc, body)?)),
    }
}

/// What runs a script of these texts. The error is that of a shebang line that names nothing, or want of memory.
pub fn executor_of<'a, 'run, 'src, S: Syntax>(
    alloc: Global,
    body: &Body<'a, 'run, 'src, S>,
    texts: &Sequence<Text>,
) -> Result<Executor, Halt<'src>>
    ensures { let contents = body_contents_of (S.answers body.now.syntax.now) body.now in
        IsOrMemory (spec.executor_of contents texts.now) result }
{
    match script_of(body.recipe.attributes.as_slice()) {
        Some(said) => Ok(command_of(said_interpreter(alloc, body, said)?)),
        None => {
            let lines = body.recipe.body.as_slice();
            executor_by(
                alloc,
                body,
                shebang_text(body.syntax, lines, texts.as_slice()),
            )
        }
    }
}
