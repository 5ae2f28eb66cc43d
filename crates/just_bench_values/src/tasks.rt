//! What is left to do of an evaluation. Nothing here calls itself, so no expression is too deep.
ghost use Rattle.std.specs.Prelude.{◌≡◌, List, [], OnOk};
ghost use Rattle.std.specs.Borrow.{Bor};
ghost use Rattle.just_names.specs.Name.{text_of_name};
ghost use Rattle.just_bench_values.specs.loops.Tasks.{Advances, Goes, Sends, sum_opened, variable_in, with_call, with_sum, with_task};
ghost use Rattle.just_parts.specs.Told.{IsToldIn};

use crate::buffer::Buffer;
use crate::lookup::{Arguments, Constants, Functions, Locals, fault, fault_nowhere};
use crate::sink::{Sink, begin_value, end_value, into_texts, send, send_all};
use crate::stack::Stack;
use just_data::{Sequence, Text};
use just_parts::layers::{Error, Expression, Name, Shape};
use std::alloc::{AllocError, Global};
use std::mem::replace;

/// What an expression is evaluated among.
#[derive(Clone, Copy)]
pub struct Among<'a, 'src> {
    /// The functions.
    pub functions: Functions<'a, 'src>,
    /// The constants.
    pub constants: Constants<'a, 'src>,
}

/// What is in scope beside constants.
#[derive(Drop)]
pub struct Frame<'a, 'src> {
    /// What hides constants.
    pub locals: Locals<'a, 'src>,
    /// How many more calls may stand inside.
    pub calls: usize,
}

/// The elements of a list that are left.
#[derive(Clone, Copy)]
pub struct Elements<'a, 'src> {
    /// These expressions.
    pub rest: &'a [Expression<'src>],
}

/// A call of which some arguments are evaluated.
#[derive(Drop)]
pub struct Pending<'a, 'src> {
    /// The name of the function.
    pub name: &'a Name<'src>,
    /// The arguments that are left.
    pub rest: &'a [Expression<'src>],
    /// The values of those before them.
    pub values: Sequence<Sequence<Text>>,
}

/// What is left to do.
#[derive(Drop)]
pub enum Task<'a, 'src> {
    /// An expression is evaluated, and the texts of its value go to the sink.
    Value(&'a Expression<'src>),
    /// So is the right side of a sum, of which the sink has the left side.
    Right(&'a Expression<'src>),
    /// A sum ends, and its text stands among those of a value.
    End,
    /// The texts of the sink go to this one, which takes its place.
    Close(Sink),
    /// Expressions are evaluated, and the texts of their values go to the sink.
    Elements(Elements<'a, 'src>),
    /// A function is called, and the texts of its value go to the sink.
    Call(Pending<'a, 'src>),
    /// The sink has the value of the next argument of this call, whose own value goes to this sink.
    Keep(Pending<'a, 'src>, Sink),
    /// A call ends, and what was in scope before it is again.
    Leave(Frame<'a, 'src>),
}

/// How far an evaluation is.
#[derive(Drop)]
pub struct State<'a, 'src> {
    /// What is left to do, what comes next first.
    pub tasks: Stack<Task<'a, 'src>>,
    /// What is in scope.
    pub frame: Frame<'a, 'src>,
    /// Where the texts of values go.
    pub sink: Sink,
}

// The texts of the value of a variable go to the sink.
fn variable<'a, 'src>(
    alloc: Global,
    among: &Among<'a, 'src>,
    frame: &Frame<'a, 'src>,
    name: &Name<'src>,
    sink: &mut Sink,
) -> Result<(), Error<'src>>
    ensures { Sends (variable_in among.now frame.now (text_of_name name.now)) (λ place. place ≡ name.now.token) sink.old sink.new result }
{
    if let Some(value) = frame.locals.get(name.lexeme()) {
        return Ok(send_all(sink, value.as_slice())?);
    }
    match among.constants.get(name.lexeme()) {
        Some(value) => Ok(send_all(sink, value.as_slice())?),
        None => Err(fault(alloc, &name.token, "The variable has no value here")),
    }
}

// The sink of a sum. One that puts texts together takes the text of a sum as one of a value.
fn open<'a, 'src>(alloc: Global, state: &mut State<'a, 'src>) -> Result<(), AllocError>
    ensures { OnOk result (state.new ≡ sum_opened state.old) }
{
    match &mut state.sink {
        Sink::Joined { text, apart } => {
            if *apart {
                text.push(" ")?;
            }
            *apart = false;
            Ok(())
        }
        Sink::Texts(_) => {
            let joined = Sink::Joined {
                text: Buffer::new(alloc),
                apart: false,
            };
            let sink = replace(&mut state.sink, joined);
            state.tasks.push(Task::Close(sink))
        }
    }
}

// Begins a sum.
fn add<'a, 'src>(
    alloc: Global,
    lhs: &'a Expression<'src>,
    rhs: &'a Expression<'src>,
    state: &mut State<'a, 'src>,
) -> Result<(), AllocError>
    ensures { OnOk result (state.new ≡ with_sum lhs.entry rhs.entry state.old) }
{
    open(alloc, state)?;
    state.tasks.push(Task::Right(rhs))?;
    state.tasks.push(Task::Value(lhs))
}

// Evaluates an expression, or puts what that takes on the tasks.
fn evaluate<'a, 'src>(
    alloc: Global,
    among: &Among<'a, 'src>,
    expression: &'a Expression<'src>,
    state: &mut State<'a, 'src>,
) -> Result<(), Error<'src>>
    ensures { Advances among.now (with_task (Task.Value expression.entry) state.old) state.new result }
{
    match expression.shape.get() {
        Shape::StringLiteral { cooked } => Ok(send(&mut state.sink, cooked)?),
        Shape::Variable { name, .. } => {
            variable(alloc, among, &state.frame, name, &mut state.sink)
        }
        Shape::Group { contents } => Ok(state.tasks.push(Task::Value(contents))?),
        Shape::List { elements } => {
            let rest = elements.as_slice();
            Ok(state.tasks.push(Task::Elements(Elements { rest }))?)
        }
        Shape::Concatenation { lhs, rhs } => Ok(add(alloc, lhs, rhs, state)?),
        Shape::Call { name, arguments } => {
            let pending = Pending {
                name,
                rest: arguments.as_slice(),
                values: Sequence::new(alloc),
            };
            Ok(state.tasks.push(Task::Call(pending))?)
        }
        Shape::And { .. }
        | Shape::Assert { .. }
        | Shape::Backtick { .. }
        | Shape::Comparison { .. }
        | Shape::Conditional { .. }
        | Shape::FormatString { .. }
        | Shape::Join { .. }
        | Shape::ListConcatenation { .. }
        | Shape::Not { .. }
        | Shape::Or { .. } => Err(fault_nowhere(alloc)),
    }
}

// Evaluates the right side of a sum.
fn go_right<'a, 'src>(
    among: &Among<'a, 'src>,
    expression: &'a Expression<'src>,
    state: &mut State<'a, 'src>,
) -> Result<(), AllocError>
    ensures { OnOk result (Goes among.now (with_task (Task.Right expression.entry) state.old) state.new) }
{
    begin_value(&mut state.sink);
    state.tasks.push(Task::End)?;
    state.tasks.push(Task::Value(expression))
}

// Evaluates the first of the elements of a list, and then the others.
fn go_through<'a, 'src>(
    among: &Among<'a, 'src>,
    elements: Elements<'a, 'src>,
    state: &mut State<'a, 'src>,
) -> Result<(), AllocError>
    ensures { OnOk result (Goes among.now (with_task (Task.Elements elements.entry) state.old) state.new) }
{
    let Some((first, rest)) = elements.rest.split_first() else {
        return Ok(());
    };
    state.tasks.push(Task::Elements(Elements { rest }))?;
    state.tasks.push(Task::Value(first))?;
    Ok(())
}

// The texts of the sink go to the one that waits for them.
fn close<'a, 'src>(
    alloc: Global,
    among: &Among<'a, 'src>,
    sink: Sink,
    state: &mut State<'a, 'src>,
) -> Result<(), AllocError>
    ensures { OnOk result (Goes among.now (with_task (Task.Close sink) state.old) state.new) }
{
    let closed = replace(&mut state.sink, sink);
    let texts = into_texts(alloc, closed)?;
    send_all(&mut state.sink, texts.as_slice())?;
    Ok(())
}

// Evaluates the body of a function, with its parameters bound to these arguments.
fn enter<'a, 'src>(
    alloc: Global,
    among: &Among<'a, 'src>,
    name: &'a Name<'src>,
    arguments: Sequence<Sequence<Text>>,
    state: &mut State<'a, 'src>,
) -> Result<(), Error<'src>>
    ensures { (rest : Bor (List Expression)) → rest.now ≡ [] → Advances among.now (with_call name.entry rest arguments state.old) state.new result }
{
    let Some(function) = among.functions.get(name.lexeme()) else {
        return Err(fault(alloc, &name.token, "The function has no value here"));
    };
    if function.parameters.len() != arguments.len() {
        return Err(fault(
            alloc,
            &name.token,
            "The arguments are not as many as the parameters",
        ));
    }
    if state.frame.calls == 0 {
        return Err(fault(alloc, &name.token, "The call stands inside too many others"));
    }
    let inside = Frame {
        locals: Locals::Arguments(Arguments {
            parameters: function.parameters.as_slice(),
            values: arguments,
        }),
        calls: state.frame.calls - 1,
    };
    let outside = replace(&mut state.frame, inside);
    state.tasks.push(Task::Leave(outside))?;
    state.tasks.push(Task::Value(&function.body))?;
    Ok(())
}

// Evaluates the next argument of a call, or calls the function where it has all.
fn call<'a, 'src>(
    alloc: Global,
    among: &Among<'a, 'src>,
    pending: Pending<'a, 'src>,
    state: &mut State<'a, 'src>,
) -> Result<(), Error<'src>>
    ensures { Advances among.now (with_task (Task.Call pending.entry) state.old) state.new result }
{
    let Pending { name, rest, values } = pending;
    let Some((next, rest)) = rest.split_first() else {
        return enter(alloc, among, name, values, state);
    };
    let sink = replace(&mut state.sink, Sink::Texts(Sequence::new(alloc)));
    let pending = Pending { name, rest, values };
    state.tasks.push(Task::Keep(pending, sink))?;
    state.tasks.push(Task::Value(next))?;
    Ok(())
}

// Keeps the value of an argument, and goes on with its call.
fn keep<'a, 'src>(
    alloc: Global,
    among: &Among<'a, 'src>,
    pending: Pending<'a, 'src>,
    sink: Sink,
    state: &mut State<'a, 'src>,
) -> Result<(), AllocError>
    ensures { OnOk result (Goes among.now (with_task (Task.Keep pending.entry sink) state.old) state.new) }
{
    let closed = replace(&mut state.sink, sink);
    let value = into_texts(alloc, closed)?;
    let mut pending = pending;
    pending.values.push(value)?;
    state.tasks.push(Task::Call(pending))
}

/// Does what is next.
pub fn step<'a, 'src>(
    alloc: Global,
    among: &Among<'a, 'src>,
    task: Task<'a, 'src>,
    state: &mut State<'a, 'src>,
) -> Result<(), Error<'src>>
    ensures { Advances among.now (with_task task.entry state.old) state.new result }
{
    match task {
        Task::Value(expression) => evaluate(alloc, among, expression, state),
        Task::Right(expression) => Ok(go_right(among, expression, state)?),
        Task::End => {
            end_value(&mut state.sink);
            Ok(())
        }
        Task::Close(sink) => Ok(close(alloc, among, sink, state)?),
        Task::Elements(elements) => Ok(go_through(among, elements, state)?),
        Task::Call(pending) => call(alloc, among, pending, state),
        Task::Keep(pending, sink) => Ok(keep(alloc, among, pending, sink, state)?),
        Task::Leave(frame) => {
            let _inside = replace(&mut state.frame, frame);
            Ok(())
        }
    }
}
