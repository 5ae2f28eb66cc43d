//! What expressions come to.
ghost use Rattle.std.specs.Prelude.{◌≡◌, [], ◌∷◌, Some, IfOk, IfErr};
ghost use Rattle.just_parts.specs.Evaluator.{FaultsAt, functions_by_name, scope_values};
ghost use Rattle.just_parts.specs.Told.{IsPlaceIn, IsToldIn};
ghost use Rattle.just_ast_references.specs.Numbers.{bare};
ghost use Rattle.just_bench_values.specs.Lookup.{TellsOutcome, constant_values, functions_in, local_values};
ghost use Rattle.just_bench_values.specs.loops.Tasks.{IsPlaceOfOne, outcome_of};
ghost use Rattle.just_bench_values.specs.Values as spec;

use crate::lookup::{Arguments, Constants, Functions, Locals};
use crate::sink::{Sink, into_texts};
use crate::stack::Stack;
use crate::tasks::{Among, Frame, State, Task, step};
use just_data::{Sequence, Text};
use just_parts::layers::{Error, Expression, FunctionDefinition, Scope};
use just_table::Table;
use std::alloc::{AllocError, Global};

// How many calls may stand inside each other.
const MOST_CALLS: usize = 64;

/// A value of one text, which it shares.
pub fn one(alloc: Global, text: &Text) -> Result<Sequence<Text>, AllocError>
    ensures { IfOk result (λ value. value ≡ text.now ∷ []) }
{
    let mut value = Sequence::new(alloc);
    value.push(text.clone()?)?;
    Ok(value)
}

// Does what is left to do, one task after another.
fn run<'a, 'src>(
    alloc: Global,
    among: &Among<'a, 'src>,
    state: State<'a, 'src>,
) -> Result<Sink, Error<'src>>
    ensures { TellsOutcome (outcome_of among.now state.entry) (IsPlaceOfOne among.now state.entry.tasks) result }
{
    let mut state = state;
    while let Some(task) = state.tasks.pop() {
        step(alloc, among, task, &mut state)?;
    }
    Ok(state.sink)
}

/// The value of an expression among these constants, which these names hide. Where it has none a fault is told.
pub fn evaluate_in<'a, 'src>(
    alloc: Global,
    functions: Functions<'a, 'src>,
    constants: Constants<'a, 'src>,
    locals: Locals<'a, 'src>,
    expression: &Expression<'src>,
) -> Result<Sequence<Text>, Error<'src>>
    ensures { let among = functions_in functions.entry in
        let value = spec.value_with 64 (functions_by_name among) (constant_values constants.entry) (local_values locals.entry) expression.now in
        TellsOutcome value (IsPlaceIn among expression.now) result }
{
    let among = Among {
        functions,
        constants,
    };
    let mut tasks = Stack::new(alloc);
    tasks.push(Task::Value(expression))?;
    let frame = Frame {
        locals,
        calls: MOST_CALLS,
    };
    let sink = Sink::Texts(Sequence::new(alloc));
    let state = State { tasks, frame, sink };
    let sink = run(alloc, &among, state)?;
    Ok(into_texts(alloc, sink)?)
}

/// The value of an expression among these constants, under no parameters. Where it has none a fault is told.
pub fn evaluate_among<'a, 'src>(
    alloc: Global,
    functions: &'a Table<'src, FunctionDefinition<'src>>,
    constants: Constants<'a, 'src>,
    expression: &Expression<'src>,
) -> Result<Sequence<Text>, Error<'src>>
    ensures { let value = spec.value_among_constants (functions_by_name functions.now) (constant_values constants.entry) expression.now in
        TellsOutcome value (IsPlaceIn functions.now expression.now) result }
{
    let known = Functions {
        table: functions,
        builtin: None,
    };
    let parameters = Vec::new(alloc);
    let locals = Locals::Arguments(Arguments {
        parameters: parameters.as_slice(),
        values: Sequence::new(alloc),
    });
    evaluate_in(alloc, known, constants, locals, expression)
}

/// The value of an expression among constants. Where it has none a fault is told.
pub fn value_of<'src>(
    alloc: Global,
    functions: &Table<'src, FunctionDefinition<'src>>,
    constants: &Scope<'src>,
    expression: &Expression<'src>,
) -> Result<Sequence<Text>, Error<'src>>
    ensures value { IfOk result (λ value. spec.value_among_constants (functions_by_name functions.now) (scope_values constants.now) (bare expression.now) ≡ Some value) }
    ensures refused { IfErr result (FaultsAt (spec.value_among_constants (functions_by_name functions.now) (scope_values constants.now) (bare expression.now))) }
    ensures told { IfErr result (IsToldIn (IsPlaceIn functions.now expression.now)) }
{
    evaluate_among(alloc, functions, Constants::Listed(constants), expression)
}
