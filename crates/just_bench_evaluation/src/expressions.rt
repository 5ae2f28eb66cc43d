//! What expressions come to in a run.
ghost use Rattle.just_parts.specs.Told.{IsPlaceIn};
ghost use Rattle.just_run_layers.specs.Evaluation.{context_contents_of};
ghost use Rattle.just_bench_values.specs.Lookup.{TellsOutcome, behind};
ghost use Rattle.just_bench_evaluation.specs.Answered as spec;
ghost use Rattle.just_bench_evaluation.specs.loops.Refusals.{TellsValue};

use crate::dependency::dependency_function;
use crate::refusals::refusal_of;
use just_bench_values::{Constants, Functions, Locals, Variables, evaluate_in};
use just_data::{Sequence, Text};
use just_errors::Refusal;
use just_parts::layers::{Error, Expression, FunctionDefinition, Scope, joined};
use just_run_layers::Context;
use std::alloc::Global;

// The value of an expression among those of a scope, with a function behind those of the module.
fn evaluate<'a, 'src>(
    alloc: Global,
    context: &'a Context<'a, 'src>,
    scope: &'a Scope<'src>,
    builtin: &'a FunctionDefinition<'src>,
    expression: &Expression<'src>,
) -> Result<Sequence<Text>, Error<'src>>
    ensures { let value = spec.value_behind builtin.now (context_contents_of context.now) scope.now expression.now in
        TellsOutcome value (IsPlaceIn (behind builtin.now context.now.functions.now) expression.now) result }
{
    let functions = Functions {
        table: context.functions,
        builtin: Some(builtin),
    };
    let variables = Constants::Numbered(Variables {
        assignments: context.assignments,
        scope,
    });
    let locals = Locals::Bindings(scope);
    evaluate_in(alloc, functions, variables, locals, expression)
}

/// The value of an expression among those of a scope. Where it has none that is told.
pub fn run_value<'src>(
    alloc: Global,
    context: &Context<'_, 'src>,
    scope: &Scope<'src>,
    is_dependency: bool,
    expression: &Expression<'src>,
) -> Result<Sequence<Text>, Refusal>
    ensures { TellsValue (spec.run_value (context_contents_of context.now) is_dependency scope.now expression.now) result }
{
    let dependency = dependency_function(alloc, is_dependency)?;
    match evaluate(alloc, context, scope, &dependency, expression) {
        Ok(value) => Ok(value),
        Err(error) => Err(refusal_of(alloc, error)),
    }
}

/// The value of an expression as one text, its texts with a blank between them.
pub fn run_text<'src>(
    alloc: Global,
    context: &Context<'_, 'src>,
    scope: &Scope<'src>,
    is_dependency: bool,
    expression: &Expression<'src>,
) -> Result<Text, Refusal>
    ensures { TellsValue (spec.run_text (context_contents_of context.now) is_dependency scope.now expression.now) result }
{
    let value = run_value(alloc, context, scope, is_dependency, expression)?;
    Ok(joined(alloc, value.as_slice())?)
}
