//! The values of the variables of a module in a run.
ghost use Rattle.std.specs.Prelude.{◌≡◌, IfOk, map, reverse};
ghost use Rattle.just_names.specs.Name.{text_of_name};
ghost use Rattle.just_ast_expressions.specs.declared.scope.Binding.{Binding};
ghost use Rattle.just_parts.specs.Evaluator.{Binds};
ghost use Rattle.just_run_layers.specs.Covering.{HasEvaluationOrder, wanted_in};
ghost use Rattle.just_run_layers.specs.Evaluation.{context_contents_of, in_set, set_of};
ghost use Rattle.just_bench_values.specs.Constants.{is_asked};
ghost use Rattle.just_bench_evaluation.specs.Answered as spec;
ghost use Rattle.just_bench_evaluation.specs.loops.Refusals.{TellsValue};

use crate::refusals::refusal_of;
use just_bench_values::constants_of;
use just_data::{Sequence, Shared, Text};
use just_errors::Refusal;
use just_parts::layers::{Number, Scope};
use just_run_layers::Context;
use std::alloc::{AllocError, Global};
use std::collections::HashSet;

// The numbers of a set that is shared, where there is one.
fn numbers_of(set: Option<&Shared<HashSet<Number>>>) -> Option<&HashSet<Number>>
    ensures { is_asked result ≡ in_set (set_of set.entry) }
{
    match set {
        Some(numbers) => Some(numbers.get()),
        None => None,
    }
}

/// The values of the variables of a module, in a set or all. Where one has none that is told.
pub fn run_scope<'src>(
    alloc: Global,
    context: &Context<'_, 'src>,
    set: Option<&Shared<HashSet<Number>>>,
) -> Result<Scope<'src>, Refusal>
    requires order { HasEvaluationOrder context.now }
    ensures binds { IfOk result (Binds context.now.assignments.now (wanted_in context.now (set_of set.entry))) }
    ensures gives { TellsValue (spec.run_scope (context_contents_of context.now) (set_of set.entry)) result }
{
    match constants_of(
        alloc,
        context.assignments,
        context.functions,
        context.evaluation_order,
        context.overrides,
        numbers_of(set),
    ) {
        Ok(scope) => Ok(scope),
        Err(error) => Err(refusal_of(alloc, error)),
    }
}

/// The names that a scope binds, from the last to the first.
pub fn names_of<'src>(alloc: Global, scope: &Scope<'src>) -> Result<Sequence<Text>, AllocError>
    ensures { IfOk result (λ names. names ≡ map (λ (b : Binding). text_of_name b.name) (reverse scope.now.bindings)) }
{
    let mut names = Sequence::new(alloc);
    for binding in scope.bindings.iter() {
        names.push(Text::from_str(alloc, binding.name.lexeme())?)?;
    }
    Ok(names)
}
