//! What the parameters of a recipe come to.
ghost use Rattle.std.specs.Prelude.{◌≡◌, IfOk, OnOk};
ghost use Rattle.just_run_layers.specs.Evaluation.{context_contents_of};
ghost use Rattle.just_bench_evaluation.specs.Answered.{run_parameters, run_value};
ghost use Rattle.just_bench_evaluation.specs.Parameters as spec;
ghost use Rattle.just_bench_evaluation.specs.loops.Refusals.{TellsValue};

use crate::expressions::run_value;
use crate::refusals::no_value;
use just_data::{Sequence, Text};
use just_errors::Refusal;
use just_parts::layers::{Binding, Parameter, Scope};
use just_run_layers::{Context, Held};
use std::alloc::{AllocError, Global};

// The value of a parameter that is given texts: these, or of a flag `true`.
fn given_value<'src>(
    alloc: Global,
    parameter: &Parameter<'src>,
    group: &Sequence<Text>,
) -> Result<Sequence<Text>, AllocError>
    ensures { IfOk result (λ value. value ≡ spec.given_value parameter.now group.now) }
{
    if !parameter.flag {
        return group.clone();
    }
    let mut value = Sequence::new(alloc);
    value.push(Text::from_str(alloc, "true")?)?;
    Ok(value)
}

// The value of a parameter, by its group.
fn parameter_value<'src>(
    alloc: Global,
    context: &Context<'_, 'src>,
    scope: &Scope<'src>,
    is_dependency: bool,
    parameter: &Parameter<'src>,
    group: &Sequence<Text>,
) -> Result<Sequence<Text>, Refusal>
    ensures { TellsValue (spec.parameter_value (run_value (context_contents_of context.now) is_dependency) scope.now parameter.now group.now) result }
{
    if !group.is_empty() {
        return Ok(given_value(alloc, parameter, group)?);
    }
    match &parameter.default {
        Some(default) => run_value(alloc, context, scope, is_dependency, default),
        None => Ok(Sequence::new(alloc)),
    }
}

// Binds one more parameter.
fn bind<'src>(
    alloc: Global,
    parameter: &Parameter<'src>,
    value: Sequence<Text>,
    bound: &mut Held<'src>,
) -> Result<(), AllocError>
    ensures { OnOk result (bound.new ≡ spec.with_parameter parameter.now value bound.old) }
{
    bound.positional.append(value.clone()?)?;
    let binding = Binding {
        name: parameter.name.copied(),
        number: parameter.number,
        value,
        export: false,
        private: false,
    };
    let bindings = bound.scope.bindings.pushed(alloc, binding)?;
    bound.scope = Scope { bindings };
    Ok(())
}

/// What the parameters of a recipe come to, each under those before it. Where one has no value, or no group, that is told.
pub fn bind_all<'src>(
    alloc: Global,
    context: &Context<'_, 'src>,
    scope: &Scope<'src>,
    is_dependency: bool,
    parameters: &[Parameter<'src>],
    groups: &[Sequence<Text>],
) -> Result<Held<'src>, Refusal>
    ensures { TellsValue (run_parameters (context_contents_of context.now) is_dependency scope.now groups.now parameters.now) result }
{
    let mut bound = Held {
        scope: scope.clone()?,
        positional: Sequence::new(alloc),
        environment: Sequence::new(alloc),
    };
    for place in 0..parameters.len() {
        if place >= groups.len() {
            return Err(no_value(alloc));
        }
        let parameter = &parameters[place];
        let value = parameter_value(
            alloc,
            context,
            &bound.scope,
            is_dependency,
            parameter,
            &groups[place],
        )?;
        bind(alloc, parameter, value, &mut bound)?;
    }
    Ok(bound)
}
