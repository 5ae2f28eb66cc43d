//! The values of the variables of a module.
ghost use Rattle.std.specs.Prelude.{IfOk, Some};
ghost use Rattle.just_parts.specs.Needs.{HaveNumbersApart};
ghost use Rattle.just_run_layers.specs.Covering.{HasEvaluationOrder, IsClosedIn, module_of};
ghost use Rattle.just_run_layers.specs.Evaluation.{set_of};
ghost use Rattle.just_examples_values.specs.loops.Bound.{BindsAll};

use just_data::{Chain, Shared};
use just_errors::Refusal;
use just_examples_format::lists::{add_group, before};
use just_name_resolution::{Tables, assignment_references};
use just_parts::layers::{Binding, Number, Scope};
use just_run_layers::{Context, Evaluation};
use std::alloc::{AllocError, Global};
use std::collections::HashSet;

// A scope that binds nothing.
fn no_values<'src>() -> Scope<'src> {
    Scope {
        bindings: Chain::new(),
    }
}

// Adds a binding: its name, and its value in brackets.
fn add_binding(binding: &Binding, text: &mut String) -> Result<(), AllocError> {
    text.push_str(if binding.export { "export " } else { "" })?;
    write!(text, "{}", binding.name)?;
    add_group(text, binding.value.as_slice())
}

/// Adds the line of what a scope binds, in order.
pub fn add_scope(alloc: Global, scope: &Scope, text: &mut String) -> Result<(), AllocError> {
    let bindings = scope.bindings.to_sequence(alloc)?;
    text.push_str("bound")?;
    for (place, binding) in bindings.as_slice().iter().enumerate() {
        text.push_str(before(place))?;
        add_binding(binding, text)?;
    }
    text.push('\n')
}

/// The values of all variables of a module.
pub fn all_values<'src, E: Evaluation>(
    alloc: Global,
    evaluation: &mut E,
    context: &Context<'_, 'src>,
) -> Result<Scope<'src>, Refusal>
    requires { HasEvaluationOrder context.now }
    ensures { IfOk result (BindsAll context.now) }
{
    evaluation.assignments(alloc, context, &no_values(), None)
}

// Adds the values of the variables of a module in a set.
fn add_set<'src, E: Evaluation>(
    alloc: Global,
    evaluation: &mut E,
    context: &Context<'_, 'src>,
    set: &Shared<HashSet<Number>>,
    text: &mut String,
) -> Result<(), Refusal>
    requires order { HasEvaluationOrder context.now }
    requires closed { IsClosedIn context.now (set_of (Some set)) }
{
    let scope = evaluation.assignments(alloc, context, &no_values(), Some(set))?;
    Ok(add_scope(alloc, &scope, text)?)
}

// Adds the values of what a variable of a module needs, or that there is no such variable.
fn add_needed<'src, E: Evaluation>(
    alloc: Global,
    evaluation: &mut E,
    context: &Context<'_, 'src>,
    name: &str,
    text: &mut String,
) -> Result<(), Refusal>
    requires order { HasEvaluationOrder context.now }
    requires apart { HaveNumbersApart (module_of context.now) }
{
    let tables = Tables {
        assignments: context.assignments,
        functions: context.functions,
    };
    match assignment_references(alloc, &tables, context.overrides, name)? {
        Some(set) => {
            let set = Shared::new(alloc, set)?;
            add_set(alloc, evaluation, context, &set, text)
        }
        None => Ok(text.push_str("no variable\n")?),
    }
}

/// Adds the values of the variables of a module: of what one needs where there is a name, else of all.
pub fn add_variables<'src, E: Evaluation>(
    alloc: Global,
    evaluation: &mut E,
    context: &Context<'_, 'src>,
    name: Option<&str>,
    text: &mut String,
) -> Result<(), Refusal>
    requires order { HasEvaluationOrder context.now }
    requires apart { HaveNumbersApart (module_of context.now) }
{
    if let Some(name) = name {
        return add_needed(alloc, evaluation, context, name, text);
    }
    let scope = all_values(alloc, evaluation, context)?;
    Ok(add_scope(alloc, &scope, text)?)
}
