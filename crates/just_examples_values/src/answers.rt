//! What is answered, by the name of a call.
ghost use Rattle.just_parts.specs.Needs.{HaveNumbersApart};
ghost use Rattle.just_run_layers.specs.Covering.{HasEvaluationOrder, module_of};
ghost use Rattle.just_examples_values.specs.Bound.{IsInOrder, TellApart};
ghost use Rattle.just_examples_values.specs.loops.Bound.{BindsAll};

use crate::arguments::{Handed, read_handed};
use crate::bodies::{add_lines, add_values};
use crate::environments::add_environment;
use crate::parameters::{add_held, bound};
use crate::place::Place;
use crate::variables::{add_variables, all_values};
use just_data::{Chain, Text};
use just_errors::Refusal;
use just_examples_format::questions::Asked;
use just_justfile::{Justfile, Recipes};
use just_parts::Recipe;
use just_parts::layers::{Config, Number, Syntax};
use just_run_layers::{Context, EnvironmentPair, Evaluation};
use std::alloc::{AllocError, Global};
use std::collections::HashMap;

// What a module hands over in a run.
fn context_of<'a, 'src>(
    module: &'a Justfile<'src>,
    config: &'a Config,
    overrides: &'a HashMap<Number, Text>,
    dotenv: Chain<EnvironmentPair>,
) -> Context<'a, 'src>
    requires order { IsInOrder «module».now }
    requires apart { TellApart «module».now }
    ensures order { HasEvaluationOrder result }
    ensures apart { HaveNumbersApart (module_of result) }
{
    Context {
        config,
        dotenv,
        module_path: &module.module_path,
        working_directory: &module.working_directory,
        assignments: &module.assignments,
        evaluation_order: module.evaluation_order.as_slice(),
        functions: &module.functions,
        overrides,
        settings: &module.settings,
        unexports: &module.unexports,
    }
}

// Adds what a call gives for a recipe, among values and what its parameters come to by groups that are words.
fn add_recipe<'src, S: Syntax, E: Evaluation>(
    alloc: Global,
    evaluation: &mut E,
    place: &Place<'_, 'src>,
    syntax: &S,
    call: &str,
    recipe: &Recipe<'src>,
    words: &[&str],
    text: &mut String,
) -> Result<(), Refusal>
    requires { BindsAll place.now.context.now place.now.scope.now }
{
    let held = bound(alloc, evaluation, place, recipe, words)?;
    let inside = Place {
        context: place.context,
        scope: &held.scope,
        is_dependency: place.is_dependency,
    };
    let lines = recipe.body.as_slice();
    match call {
        "parameters" => Ok(add_held(alloc, &held, text)?),
        "line" => add_lines(alloc, evaluation, &inside, syntax, lines, text),
        _ => add_values(alloc, evaluation, &inside, call, lines, text),
    }
}

// Adds what a call gives among the values of all variables of a module: for a recipe of it, or for its environment.
fn add_among_all<'src, S: Syntax, E: Evaluation>(
    alloc: Global,
    evaluation: &mut E,
    context: &Context<'_, 'src>,
    syntax: &S,
    call: &str,
    recipe: Option<&Recipe<'src>>,
    handed: &Handed,
    text: &mut String,
) -> Result<(), Refusal>
    requires { HasEvaluationOrder context.now }
{
    let scope = all_values(alloc, evaluation, context)?;
    if call == "environment" {
        return add_environment(alloc, evaluation, context, &scope, text);
    }
    let place = Place {
        context,
        scope: &scope,
        is_dependency: handed.is_dependency,
    };
    match recipe {
        Some(recipe) => add_recipe(
            alloc,
            evaluation,
            &place,
            syntax,
            call,
            recipe,
            handed.groups.as_slice(),
            text,
        ),
        None => Ok(text.push_str("no recipe\n")?),
    }
}

// Adds why there is no answer, where it is not want of memory.
fn add_refusal(asked: Result<(), Refusal>, text: &mut String) -> Result<(), AllocError> {
    match asked {
        Ok(()) => Ok(()),
        Err(Refusal::Memory) => Err(AllocError),
        Err(Refusal::Fault(fault)) => writeln!(text, "error Evaluate: {fault}"),
    }
}

/// Adds what a call of the evaluation gives in the root's module: `Evaluation::assignments` of all variables, or of what a
/// variable needs; `parameters`, `value`, `string`, `line` and `display` for a recipe and groups of its parameters; and
/// `environment`.
pub fn add_evaluation<'src, S: Syntax, E: Evaluation>(
    root: &Justfile<'src>,
    recipes: &Recipes<'src>,
    overrides: &HashMap<Number, Text>,
    alloc: Global,
    syntax: &S,
    evaluation: &mut E,
    kind: &str,
    asked: &Asked,
    text: &mut String,
) -> Result<(), AllocError>
    requires order { IsInOrder root.now }
    requires apart { TellApart root.now }
{
    let (_, call) = kind.split_once("::").unwrap_or(("", kind));
    let words = asked.words(alloc)?;
    let handed = read_handed(alloc, words.as_slice())?;
    let context = context_of(root, &asked.config, overrides, handed.dotenv.clone()?);
    if call == "assignments" {
        let given = add_variables(alloc, evaluation, &context, handed.name, text);
        return add_refusal(given, text);
    }
    let recipe = root.recipe(recipes, handed.name.unwrap_or(""));
    let given = add_among_all(
        alloc, evaluation, &context, syntax, call, recipe, &handed, text,
    );
    add_refusal(given, text)
}
