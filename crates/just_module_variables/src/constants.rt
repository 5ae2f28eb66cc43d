//! What the constants and the settings of a module come to.

ghost use Rattle.std.specs.Prelude.{◌≡◌, ◌∷◌, [], IfOk, IfErr, OnOk, Some, map};
ghost use Rattle.std.specs.HashMap.{get};
ghost use Rattle.std.specs.List.{Contains};
ghost use Rattle.just_module_variables.specs.Constants.{CoversAll, evaluated_in};
ghost use Rattle.just_module_variables.specs.loops.Constants.{CoversSets, TellsFaultIn};
ghost use Rattle.just_module_variables.specs.Overrides.{last_of, overridden_among};
ghost use Rattle.just_module_variables.specs.Variables.{AreVariablesOf, known_with_numbers};
ghost use Rattle.just_errors.specs.Causes.{Keeps, Reports};
ghost use Rattle.just_module_contents.specs.Constants as rule;
ghost use Rattle.just_module_contents.specs.Definitions.{contents_in, sets_in};
ghost use Rattle.just_module_contents.specs.Recipes.{lent};
ghost use Rattle.just_parts.specs.Evaluator.{FaultsAt, bare_set, functions_by_name, scope_values};
ghost use Rattle.just_parts.specs.Known.{none_hidden};
ghost use Rattle.just_parts.specs.Layers.{given_by, layers_at, override_at};
ghost use Rattle.just_parts.specs.Needs.{HaveNumbersApart, same_number};
ghost use Rattle.just_ast_expressions.specs.declared.expression.Expression.{Expression};
ghost use Rattle.just_name_resolution.specs.Lent.{known_in};
ghost use Rattle.just_parts.specs.Misnaming.{Misnames};

use crate::expressions::{constant_expressions, settings_expressions};
use crate::overrides::{by_number, overrides_of};
use crate::variables::Variables;
use just_data::{Text, copied};
use just_module_contents::definitions::Definitions;
use just_name_resolution::{Known, Tables, check_expression, needed_references};
use just_parts::layers::{
    ConstantEvaluation, Error, Expression, Given, Number, Scope, Set, Setting, Settings, Syntax,
};
use just_paths::Modulepath;
use std::alloc::{AllocError, Global};
use std::collections::{HashMap, HashSet};

/// What is evaluated of a module while compiling.
#[derive(Drop)]
pub struct Constants<'src> {
    /// The values of the variables that settings, docs, helps and patterns need.
    pub scope: Scope<'src>,
    /// Its settings.
    pub settings: Settings,
    /// The values that override its variables, each with the number of its variable.
    pub overridden: Vec<(Number, Text)>,
    /// The same values by these numbers.
    pub overrides: HashMap<Number, Text>,
}

// What the module sets, once more.
fn copied_sets<'a, 'src>(
    alloc: Global,
    definitions: &Definitions<'src, 'a>,
) -> Result<Vec<Set<'src>>, AllocError>
    ensures { IfOk result (λ sets. sets.items ≡ sets_in definitions.now) }
{
    let mut sets = Vec::with_capacity(alloc, definitions.sets.len())?;
    for place in 0..definitions.sets.len() {
        sets.push(copied(definitions.set_at(place))?)?;
    }
    Ok(sets)
}

// Whether a setting says that values are lists.
fn is_lists(setting: &Setting) -> bool
    ensures { result ≡ rule.is_lists setting.now }
{
    match setting {
        Setting::Lists(on) => *on,
        _ => false,
    }
}

// Whether one of the settings says so.
fn sets_lists<'a, 'src>(definitions: &Definitions<'src, 'a>) -> bool
    ensures { result ≡ rule.sets_lists (sets_in definitions.now) }
{
    for place in 0..definitions.sets.len() {
        if is_lists(&definitions.set_at(place).value) {
            return true;
        }
    }
    false
}

// Checks the names in expressions.
fn check_expressions<'e, 'a, 'src, S: Syntax>(
    alloc: Global,
    known: &Known<'a, 'src, S>,
    expressions: &Vec<&'e Expression<'src>>,
) -> Result<(), Error<'src>>
    ensures kept { let m = known_in (S.answers known.now.syntax.now) known.now in
        OnOk result ((e : Expression) → Contains (lent expressions.now.items) e → Keeps (Misnames m none_hidden e)) }
    ensures named { let m = known_in (S.answers known.now.syntax.now) known.now in
        IfErr result (TellsFaultIn m (lent expressions.now.items)) }
{
    let hidden = HashSet::new(alloc);
    for place in 0..expressions.len() {
        check_expression(alloc, known, &hidden, &*expressions[place])?;
    }
    Ok(())
}

// The settings of a module whose constants have these values.
fn settings_of<'a, 'src, E: ConstantEvaluation>(
    alloc: Global,
    definitions: &Definitions<'src, 'a>,
    variables: &Variables<'src>,
    constants: &Scope<'src>,
    evaluation: &E,
) -> Result<Settings, Error<'src>>
    requires { CoversSets variables.now (scope_values constants.now) (sets_in definitions.now) }
    ensures settings { let answer = (E.answers evaluation.now).settings (functions_by_name variables.now.functions) (scope_values constants.now) in
        IfOk result (λ made. answer (map bare_set (sets_in definitions.now)) ≡ Some made) }
    ensures refused { let answer = (E.answers evaluation.now).settings (functions_by_name variables.now.functions) (scope_values constants.now) in
        IfErr result (FaultsAt (answer (map bare_set (sets_in definitions.now)))) }
{
    let sets = copied_sets(alloc, definitions)?;
    evaluation.sets(
        alloc,
        constants,
        &variables.assignments,
        &variables.functions,
        sets.as_slice(),
    )
}

/// Evaluates what the settings, docs, helps and patterns of the module at a path need, and then its settings, with what the
/// configuration overrides. An error names a fault of the evaluation, or what is at fault with a name in a setting.
pub fn evaluate_constants<'k, 'a, 'src, S: Syntax, E: ConstantEvaluation>(
    given: &Given<'k, S, E>,
    definitions: &Definitions<'src, 'a>,
    variables: &'k Variables<'src>,
    path: &Modulepath,
) -> Result<Constants<'src>, Error<'src>>
    requires variables { AreVariablesOf (S.answers given.now.syntax.now) (contents_in definitions.now) variables.now }
    requires apart { HaveNumbersApart (known_with_numbers (S.answers given.now.syntax.now) (contents_in definitions.now)) }
    ensures kept { let given = given_by S.answers E.answers given.now in
        IfOk result (λ _. Keeps (rule.BreaksConstants (layers_at given path.now) (contents_in definitions.now))) }
    ensures evaluated { let given = given_by S.answers E.answers given.now in
        IfOk result (λ it. rule.IsEvaluated (layers_at given path.now) (contents_in definitions.now) (evaluated_in it)) }
    ensures covered { IfOk result (λ it. CoversAll variables.now (scope_values it.scope) (rule.constant_expressions (contents_in definitions.now))) }
    ensures overridden { let found = overridden_among (override_at given.now.config.now.overrides path.now) (contents_in definitions.now) in
        IfOk result (λ it. it.overridden.items ≡ found) }
    ensures overrides { IfOk result (λ it. (n : Number) → get same_number it.overrides n ≡ last_of it.overridden.items n) }
    ensures named { let given = given_by S.answers E.answers given.now in
        IfErr result (Reports (rule.BreaksConstants (layers_at given path.now) (contents_in definitions.now))) }
{
    let alloc = given.alloc;
    let known = Known {
        assignments: &variables.assignments,
        functions: &variables.functions,
        syntax: given.syntax,
    };
    let settings = settings_expressions(alloc, definitions)?;
    check_expressions(alloc, &known, &settings)?;
    let overridden = overrides_of(alloc, &variables.assignments, given.config, path)?;
    let overrides = by_number(alloc, overridden.as_slice())?;
    let expressions = constant_expressions(alloc, definitions)?;
    let tables = Tables {
        assignments: &variables.assignments,
        functions: &variables.functions,
    };
    let references = needed_references(alloc, &tables, &overrides, &expressions)?;
    let scope = given.evaluation.assignments_const(
        alloc,
        &variables.assignments,
        &variables.functions,
        variables.evaluation_order.as_slice(),
        &overrides,
        &references,
        sets_lists(definitions),
    )?;
    let settings = settings_of(alloc, definitions, variables, &scope, given.evaluation)?;
    Ok(Constants {
        scope,
        settings,
        overridden,
        overrides,
    })
}
