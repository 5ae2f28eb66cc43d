//! What settings come to.
ghost use Rattle.std.specs.Prelude.{◌≡◌, IfOk, IfErr, OnOk, Some, flat_map, map};
ghost use Rattle.just_parts.specs.Evaluator.{FaultsAt, bare_set, functions_by_name, interpreter_expressions, set_expressions, setting_expressions, scope_values};
ghost use Rattle.just_parts.specs.Told.{IsPlaceIn, IsPlaceInOne, IsToldIn};
ghost use Rattle.just_bench_values.specs.Lookup.{TellsOutcome};
ghost use Rattle.just_bench_values.specs.Settings as spec;
ghost use Rattle.just_bench_values.specs.Settings.{HasPrograms};
ghost use Rattle.just_bench_values.specs.Values as value;

use crate::lookup::Constants;
use crate::values::evaluate_among;
use just_data::{Sequence, Text};
use just_parts::layers::{
    Error, Expression, FunctionDefinition, Interpreter, Scope, Set, Setting, Settings, joined,
};
use just_table::Table;
use std::alloc::{AllocError, Global};

// The text of an expression.
fn text<'src>(
    alloc: Global,
    functions: &Table<'src, FunctionDefinition<'src>>,
    constants: &Scope<'src>,
    expression: &Expression<'src>,
) -> Result<Text, Error<'src>>
    ensures { let values = value.value_among_constants (functions_by_name functions.now) (scope_values constants.now) in
        TellsOutcome (spec.text_with values expression.now) (IsPlaceIn functions.now expression.now) result }
{
    let value = evaluate_among(alloc, functions, Constants::Listed(constants), expression)?;
    Ok(joined(alloc, value.as_slice())?)
}

// The texts of expressions.
fn texts<'src>(
    alloc: Global,
    functions: &Table<'src, FunctionDefinition<'src>>,
    constants: &Scope<'src>,
    expressions: &[Expression<'src>],
) -> Result<Sequence<Text>, Error<'src>>
    ensures { let values = value.value_among_constants (functions_by_name functions.now) (scope_values constants.now) in
        TellsOutcome (value.all_of (map (spec.text_with values) expressions.now)) (IsPlaceInOne functions.now expressions.now) result }
{
    let mut texts = Sequence::new(alloc);
    for expression in expressions {
        let text = text(alloc, functions, constants, expression)?;
        texts.push(text)?;
    }
    Ok(texts)
}

// The texts of a program and of its arguments.
fn interpreter<'src>(
    alloc: Global,
    functions: &Table<'src, FunctionDefinition<'src>>,
    constants: &Scope<'src>,
    interpreter: &Interpreter<Expression<'src>>,
) -> Result<Interpreter<Text>, Error<'src>>
    ensures { let values = value.value_among_constants (functions_by_name functions.now) (scope_values constants.now) in
        TellsOutcome (spec.interpreter_with values interpreter.now) (IsPlaceInOne functions.now (interpreter_expressions interpreter.now)) result }
{
    let command = text(alloc, functions, constants, &interpreter.command)?;
    let arguments = texts(
        alloc,
        functions,
        constants,
        interpreter.arguments.as_slice(),
    )?;
    Ok(Interpreter { command, arguments })
}

// Sets a setting.
fn set<'src>(
    alloc: Global,
    functions: &Table<'src, FunctionDefinition<'src>>,
    constants: &Scope<'src>,
    setting: &Setting<'src>,
    settings: &mut Settings,
) -> Result<(), Error<'src>>
    ensures made { let values = value.value_among_constants (functions_by_name functions.now) (scope_values constants.now) in
        OnOk result (spec.setting_with values setting.now settings.old ≡ Some settings.new) }
    ensures refused { let values = value.value_among_constants (functions_by_name functions.now) (scope_values constants.now) in
        IfErr result (FaultsAt (spec.setting_with values setting.now settings.old)) }
    ensures told { IfErr result (IsToldIn (IsPlaceInOne functions.now (setting_expressions setting.now))) }
{
    match setting {
        Setting::AllowDuplicateRecipes(on) => settings.allow_duplicate_recipes = *on,
        Setting::AllowDuplicateVariables(on) => settings.allow_duplicate_variables = *on,
        Setting::DefaultScript(on) => settings.default_script = *on,
        Setting::Export(on) => settings.export = *on,
        Setting::IgnoreComments(on) => settings.ignore_comments = *on,
        Setting::Lazy(on) => settings.lazy = *on,
        Setting::Lists(on) => settings.lists = *on,
        Setting::NoCd(on) => settings.no_cd = *on,
        Setting::NoExitMessage(on) => settings.no_exit_message = *on,
        Setting::PositionalArguments(on) => settings.positional_arguments = *on,
        Setting::Quiet(on) => settings.quiet = *on,
        Setting::Unstable(on) => settings.unstable = *on,
        Setting::ScriptInterpreter(program) => {
            settings.script_interpreter = Some(interpreter(alloc, functions, constants, program)?);
        }
        Setting::Shell(program) => {
            settings.shell = Some(interpreter(alloc, functions, constants, program)?);
        }
    }
    Ok(())
}

// `sh` with an option.
fn shell_with(alloc: Global, option: &str) -> Result<Interpreter<Text>, AllocError>
    ensures { IfOk result (λ made. made ≡ spec.shell_with option.now) }
{
    let mut arguments = Sequence::new(alloc);
    arguments.push(Text::from_str(alloc, option)?)?;
    Ok(Interpreter {
        command: Text::from_str(alloc, "sh")?,
        arguments,
    })
}

// Settings before any is set.
fn plain_settings(alloc: Global) -> Result<Settings, AllocError>
    ensures { IfOk result (λ made. made ≡ spec.plain_settings) }
{
    let mut settings = Settings::default();
    settings.shell = Some(shell_with(alloc, "-cu")?);
    settings.script_interpreter = Some(shell_with(alloc, "-eu")?);
    Ok(settings)
}

/// The settings that these come to among constants, each in turn, and the others off. Where none says what runs lines it is
/// `sh -cu`, and what runs scripts `sh -eu`. Where an expression has no value a fault is told.
pub fn settings_of<'src>(
    alloc: Global,
    functions: &Table<'src, FunctionDefinition<'src>>,
    constants: &Scope<'src>,
    sets: &[Set<'src>],
) -> Result<Settings, Error<'src>>
    ensures settings { let among = spec.settings_of (functions_by_name functions.now) (scope_values constants.now) in
        IfOk result (λ made. among (map bare_set sets.now) ≡ Some made) }
    ensures programs { IfOk result (λ made. HasPrograms made) }
    ensures refused { IfErr result (FaultsAt (spec.settings_of (functions_by_name functions.now) (scope_values constants.now) (map bare_set sets.now))) }
    ensures told { IfErr result (IsToldIn (IsPlaceInOne functions.now (flat_map set_expressions sets.now))) }
{
    let mut settings = plain_settings(alloc)?;
    for one in sets {
        set(alloc, functions, constants, &one.value, &mut settings)?;
    }
    Ok(settings)
}
