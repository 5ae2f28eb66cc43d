//! What the groups of a tail must be.
ghost use Rattle.std.specs.Prelude.{◌≡◌, Some, None, IfOk, IfErr, IfSome, OnOk, length, option_map};
ghost use Rattle.just_names.specs.Texts.{texts};
ghost use Rattle.just_parts.specs.Evaluator.{count_fault_of};
ghost use Rattle.just_tail.specs.Words.{as_texts};
ghost use Rattle.just_tail.specs.Cause.{tail_cause_of};
ghost use Rattle.just_tail.specs.loops.Reader.{switch_of};
ghost use Rattle.just_tail.specs.Checks.{is_missing, missing_switch, named_by, first_missing, any_missing, least_positionals, most_positionals, lacking, wrong_count, matches, wrong_pattern, unfit, first_unfit};

use crate::error::TailError;
use crate::switch::BorrowedSwitch;
use just_ast_definitions::Parameter;
use just_data::{BorrowedText, Text};
use just_parts::layers::ConstantEvaluation;
use std::alloc::{AllocError, Global};

// The switch that names a parameter: the long one if it has one.
fn switch_of<'a>(parameter: &'a Parameter) -> Option<BorrowedSwitch<'a>>
    ensures { option_map switch_of result ≡ named_by parameter.now.long parameter.now.short }
{
    match &parameter.long {
        Some(name) => Some(BorrowedSwitch::Long(name.as_str())),
        None => parameter.short.map(|letter| BorrowedSwitch::Short(letter)),
    }
}

// Whether the group is empty, and may not be.
fn is_missing(parameter: &Parameter, group: &[&str]) -> bool
    ensures { result ≡ is_missing parameter.now (texts group.now) }
{
    match group {
        [] => parameter.is_required(),
        _ => false,
    }
}

// The switch of the parameter, if it is an option that is missing.
fn missing_switch<'a>(parameter: &'a Parameter, group: &[&str]) -> Option<BorrowedSwitch<'a>>
    ensures { option_map switch_of result ≡ missing_switch parameter.now (texts group.now) }
{
    if is_missing(parameter, group) {
        switch_of(parameter)
    } else {
        None
    }
}

// The switch of the first option that is missing.
fn first_missing<'a>(
    parameters: &'a [Parameter],
    groups: &[Vec<&str>],
) -> Option<BorrowedSwitch<'a>>
    requires { length groups.now ≡ length parameters.now }
    ensures { option_map switch_of result ≡ first_missing parameters.now (as_texts groups.now) }
{
    for (place, parameter) in parameters.iter().enumerate() {
        if let Some(switch) = missing_switch(parameter, &groups[place]) {
            return Some(switch);
        }
    }
    None
}

// Whether some group is empty that may not be.
fn any_missing(parameters: &[Parameter], groups: &[Vec<&str>]) -> bool
    requires { length groups.now ≡ length parameters.now }
    ensures { result ≡ any_missing parameters.now (as_texts groups.now) }
{
    for (place, parameter) in parameters.iter().enumerate() {
        if is_missing(parameter, &groups[place]) {
            return true;
        }
    }
    false
}

// How many positional words there must be.
fn least_positionals(parameters: &[Parameter]) -> usize
    ensures { result ≡ least_positionals parameters.now }
{
    parameters
        .iter()
        .filter(|parameter| parameter.is_required() && !parameter.is_option())
        .count()
}

// How many positional words there may be.
fn most_positionals(parameters: &[Parameter]) -> usize
    ensures { result ≡ most_positionals parameters.now }
{
    let mut count = 0;
    for parameter in parameters {
        if !parameter.is_option() {
            if parameter.kind.is_variadic() {
                return usize::MAX - 1;
            }
            count += 1;
        }
    }
    count
}

/// Refuses groups of which some are empty that may not be.
pub fn check_present<'src>(
    parameters: &[Parameter<'src>],
    alloc: Global,
    groups: &[Vec<&str>],
    found: usize,
) -> Result<(), TailError<'src>>
    requires { length groups.now ≡ length parameters.now }
    ensures ok { OnOk result (lacking parameters.now (as_texts groups.now) found ≡ None) }
    ensures err { IfErr result (λ e. IfSome (tail_cause_of e) (λ cause. lacking parameters.now (as_texts groups.now) found ≡ Some cause)) }
{
    if let Some(switch) = first_missing(parameters, groups) {
        return Err(TailError::MissingOption {
            switch: switch.owned(alloc)?,
        });
    }
    if any_missing(parameters, groups) {
        return Err(TailError::PositionalArgumentCountMismatch {
            found,
            min: least_positionals(parameters),
            max: most_positionals(parameters),
        });
    }
    Ok(())
}

// Refuses a group that has more or fewer texts than it may.
fn check_value_count<'src, E: ConstantEvaluation>(
    parameter: &Parameter<'src>,
    alloc: Global,
    evaluation: &E,
    recipe: &str,
    group: &[&str],
) -> Result<(), TailError<'src>>
    ensures ok { OnOk result (wrong_count (count_fault_of (E.answers evaluation.now) recipe.now) parameter.now (texts group.now) ≡ None) }
    ensures err { let counts = count_fault_of (E.answers evaluation.now) recipe.now in
        IfErr result (λ e. IfSome (tail_cause_of e) (λ cause. wrong_count counts parameter.now (texts group.now) ≡ Some cause)) }
{
    match group {
        [] => return Ok(()),
        _ => {}
    }
    match evaluation.check_value_count(alloc, recipe, parameter, group)? {
        Some(fault) => Err(TailError::ValueCount {
            parameter: BorrowedText::new(parameter.name.lexeme()),
            fault,
        }),
        None => Ok(()),
    }
}

// Whether the pattern of a parameter, if it has one, matches a text.
fn matches(parameter: &Parameter, alloc: Global, text: &str) -> Result<bool, AllocError>
    ensures { IfOk result (λ found. found ≡ matches parameter.now.pattern text.now) }
{
    match &parameter.pattern {
        Some(pattern) => pattern.is_match(alloc, text),
        None => Ok(true),
    }
}

// Refuses a text that the pattern of its parameter does not match.
fn check_pattern_match<'src>(
    parameter: &Parameter<'src>,
    alloc: Global,
    group: &[&str],
) -> Result<(), TailError<'src>>
    ensures ok { OnOk result (wrong_pattern parameter.now (texts group.now) ≡ None) }
    ensures err { IfErr result (λ e. IfSome (tail_cause_of e) (λ cause. wrong_pattern parameter.now (texts group.now) ≡ Some cause)) }
{
    for text in group {
        if !matches(parameter, alloc, text)? {
            return Err(TailError::ArgumentPatternMismatch {
                parameter: BorrowedText::new(parameter.name.lexeme()),
                argument: Text::from_str(alloc, text)?,
            });
        }
    }
    Ok(())
}

// Refuses the texts of a parameter that are not right. Of one with a value none is refused.
fn check_group<'src, E: ConstantEvaluation>(
    parameter: &Parameter<'src>,
    alloc: Global,
    evaluation: &E,
    recipe: &str,
    group: &[&str],
) -> Result<(), TailError<'src>>
    ensures ok { OnOk result (unfit (count_fault_of (E.answers evaluation.now) recipe.now) parameter.now (texts group.now) ≡ None) }
    ensures err { let counts = count_fault_of (E.answers evaluation.now) recipe.now in
        IfErr result (λ e. IfSome (tail_cause_of e) (λ cause. unfit counts parameter.now (texts group.now) ≡ Some cause)) }
{
    if parameter.value.is_some() {
        return Ok(());
    }
    match check_value_count(parameter, alloc, evaluation, recipe, group) {
        Ok(()) => check_pattern_match(parameter, alloc, group),
        Err(e) => Err(e),
    }
}

/// Refuses the first group whose texts are not right.
pub fn check_groups<'src, E: ConstantEvaluation>(
    parameters: &[Parameter<'src>],
    alloc: Global,
    evaluation: &E,
    recipe: &str,
    groups: &[Vec<&str>],
) -> Result<(), TailError<'src>>
    requires { length groups.now ≡ length parameters.now }
    ensures ok { OnOk result (first_unfit (count_fault_of (E.answers evaluation.now) recipe.now) parameters.now (as_texts groups.now) ≡ None) }
    ensures err { let counts = count_fault_of (E.answers evaluation.now) recipe.now in
        IfErr result (λ e. IfSome (tail_cause_of e) (λ cause. first_unfit counts parameters.now (as_texts groups.now) ≡ Some cause)) }
{
    for (place, parameter) in parameters.iter().enumerate() {
        match check_group(parameter, alloc, evaluation, recipe, &groups[place]) {
            Ok(()) => {}
            Err(e) => return Err(e),
        }
    }
    Ok(())
}
