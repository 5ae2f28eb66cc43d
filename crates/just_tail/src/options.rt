//! Options: what their words say, and what their switches are given.
ghost use Rattle.std.specs.Prelude.{◌≡◌, ◌≢◌, ◌<◌, ◌≤◌, true, false, Option, Some, IfOk, IfErr, IfSome, OnOk, List, [], ◌∷◌, ◌++◌, MatchOption, length, take, vec_len, chars};
ghost use Rattle.just_names.specs.Texts.{Text as Name, texts};
ghost use Rattle.just_ast_definitions.specs.declared.parameter.Parameter.{Parameter as Record};
ghost use Rattle.just_errors.specs.declared.switch.Switch.{Switch as Named};
ghost use Rattle.just_tail.specs.Words.{Words};
ghost use Rattle.just_tail.specs.loops.Words.{value_text};
ghost use Rattle.just_tail.specs.Options.{option_of};
ghost use Rattle.just_tail.specs.Pieces.{OptionName, cluster, letters, Supplied, value_of, next_of, with_value, option_word, has_equals, is_dashed, IsOptionName, switches_of};
ghost use Rattle.just_tail.specs.Steps.{asks, use_switch, give, may_use, need, FitsNeed, StepsFollow};
ghost use Rattle.just_tail.specs.Cause.{invalid_option, tail_cause_of};
ghost use Rattle.just_tail.specs.Tail.{RefusesSwitch, SwitchIsRefused, BadOption, given_nothing};
ghost use Rattle.just_tail.specs.loops.Reader.{switch_of, IsTailPlan, HasRead, HoldsAfter, HoldsOpen};

use crate::error::TailError;
use crate::groups::push_at;
use crate::plan::Plan;
use crate::progress::Progress;
use crate::switch::BorrowedSwitch;
use just_ast_definitions::Parameter;
use just_data::Text;
use std::alloc::{AllocError, Global};

// The first of the words.
fn first_word<'words>(rest: &[&'words str]) -> Option<&'words str>
    ensures { MatchOption result (texts rest.now ≡ []) (λ word. (texts (take 1 rest.now) ≡ word.now ∷ []) × (0 < length rest.now)) }
{
    rest.first().copied()
}

// Whether a parameter with this group may be given a text more.
fn may_use(parameter: &Parameter, group: &[&str]) -> bool
    ensures { result ≡ may_use parameter.now (texts group.now) }
{
    match group {
        [] => true,
        _ => parameter.kind.is_variadic(),
    }
}

// The name before the first `=`, and what follows that.
fn split_value<'words>(text: &'words str) -> (&'words str, Option<&'words str>)
    ensures name { has_equals result.0.now ≡ false }
    ensures whole { text.now ≡ with_value result.0.now (value_text result.1) }
{
    match text.split_once('=') {
        Some((name, value)) => (name, Some(value)),
        None => (text, None),
    }
}

// What follows a `-` with which a word begins.
fn strip_dash<'words>(word: &'words str) -> Option<&'words str>
    ensures { MatchOption result ((rest : Name) → word.now ≢ 45 ∷ rest) (λ rest. word.now ≡ 45 ∷ rest.now) }
{
    word.strip_prefix('-')
}

/// Whether a word begins with `-` and isn't `-`.
pub fn is_dashed(word: &str) -> bool
    ensures { result ≡ is_dashed word.now }
{
    match word.as_bytes() {
        [] => false,
        [_] => false,
        [first, ..] => *first == b'-',
    }
}

// The place of the parameter that a switch names, and whether it takes no text.
fn find_option<'src>(
    plan: &Plan<'_, 'src>,
    alloc: Global,
    progress: &Progress,
    switch: BorrowedSwitch,
) -> Result<(usize, bool), TailError<'src>>
    requires plan { IsTailPlan plan.now }
    requires count { vec_len progress.now.groups ≡ length plan.now.parameters.now }
    ensures within { IfOk result (λ found. found.0 < length plan.now.parameters.now) }
    ensures place { IfOk result (λ found. (p : Record) × (option_of plan.now.parameters.now (switch_of switch.entry) ≡ Some (found.0, p))) }
    ensures ok { let ps = plan.now.parameters.now in IfOk result (λ found. HoldsAfter ps progress.now (λ before.
        need ps before (switch_of switch.entry) ≡ asks found.1)) }
    ensures err { let ps = plan.now.parameters.now in IfErr result (λ e. IfSome (tail_cause_of e) (λ cause. HoldsAfter ps progress.now (λ before.
        (after : List Named) (value : Option Name) (rest : Words)
        → RefusesSwitch (need ps before (switch_of switch.entry)) (switch_of switch.entry) after value rest cause))) }
{
    let Some((place, parameter)) = plan.option(switch) else {
        return Err(TailError::UnknownOption {
            switch: switch.owned(alloc)?,
        });
    };
    if !may_use(parameter, &progress.groups[place]) {
        return Err(TailError::DuplicateOption {
            switch: switch.owned(alloc)?,
        });
    }
    Ok((place, parameter.flag || parameter.value.is_some()))
}

// Gives a switch its text, if it takes one: how many of the words after it that takes.
fn apply<'src, 'words>(
    plan: &Plan<'_, 'src>,
    alloc: Global,
    progress: &mut Progress<'words>,
    switch: BorrowedSwitch,
    value: Option<&'words str>,
    rest: &[&'words str],
) -> Result<usize, TailError<'src>>
    requires plan { IsTailPlan plan.now }
    requires count { vec_len progress.old.groups ≡ length plan.now.parameters.now }
    ensures count { OnOk result (vec_len progress.new.groups ≡ length plan.now.parameters.now) }
    ensures placed { OnOk result (progress.new.placed ≡ progress.old.placed) }
    ensures within { IfOk result (λ n. n ≤ length rest.now) }
    ensures ok { let ps = plan.now.parameters.now in IfOk result (λ n. HoldsAfter ps progress.old (λ before. (g : Supplied)
        × (value_of g ≡ value_text value.entry) × (next_of g ≡ texts (take n rest.now))
        × FitsNeed (need ps before (switch_of switch.entry)) g
        × HasRead ps (before ++ use_switch (switch_of switch.entry) g ∷ []) progress.new)) }
    ensures err { let ps = plan.now.parameters.now in IfErr result (λ e. IfSome (tail_cause_of e) (λ cause. HoldsAfter ps progress.old (λ before.
        RefusesSwitch (need ps before (switch_of switch.entry)) (switch_of switch.entry) [] (value_text value.entry) (texts rest.now) cause))) }
{
    let (place, takes_nothing) = find_option(plan, alloc, progress, switch)?;
    if takes_nothing {
        if value.is_some() {
            return Err(TailError::FlagWithValue {
                switch: switch.owned(alloc)?,
            });
        }
        push_at(&mut progress.groups, place, "")?;
        return Ok(0);
    }
    if let Some(text) = value {
        push_at(&mut progress.groups, place, text)?;
        return Ok(0);
    }
    match first_word(rest) {
        Some(word) => {
            push_at(&mut progress.groups, place, word)?;
            Ok(1)
        }
        None => Err(TailError::OptionMissingValue {
            switch: switch.owned(alloc)?,
        }),
    }
}

// The characters of a cluster.
fn characters(alloc: Global, name: &str) -> Result<Vec<char>, AllocError>
    ensures { IfOk result (λ found. found.items ≡ chars name.now) }
{
    name.chars().collect(alloc)
}

// Gives nothing to the switches before the last.
fn apply_front<'src>(
    plan: &Plan<'_, 'src>,
    alloc: Global,
    progress: &mut Progress,
    front: &[char],
) -> Result<(), TailError<'src>>
    requires plan { IsTailPlan plan.now }
    requires count { vec_len progress.old.groups ≡ length plan.now.parameters.now }
    ensures count { OnOk result (vec_len progress.new.groups ≡ length plan.now.parameters.now) }
    ensures placed { OnOk result (progress.new.placed ≡ progress.old.placed) }
    ensures ok { let ps = plan.now.parameters.now in OnOk result (HoldsOpen ps progress.old (λ before.
        StepsFollow ps before (given_nothing (letters front.now)) × HasRead ps (before ++ given_nothing (letters front.now)) progress.new)) }
    ensures err { let ps = plan.now.parameters.now in IfErr result (λ e. IfSome (tail_cause_of e) (λ cause. HoldsOpen ps progress.old (λ before.
        (after : List Named) (value : Option Name) (rest : Words) → after ≢ []
        → SwitchIsRefused ps before (letters front.now ++ after) value rest cause))) }
{
    for letter in front {
        match apply(
            plan,
            alloc,
            progress,
            BorrowedSwitch::Short(*letter),
            None,
            &[],
        ) {
            Ok(_) => {}
            Err(e) => return Err(e),
        }
    }
    Ok(())
}

// Reads the switches of a cluster: how many of the words after it the last takes.
fn read_cluster<'src, 'words>(
    plan: &Plan<'_, 'src>,
    alloc: Global,
    progress: &mut Progress<'words>,
    name: &str,
    value: Option<&'words str>,
    rest: &[&'words str],
) -> Result<usize, TailError<'src>>
    requires plan { IsTailPlan plan.now }
    requires count { vec_len progress.old.groups ≡ length plan.now.parameters.now }
    requires named { name.now ≢ [] }
    ensures count { OnOk result (vec_len progress.new.groups ≡ length plan.now.parameters.now) }
    ensures placed { OnOk result (progress.new.placed ≡ progress.old.placed) }
    ensures within { IfOk result (λ n. n ≤ length rest.now) }
    ensures some { chars name.now ≢ [] }
    ensures ok { let ps = plan.now.parameters.now in IfOk result (λ n. HoldsOpen ps progress.old (λ before. (g : Supplied)
        × (value_of g ≡ value_text value.entry) × (next_of g ≡ texts (take n rest.now))
        × StepsFollow ps before (give (switches_of (cluster name.now)) g)
        × HasRead ps (before ++ give (switches_of (cluster name.now)) g) progress.new)) }
    ensures err { let ps = plan.now.parameters.now in IfErr result (λ e. IfSome (tail_cause_of e) (λ cause. HoldsOpen ps progress.old (λ before.
        SwitchIsRefused ps before (switches_of (cluster name.now)) (value_text value.entry) (texts rest.now) cause))) }
{
    let characters = characters(alloc, name)?;
    let Some((last, front)) = characters.split_last() else {
        unreachable!()
    };
    match apply_front(plan, alloc, progress, front) {
        Ok(()) => {}
        Err(e) => return Err(e),
    }
    apply(
        plan,
        alloc,
        progress,
        BorrowedSwitch::Short(*last),
        value,
        rest,
    )
}

// Why a word with an empty name is refused.
fn invalid_option<'src>(alloc: Global, word: &str) -> TailError<'src>
    ensures { IfSome (tail_cause_of result) (λ cause. cause ≡ invalid_option word.now) }
{
    match Text::from_str(alloc, word) {
        Ok(argument) => TailError::InvalidOption { argument },
        Err(_) => TailError::Memory,
    }
}

/// Reads an option: how many of the words after it that takes.
pub fn read_option<'src, 'words>(
    plan: &Plan<'_, 'src>,
    alloc: Global,
    progress: &mut Progress<'words>,
    word: &'words str,
    rest: &[&'words str],
) -> Result<usize, TailError<'src>>
    requires plan { IsTailPlan plan.now }
    requires count { vec_len progress.old.groups ≡ length plan.now.parameters.now }
    requires dashed { is_dashed word.now ≡ true }
    requires other { word.now ≢ 45 ∷ (45 ∷ []) }
    ensures count { OnOk result (vec_len progress.new.groups ≡ length plan.now.parameters.now) }
    ensures placed { OnOk result (progress.new.placed ≡ progress.old.placed) }
    ensures within { IfOk result (λ n. n ≤ length rest.now) }
    ensures ok { let ps = plan.now.parameters.now in IfOk result (λ n. HoldsOpen ps progress.old (λ before. (name : OptionName) × (g : Supplied)
        × IsOptionName name × (word.now ≡ option_word name (value_of g)) × (next_of g ≡ texts (take n rest.now))
        × StepsFollow ps before (give (switches_of name) g)
        × HasRead ps (before ++ give (switches_of name) g) progress.new)) }
    ensures err { let ps = plan.now.parameters.now in IfErr result (λ e. IfSome (tail_cause_of e) (λ cause. HoldsOpen ps progress.old (λ before.
        BadOption ps before (word.now ∷ texts rest.now) cause))) }
{
    let Some(short) = strip_dash(word) else {
        unreachable!()
    };
    match strip_dash(short) {
        Some(long) => {
            let (name, value) = split_value(long);
            if name.is_empty() {
                return Err(invalid_option(alloc, word));
            }
            apply(
                plan,
                alloc,
                progress,
                BorrowedSwitch::Long(name),
                value,
                rest,
            )
        }
        None => {
            let (name, value) = split_value(short);
            if name.is_empty() {
                return Err(invalid_option(alloc, word));
            }
            read_cluster(plan, alloc, progress, name, value, rest)
        }
    }
}
