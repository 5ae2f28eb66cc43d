//! What the attributes of a recipe say of its run.
ghost use Rattle.std.specs.Prelude.{◌≡◌};
ghost use Rattle.std.specs.List.{list_any};
ghost use Rattle.std.specs.Option.{option_copied};
ghost use Rattle.just_recipe_body.specs.Attributes as spec;

use just_ast_definitions::{Attribute, NamedAttribute};
use just_ast_expressions::{Expression, Settings};
use just_data::Sequence;
use just_errors::Signal;
use just_recipe::Recipe;

// The folder that an attribute says.
fn directory_in<'a, 'src>(attribute: &'a Attribute<'src>) -> Option<&'a Expression<'src>>
    ensures { option_copied result ≡ spec.directory_in attribute.now }
{
    match attribute {
        Attribute::WorkingDirectory(folder) => Some(folder),
        _ => None,
    }
}

/// The folder that attributes say: that of the first which says one.
pub fn directory_of<'a, 'src>(
    attributes: &'a [NamedAttribute<'src>],
) -> Option<&'a Expression<'src>>
    ensures { option_copied result ≡ spec.directory_of attributes.now }
{
    for named in attributes {
        if let Some(folder) = directory_in(&named.attribute) {
            return Some(folder);
        }
    }
    None
}

// The format of the time that an attribute says, which may be left to the configuration.
fn timestamp_in<'a, 'src>(attribute: &'a Attribute<'src>) -> Option<&'a Option<Expression<'src>>>
    ensures { option_copied result ≡ spec.timestamp_in attribute.now }
{
    match attribute {
        Attribute::Timestamp(format) => Some(format),
        _ => None,
    }
}

/// The format of the time that attributes say: that of the first which asks for the time.
pub fn timestamp_of<'a, 'src>(
    attributes: &'a [NamedAttribute<'src>],
) -> Option<&'a Option<Expression<'src>>>
    ensures { option_copied result ≡ spec.timestamp_of attributes.now }
{
    for named in attributes {
        if let Some(format) = timestamp_in(&named.attribute) {
            return Some(format);
        }
    }
    None
}

// The signals that an attribute says.
fn signals_in<'a, 'src>(attribute: &'a Attribute<'src>) -> Option<&'a Sequence<Signal>>
    ensures { option_copied result ≡ spec.signals_in attribute.now }
{
    match attribute {
        Attribute::Continue(signals) => Some(signals),
        _ => None,
    }
}

// The signals that attributes say: those of the first which says some, or that an interrupt is meant.
fn signals_of<'a, 'src>(attributes: &'a [NamedAttribute<'src>]) -> Option<&'a Sequence<Signal>>
    ensures { option_copied result ≡ spec.signals_of attributes.now }
{
    for named in attributes {
        if let Some(signals) = signals_in(&named.attribute) {
            return Some(signals);
        }
    }
    None
}

fn is_same(one: Signal, other: Signal) -> bool
    ensures { result ≡ spec.is_same one other }
{
    one == other
}

fn is_listed(signals: &[Signal], signal: Signal) -> bool
    ensures { result ≡ spec.is_listed signals.now signal }
{
    signals.iter().any(|listed| is_same(*listed, signal))
}

// Whether a signal is one of those that are listed, where none that is listed means an interrupt.
fn lists_signal(signals: &[Signal], signal: Signal) -> bool
    ensures { result ≡ spec.lists_signal signals.now signal }
{
    if signals.is_empty() {
        return is_same(Signal::Interrupt, signal);
    }
    is_listed(signals, signal)
}

/// Whether a recipe goes on after a signal.
pub fn continues_on<'src>(recipe: &Recipe<'src>, signal: Signal) -> bool
    ensures { result ≡ spec.continues_on recipe.now signal }
{
    match signals_of(recipe.attributes.as_slice()) {
        Some(signals) => lists_signal(signals.as_slice(), signal),
        None => false,
    }
}

fn has_no_cd(attributes: &[NamedAttribute]) -> bool
    ensures { result ≡ list_any spec.is_no_cd attributes.now }
{
    attributes
        .iter()
        .any(|named| matches!(named.attribute, Attribute::NoCd))
}

/// Whether a recipe runs in the folder of its module, or in one that it names.
pub fn changes_directory<'src>(recipe: &Recipe<'src>, settings: &Settings) -> bool
    ensures { result ≡ spec.changes_directory recipe.now settings.now }
{
    let attributes = recipe.attributes.as_slice();
    directory_of(attributes).is_some() || (!has_no_cd(attributes) && !settings.no_cd)
}

fn has_positional_arguments(attributes: &[NamedAttribute]) -> bool
    ensures { result ≡ list_any spec.is_positional_arguments attributes.now }
{
    attributes.iter().any(|named| matches!(named.attribute, Attribute::PositionalArguments))
}

/// Whether a recipe takes its arguments by place too.
pub fn takes_positional_arguments<'src>(recipe: &Recipe<'src>, settings: &Settings) -> bool
    ensures { result ≡ spec.takes_positional_arguments recipe.now settings.now }
{
    settings.positional_arguments || has_positional_arguments(recipe.attributes.as_slice())
}

fn has_exit_message(attributes: &[NamedAttribute]) -> bool
    ensures { result ≡ list_any spec.is_exit_message attributes.now }
{
    attributes
        .iter()
        .any(|named| matches!(named.attribute, Attribute::ExitMessage))
}

fn has_no_exit_message(attributes: &[NamedAttribute]) -> bool
    ensures { result ≡ list_any spec.is_no_exit_message attributes.now }
{
    attributes.iter().any(|named| matches!(named.attribute, Attribute::NoExitMessage))
}

/// Whether the failure of a recipe is told.
pub fn prints_message<'src>(recipe: &Recipe<'src>, settings: &Settings) -> bool
    ensures { result ≡ spec.prints_message recipe.now settings.now }
{
    let attributes = recipe.attributes.as_slice();
    has_exit_message(attributes) || (!settings.no_exit_message && !has_no_exit_message(attributes))
}

/// Whether attributes say that lines are shown whatever the settings say.
pub fn has_no_quiet(attributes: &[NamedAttribute]) -> bool
    ensures { result ≡ list_any spec.is_no_quiet attributes.now }
{
    attributes
        .iter()
        .any(|named| matches!(named.attribute, Attribute::NoQuiet))
}
