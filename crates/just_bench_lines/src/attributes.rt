//! The lines of attributes.
ghost use Rattle.std.specs.Prelude.{◌≡◌, ◌<◌, ◌≤◌, ◌+◌, ◌^◌, length, IfOk, IfSome};
ghost use Rattle.just_bench_lines.specs.Attributes as spec;

use crate::definitions::after_part;
use crate::places::{literal_at, mark_at, name_at, quoted_at};
use just_ast_definitions::{ArgumentAttribute, ArgumentProperty, Attribute, NamedAttribute};
use just_ast_expressions::{Expression, StringLiteral};
use just_bench_expressions::expressions::{Found, read_expression};
use just_bench_expressions::lexer::{Kind, Lexeme};
use just_bench_expressions::spelling::Spelling;
use just_data::Text;
use just_names::Name;
use std::alloc::AllocError;

/// What an attribute says of how its parameter is given.
#[derive(Drop)]
pub struct Options {
    /// The name of the parameter.
    pub parameter: Text,
    /// The long name of its switch.
    pub long: Option<Text>,
    /// The letter of its switch.
    pub short: Option<char>,
    /// Whether the switch has no value.
    pub flag: bool,
}

/// An attribute, and what it says of a parameter.
#[derive(Drop)]
pub struct Mark<'src> {
    /// The attribute.
    pub named: NamedAttribute<'src>,
    /// What it says of a parameter, where it is one of a parameter.
    pub options: Option<Options>,
}

/// What was read of an attribute of a parameter.
#[derive(Drop)]
pub struct Properties<'src> {
    /// The long name of its switch.
    pub long: Option<Text>,
    /// The letter of its switch.
    pub short: Option<char>,
    /// Whether the switch has no value.
    pub flag: bool,
    /// What its words match.
    pub pattern: Option<ArgumentProperty<'src, Expression<'src>>>,
}

// Whether an attribute ends at a place, and the line with it.
fn ends_at<'src>(lexemes: &[Lexeme<'src>], at: usize) -> bool
    ensures { result ≡ spec.ends_at lexemes.now at }
{
    mark_at(lexemes, at, Kind::BracketClose) && at + 1 == lexemes.len()
}

// Whether an attribute with something in parentheses ends at a place, and the line with it.
fn closes_at<'src>(lexemes: &[Lexeme<'src>], at: usize) -> bool
    ensures { result ≡ spec.closes_at lexemes.now at }
{
    mark_at(lexemes, at, Kind::ParenClose) && ends_at(lexemes, at + 1)
}

/// The attribute that this word is alone.
pub fn bare<'src>(word: &str) -> Option<Attribute<'src>>
    ensures { result ≡ spec.word_alone word.now }
{
    match word {
        "default" => Some(Attribute::Default),
        "private" => Some(Attribute::Private),
        "parallel" => Some(Attribute::Parallel),
        "confirm" => Some(Attribute::Confirm(None)),
        "no-quiet" => Some(Attribute::NoQuiet),
        _ => None,
    }
}

/// The one character that a text is.
#[tactic(auto, using(crate::proofs::Chars::one_char, crate::proofs::Chars::more_chars))]
pub fn only_char(text: &str) -> Option<char>
    ensures { result ≡ spec.only_char text.now }
{
    let mut chars = text.chars();
    let first = chars.next()?;
    if chars.next().is_some() {
        None
    } else {
        Some(first)
    }
}

// The quoted text after the `=` at a place.
fn value_at<'src>(
    spelling: &Spelling<'src>,
    at: usize,
) -> Result<Option<StringLiteral<'src>>, AllocError>
    ensures is { IfOk result (λ found. found ≡ spec.value_at spelling.now at) }
    ensures fits { IfOk result (λ found. IfSome found (λ _. at + 2 < 2 ^ 64)) }
{
    if mark_at(spelling.as_slice(), at, Kind::Equals) {
        literal_at(spelling, at + 1)
    } else {
        Ok(None)
    }
}

// Adds `long='N'`, whose `=` stands at a place, and answers the place after it.
fn add_long<'src>(
    spelling: &Spelling<'src>,
    at: usize,
    properties: &mut Properties<'src>,
) -> Result<Option<usize>, AllocError>
    ensures is { IfOk result (λ end. spec.told end properties.new ≡ spec.with_long spelling.now at properties.old) }
    ensures further { IfOk result (λ end. IfSome end (λ e. at ≤ e)) }
{
    let Some(value) = value_at(spelling, at)? else {
        return Ok(None);
    };
    if properties.long.is_some() {
        return Ok(None);
    }
    properties.long = Some(value.cooked);
    Ok(Some(at + 2))
}

// Adds `short='c'`, whose `=` stands at a place, and answers the place after it.
fn add_short<'src>(
    spelling: &Spelling<'src>,
    at: usize,
    properties: &mut Properties<'src>,
) -> Result<Option<usize>, AllocError>
    ensures is { IfOk result (λ end. spec.told end properties.new ≡ spec.with_short spelling.now at properties.old) }
    ensures further { IfOk result (λ end. IfSome end (λ e. at ≤ e)) }
{
    let Some(value) = value_at(spelling, at)? else {
        return Ok(None);
    };
    let Some(letter) = only_char(value.cooked.as_str()) else {
        return Ok(None);
    };
    if properties.short.is_some() {
        return Ok(None);
    }
    properties.short = Some(letter);
    Ok(Some(at + 2))
}

// Adds `flag`, and answers the place after it.
fn add_flag<'src>(at: usize, properties: &mut Properties<'src>) -> Option<usize>
    ensures is { spec.told result properties.new ≡ spec.with_flag at properties.old }
    ensures further { IfSome result (λ e. at ≤ e) }
{
    if properties.flag {
        return None;
    }
    properties.flag = true;
    Some(at)
}

// Adds `pattern=E`, whose `=` stands at a place, and answers the place after it.
fn add_pattern<'src>(
    spelling: &Spelling<'src>,
    key: Name<'src>,
    at: usize,
    properties: &mut Properties<'src>,
) -> Result<Option<usize>, AllocError>
    ensures is { IfOk result (λ end. spec.told end properties.new ≡ spec.with_pattern spelling.now key.entry at properties.old) }
    ensures further { IfOk result (λ end. IfSome end (λ e. at ≤ e)) }
{
    if properties.pattern.is_some() || !mark_at(spelling.as_slice(), at, Kind::Equals) {
        return Ok(None);
    }
    let Some(Found { made, end }) = read_expression(spelling, at + 1)? else {
        return Ok(None);
    };
    properties.pattern = Some(ArgumentProperty { key, value: made });
    Ok(Some(end))
}

// Adds what stands at a place, and answers the place after it.
#[tactic(auto, unfolding(crate::specs::Attributes::with_property))]
fn add_property<'src>(
    spelling: &Spelling<'src>,
    at: usize,
    properties: &mut Properties<'src>,
) -> Result<Option<usize>, AllocError>
    ensures is { IfOk result (λ end. spec.told end properties.new ≡ spec.with_property spelling.now at properties.old) }
    ensures further { IfOk result (λ end. IfSome end (λ e. at < e)) }
{
    let Some(key) = name_at(spelling.as_slice(), at) else {
        return Ok(None);
    };
    match key.lexeme() {
        "long" => add_long(spelling, at + 1, properties),
        "short" => add_short(spelling, at + 1, properties),
        "flag" => Ok(add_flag(at + 1, properties)),
        "pattern" => add_pattern(spelling, key, at + 1, properties),
        _ => Ok(None),
    }
}

// Adds what stands from a place to the `)`, and answers the place of that.
#[tactic(auto, using(crate::proofs::Props::props_start, crate::proofs::Props::props_end))]
fn add_properties<'src>(
    spelling: &Spelling<'src>,
    start: usize,
    properties: &mut Properties<'src>,
) -> Result<Option<usize>, AllocError>
    ensures is { IfOk result (λ end. spec.told end properties.new ≡ spec.with_properties spelling.now start properties.old) }
    ensures within { IfOk result (λ end. IfSome end (λ e. e < length spelling.now)) }
{
    let lexemes = spelling.as_slice();
    let mut at = start;
    while !mark_at(lexemes, at, Kind::ParenClose) {
        let Some(end) = add_property(spelling, at, properties)? else {
            return Ok(None);
        };
        match after_part(lexemes, end) {
            Some(next) => at = next,
            None => return Ok(None),
        }
    }
    Ok(Some(at))
}

// The attribute of a parameter, whose name stands at a place.
#[tactic(auto, unfolding(crate::specs::Attributes::arg))]
fn read_arg<'src>(
    spelling: &Spelling<'src>,
    name: Name<'src>,
    at: usize,
) -> Result<Option<Mark<'src>>, AllocError>
    ensures { IfOk result (λ found. found ≡ spec.arg spelling.now name.entry at) }
{
    let Some(parameter) = literal_at(spelling, at)? else {
        return Ok(None);
    };
    let Some(next) = after_part(spelling.as_slice(), at + 1) else {
        return Ok(None);
    };
    let mut properties = Properties {
        long: None,
        short: None,
        flag: false,
        pattern: None,
    };
    let Some(end) = add_properties(spelling, next, &mut properties)? else {
        return Ok(None);
    };
    if ends_at(spelling.as_slice(), end + 1) {
        let text = parameter.cooked.clone()?;
        Ok(Some(made_arg(name, parameter, text, properties)))
    } else {
        Ok(None)
    }
}

// The attribute of a parameter.
fn made_arg<'src>(
    name: Name<'src>,
    parameter: StringLiteral<'src>,
    text: Text,
    properties: Properties<'src>,
) -> Mark<'src>
    ensures { result ≡ spec.made_arg name.entry parameter.entry text properties.entry }
{
    let Properties {
        long,
        short,
        flag,
        pattern,
    } = properties;
    let attribute = Attribute::Arg(ArgumentAttribute {
        name: parameter,
        help: None,
        help_property: None,
        pattern: None,
        pattern_property: pattern,
    });
    Mark {
        named: NamedAttribute { name, attribute },
        options: Some(Options {
            parameter: text,
            long,
            short,
            flag,
        }),
    }
}

// The attribute `group`, whose text stands at a place.
#[tactic(auto, unfolding(crate::specs::Attributes::group_in_line))]
fn read_group<'src>(
    spelling: &Spelling<'src>,
    at: usize,
) -> Result<Option<Attribute<'src>>, AllocError>
    ensures { IfOk result (λ found. found ≡ spec.group_in_line spelling.now at) }
{
    let Some(text) = literal_at(spelling, at)? else {
        return Ok(None);
    };
    if closes_at(spelling.as_slice(), at + 1) {
        Ok(Some(Attribute::Group(text)))
    } else {
        Ok(None)
    }
}

// The attribute `doc`, whose expression begins at a place.
#[tactic(auto, unfolding(crate::specs::Attributes::doc))]
fn read_doc<'src>(
    spelling: &Spelling<'src>,
    at: usize,
) -> Result<Option<Attribute<'src>>, AllocError>
    ensures { IfOk result (λ found. found ≡ spec.doc spelling.now at) }
{
    let Some(Found { made, end }) = read_expression(spelling, at)? else {
        return Ok(None);
    };
    if closes_at(spelling.as_slice(), end) {
        Ok(Some(Attribute::Doc(Some(made))))
    } else {
        Ok(None)
    }
}

// An attribute that says nothing of a parameter.
fn marked<'src>(name: Name<'src>, attribute: Option<Attribute<'src>>) -> Option<Mark<'src>>
    ensures { result ≡ spec.marked name.entry attribute.entry }
{
    let attribute = attribute?;
    Some(Mark {
        named: NamedAttribute { name, attribute },
        options: None,
    })
}

/// The attribute that the lexemes of a line are. The error is want of memory.
#[tactic(auto, unfolding(crate::specs::Attributes::attribute))]
pub fn read_attribute<'src>(spelling: &Spelling<'src>) -> Result<Option<Mark<'src>>, AllocError>
    ensures { IfOk result (λ found. found ≡ spec.attribute spelling.now) }
{
    let lexemes = spelling.as_slice();
    if !mark_at(lexemes, 0, Kind::BracketOpen) {
        return Ok(None);
    }
    let Some(name) = name_at(lexemes, 1) else {
        return Ok(None);
    };
    if ends_at(lexemes, 2) {
        let attribute = bare(name.lexeme());
        return Ok(marked(name, attribute));
    }
    if !mark_at(lexemes, 2, Kind::ParenOpen) {
        return Ok(None);
    }
    match name.lexeme() {
        "group" => Ok(marked(name, read_group(spelling, 3)?)),
        "doc" => Ok(marked(name, read_doc(spelling, 3)?)),
        "arg" => read_arg(spelling, name, 3),
        _ => Ok(None),
    }
}
