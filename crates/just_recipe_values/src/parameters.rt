//! Parameters with the helps and the patterns that attributes say of them.

ghost use Rattle.std.specs.Prelude.{◌≡◌, ℕ, List, IfOk, OnOk, map};
ghost use Rattle.std.specs.HashMap.{get};
ghost use Rattle.std.specs.Option.{option_or};
ghost use Rattle.std.specs.Str.{bytes_eq};
ghost use Rattle.just_recipe_values.specs.loops.Judged.{informed_by};
ghost use Rattle.just_recipe_values.specs.Valued.{help_by, informed, last_help, last_pattern, pattern_by};

use just_data::{BorrowedText, Exact, Sequence, Text};
use just_parts::layers::{Attribute, NamedAttribute, Parameter, Pattern};
use std::alloc::{AllocError, Global};
use std::collections::HashMap;

// Puts the help that an attribute says under the name of its parameter.
fn see_help<'a, 'src>(
    attribute: &'a Attribute<'src>,
    helps: &mut HashMap<BorrowedText<'a>, Text>,
) -> Result<(), AllocError>
    ensures { let old = get bytes_eq helps.old in
        OnOk result ((name : List ℕ) → get bytes_eq helps.new name ≡ option_or (help_by attribute.now name) (old name)) }
{
    let Attribute::Arg(argument) = attribute else {
        return Ok(());
    };
    let Some(help) = &argument.help else {
        return Ok(());
    };
    helps.insert(
        BorrowedText::new(argument.name.cooked.as_str()),
        help.clone()?,
    )?;
    Ok(())
}

// The helps that attributes say last, by the names of parameters.
fn last_helps<'a, 'src>(
    alloc: Global,
    attributes: &'a [NamedAttribute<'src>],
) -> Result<HashMap<BorrowedText<'a>, Text>, AllocError>
    ensures { IfOk result (λ made. (name : List ℕ) → get bytes_eq made name ≡ last_help attributes.now name) }
{
    let mut helps = HashMap::new(alloc);
    for named in attributes {
        see_help(&named.attribute, &mut helps)?;
    }
    Ok(helps)
}

// Puts the pattern that an attribute says under the name of its parameter.
fn see_pattern<'a, 'src>(
    attribute: &'a Attribute<'src>,
    patterns: &mut HashMap<BorrowedText<'a>, Pattern>,
) -> Result<(), AllocError>
    ensures { let old = get bytes_eq patterns.old in
        OnOk result ((name : List ℕ) → get bytes_eq patterns.new name ≡ option_or (pattern_by attribute.now name) (old name)) }
{
    let Attribute::Arg(argument) = attribute else {
        return Ok(());
    };
    let Some(pattern) = &argument.pattern else {
        return Ok(());
    };
    patterns.insert(
        BorrowedText::new(argument.name.cooked.as_str()),
        pattern.clone()?,
    )?;
    Ok(())
}

// The patterns that attributes say last, by the names of parameters.
fn last_patterns<'a, 'src>(
    alloc: Global,
    attributes: &'a [NamedAttribute<'src>],
) -> Result<HashMap<BorrowedText<'a>, Pattern>, AllocError>
    ensures { IfOk result (λ made. (name : List ℕ) → get bytes_eq made name ≡ last_pattern attributes.now name) }
{
    let mut patterns = HashMap::new(alloc);
    for named in attributes {
        see_pattern(&named.attribute, &mut patterns)?;
    }
    Ok(patterns)
}

// What is said under a name, or else what was there.
fn said_or<'a, T: Exact + Drop>(
    said: &HashMap<BorrowedText<'a>, T>,
    name: &str,
    before: Option<T>,
) -> Result<Option<T>, AllocError>
    ensures { IfOk result (λ made. made ≡ option_or (get bytes_eq said.now name.now) before) }
{
    match said.get(&BorrowedText::new(name)) {
        Some(value) => Ok(Some(value.clone()?)),
        None => Ok(before),
    }
}

// A parameter with what is said of it.
fn informed<'a, 'src>(
    mut parameter: Parameter<'src>,
    helps: &HashMap<BorrowedText<'a>, Text>,
    patterns: &HashMap<BorrowedText<'a>, Pattern>,
) -> Result<Parameter<'src>, AllocError>
    ensures { let by = informed_by (get bytes_eq helps.now) (get bytes_eq patterns.now) in
        IfOk result (λ made. made ≡ by parameter.entry) }
{
    parameter.help = said_or(helps, parameter.name.lexeme(), parameter.help)?;
    parameter.pattern = said_or(patterns, parameter.name.lexeme(), parameter.pattern)?;
    Ok(parameter)
}

/// Parameters with the helps and the patterns that attributes say last of them. Each is looked up by its name, so that many
/// parameters and many attributes take no long search.
pub fn informed_parameters<'src>(
    alloc: Global,
    attributes: &[NamedAttribute<'src>],
    parameters: Sequence<Parameter<'src>>,
) -> Result<Sequence<Parameter<'src>>, AllocError>
    ensures { IfOk result (λ made. made ≡ map (informed attributes.now) parameters.entry) }
{
    let helps = last_helps(alloc, attributes)?;
    let patterns = last_patterns(alloc, attributes)?;
    let mut made = Vec::with_capacity(alloc, parameters.len())?;
    for parameter in parameters.into_vec() {
        made.push(informed(parameter, &helps, &patterns)?)?;
    }
    Ok(Sequence::from_vec(made))
}
