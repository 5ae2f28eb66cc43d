//! Numbers of the items of a text, in the order of the text.
ghost use Rattle.std.specs.Prelude.{◌≡◌, ◌≤◌, ◌+◌, ◌^◌, length, map, IfErr, OnOk};
ghost use Rattle.std.specs.List.{All};
ghost use Rattle.just_parts.specs.Bare.{bare_assignment, bare_function, bare_function_parameter, bare_item, bare_parameter, bare_recipe};
ghost use Rattle.just_parts.specs.Syntax.{CameBy, ItemCameBy, function_numbers, item_numbers, numbers_of_items, parameter_numbers, recipe_numbers};
ghost use Rattle.just_bench_syntax.specs.Numbering.{numbers_counted};
ghost use Rattle.just_bench_syntax.specs.loops.Numbering.{AreNumberedInTurn, Spent};

use just_ast_definitions::{Assignment, FunctionDefinition, FunctionParameter, Parameter};
use just_data::Sequence;
use just_parts::layers::{Error, Item, Numerator};
use just_parts::{Source, UnresolvedRecipe};
use std::alloc::Global;
use std::mem::replace;

// Gives each parameter of a recipe a number.
fn number_parameters<'src>(
    parameters: &mut Vec<Parameter<'src>>,
    numerator: &mut Numerator,
) -> Result<(), Error<'src>>
    ensures bare { OnOk result (map bare_parameter parameters.new.items ≡ map bare_parameter parameters.old.items) }
    ensures numbered { OnOk result (AreNumberedInTurn numerator.old (parameter_numbers parameters.new.items) numerator.new) }
    ensures spent { OnOk result (numerator.new ≡ numerator.old + length parameters.old.items) }
    ensures refused { IfErr result (Spent (numerator.old + length parameters.old.items)) }
    ensures onward { numerator.old ≤ numerator.new }
{
    for place in 0..parameters.len() {
        parameters[place].number = numerator.give()?;
    }
    Ok(())
}

// Gives each parameter of a function a number.
fn number_function_parameters<'src>(
    parameters: &mut Vec<FunctionParameter<'src>>,
    numerator: &mut Numerator,
) -> Result<(), Error<'src>>
    ensures bare { OnOk result (map bare_function_parameter parameters.new.items ≡ map bare_function_parameter parameters.old.items) }
    ensures numbered { OnOk result (AreNumberedInTurn numerator.old (map (λ p. p.number.0) parameters.new.items) numerator.new) }
    ensures spent { OnOk result (numerator.new ≡ numerator.old + length parameters.old.items) }
    ensures refused { IfErr result (Spent (numerator.old + length parameters.old.items)) }
    ensures onward { numerator.old ≤ numerator.new }
{
    for place in 0..parameters.len() {
        parameters[place].number = numerator.give()?;
    }
    Ok(())
}

// Gives a recipe its number, and each of its parameters one.
fn number_recipe<'src>(
    alloc: Global,
    recipe: &mut UnresolvedRecipe<'src>,
    source: &Source<'src>,
    numerator: &mut Numerator,
) -> Result<(), Error<'src>>
    requires { bare_recipe recipe.old ≡ recipe.old }
    ensures bare { OnOk result (bare_recipe recipe.new ≡ recipe.old) }
    ensures source { OnOk result (CameBy source.now recipe.new) }
    ensures numbered { OnOk result (AreNumberedInTurn numerator.old (recipe_numbers recipe.new) numerator.new) }
    ensures spent { OnOk result (numerator.new ≡ numerator.old + (1 + length recipe.old.parameters)) }
    ensures refused { IfErr result (Spent (numerator.old + (1 + length recipe.old.parameters))) }
    ensures onward { numerator.old ≤ numerator.new }
{
    recipe.number = numerator.give()?;
    recipe.file_depth = source.file_depth;
    recipe.import_offsets = source.import_offsets.clone()?;
    let mut parameters = replace(&mut recipe.parameters, Sequence::new(alloc)).into_vec();
    number_parameters(&mut parameters, numerator)?;
    drop(replace(&mut recipe.parameters, Sequence::from_vec(parameters)));
    Ok(())
}

// Gives a variable its number.
fn number_assignment<'src>(
    assignment: &mut Assignment<'src>,
    source: &Source<'src>,
    numerator: &mut Numerator,
) -> Result<(), Error<'src>>
    requires { bare_assignment assignment.old ≡ assignment.old }
    ensures bare { OnOk result (bare_assignment assignment.new ≡ assignment.old) }
    ensures source { OnOk result (assignment.new.file_depth ≡ source.now.file_depth) }
    ensures number { OnOk result (assignment.new.number.0 ≡ numerator.old) }
    ensures spent { OnOk result (numerator.new ≡ numerator.old + 1) }
    ensures fits { OnOk result (numerator.new ≤ 2 ^ 64) }
    ensures refused { IfErr result (Spent (numerator.old + 1)) }
    ensures onward { numerator.old ≤ numerator.new }
{
    assignment.number = numerator.give()?;
    assignment.file_depth = source.file_depth;
    Ok(())
}

// Gives each parameter of a function a number.
fn number_function<'src>(
    alloc: Global,
    function: &mut FunctionDefinition<'src>,
    numerator: &mut Numerator,
) -> Result<(), Error<'src>>
    requires { bare_function function.old ≡ function.old }
    ensures bare { OnOk result (bare_function function.new ≡ function.old) }
    ensures numbered { OnOk result (AreNumberedInTurn numerator.old (function_numbers function.new) numerator.new) }
    ensures spent { OnOk result (numerator.new ≡ numerator.old + length function.old.parameters) }
    ensures refused { IfErr result (Spent (numerator.old + length function.old.parameters)) }
    ensures onward { numerator.old ≤ numerator.new }
{
    let mut parameters = replace(&mut function.parameters, Sequence::new(alloc)).into_vec();
    number_function_parameters(&mut parameters, numerator)?;
    drop(replace(&mut function.parameters, Sequence::from_vec(parameters)));
    Ok(())
}

// Gives an item its numbers, and what the source says.
fn number_item<'src>(
    alloc: Global,
    item: &mut Item<'src>,
    source: &Source<'src>,
    numerator: &mut Numerator,
) -> Result<(), Error<'src>>
    requires { bare_item item.old ≡ item.old }
    ensures bare { OnOk result (bare_item item.new ≡ item.old) }
    ensures source { OnOk result (ItemCameBy source.now item.new) }
    ensures numbered { OnOk result (AreNumberedInTurn numerator.old (item_numbers item.new) numerator.new) }
    ensures spent { OnOk result (numerator.new ≡ numerator.old + length (item_numbers item.old)) }
    ensures refused { IfErr result (Spent (numerator.old + length (item_numbers item.old))) }
    ensures onward { numerator.old ≤ numerator.new }
{
    if let Item::Recipe(recipe) = item {
        return number_recipe(alloc, recipe, source, numerator);
    }
    if let Item::Assignment(assignment) = item {
        return number_assignment(assignment, source, numerator);
    }
    if let Item::Function(function) = item {
        return number_function(alloc, function, numerator);
    }
    Ok(())
}

/// Gives the items of a text their numbers, and what the source says. An error tells that there are not enough numbers,
/// or want of memory.
pub fn number_items<'src>(
    alloc: Global,
    items: &mut Vec<Item<'src>>,
    source: &Source<'src>,
    numerator: &mut Numerator,
) -> Result<(), Error<'src>>
    requires { All (λ i. bare_item i ≡ i) items.old.items }
    ensures bare { OnOk result (map bare_item items.new.items ≡ items.old.items) }
    ensures source { OnOk result (All (ItemCameBy source.now) items.new.items) }
    ensures numbered { OnOk result (AreNumberedInTurn numerator.old (numbers_of_items items.new.items) numerator.new) }
    ensures spent { OnOk result (numerator.new ≡ numerator.old + numbers_counted items.old.items) }
    ensures refused { IfErr result (Spent (numerator.old + numbers_counted items.old.items)) }
    ensures onward { numerator.old ≤ numerator.new }
{
    for place in 0..items.len() {
        number_item(alloc, &mut items[place], source, numerator)?;
    }
    Ok(())
}
