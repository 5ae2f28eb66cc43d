//! The numbers of what names need.

ghost use Rattle.std.specs.Prelude.{◌≡◌, ◌↔◌, true, IfOk, OnOk};
ghost use Rattle.std.specs.HashSet.{contains};
ghost use Rattle.std.specs.List.{Contains, IsDistinct};
ghost use Rattle.std.specs.Str.{bytes_eq};
ghost use Rattle.just_names.specs.declared.number.Number.{Number};
ghost use Rattle.just_name_resolution.specs.Lent.{tables_in};
ghost use Rattle.just_parts.specs.Needs.{has_number, same_number};
ghost use Rattle.just_recipe_needs.specs.Collected.{Collects, CollectsValue, ComesFrom, IsItself, IsReadInBody};
ghost use Rattle.just_recipe_needs.specs.Known.{AreRight};

use crate::direct_names::DirectNames;
use just_data::{BorrowedText, Sequence, Text};
use just_name_resolution::{Tables, collect_references};
use just_parts::layers::{Assignment, Number};
use std::alloc::{AllocError, Global};
use std::collections::{BTreeSet, HashMap, HashSet};

/// What is needed in a module is told by this alone.
#[derive(Drop)]
pub struct Sources<'a, 'src> {
    /// Its variables and its functions.
    pub tables: Tables<'a, 'src>,
    /// The values of variables that are overridden, whose own values are not looked into.
    pub overrides: &'a HashMap<Number, Text>,
}

// Collects what the body of a function needs, where the module has the function.
fn collect_body<'a, 'src>(
    alloc: Global,
    sources: &Sources<'a, 'src>,
    function: &BorrowedText<'src>,
    references: &mut HashSet<Number>,
    visited: &mut HashSet<BorrowedText<'src>>,
) -> Result<(), AllocError>
    ensures { let m = tables_in sources.now.tables in
        let collects = Collects m (has_number sources.now.overrides.now) (IsReadInBody m function.now) in
        let before = collects (contains same_number references.old) (contains bytes_eq visited.old) in
        OnOk result (before (contains same_number references.new) (contains bytes_eq visited.new)) }
{
    let Some(definition) = sources.tables.functions.get(function.as_str()) else {
        return Ok(());
    };
    collect_references(
        alloc,
        &sources.tables,
        sources.overrides,
        &definition.body,
        definition.parameters.as_slice(),
        references,
        visited,
    )?;
    Ok(())
}

// Collects what the bodies of functions need.
fn collect_bodies<'a, 'src>(
    alloc: Global,
    sources: &Sources<'a, 'src>,
    functions: &BTreeSet<BorrowedText<'src>>,
    references: &mut HashSet<Number>,
    visited: &mut HashSet<BorrowedText<'src>>,
) -> Result<(), AllocError>
    ensures { let m = tables_in sources.now.tables in
        let collects = Collects m (has_number sources.now.overrides.now) (ComesFrom (IsReadInBody m) functions.now.keys) in
        let before = collects (contains same_number references.old) (contains bytes_eq visited.old) in
        OnOk result (before (contains same_number references.new) (contains bytes_eq visited.new)) }
{
    for function in functions {
        collect_body(alloc, sources, function, references, visited)?;
    }
    Ok(())
}

// Collects what the value of a variable needs, unless the variable is overridden.
fn collect_value<'a, 'src>(
    alloc: Global,
    sources: &Sources<'a, 'src>,
    assignment: &Assignment<'src>,
    references: &mut HashSet<Number>,
    visited: &mut HashSet<BorrowedText<'src>>,
) -> Result<(), AllocError>
    ensures { let collects = CollectsValue (tables_in sources.now.tables) (has_number sources.now.overrides.now) assignment.now in
        let before = collects (contains same_number references.old) (contains bytes_eq visited.old) in
        OnOk result (before (contains same_number references.new) (contains bytes_eq visited.new)) }
{
    if sources.overrides.contains_key(&assignment.number) {
        return Ok(());
    }
    let parameters = Vec::new(alloc);
    collect_references(
        alloc,
        &sources.tables,
        sources.overrides,
        &assignment.value,
        parameters.as_slice(),
        references,
        visited,
    )?;
    Ok(())
}

// Collects what a variable needs, where the module has it: its own number, and unless it is overridden what its value needs.
fn collect_variable<'a, 'src>(
    alloc: Global,
    sources: &Sources<'a, 'src>,
    variable: &BorrowedText<'src>,
    references: &mut HashSet<Number>,
    visited: &mut HashSet<BorrowedText<'src>>,
) -> Result<(), AllocError>
    ensures { let m = tables_in sources.now.tables in
        let collects = Collects m (has_number sources.now.overrides.now) (IsItself variable.now) in
        let before = collects (contains same_number references.old) (contains bytes_eq visited.old) in
        OnOk result (before (contains same_number references.new) (contains bytes_eq visited.new)) }
{
    let Some(assignment) = sources.tables.assignments.get(variable.as_str()) else {
        return Ok(());
    };
    if references.contains(&assignment.number) {
        return Ok(());
    }
    collect_value(alloc, sources, assignment, references, visited)?;
    references.insert(assignment.number)?;
    Ok(())
}

// Collects what variables need.
fn collect_variables<'a, 'src>(
    alloc: Global,
    sources: &Sources<'a, 'src>,
    variables: &BTreeSet<BorrowedText<'src>>,
    references: &mut HashSet<Number>,
    visited: &mut HashSet<BorrowedText<'src>>,
) -> Result<(), AllocError>
    ensures { let m = tables_in sources.now.tables in
        let collects = Collects m (has_number sources.now.overrides.now) (ComesFrom IsItself variables.now.keys) in
        let before = collects (contains same_number references.old) (contains bytes_eq visited.old) in
        OnOk result (before (contains same_number references.new) (contains bytes_eq visited.new)) }
{
    for variable in variables {
        collect_variable(alloc, sources, variable, references, visited)?;
    }
    Ok(())
}

// The numbers of a set, each once.
fn listed(alloc: Global, numbers: HashSet<Number>) -> Result<Sequence<Number>, AllocError>
    ensures once { IfOk result (IsDistinct same_number) }
    ensures all { IfOk result (λ found. (n : Number) → Contains found n ↔ (contains same_number numbers n ≡ true)) }
{
    let mut found = Sequence::new(alloc);
    for number in numbers {
        found.push(number)?;
    }
    Ok(found)
}

/// The numbers of what names need, each once. Want of memory is the only error.
pub fn needed_numbers<'a, 'src>(
    alloc: Global,
    sources: &Sources<'a, 'src>,
    names: &DirectNames<'src>,
) -> Result<Sequence<Number>, AllocError>
    ensures { IfOk result (AreRight sources.now names.now) }
{
    let mut references = HashSet::new(alloc);
    let mut visited = HashSet::new(alloc);
    collect_bodies(
        alloc,
        sources,
        &names.functions,
        &mut references,
        &mut visited,
    )?;
    collect_variables(
        alloc,
        sources,
        &names.variables,
        &mut references,
        &mut visited,
    )?;
    let numbers = listed(alloc, references)?;
    Ok(numbers)
}
