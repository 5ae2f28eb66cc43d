//! What the constants of a module come to.
ghost use Rattle.std.specs.Prelude.{◌≡◌, Bool, false, true, IfOk, IfErr, OnOk, Some, map, reverse};
ghost use Rattle.std.specs.HashMap.{get};
ghost use Rattle.std.specs.Map as entries;
ghost use Rattle.just_names.specs.Index.{texts_of_names};
ghost use Rattle.just_names.specs.Name.{text_of_name};
ghost use Rattle.just_parts.specs.Evaluator.{Binds, FaultsAt, functions_by_name, scope_values, wanted_by};
ghost use Rattle.just_parts.specs.Known.{sources};
ghost use Rattle.just_parts.specs.Needs.{same_number};
ghost use Rattle.just_parts.specs.Reading.{IsEvaluationOrder};
ghost use Rattle.just_parts.specs.Told.{IsPlaceIn, IsPlaceInOne, IsToldIn, assigned_values};
ghost use Rattle.just_table.specs.Entries.{IsKeyed, IsSorted, find, put_all};
ghost use Rattle.just_bench_values.specs.Constants as spec;
ghost use Rattle.just_bench_values.specs.loops.Constants.{Adds};
ghost use Rattle.just_bench_values.specs.Lookup.{TellsOutcome, constant_name, table_values};
ghost use Rattle.just_bench_values.specs.Values as value;

use crate::lookup::{Constant, Constants};
use crate::values::{evaluate_among, one};
use just_data::{Chain, Sequence, Text};
use just_parts::layers::{Assignment, Binding, Error, FunctionDefinition, Name, Number, Scope};
use just_table::Table;
use std::alloc::{AllocError, Global};
use std::collections::{HashMap, HashSet};

// The value of a variable among the constants so far: what overrides it, or what its expression comes to.
fn value_of<'src>(
    alloc: Global,
    functions: &Table<'src, FunctionDefinition<'src>>,
    overrides: &HashMap<Number, Text>,
    constants: &Table<'src, Constant<'src>>,
    assignment: &Assignment<'src>,
) -> Result<Sequence<Text>, Error<'src>>
    ensures { let value = value.value_among_constants (functions_by_name functions.now) (table_values constants.now) assignment.now.value in
        TellsOutcome (spec.overridden_or (get same_number overrides.now assignment.now.number) value) (IsPlaceIn functions.now assignment.now.value) result }
{
    match overrides.get(&assignment.number) {
        Some(text) => Ok(one(alloc, text)?),
        None => evaluate_among(
            alloc,
            functions,
            Constants::Tabled(constants),
            &assignment.value,
        ),
    }
}

// Whether a number is in a set, or all are asked for.
fn is_asked(set: Option<&HashSet<Number>>, number: &Number) -> bool
    ensures { result ≡ spec.is_asked set.entry number.now }
{
    match set {
        Some(numbers) => numbers.contains(number),
        None => true,
    }
}

// Adds the constant of a variable where it is needed.
fn add_constant<'src>(
    alloc: Global,
    assignments: &Table<'src, Assignment<'src>>,
    functions: &Table<'src, FunctionDefinition<'src>>,
    overrides: &HashMap<Number, Text>,
    references: Option<&HashSet<Number>>,
    name: &Name<'src>,
    constants: &mut Table<'src, Constant<'src>>,
) -> Result<(), Error<'src>>
    ensures added { let wanted = wanted_by assignments.now functions.now (get same_number overrides.now) (spec.is_asked references.entry) false in
        OnOk result (wanted.needed (text_of_name name.now) ≡ true → Adds assignments.now wanted (text_of_name name.now) constants.old constants.new) }
    ensures skipped { let wanted = wanted_by assignments.now functions.now (get same_number overrides.now) (spec.is_asked references.entry) false in
        OnOk result (wanted.needed (text_of_name name.now) ≡ false → constants.new ≡ constants.old) }
    ensures put { let wanted = wanted_by assignments.now functions.now (get same_number overrides.now) (spec.is_asked references.entry) false in
        let value = spec.evaluated_again wanted (table_values constants.old) (text_of_name name.now) in
        OnOk result (constants.new ≡ put_all constant_name constants.old (spec.constants_by name.now (find (text_of_name name.now) assignments.now) value)) }
    ensures keyed { OnOk result (IsKeyed constant_name constants.old → IsKeyed constant_name constants.new) }
    ensures refused { let wanted = wanted_by assignments.now functions.now (get same_number overrides.now) (spec.is_asked references.entry) false in
        IfErr result (FaultsAt (spec.demanded wanted (table_values constants.old) (text_of_name name.now))) }
    ensures told { IfErr result (IsToldIn (IsPlaceInOne functions.now (assigned_values assignments.now))) }
{
    let Some(assignment) = assignments.get(name.lexeme()) else {
        return Ok(());
    };
    if !is_asked(references, &assignment.number) {
        return Ok(());
    }
    let value = value_of(alloc, functions, overrides, constants, assignment)?;
    let binding = Binding {
        name: name.copied(),
        number: assignment.number,
        value,
        export: assignment.export,
        private: assignment.private,
    };
    constants.insert(Constant { binding })?;
    Ok(())
}

// The chain that goes through these from the first to the last.
fn chained<'src>(
    alloc: Global,
    bindings: Vec<Binding<'src>>,
) -> Result<Chain<Binding<'src>>, AllocError>
    ensures { IfOk result (λ chain. reverse chain ≡ bindings.entry.items) }
{
    let mut rest = bindings;
    let mut chain = Chain::new();
    while let Some(binding) = rest.pop() {
        chain = chain.pushed(alloc, binding)?;
    }
    Ok(chain)
}

// The scope of constants, whose names are different.
fn scope_of<'src>(
    alloc: Global,
    constants: Table<'src, Constant<'src>>,
) -> Result<Scope<'src>, AllocError>
    ensures bindings { IfOk result (λ scope. reverse scope.bindings ≡ map (λ constant. constant.binding) (entries.values_of constants.entry)) }
    ensures sorted { IsSorted constants.entry }
{
    let mut bindings = Vec::with_capacity(alloc, constants.len())?;
    for constant in constants.into_values() {
        bindings.push(constant.binding)?;
    }
    Ok(Scope {
        bindings: chained(alloc, bindings)?,
    })
}

/// The constants of a module: those of its variables whose numbers are in `references`, or all of them, an overridden one as
/// it is overridden, each other one evaluated after all that it reads, as the names in `order` stand. Where one has no value a
/// fault is told.
pub fn constants_of<'src>(
    alloc: Global,
    assignments: &Table<'src, Assignment<'src>>,
    functions: &Table<'src, FunctionDefinition<'src>>,
    order: &[Name<'src>],
    overrides: &HashMap<Number, Text>,
    references: Option<&HashSet<Number>>,
) -> Result<Scope<'src>, Error<'src>>
    requires order { IsEvaluationOrder (sources assignments.now functions.now) (texts_of_names order.now) }

    // Whether values are lists makes no difference.
    ensures constants { (lists : Bool) →
        let wanted = wanted_by assignments.now functions.now (get same_number overrides.now) (spec.is_asked references.entry) lists in
        IfOk result (λ scope. spec.constants_of wanted ≡ Some (scope_values scope)) }
    ensures binds { (lists : Bool) →
        let wanted = wanted_by assignments.now functions.now (get same_number overrides.now) (spec.is_asked references.entry) lists in
        IfOk result (Binds assignments.now wanted) }
    ensures exactly { (lists : Bool) →
        let wanted = wanted_by assignments.now functions.now (get same_number overrides.now) (spec.is_asked references.entry) lists in
        IfOk result (λ scope. spec.scope_of assignments.now order.now wanted ≡ Some scope) }
    ensures refused { (lists : Bool) →
        let wanted = wanted_by assignments.now functions.now (get same_number overrides.now) (spec.is_asked references.entry) lists in
        IfErr result (FaultsAt (spec.constants_of wanted)) }
    ensures told { IfErr result (IsToldIn (IsPlaceInOne functions.now (assigned_values assignments.now))) }
{
    let mut constants = Table::new(alloc);
    for name in order {
        add_constant(
            alloc,
            assignments,
            functions,
            overrides,
            references,
            name,
            &mut constants,
        )?;
    }
    Ok(scope_of(alloc, constants)?)
}
