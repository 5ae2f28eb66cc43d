//! The variables that a lazy module is asked for.
ghost use Rattle.std.specs.Prelude.{◌≡◌, ◌||◌, map, filter, IfOk};
ghost use Rattle.std.specs.HashSet.{contains};
ghost use Rattle.just_justfile.specs.Running.{known_by_tables};
ghost use Rattle.just_justfile.specs.declared.justfile.Justfile.{out-Justfile};
ghost use Rattle.just_parts.specs.Needs.{HaveNumbersApart, same_number};
ghost use Rattle.just_scopes.specs.Need.{IsFound, is_start};
ghost use Rattle.just_scopes.specs.loops.Wanting.{HasNumbersOf, free_values};
ghost use Rattle.just_table.specs.Entries.{IsSorted};
ghost use Rattle.std.specs.Map.{values_of};

use just_justfile::Justfile;
use just_name_resolution::{Tables, needed_references};
use just_parts::layers::{Assignment, Expression, Number};
use std::alloc::{AllocError, Global};
use std::collections::HashSet;

// Whether a search begins at a variable: what runs uses it, or it is evaluated anyhow.
fn is_start<'src>(
    used: &HashSet<Number>,
    module: &Justfile<'src>,
    assignment: &Assignment<'src>,
) -> bool
    ensures { result ≡ is_start (contains same_number used.now) (out-Justfile «module».now).settings assignment.now }
{
    used.contains(&assignment.number)
        || assignment.eager
        || assignment.export
        || module.settings.export
}

// The variables at which it begins.
fn starts_of<'a, 'src>(
    alloc: Global,
    used: &HashSet<Number>,
    module: &'a Justfile<'src>,
) -> Result<Vec<&'a Assignment<'src>>, AllocError>
    ensures starts { let of = is_start (contains same_number used.now) (out-Justfile «module».now).settings in
        IfOk result (λ found. map (λ a. a.now) found.items ≡ filter of (values_of (out-Justfile «module».now).assignments)) }
    ensures sorted { IfOk result (λ found. IsSorted (out-Justfile «module».now).assignments) }
{
    let mut found = Vec::new(alloc);
    for assignment in module.assignments.values() {
        if is_start(used, module, assignment) {
            found.push(assignment)?;
        }
    }
    Ok(found)
}

// The values of those that the analysis did not see as overridden.
fn values_read<'a, 'src>(
    alloc: Global,
    module: &Justfile<'src>,
    starts: &Vec<&'a Assignment<'src>>,
) -> Result<Vec<&'a Expression<'src>>, AllocError>
    ensures { IfOk result (λ found. map (λ e. e.now) found.items ≡ free_values «module».now (map (λ a. a.now) starts.now.items)) }
{
    let mut found = Vec::new(alloc);
    for place in 0..starts.len() {
        let assignment = starts[place];
        if !module.overridden.contains_key(&assignment.number) {
            found.push(&assignment.value)?;
        }
    }
    Ok(found)
}

// Puts the numbers of variables into a set.
fn add_own<'src>(
    set: &mut HashSet<Number>,
    starts: &Vec<&Assignment<'src>>,
) -> Result<(), AllocError>
    ensures { HasNumbersOf (map (λ a. a.now) starts.now.items) (contains same_number set.old) (contains same_number set.new) result }
{
    for place in 0..starts.len() {
        set.insert(starts[place].number)?;
    }
    Ok(())
}

/// The numbers of the variables that a module needs, by those that recipes use: these, what is evaluated anyhow, and whatever
/// such a variable reads, unless the analysis saw it as overridden, and so on. They are found by one search.
pub(crate) fn wanted_numbers<'src>(
    alloc: Global,
    used: &HashSet<Number>,
    module: &Justfile<'src>,
) -> Result<HashSet<Number>, AllocError>
    requires { HaveNumbersApart (known_by_tables «module».now) }
    ensures { IfOk result (λ set. IsFound (contains same_number used.now) «module».now (contains same_number set)) }
{
    let starts = starts_of(alloc, used, module)?;
    let values = values_read(alloc, module, &starts)?;
    let tables = Tables {
        assignments: &module.assignments,
        functions: &module.functions,
    };
    let mut set = needed_references(alloc, &tables, &module.overridden, &values)?;
    add_own(&mut set, &starts)?;
    Ok(set)
}
