//! The variables and functions of a module once more, with the numbers of what names in them mean.

ghost use Rattle.std.specs.Prelude.{◌≡◌, ◌<◌, Some, length, map, slice_get, IfOk};
ghost use Rattle.std.specs.List.{All};
ghost use Rattle.std.specs.Map.{values_of};
ghost use Rattle.just_module_variables.specs.loops.Numbering.{assignments_here, functions_here};
ghost use Rattle.just_table.specs.Entries.{IsSorted};

use crate::name_numbers::{numbered_assignment, numbered_function};
use just_data::BorrowedText;
use just_name_resolution::{Known, Numbers};
use just_parts::layers::{Assignment, FunctionDefinition, Name, Number, Syntax};
use just_table::Table;
use std::alloc::{AllocError, Global};
use std::collections::HashMap;

// What names stand for in a module, and the numbers of its variables.
#[derive(Drop)]
pub(crate) struct Numbering<'a, 'src, S> {
    // what names stand for
    pub known: Known<'a, 'src, S>,
    // the numbers of the variables, by their names
    pub bindings: HashMap<BorrowedText<'src>, Number>,
}

// The names of variables, in the order of a table.
pub(crate) fn names_of<'src>(
    alloc: Global,
    assignments: &Table<'src, Assignment<'src>>,
) -> Result<Vec<Name<'src>>, AllocError>
    ensures { IfOk result (λ names. names.items ≡ map (λ a. a.name) (values_of assignments.now)) }
{
    let mut names = Vec::new(alloc);
    for assignment in assignments.values() {
        names.push(assignment.name.copied())?;
    }
    Ok(names)
}

// The names at places.
pub(crate) fn names_at<'src>(
    alloc: Global,
    names: &[Name<'src>],
    places: &[usize],
) -> Result<Vec<Name<'src>>, AllocError>
    requires { All (λ place. place < length names.now) places.now }
    ensures { IfOk result (λ found. map Some found.items ≡ map (slice_get names.now) places.now) }
{
    let mut found = Vec::new(alloc);
    for place in places {
        found.push(names[*place].copied())?;
    }
    Ok(found)
}

impl<'a, 'src, S: Syntax> Numbering<'a, 'src, S> {
    // The variables again, with the numbers of what the names in their values mean.
    pub fn numbered_assignments(
        &self,
        alloc: Global,
    ) -> Result<Table<'src, Assignment<'src>>, AllocError>
        ensures made { IfOk result (λ made. made ≡ assignments_here (S.answers self.now.known.syntax.now) self.now) }
        ensures sorted { IfOk result (λ _. IsSorted self.now.known.assignments.now) }
    {
        let parameters = HashMap::new(alloc);
        let numbers = Numbers {
            parameters: &parameters,
            assignments: &self.bindings,
            syntax: self.known.syntax,
        };
        let mut made = Vec::new(alloc);
        for assignment in self.known.assignments.values() {
            made.push(numbered_assignment(alloc, assignment, &numbers)?)?;
        }
        Table::from_values(alloc, made)
    }

    // The functions again, with the numbers of what the names in their bodies mean.
    pub fn numbered_functions(
        &self,
        alloc: Global,
    ) -> Result<Table<'src, FunctionDefinition<'src>>, AllocError>
        ensures made { IfOk result (λ made. made ≡ functions_here (S.answers self.now.known.syntax.now) self.now) }
        ensures sorted { IfOk result (λ _. IsSorted self.now.known.functions.now) }
    {
        let mut made = Vec::new(alloc);
        for function in self.known.functions.values() {
            let again = numbered_function(alloc, function, &self.bindings, self.known.syntax)?;
            made.push(again)?;
        }
        Table::from_values(alloc, made)
    }
}
