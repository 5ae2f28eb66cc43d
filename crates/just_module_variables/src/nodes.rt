//! Variables and functions as the nodes of a graph.

ghost use Rattle.std.specs.Prelude.{◌≡◌, ◌<◌, ◌^◌, ◌++◌, length, map, option_to_list, replicate, true, false, IfOk, OnOk};
ghost use Rattle.std.specs.HashMap.{get};
ghost use Rattle.std.specs.HashSet.{contains};
ghost use Rattle.std.specs.Map.{keys_of, values_of};
ghost use Rattle.std.specs.Str.{bytes_eq};
ghost use Rattle.just_names.specs.Index.{IsIndex};
ghost use Rattle.just_ast_references.specs.Mentions.{mention_of};
ghost use Rattle.just_table.specs.Entries.{IsSorted};
ghost use Rattle.just_name_resolution.specs.Lent.{known_in};
ghost use Rattle.just_module_variables.specs.loops.Places.{Fit, target_in, targets_in};
ghost use Rattle.just_parts.specs.Scopes.{scoped};
ghost use Rattle.just_parts.specs.loops.Scopes.{body_scoped, value_scoped};
ghost use Rattle.just_module_variables.specs.loops.Steps.{AreNodeRows, rows_of, solid_of};

use just_ast_references::{Reference, References};
use just_data::BorrowedText;
use just_name_resolution::{Known, hidden_names};
use just_names::index_last;
use just_parts::layers::{Assignment, Expression, FunctionDefinition, Syntax};
use just_table::Table;
use std::alloc::{AllocError, Global};
use std::collections::{HashMap, HashSet};

// The places of the names of variables and of functions. The nodes are the places of the variables, and behind them those
// of the functions.
#[derive(Drop)]
struct Places<'src> {
    variables: HashMap<BorrowedText<'src>, usize>,
    functions: HashMap<BorrowedText<'src>, usize>,
    // how many variables there are
    count: usize,
}

/// The variables and the functions of a module as a graph: to which nodes each leads, and which nodes are variables.
#[derive(Drop)]
pub(crate) struct Nodes {
    /// The row of each node.
    pub rows: Vec<Vec<usize>>,
    /// Whether a node is a variable.
    pub solid: Vec<bool>,
}

// The node that a call or a variable leads to.
fn target<'src>(
    places: &Places<'src>,
    hidden: &HashSet<BorrowedText<'src>>,
    reference: &Reference<'src>,
) -> Option<usize>
    requires { Fit places.now }
    ensures { option_to_list result ≡ target_in places.now (contains bytes_eq hidden.now) (mention_of reference.now) }
{
    match reference {
        Reference::Call { name, .. } => {
            let place = places
                .functions
                .get(&BorrowedText::new(name.lexeme()))
                .copied()?;
            Some(places.count + place)
        }
        Reference::Variable { name } => {
            if hidden.contains(&BorrowedText::new(name.lexeme())) {
                return None;
            }
            places
                .variables
                .get(&BorrowedText::new(name.lexeme()))
                .copied()
        }
    }
}

// The nodes that an expression leads to.
fn row<'src>(
    alloc: Global,
    places: &Places<'src>,
    hidden: &HashSet<BorrowedText<'src>>,
    expression: &Expression<'src>,
) -> Result<Vec<usize>, AllocError>
    requires { Fit places.now }
    ensures { IfOk result (λ row. row.items ≡ targets_in places.now (scoped (contains bytes_eq hidden.now) expression.now)) }
{
    let mut row = Vec::new(alloc);
    for reference in References::new(alloc, expression)? {
        if let Some(node) = target(places, hidden, &reference) {
            row.push(node)?;
        }
    }
    Ok(row)
}

// The rows of the values of variables.
fn value_rows<'src>(
    alloc: Global,
    places: &Places<'src>,
    assignments: &Table<'src, Assignment<'src>>,
) -> Result<Vec<Vec<usize>>, AllocError>
    requires { Fit places.now }
    ensures { IfOk result (λ rows. rows_of rows.items ≡ map (targets_in places.now) (map value_scoped (values_of assignments.now))) }
{
    let hidden = HashSet::new(alloc);
    let mut rows = Vec::new(alloc);
    for assignment in assignments.values() {
        rows.push(row(alloc, places, &hidden, &assignment.value)?)?;
    }
    Ok(rows)
}

// Adds the rows of the bodies of functions.
fn add_body_rows<'src>(
    alloc: Global,
    places: &Places<'src>,
    functions: &Table<'src, FunctionDefinition<'src>>,
    rows: &mut Vec<Vec<usize>>,
) -> Result<(), AllocError>
    requires { Fit places.now }
    ensures { OnOk result (rows_of rows.new.items ≡ rows_of rows.old.items ++ map (targets_in places.now) (map body_scoped (values_of functions.now))) }
{
    for function in functions.values() {
        let hidden = hidden_names(alloc, function.parameters.as_slice())?;
        rows.push(row(alloc, places, &hidden, &function.body)?)?;
    }
    Ok(())
}

// Adds a mark, so many times.
fn add_marks(marks: &mut Vec<bool>, mark: bool, count: usize) -> Result<(), AllocError>
    ensures { OnOk result (marks.new.items ≡ marks.old.items ++ replicate count mark) }
{
    for _ in 0..count {
        marks.push(mark)?;
    }
    Ok(())
}

// Marks that tell the variables from the functions.
fn marks(alloc: Global, variables: usize, functions: usize) -> Result<Vec<bool>, AllocError>
    ensures { IfOk result (λ marks. marks.items ≡ replicate variables true ++ replicate functions false) }
{
    let mut marks = Vec::new(alloc);
    add_marks(&mut marks, true, variables)?;
    add_marks(&mut marks, false, functions)?;
    Ok(marks)
}

/// The keys of a table, in order.
pub(crate) fn keys_in<'src, V>(
    alloc: Global,
    table: &Table<'src, V>,
) -> Result<Vec<BorrowedText<'src>>, AllocError>
    ensures keys { IfOk result (λ keys. keys.items ≡ keys_of table.now) }
    ensures fits { length table.now < 2 ^ 63 }
{
    let mut keys = Vec::new(alloc);
    for key in table.keys() {
        keys.push(BorrowedText::new(*key))?;
    }
    Ok(keys)
}

// The places of the names in a module.
fn places_of<'a, 'src, S: Syntax>(
    alloc: Global,
    known: &Known<'a, 'src, S>,
) -> Result<Places<'src>, AllocError>
    ensures variables { IfOk result (λ places. IsIndex (keys_of known.now.assignments.now) (get bytes_eq places.variables)) }
    ensures functions { IfOk result (λ places. IsIndex (keys_of known.now.functions.now) (get bytes_eq places.functions)) }
    ensures count { IfOk result (λ places. places.count ≡ length known.now.assignments.now) }
    ensures fit { IfOk result Fit }
{
    let variables = keys_in(alloc, known.assignments)?;
    let functions = keys_in(alloc, known.functions)?;
    Ok(Places {
        variables: index_last(alloc, variables.as_slice())?,
        functions: index_last(alloc, functions.as_slice())?,
        count: variables.len(),
    })
}

/// The nodes of a module.
pub(crate) fn nodes_of<'a, 'src, S: Syntax>(
    alloc: Global,
    known: &Known<'a, 'src, S>,
) -> Result<Nodes, AllocError>
    ensures variables { IfOk result (λ _. IsSorted known.now.assignments.now) }
    ensures functions { IfOk result (λ _. IsSorted known.now.functions.now) }
    ensures rows { IfOk result (λ nodes. AreNodeRows (known_in (S.answers known.now.syntax.now) known.now) (rows_of nodes.rows.items)) }
    ensures solid { IfOk result (λ nodes. nodes.solid.items ≡ solid_of (known_in (S.answers known.now.syntax.now) known.now)) }
{
    let places = places_of(alloc, known)?;
    let mut rows = value_rows(alloc, &places, known.assignments)?;
    add_body_rows(alloc, &places, known.functions, &mut rows)?;
    let solid = marks(alloc, known.assignments.len(), known.functions.len())?;
    Ok(Nodes { rows, solid })
}
