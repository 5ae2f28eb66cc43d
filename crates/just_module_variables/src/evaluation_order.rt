//! The order in which variables are evaluated.

ghost use Rattle.std.specs.Prelude.{◌≡◌, ◌<◌, length, map, IfErr, IfOk};
ghost use Rattle.std.specs.List.{All};
ghost use Rattle.just_errors.specs.Causes.{Keeps, Reports};
ghost use Rattle.just_names.specs.Index.{name_at};
ghost use Rattle.just_table.specs.Entries.{IsSorted};
ghost use Rattle.just_name_resolution.specs.Lent.{known_in};
ghost use Rattle.just_parts.specs.Misnaming.{Expressions, HaveFunctionNames, HaveNames};
ghost use Rattle.just_parts.specs.Reading.{IsEvaluationOrder};
ghost use Rattle.just_module_variables.specs.loops.Steps.{AreNodeRows, IsCircleAt, IsOrderAt, variable_names_at, rows_of, solid_of};

use crate::nodes::{Nodes, keys_in, nodes_of};
use just_data::{BorrowedText, Sequence};
use just_graph::all_nodes;
use just_graph_order::order_through;
use just_name_resolution::{Known, check_names};
use just_parts::layers::{CompileError, CompileErrorKind, Error, Syntax};
use std::alloc::{AllocError, Global};

// The names at places.
fn names_at<'src>(
    alloc: Global,
    keys: &[BorrowedText<'src>],
    places: &[usize],
) -> Result<Sequence<BorrowedText<'src>>, AllocError>
    requires { All (λ place. place < length keys.now) places.now }
    ensures { IfOk result (λ names. names ≡ map (name_at keys.now) places.now) }
{
    let mut names = Sequence::new(alloc);
    for place in places {
        names.push(keys[*place].copied())?;
    }
    Ok(names)
}

// The error that tells of a circle of variables.
fn circle_error<'a, 'src, S: Syntax>(
    alloc: Global,
    known: &Known<'a, 'src, S>,
    circle: &[usize],
) -> Result<Error<'src>, AllocError>
    requires { IsCircleAt (known_in (S.answers known.now.syntax.now) known.now) circle.now }
    ensures { IfOk result (Reports (Expressions (known_in (S.answers known.now.syntax.now) known.now))) }
{
    let keys = keys_in(alloc, known.assignments)?;
    let names = names_at(alloc, keys.as_slice(), circle)?;
    let variable = keys[circle[0]].copied();
    let Some(assignment) = known.assignments.get(variable.as_str()) else {
        unreachable!()
    };
    Ok(Error::Compile(CompileError {
        token: assignment.name.token.copied(),
        kind: CompileErrorKind::CircularVariableDependency {
            variable,
            circle: names,
        },
    }))
}

// The places of the variables in an order, or an error that tells of a circle.
fn ordered<'a, 'src, S: Syntax>(
    alloc: Global,
    known: &Known<'a, 'src, S>,
    nodes: &Nodes,
) -> Result<Vec<usize>, Error<'src>>
    requires variables { IsSorted known.now.assignments.now }
    requires functions { IsSorted known.now.functions.now }
    requires rows { AreNodeRows (known_in (S.answers known.now.syntax.now) known.now) (rows_of nodes.now.rows.items) }
    requires solid { nodes.now.solid.items ≡ solid_of (known_in (S.answers known.now.syntax.now) known.now) }
    requires values { HaveNames (known_in (S.answers known.now.syntax.now) known.now) }
    requires bodies { HaveFunctionNames (known_in (S.answers known.now.syntax.now) known.now) }
    ensures kept { IfOk result (λ _. Keeps (Expressions (known_in (S.answers known.now.syntax.now) known.now))) }
    ensures ordered { IfOk result (λ order. IsOrderAt (known_in (S.answers known.now.syntax.now) known.now) order.items) }
    ensures named { IfErr result (Reports (Expressions (known_in (S.answers known.now.syntax.now) known.now))) }
{
    let roots = all_nodes(alloc, known.assignments.len())?;
    match order_through(
        alloc,
        nodes.rows.as_slice(),
        nodes.solid.as_slice(),
        roots.as_slice(),
    )? {
        Ok(order) => Ok(order),
        Err(circle) => Err(circle_error(alloc, known, circle.as_slice())?),
    }
}

/// The places of the variables of a module in the order in which they are evaluated, each after all that it reads. An
/// error names a variable or a function that is not there or is given a wrong number of arguments, or variables that read
/// one another in a circle.
pub fn order_assignments<'a, 'src, S: Syntax>(
    alloc: Global,
    known: &Known<'a, 'src, S>,
) -> Result<Vec<usize>, Error<'src>>
    ensures kept { IfOk result (λ _. Keeps (Expressions (known_in (S.answers known.now.syntax.now) known.now))) }
    ensures inside { IfOk result (λ order. All (λ place. place < length known.now.assignments.now) order.items) }
    ensures ordered { IfOk result (λ order. let m = known_in (S.answers known.now.syntax.now) known.now in IsEvaluationOrder m (variable_names_at m order.items)) }
    ensures named { IfErr result (Reports (Expressions (known_in (S.answers known.now.syntax.now) known.now))) }
{
    check_names(alloc, known)?;
    let nodes = nodes_of(alloc, known)?;
    ordered(alloc, known, &nodes)
}
