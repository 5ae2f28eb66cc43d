//! The order of the solid nodes by what they read.

ghost use Rattle.std.specs.Prelude.{◌≡◌, ◌<◌, false, filter, get_or, length, IfErr, IfOk};
ghost use Rattle.std.specs.List.{All};
ghost use Rattle.just_graph.specs.Graph.{HasEdge, IsGraph};
ghost use Rattle.just_graph.specs.Steps.{IsCircle};
ghost use Rattle.just_graph_order.specs.Through.{IsOrderThrough, ReadsThrough};

use crate::circles::{circle_from_first, solid_circle};
use crate::finish_order::finish;
use std::alloc::{AllocError, Global};

// The nodes that are solid, in their order.
fn solid_ones(alloc: Global, solid: &[bool], nodes: &[usize]) -> Result<Vec<usize>, AllocError>
    requires { All (λ a. a < length solid.now) nodes.now }
    ensures { IfOk result (λ kept. kept.items ≡ filter (λ a. get_or solid.now a false) nodes.now) }
{
    nodes
        .iter()
        .copied()
        .filter(|node| solid[*node])
        .collect(alloc)
}

/// Lists the solid nodes that the roots lead to, each once and after whatever it reads. Or answers a circle of solid
/// nodes, each of which reads the next: then there is no such order. A solid node reads the solid nodes that its edges
/// lead to, also through nodes that pass.
///
/// It takes time in the number of nodes and edges, and no recursion. The error is want of memory.
pub fn order_through(
    alloc: Global,
    edges: &[Vec<usize>],
    solid: &[bool],
    roots: &[usize],
) -> Result<Result<Vec<usize>, Vec<usize>>, AllocError>
    requires graph { IsGraph edges.now }
    requires solid { length solid.now ≡ length edges.now }
    requires roots { All (λ a. a < length edges.now) roots.now }
    ensures ordered { IfOk result (λ answer. IfOk answer (λ order. IsOrderThrough (HasEdge edges.now) solid.now roots.now order.items)) }
    ensures circle { IfOk result (λ answer. IfErr answer (λ circle. IsCircle (ReadsThrough (HasEdge edges.now) solid.now) circle.items)) }
{
    let finished = finish(alloc, edges, roots)?;
    if let Some(circle) = solid_circle(alloc, edges, solid, finished.as_slice())? {
        let circle = circle_from_first(alloc, edges, solid, finished.as_slice(), circle)?;
        return Ok(Err(circle));
    }
    let order = solid_ones(alloc, solid, finished.as_slice())?;
    Ok(Ok(order))
}
