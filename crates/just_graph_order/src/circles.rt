//! Circles of solid nodes, each of which reads the next.

ghost use Rattle.std.specs.Prelude.{◌≡◌, ◌<◌, ◌≤◌, ℕ, true, length, slice_index, IfNone, IfOk, IfSome, OnOk};
ghost use Rattle.std.specs.List.{All, Contains};
ghost use Rattle.just_graph.specs.Found.{is_seen};
ghost use Rattle.just_graph.specs.Graph.{HasEdge, IsGraph};
ghost use Rattle.just_graph.specs.Steps.{IsCircle, IsOnce, Leads};
ghost use Rattle.just_graph_order.specs.loops.Came.{CameThere};
ghost use Rattle.just_graph_order.specs.loops.Finished.{Closed};
ghost use Rattle.just_graph_order.specs.Through.{IsSolid, ReadsThrough};

use just_graph::rows::{add, row};
use std::alloc::{AllocError, Global};
use std::collections::HashSet;

// Adds what `start` leads to, to what is seen and closed under edges.
fn close_over(
    edges: &[Vec<usize>],
    start: &[usize],
    seen: &mut Vec<bool>,
    found: &mut Vec<usize>,
) -> Result<(), AllocError>
    requires graph { IsGraph edges.now }
    requires start { All (λ a. a < length edges.now) start.now }
    requires closed { Closed edges.now seen.old.items found.old.items }
    ensures closed { OnOk result (Closed edges.now seen.new.items found.new.items) }
    ensures start_seen { OnOk result ((a : ℕ) → Contains start.now a → is_seen seen.new.items a ≡ true) }
{
    let mut next = found.len();
    add(start, seen, found)?;
    while next < found.len() {
        let node = found[next];
        next += 1;
        add(row(edges, node), seen, found)?;
    }
    Ok(())
}

// The way on which a search came to the number at a place, as a circle: its solid numbers, from that number, which is
// also the start, to itself.
fn way_back(
    alloc: Global,
    solid: &[bool],
    found: &[usize],
    came: &[usize],
    place: usize,
) -> Result<Vec<usize>, AllocError>
    requires once { IsOnce found.now }
    requires found { All (λ a. a < length solid.now) found.now }
    requires came { length came.now ≡ length found.now }
    requires earlier { (k : ℕ) → k < length found.now → slice_index came.now k ≤ k }
    requires place { place < length found.now }
    requires start { IsSolid solid.now (slice_index found.now place) }
    ensures { IfOk result (λ circle. IsCircle (ReadsThrough (CameThere (slice_index found.now place) found.now came.now) solid.now) circle.items) }
{
    let mut circle = Vec::new(alloc);
    circle.push(found[place])?;
    let mut at = place;
    while came[at] != at {
        at = came[at];
        let node = found[at];
        if solid[node] {
            circle.push(node)?;
        }
    }
    circle.push(found[place])?;
    circle.reverse();
    Ok(circle)
}

// The places of a list with this many members, in order.
fn places(alloc: Global, count: usize) -> Result<Vec<usize>, AllocError>
    ensures len { IfOk result (λ places. length places.items ≡ count) }
    ensures own { IfOk result (λ places. (k : ℕ) → k < count → slice_index places.items k ≡ k) }
{
    (0..count).collect(alloc)
}

// A circle through a solid node, if it leads back to itself.
fn circle_at(
    alloc: Global,
    edges: &[Vec<usize>],
    solid: &[bool],
    start: usize,
) -> Result<Option<Vec<usize>>, AllocError>
    requires graph { IsGraph edges.now }
    requires solid { length solid.now ≡ length edges.now }
    requires start { start < length edges.now }
    requires start_solid { IsSolid solid.now start }
    ensures circle { IfOk result (λ found. IfSome found (λ circle. IsCircle (ReadsThrough (HasEdge edges.now) solid.now) circle.items)) }
    ensures never { IfOk result (λ found. IfNone found (Leads (HasEdge edges.now) start start → ⊥)) }
{
    let mut seen = Vec::new(alloc);
    seen.resize(edges.len(), false)?;
    let mut found = Vec::new(alloc);
    add(row(edges, start), &mut seen, &mut found)?;
    // For each node, the place of the one that led to it: its own place, where that was the start.
    let mut came = places(alloc, found.len())?;
    let mut next = 0;
    while next < found.len() {
        let node = found[next];
        if node == start {
            let circle = way_back(alloc, solid, found.as_slice(), came.as_slice(), next)?;
            return Ok(Some(circle));
        }
        add(row(edges, node), &mut seen, &mut found)?;
        came.resize(found.len(), next)?;
        next += 1;
    }
    Ok(None)
}

// A circle through one of these nodes, if one is solid and leads back to itself.
pub(crate) fn solid_circle(
    alloc: Global,
    edges: &[Vec<usize>],
    solid: &[bool],
    nodes: &[usize],
) -> Result<Option<Vec<usize>>, AllocError>
    requires graph { IsGraph edges.now }
    requires solid { length solid.now ≡ length edges.now }
    requires nodes { All (λ a. a < length edges.now) nodes.now }
    ensures circle { IfOk result (λ found. IfSome found (λ circle. IsCircle (ReadsThrough (HasEdge edges.now) solid.now) circle.items)) }
    ensures never { let turns = λ (a : ℕ). Leads (HasEdge edges.now) a a in
        IfOk result (λ found. IfNone found ((a : ℕ) → Contains nodes.now a → IsSolid solid.now a → turns a → ⊥)) }
{
    let mut seen = Vec::new(alloc);
    seen.resize(edges.len(), false)?;
    let mut found = Vec::new(alloc);
    for node in nodes {
        if solid[*node] {
            close_over(edges, row(edges, *node), &mut seen, &mut found)?;
            // Where the nodes stand in the order of a search, only one that leads back to itself is seen here.
            if seen[*node] {
                if let Some(circle) = circle_at(alloc, edges, solid, *node)? {
                    return Ok(Some(circle));
                }
            }
        }
    }
    Ok(None)
}

/// A circle through the member of this one that a search met first, which is the one that it is done with last.
pub(crate) fn circle_from_first(
    alloc: Global,
    edges: &[Vec<usize>],
    solid: &[bool],
    finished: &[usize],
    circle: Vec<usize>,
) -> Result<Vec<usize>, AllocError>
    requires graph { IsGraph edges.now }
    requires solid { length solid.now ≡ length edges.now }
    requires finished { All (λ a. a < length edges.now) finished.now }
    requires circle { IsCircle (ReadsThrough (HasEdge edges.now) solid.now) circle.items }
    ensures { IfOk result (λ made. IsCircle (ReadsThrough (HasEdge edges.now) solid.now) made.items) }
{
    let mut members = HashSet::new(alloc);
    members.extend(circle.as_slice().iter().copied())?;
    for place in (0..finished.len()).rev() {
        let node = finished[place];
        if members.contains(&node) && solid[node] {
            return Ok(circle_at(alloc, edges, solid, node)?.unwrap_or(circle));
        }
    }
    Ok(circle)
}
