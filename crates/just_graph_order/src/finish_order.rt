//! A depth-first search that goes on at circles, and the order in which it is done with the nodes.

ghost use Rattle.std.specs.Prelude.{◌≡◌, ◌<◌, ◌≤◌, ℕ, [], true, false, length, slice_index, IfOk, OnOk};
ghost use Rattle.std.specs.List.{All};
ghost use Rattle.just_graph.specs.Found.{is_seen};
ghost use Rattle.just_graph.specs.Graph.{HasEdge, IsGraph};
ghost use Rattle.just_graph_order.specs.loops.Finished.{Finishing, IsFinished};

use just_graph::rows::row;
use std::alloc::{AllocError, Global};

// The place of the first target from `from` on that isn't seen, or the row's length.
fn next_unseen(row: &[usize], seen: &[bool], from: usize) -> usize
    requires { All (λ b. b < length seen.now) row.now }
    ensures within { result ≤ length row.now }
    ensures passed { (j : ℕ) → from ≤ j → j < result → is_seen seen.now (slice_index row.now j) ≡ true }
    ensures found { result < length row.now → is_seen seen.now (slice_index row.now result) ≡ false }
{
    for j in from..row.len() {
        if !seen[row[j]] {
            return j;
        }
    }
    row.len()
}

// A node of the path, and how many of its edges are passed.
#[derive(Clone, Copy)]
struct Frame {
    node: usize,
    passed: usize,
}

impl Frame {
    // A node with all its edges ahead.
    fn start(node: usize) -> Self
        ensures { result ≡ record { node = node; passed = 0 } }
    {
        Self { node, passed: 0 }
    }
}

// Puts what the root at a place leads to, and isn't seen, into the order: each node once all its edges are passed. What
// is seen is not looked at again, so a circle doesn't stop the search.
fn finish_from(
    alloc: Global,
    edges: &[Vec<usize>],
    roots: &[usize],
    place: usize,
    seen: &mut Vec<bool>,
    order: &mut Vec<usize>,
) -> Result<(), AllocError>
    requires graph { IsGraph edges.now }
    requires roots { All (λ a. a < length edges.now) roots.now }
    requires place { place < length roots.now }
    requires is_new { is_seen seen.old.items (slice_index roots.now place) ≡ false }
    requires finishing { Finishing edges.now roots.now seen.old.items [] [] order.old.items }
    ensures finishing { OnOk result (Finishing edges.now roots.now seen.new.items [] [] order.new.items) }
    ensures root_seen { OnOk result (is_seen seen.new.items (slice_index roots.now place) ≡ true) }
    ensures kept { OnOk result ((a : ℕ) → is_seen seen.old.items a ≡ true → is_seen seen.new.items a ≡ true) }
{
    let root = roots[place];
    let mut path = Vec::new(alloc);
    path.push(Frame::start(root))?;
    seen[root] = true;
    while let Some(frame) = path.pop() {
        let node = frame.node;
        let targets = row(edges, node);
        let passed = next_unseen(targets, seen.as_slice(), frame.passed);
        if passed < targets.len() {
            let target = targets[passed];
            path.push(Frame { node, passed })?;
            path.push(Frame::start(target))?;
            seen[target] = true;
        } else {
            order.push(node)?;
        }
    }
    Ok(())
}

// Lists what the roots lead to, in the order in which a depth-first search is done with the nodes.
pub(crate) fn finish(
    alloc: Global,
    edges: &[Vec<usize>],
    roots: &[usize],
) -> Result<Vec<usize>, AllocError>
    requires graph { IsGraph edges.now }
    requires roots { All (λ a. a < length edges.now) roots.now }
    ensures { IfOk result (λ order. IsFinished (HasEdge edges.now) roots.now order.items) }
{
    let mut seen = Vec::new(alloc);
    seen.resize(edges.len(), false)?;
    let mut order = Vec::new(alloc);
    for place in 0..roots.len() {
        if !seen[roots[place]] {
            finish_from(alloc, edges, roots, place, &mut seen, &mut order)?;
        }
    }
    Ok(order)
}
