//! The rows of a graph, and the nodes that a search has found.

ghost use Rattle.std.specs.Prelude.{◌≡◌, ◌<◌, length, IfOk};
ghost use Rattle.std.specs.List.{All};
ghost use Rattle.just_graph.specs.Found.{Added, Listing};
ghost use Rattle.just_graph.specs.Graph.{targets};

use std::alloc::AllocError;

/// The nodes that `node` has an edge to.
#[tactic(auto, using(crate::proofs::Targets::targets_at))]
pub fn row(edges: &[Vec<usize>], node: usize) -> &[usize]
    requires { node < length edges.now }
    ensures { result.now ≡ targets edges.now node }
{
    edges[node].as_slice()
}

/// Adds the nodes of `row` that are not found yet: where `seen` lacks them, it marks them and `found` lists them.
pub fn add(row: &[usize], seen: &mut Vec<bool>, found: &mut Vec<usize>) -> Result<(), AllocError>
    requires row { All (λ b. b < length seen.old.items) row.now }
    requires listing { Listing seen.old.items found.old.items }
    ensures { IfOk result (λ _. Added row.now (length row.now) seen.old.items found.old.items seen.new.items found.new.items) }
{
    for node in row {
        if !seen[*node] {
            seen[*node] = true;
            found.push(*node)?;
        }
    }
    Ok(())
}
