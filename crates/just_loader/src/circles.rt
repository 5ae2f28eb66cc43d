//! Checks that no file that a root reaches leads back to itself.

ghost use Rattle.std.specs.Prelude.{◌≡◌, ◌<◌, ℕ, List, Some, length, slice_get, IfOk, IfErr, OnOk};
ghost use Rattle.just_graph.specs.Unfolding.{IsOrdered};
ghost use Rattle.just_loader.specs.FileCircles.{BreaksCircle};
ghost use Rattle.just_loader.specs.loops.FileCircles.{HasRows, FileLeadsOn};
ghost use Rattle.just_loader.specs.Reached.{World, IsReachedFile};
ghost use Rattle.just_errors.specs.Causes.{Reports};
ghost use Rattle.just_loader.specs.loops.Scanned.{IsScan, paths_in};

use crate::scan_result::Scan;
use just_data::Text;
use just_graph::order;
use just_graph::unfolding::edges;
use just_parts::layers::{Error, LoadError};
use std::alloc::{AllocError, Global};

// The path of the file at a place.
fn path_at<'src>(alloc: Global, scan: &Scan<'src>, place: usize) -> Result<Text, AllocError>
    requires { place < length scan.now.files.items }
    ensures { IfOk result (λ path. slice_get (paths_in scan.now.files.items) place ≡ Some path) }
{
    Text::from_str(alloc, scan.files[place].path.as_str())
}

/// Checks that no reached file of a scan leads back to itself. The error names a file and what it leads to: a file of a
/// chain from the root to it.
pub(crate) fn check_circles<'src>(alloc: Global, scan: &Scan<'src>) -> Result<(), Error<'src>>
    requires { HasRows scan.now }
    ensures ordered { OnOk result (IsOrdered scan.now.rows.items 0) }
    ensures none { OnOk result ((w : World) → IsScan w scan.now → (f : List ℕ) → IsReachedFile w f → FileLeadsOn w f f → ⊥) }
    ensures named { IfErr result (λ e. (w : World) → IsScan w scan.now → Reports (BreaksCircle w) e) }
{
    let edges = edges(alloc, scan.rows.as_slice())?;
    let circle = match order(alloc, edges.as_slice(), [0].as_slice())? {
        Ok(_) => return Ok(()),
        Err(circle) => circle,
    };
    let last = circle.len() - 1;
    Err(Error::Load(LoadError::CircularImport {
        current: path_at(alloc, scan, circle[last - 1])?,
        import: path_at(alloc, scan, circle[last])?,
    }))
}
