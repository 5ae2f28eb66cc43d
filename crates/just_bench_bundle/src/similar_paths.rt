//! Paths that a user may have meant.
ghost use Rattle.std.specs.Prelude.{◌≡◌, IfOk};
ghost use Rattle.just_bench_bundle.specs.Near as spec;

use just_data::{BorrowedText, Sequence};
use just_loader::Sources;
use std::alloc::{AllocError, Global};

// Whether two paths are equal but for white space around them and the case of letters.
fn are_alike(path: &str, other: &str) -> bool
    ensures { result ≡ spec.are_alike path.now other.now }
{
    path.trim().eq_ignore_ascii_case(other.trim())
}

/// The paths of the files that are like a path, in byte order: equal to it but for white space around them and the case
/// of ASCII letters.
#[tactic(auto, using(crate::proofs::Filtering::more, crate::proofs::Filtering::no_more))]
pub fn paths_like<'src>(
    alloc: Global,
    sources: &Sources<'src>,
    path: &str,
) -> Result<Sequence<BorrowedText<'src>>, AllocError>
    ensures { IfOk result (λ paths. paths ≡ spec.paths_like sources.now path.now) }
{
    let mut paths = Sequence::new(alloc);
    for other in sources.paths() {
        if are_alike(path, other) {
            paths.push(BorrowedText::new(*other))?;
        }
    }
    Ok(paths)
}
