//! Groups of words, one for each parameter.
ghost use Rattle.std.specs.Prelude.{◌≡◌, ◌<◌, ◌++◌, ◌∷◌, [], ℕ, IfOk, OnOk, length, slice_set, slice_index_or, vec_len};
ghost use Rattle.just_tail.specs.Words.{as_texts};

use just_ast_definitions::Parameter;
use std::alloc::{AllocError, Global};

/// As many empty groups as there are parameters.
pub fn empty_groups<'words>(
    alloc: Global,
    parameters: &[Parameter],
) -> Result<Vec<Vec<&'words str>>, AllocError>
    ensures count { IfOk result (λ groups. length (as_texts groups.items) ≡ length parameters.now) }
    ensures each { IfOk result (λ groups. (j : ℕ) → slice_index_or (as_texts groups.items) j [] ≡ []) }
{
    let mut groups = Vec::new(alloc);
    for _ in parameters {
        groups.push(Vec::new(alloc))?;
    }
    Ok(groups)
}

/// Puts a text at the end of one group.
pub fn push_at<'words>(
    groups: &mut Vec<Vec<&'words str>>,
    place: usize,
    text: &'words str,
) -> Result<(), AllocError>
    requires { place < vec_len groups.old }
    ensures { OnOk result (as_texts groups.new.items
        ≡ slice_set (as_texts groups.old.items) place (slice_index_or (as_texts groups.old.items) place [] ++ text.now ∷ [])) }
{
    groups[place].push(text)?;
    Ok(())
}
