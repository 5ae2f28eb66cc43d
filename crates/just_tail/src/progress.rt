//! How far the reader of a tail has come.
ghost use Rattle.std.specs.Prelude.{◌≡◌, [], IfOk, length, vec_len};
ghost use Rattle.just_tail.specs.loops.Reader.{HasRead};

use crate::groups::empty_groups;
use crate::plan::has_options;
use just_ast_definitions::Parameter;
use std::alloc::{AllocError, Global};

/// How far the reader of a tail has come.
#[derive(Drop)]
pub struct Progress<'words> {
    /// Whether options may come.
    pub opened: bool,
    /// How many positional words stand before.
    pub placed: usize,
    /// The groups so far.
    pub groups: Vec<Vec<&'words str>>,
}

impl<'words> Progress<'words> {
    /// Before any word.
    pub fn new(alloc: Global, parameters: &[Parameter]) -> Result<Progress<'words>, AllocError>
        ensures stands { IfOk result (HasRead parameters.now []) }
        ensures count { IfOk result (λ progress. vec_len progress.groups ≡ length parameters.now) }
        ensures placed { IfOk result (λ progress. progress.placed ≡ 0) }
    {
        let groups = empty_groups(alloc, parameters)?;
        Ok(Progress {
            opened: has_options(parameters),
            placed: 0,
            groups,
        })
    }
}
