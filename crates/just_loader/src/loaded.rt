//! What is loaded for a compilation.

use just_data::{Sequence, Text};
use just_parts::layers::Ast;
use just_paths::Modulepath;
use std::collections::HashMap;

/// The files of a compilation.
#[derive(Drop)]
pub struct Loaded<'src> {
    /// What each file says, under the path of its module and its own.
    pub asts: HashMap<(Modulepath, Text), Ast<'src>>,
    /// The relative path of each file once, in the order of loading.
    pub loaded: Sequence<Text>,
}
