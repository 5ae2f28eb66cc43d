//! What the evaluation keeps of a run.
use just_data::{Sequence, Shared, Text};
use just_parts::layers::Number;
use just_paths::Modulepath;
use std::collections::HashSet;

/// A question for variables, as it is kept.
#[derive(Drop)]
pub struct Asked {
    /// The path of the module.
    pub path: Modulepath,
    /// The numbers of the variables that were asked for; none where all were.
    pub set: Option<Shared<HashSet<Number>>>,
    /// The names that were bound, from the last to the first; no names where there was no answer but a fault.
    pub names: Sequence<Text>,
}
