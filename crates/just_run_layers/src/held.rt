//! What the parameters of a recipe come to.
use crate::environment::EnvironmentPair;
use just_data::{Sequence, Text};
use just_parts::layers::Scope;

/// What the parameters of a recipe come to, by the texts that it is given. A task holds it from the questions before its
/// priors until its block, and it is used there alone: it can't be copied.
#[derive(Drop)]
pub struct Held<'src> {
    /// The values of the names that the recipe reads.
    pub scope: Scope<'src>,
    /// The texts that a shell is handed as its arguments.
    pub positional: Sequence<Text>,
    /// What programs are handed in their environment.
    pub environment: Sequence<EnvironmentPair>,
}
