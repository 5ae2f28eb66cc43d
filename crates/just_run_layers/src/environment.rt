//! What programs are handed in their environment.
use just_data::{Exact, Text};

/// A name and its text.
#[derive(Clone, PartialEq, Eq, Drop)]
pub struct EnvironmentPair {
    /// The name.
    pub name: Text,
    /// Its text.
    pub value: Text,
}

impl Exact for EnvironmentPair {
    ghost use Rattle.std.proofs.Common.{rules};

    ghost exact = { Prim.search rules };
}

/// A name, and its text, or none where the name is removed.
#[derive(Clone, PartialEq, Eq, Drop)]
pub struct EnvironmentChange {
    /// The name.
    pub name: Text,
    /// Its text; none where the name is removed.
    pub value: Option<Text>,
}

impl Exact for EnvironmentChange {
    ghost use Rattle.std.proofs.Common.{rules};

    ghost exact = { Prim.search rules };
}
