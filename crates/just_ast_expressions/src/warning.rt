use just_data::{Exact, Text};

/// What the caller is told of a text that is no fault.
#[derive(Clone, PartialEq, Eq, Drop)]
pub struct Warning {
    /// What is told.
    pub message: Text,
}

impl Exact for Warning {
    ghost use Rattle.std.proofs.Common.{rules};

    ghost exact = { Prim.search rules };
}
