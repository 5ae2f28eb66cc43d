//! What a host answers of a program.
use just_data::Exact;
use just_errors::{Signal, Status};

/// How a program ended, and which signal the run was sent meanwhile.
#[derive(Clone, PartialEq, Eq, Drop)]
pub struct RunAnswer {
    /// How it ended.
    pub status: Status,
    /// The signal that the run was sent while the program ran, if there was one.
    pub signal: Option<Signal>,
}

impl Exact for RunAnswer {
    ghost use Rattle.std.proofs.Common.{rules};

    ghost exact = { Prim.search rules };
}
