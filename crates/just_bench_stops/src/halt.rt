//! Why a line is read no further.
use std::alloc::AllocError;

/// Why a line is read no further.
#[derive(Drop)]
pub enum Halt {
    /// What stands at this place among its lexemes does not fit, or the line ends there too early.
    At(usize),
    /// Memory was refused.
    Memory,
}

impl From<AllocError> for Halt {
    ghost use Rattle.std.specs.Prelude.{◌≡◌};
    ghost use Rattle.just_bench_stops.specs.declared.halt.Halt.TheVariants.{Memory};

    ghost from_gives = { λ _ halt. halt ≡ Memory };

    fn from(_refused: AllocError) -> Halt {
        Halt::Memory
    }
}
