//! How a run ends early.
use crate::error::Error;
use crate::run_error::RunError;
use std::alloc::{AllocError, AllocFailed};

/// Why a run ended before its end.
pub enum Halt<'src> {
    /// Memory was refused.
    Memory,
    /// A counter no longer fits.
    Exhausted,
    /// A step failed.
    Failed(RunError<'src>),
}

impl<'src> Halt<'src> {
    ghost use Rattle.std.specs.Prelude.{◌≡◌};
    ghost use Rattle.just_errors.specs.Halts.{error_of};

    // The error that a run answers.
    fn into_error(self) -> Error<'src>
        ensures { result ≡ error_of self.entry }
    {
        match self {
            Halt::Memory => Error::Memory,
            Halt::Exhausted => Error::Exhausted,
            Halt::Failed(error) => Error::Run(error),
        }
    }
}

// As with `Error`: it is taken apart here alone.
impl<'src> Drop for Halt<'src> {
    fn drop(self) {
        match self {
            Halt::Memory | Halt::Exhausted => {}
            Halt::Failed(_error) => {}
        }
    }
}

impl<'src> From<AllocError> for Halt<'src> {
    ghost use Rattle.std.specs.Prelude.{◌≡◌};
    ghost use Rattle.just_errors.specs.declared.halt.Halt.TheVariants.{Memory};

    ghost from_gives = { λ _ halt. halt ≡ Memory };

    fn from(_refused: AllocError) -> Halt<'src> {
        Halt::Memory
    }
}

impl<'src, T: Drop> From<AllocFailed<T>> for Halt<'src> {
    ghost use Rattle.std.specs.Prelude.{◌≡◌};
    ghost use Rattle.just_errors.specs.declared.halt.Halt.TheVariants.{Memory};

    ghost from_gives = { λ _ halt. halt ≡ Memory };

    fn from(_refused: AllocFailed<T>) -> Halt<'src> {
        Halt::Memory
    }
}

impl<'src> From<Halt<'src>> for Error<'src> {
    ghost use Rattle.std.specs.Prelude.{◌≡◌};
    ghost use Rattle.just_errors.specs.Halts.{error_of};

    ghost from_gives = { λ halt error. error ≡ error_of halt };

    fn from(halt: Halt<'src>) -> Error<'src> {
        halt.into_error()
    }
}
