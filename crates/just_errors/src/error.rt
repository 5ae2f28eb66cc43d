//! Every fault, and where it comes from.
ghost use Rattle.std.specs.Prelude.{◌≡◌};
ghost use Rattle.just_errors.specs.Messages.{error_name};

use crate::compile_error::CompileError;
use crate::invocation_error::InvocationError;
use crate::load_error::LoadError;
use crate::run_error::RunError;
use just_names::Exhausted;
use std::alloc::{AllocError, AllocFailed};
use thiserror::Error;

/// Why a text is not taken into a source map.
#[derive(Clone, Copy, Debug, Error)]
pub enum SourceError {
    /// The path is not clean.
    #[error("The path is not clean")]
    NotClean,
    /// Memory was refused.
    #[error("Out of memory")]
    Memory,
}

/// Every fault of compiling, of reading words and of running.
#[derive(Debug, Error)]
pub enum Error<'src> {
    /// The files could not be loaded.
    #[error(transparent)]
    Load(LoadError<'src>),
    /// A rule of compilation is broken.
    #[error(transparent)]
    Compile(CompileError<'src>),
    /// The words are no invocations.
    #[error(transparent)]
    Invocation(InvocationError<'src>),
    /// The run ended early.
    #[error(transparent)]
    Run(RunError<'src>),
    /// A number, a depth or a counter no longer fits.
    #[error("No number is left")]
    Exhausted,
    /// Memory was refused.
    #[error("Out of memory")]
    Memory,
}

impl<'src> Error<'src> {
    /// The name of the fault: that of the variant, of a broken rule of compilation that of its kind.
    pub fn name(&self) -> &'static str
        ensures { result.now ≡ error_name self.now }
    {
        match self {
            Error::Load(error) => error.name(),
            Error::Compile(error) => error.kind.name(),
            Error::Invocation(error) => error.name(),
            Error::Run(error) => error.name(),
            Error::Exhausted => "Exhausted",
            Error::Memory => "Memory",
        }
    }
}

// Written out so that an error is taken apart here alone: with a derived one, each function that lets go of one would do so
// in its own proof.
impl<'src> Drop for Error<'src> {
    fn drop(self) {
        match self {
            Error::Load(_error) => {}
            Error::Compile(_error) => {}
            Error::Invocation(_error) => {}
            Error::Run(_error) => {}
            Error::Exhausted | Error::Memory => {}
        }
    }
}

impl<'src> From<LoadError<'src>> for Error<'src> {
    ghost use Rattle.std.specs.Prelude.{◌≡◌};
    ghost use Rattle.just_errors.specs.declared.error.Error.TheVariants as variant;

    ghost from_gives = { λ load error. error ≡ variant.Load load };

    fn from(load: LoadError<'src>) -> Error<'src> {
        Error::Load(load)
    }
}

impl<'src> From<CompileError<'src>> for Error<'src> {
    ghost use Rattle.std.specs.Prelude.{◌≡◌};
    ghost use Rattle.just_errors.specs.declared.error.Error.TheVariants as variant;

    ghost from_gives = { λ compile error. error ≡ variant.Compile compile };

    fn from(compile: CompileError<'src>) -> Error<'src> {
        Error::Compile(compile)
    }
}

impl<'src> From<InvocationError<'src>> for Error<'src> {
    ghost use Rattle.std.specs.Prelude.{◌≡◌};
    ghost use Rattle.just_errors.specs.declared.error.Error.TheVariants as variant;

    ghost from_gives = { λ invocation error. error ≡ variant.Invocation invocation };

    fn from(invocation: InvocationError<'src>) -> Error<'src> {
        Error::Invocation(invocation)
    }
}

impl<'src> From<RunError<'src>> for Error<'src> {
    ghost use Rattle.std.specs.Prelude.{◌≡◌};
    ghost use Rattle.just_errors.specs.declared.error.Error.TheVariants as variant;

    ghost from_gives = { λ run error. error ≡ variant.Run run };

    fn from(run: RunError<'src>) -> Error<'src> {
        Error::Run(run)
    }
}

impl<'src> From<AllocError> for Error<'src> {
    ghost use Rattle.std.specs.Prelude.{◌≡◌};
    ghost use Rattle.just_errors.specs.declared.error.Error.TheVariants.{Memory};

    ghost from_gives = { λ _ error. error ≡ Memory };

    fn from(_refused: AllocError) -> Error<'src> {
        Error::Memory
    }
}

impl<'src, T: Drop> From<AllocFailed<T>> for Error<'src> {
    ghost use Rattle.std.specs.Prelude.{◌≡◌};
    ghost use Rattle.just_errors.specs.declared.error.Error.TheVariants.{Memory};

    ghost from_gives = { λ _ error. error ≡ Memory };

    fn from(_refused: AllocFailed<T>) -> Error<'src> {
        Error::Memory
    }
}

impl<'src> From<Exhausted> for Error<'src> {
    ghost use Rattle.std.specs.Prelude.{◌≡◌};
    ghost use Rattle.just_errors.specs.declared.error.Error.TheVariants as variant;

    ghost from_gives = { λ _ error. error ≡ variant.Exhausted };

    fn from(_exhausted: Exhausted) -> Error<'src> {
        Error::Exhausted
    }
}
