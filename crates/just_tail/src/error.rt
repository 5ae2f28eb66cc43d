//! Why words are no arguments of a recipe.
use just_data::{BorrowedText, Text};
use just_errors::{Fault, Switch};
use std::alloc::AllocError;

/// Why words are no arguments of a recipe.
#[derive(Debug, Drop)]
pub enum TailError<'src> {
    /// An option has no name.
    InvalidOption {
        /// The word.
        argument: Text,
    },
    /// No parameter has the switch.
    UnknownOption {
        /// The switch.
        switch: Switch,
    },
    /// The switch is given again, and its parameter takes one text.
    DuplicateOption {
        /// The switch.
        switch: Switch,
    },
    /// The switch takes no text, and is given one.
    FlagWithValue {
        /// The switch.
        switch: Switch,
    },
    /// The switch takes a text, and is given none.
    OptionMissingValue {
        /// The switch.
        switch: Switch,
    },
    /// A parameter that needs a text is given none by its switch.
    MissingOption {
        /// The switch that names it: the long one if it has one.
        switch: Switch,
    },
    /// A parameter that needs a positional word gets none.
    PositionalArgumentCountMismatch {
        /// How many positional words there are.
        found: usize,
        /// How many there must be.
        min: usize,
        /// How many there may be.
        max: usize,
    },
    /// A parameter gets more or fewer texts than it may.
    ValueCount {
        /// The name of the parameter.
        parameter: BorrowedText<'src>,
        /// What is told of it.
        fault: Fault,
    },
    /// The pattern of a parameter does not match a text.
    ArgumentPatternMismatch {
        /// The name of the parameter.
        parameter: BorrowedText<'src>,
        /// The text.
        argument: Text,
    },
    /// Memory was refused.
    Memory,
}

impl<'src> From<AllocError> for TailError<'src> {
    ghost use Rattle.std.specs.Prelude.{◌≡◌};
    ghost use Rattle.just_tail.specs.declared.error.TailError.TheVariants.{Memory};

    ghost from_gives = { λ _ error. error ≡ Memory };

    fn from(_refused: AllocError) -> TailError<'src> {
        TailError::Memory
    }
}
