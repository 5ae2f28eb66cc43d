//! What names an option, borrowed.
ghost use Rattle.std.specs.Prelude.{◌≡◌, IfOk};
ghost use Rattle.just_tail.specs.loops.Reader.{switch_of};

use just_data::Text;
use just_errors::Switch;
use std::alloc::{AllocError, Global};

/// What names an option, in the words or in a parameter.
#[derive(Clone, Copy)]
pub enum BorrowedSwitch<'text> {
    /// A long name, as in `--NAME`.
    Long(&'text str),
    /// A letter, as in `-c`.
    Short(char),
}

impl BorrowedSwitch<'_> {
    /// A copy that keeps its name.
    pub fn owned(self, alloc: Global) -> Result<Switch, AllocError>
        ensures { IfOk result (λ switch. switch ≡ switch_of self.entry) }
    {
        match self {
            BorrowedSwitch::Long(name) => Ok(Switch::Long(Text::from_str(alloc, name)?)),
            BorrowedSwitch::Short(letter) => Ok(Switch::Short(letter)),
        }
    }
}
