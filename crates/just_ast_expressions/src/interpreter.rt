ghost use Rattle.std.specs.Prelude.{◌≡◌};

use just_data::{Exact, Sequence};
use std::alloc::AllocError;

/// A program that runs lines or scripts, and its arguments.
#[derive(PartialEq, Eq, Drop)]
pub struct Interpreter<T> {
    /// The program.
    pub command: T,
    /// What it is handed before a line or a script.
    pub arguments: Sequence<T>,
}

impl<T: Exact + Drop> Clone for Interpreter<T> {
    ghost is_clone = { λ interpreter copy. copy ≡ interpreter };

    fn clone(&self) -> Result<Interpreter<T>, AllocError> {
        Ok(Interpreter {
            command: self.command.clone()?,
            arguments: self.arguments.clone()?,
        })
    }
}

impl<T: Exact + Drop> Exact for Interpreter<T> {
    ghost exact = { λ x y h. h };
}
