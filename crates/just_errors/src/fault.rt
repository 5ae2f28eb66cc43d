//! What a layer says of a question that it cannot answer.
use just_data::Text;
use std::fmt;

/// What a layer says of a question that it cannot answer.
#[derive(Clone, Debug, PartialEq, Eq, Drop)]
pub struct Fault {
    /// What it says.
    pub message: Text,
}

impl fmt::Display for Fault {
    ghost use Rattle.std.specs.Prelude.{Some};

    ghost output = { λ fault. Some fault.message };

    fn fmt<W: fmt::Write>(&self, f: &mut fmt::Formatter<W>) -> fmt::Result {
        f.write_str(self.message.as_str())
    }
}
