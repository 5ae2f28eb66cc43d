//! How programs end.
use just_data::{Exact, Text};
use std::fmt;

/// How a program ended.
#[derive(Clone, Debug, PartialEq, Eq, Drop)]
pub enum Status {
    /// By itself, with this code.
    Code(i32),
    /// By a signal, whose number may be known.
    NoCode(Option<i32>),
    /// It did not start, for this reason.
    NotStarted(Text),
}

impl Exact for Status {
    ghost use Rattle.std.proofs.Common.{rules};

    ghost exact = { Prim.search rules };
}

impl fmt::Display for Status {
    ghost use Rattle.std.specs.Prelude.{Some};
    ghost use Rattle.just_errors.specs.Messages.{status_text};

    ghost output = { λ status. Some (status_text status) };

    fn fmt<W: fmt::Write>(&self, f: &mut fmt::Formatter<W>) -> fmt::Result {
        match self {
            Status::Code(code) => write!(f, "exit status: {code}"),
            Status::NoCode(Some(number)) => write!(f, "signal: {number}"),
            Status::NoCode(None) => f.write_str("signal: unknown"),
            Status::NotStarted(reason) => write!(f, "{reason}"),
        }
    }
}
