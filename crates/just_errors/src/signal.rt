//! What ends a program from outside.
use just_data::Exact;
use std::fmt;

/// What ends a program from outside.
#[derive(Clone, Copy, Debug, PartialEq, Eq)]
pub enum Signal {
    /// The terminal is gone.
    Hangup,
    /// The user interrupts.
    Interrupt,
    /// The user quits.
    Quit,
    /// The program is to end.
    Terminate,
}

impl Exact for Signal {
    ghost use Rattle.std.proofs.Common.{rules};

    ghost exact = { Prim.search rules };
}

impl fmt::Display for Signal {
    ghost use Rattle.std.specs.Prelude.{Some};
    ghost use Rattle.just_errors.specs.Messages.{signal_text};

    ghost output = { λ signal. Some (signal_text signal) };

    fn fmt<W: fmt::Write>(&self, f: &mut fmt::Formatter<W>) -> fmt::Result {
        match self {
            Signal::Hangup => f.write_str("SIGHUP"),
            Signal::Interrupt => f.write_str("SIGINT"),
            Signal::Quit => f.write_str("SIGQUIT"),
            Signal::Terminate => f.write_str("SIGTERM"),
        }
    }
}
