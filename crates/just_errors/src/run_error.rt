//! Why a run ended early.
ghost use Rattle.std.specs.Prelude.{◌≡◌};
ghost use Rattle.just_errors.specs.Messages.{run_name};

use crate::fault::Fault;
use crate::phrases::{OnLine, Spaced};
use crate::signal::Signal;
use crate::status::Status;
use just_data::{BorrowedText, Sequence, Text};
use std::fmt;

/// Why a run ended early. A line counts from 1, and a script has none; `print_message` holds where the fault is to be shown.
#[derive(Debug, Drop)]
pub enum RunError<'src> {
    /// There are several invocations where one alone is allowed.
    ExcessInvocations {
        invocations: usize,
    },
    /// A recipe asks before it runs, and the answer is no.
    NotConfirmed {
        recipe: BorrowedText<'src>,
    },
    /// The host reads no line after a prompt.
    GetConfirmation(Fault),
    /// A command ended with a status other than 0.
    Code {
        recipe: BorrowedText<'src>,
        line_number: Option<usize>,
        code: i32,
        print_message: bool,
    },
    /// A command with the sigil `?` ended with a status that fails its recipe.
    GuardCode {
        recipe: BorrowedText<'src>,
        line_number: Option<usize>,
        code: i32,
    },
    /// A signal, told by its number, ended a command.
    Signal {
        recipe: BorrowedText<'src>,
        line_number: Option<usize>,
        signal: i32,
        print_message: bool,
    },
    /// A command ended without a status and without a known signal.
    Unknown {
        recipe: BorrowedText<'src>,
        line_number: Option<usize>,
        print_message: bool,
    },
    /// The shell of a recipe could not be started.
    ShellIo {
        recipe: BorrowedText<'src>,
        message: Text,
    },
    /// The script of a recipe could not be started.
    ScriptStart {
        recipe: BorrowedText<'src>,
        message: Text,
    },
    /// The shebang line of a script names nothing that can run it.
    InvalidShebang {
        recipe: BorrowedText<'src>,
        shebang: Text,
    },
    /// A signal ended the run.
    Interrupted {
        signal: Signal,
    },
    /// A command beside the recipes could not be started.
    CommandInvoke {
        binary: Text,
        arguments: Sequence<Text>,
        message: Text,
    },
    /// A command beside the recipes ended without success.
    CommandStatus {
        binary: Text,
        arguments: Sequence<Text>,
        status: Status,
    },
    /// A path to a variable walks through a module that is not there.
    EvalUnknownSubmodule {
        component: Text,
    },
    /// A path to a variable ends in what is neither a module nor a variable.
    EvalUnknownSubmoduleOrVariable {
        component: Text,
    },
    /// A feature is used that is unstable, and not enabled.
    UnstableFeature {
        feature: Text,
    },
    /// The host has no dotenv pairs.
    Dotenv(Fault),
    /// The host can't write the time in a format.
    DatetimeFormat(Fault),
    /// The evaluator has no answer to a question.
    Evaluate(Fault),
    /// The output takes no more text.
    Write,
}

impl<'src> RunError<'src> {
    /// The name of the variant.
    pub fn name(&self) -> &'static str
        ensures { result.now ≡ run_name self.now }
    {
        match self {
            RunError::ExcessInvocations { .. } => "ExcessInvocations",
            RunError::NotConfirmed { .. } => "NotConfirmed",
            RunError::GetConfirmation(_) => "GetConfirmation",
            RunError::Code { .. } => "Code",
            RunError::GuardCode { .. } => "GuardCode",
            RunError::Signal { .. } => "Signal",
            RunError::Unknown { .. } => "Unknown",
            RunError::ShellIo { .. } => "ShellIo",
            RunError::ScriptStart { .. } => "ScriptStart",
            RunError::InvalidShebang { .. } => "InvalidShebang",
            RunError::Interrupted { .. } => "Interrupted",
            RunError::CommandInvoke { .. } => "CommandInvoke",
            RunError::CommandStatus { .. } => "CommandStatus",
            RunError::EvalUnknownSubmodule { .. } => "EvalUnknownSubmodule",
            RunError::EvalUnknownSubmoduleOrVariable { .. } => { "EvalUnknownSubmoduleOrVariable" }
            RunError::UnstableFeature { .. } => "UnstableFeature",
            RunError::Dotenv(_) => "Dotenv",
            RunError::DatetimeFormat(_) => "DatetimeFormat",
            RunError::Evaluate(_) => "Evaluate",
            RunError::Write => "Write",
        }
    }
}

impl<'src> fmt::Display for RunError<'src> {
    ghost use Rattle.std.specs.Prelude.{Some};
    ghost use Rattle.just_errors.specs.Messages.{run_text};

    ghost output = { λ e. Some (run_text e) };

    fn fmt<W: fmt::Write>(&self, f: &mut fmt::Formatter<W>) -> fmt::Result {
        match self {
            RunError::ExcessInvocations { invocations } => {
                write!(
                    f,
                    "Expected 1 command-line recipe invocation but found {invocations}"
                )
            }
            RunError::NotConfirmed { recipe } => write!(f, "Recipe `{recipe}` was not confirmed"),
            RunError::GetConfirmation(fault) => write!(f, "{fault}"),
            RunError::Code {
                recipe,
                line_number,
                code,
                ..
            } => {
                let line = OnLine(line_number);
                write!(f, "Recipe `{recipe}` failed{line} with exit code {code}")
            }
            RunError::GuardCode {
                recipe,
                line_number,
                code,
            } => {
                let line = OnLine(line_number);
                write!(f, "Recipe `{recipe}` failed{line} with exit code {code}")
            }
            RunError::Signal {
                recipe,
                line_number,
                signal,
                ..
            } => {
                let line = OnLine(line_number);
                write!(
                    f,
                    "Recipe `{recipe}` was terminated{line} by signal {signal}"
                )
            }
            RunError::Unknown {
                recipe,
                line_number,
                ..
            } => {
                let line = OnLine(line_number);
                write!(f, "Recipe `{recipe}` failed{line} for an unknown reason")
            }
            RunError::ShellIo { recipe, message } => {
                write!(
                    f,
                    "Recipe `{recipe}` could not be run because of an IO error while launching the shell: {message}"
                )
            }
            RunError::ScriptStart { recipe, message } => {
                write!(f, "Recipe `{recipe}` failed to start its script: {message}")
            }
            RunError::InvalidShebang { recipe, shebang } => {
                write!(f, "Recipe `{recipe}` has an invalid shebang `{shebang}`")
            }
            RunError::Interrupted { signal } => write!(f, "Interrupted by {signal}"),
            RunError::CommandInvoke {
                binary,
                arguments,
                message,
            } => {
                let rest = Spaced(arguments.as_slice());
                write!(f, "Failed to invoke `{binary}{rest}`: {message}")
            }
            RunError::CommandStatus {
                binary,
                arguments,
                status,
            } => {
                let rest = Spaced(arguments.as_slice());
                write!(f, "Command `{binary}{rest}` failed: {status}")
            }
            RunError::EvalUnknownSubmodule { component } => {
                write!(f, "Justfile does not contain submodule `{component}`")
            }
            RunError::EvalUnknownSubmoduleOrVariable { component } => {
                write!(
                    f,
                    "Justfile does not contain submodule or variable `{component}`"
                )
            }
            RunError::UnstableFeature { feature } => {
                write!(f, "The feature `{feature}` is unstable, and not enabled")
            }
            RunError::Dotenv(fault) => write!(f, "{fault}"),
            RunError::DatetimeFormat(fault) => write!(f, "{fault}"),
            RunError::Evaluate(fault) => write!(f, "{fault}"),
            RunError::Write => f.write_str("Failed to write output"),
        }
    }
}

impl<'src> std::error::Error for RunError<'src> {}
