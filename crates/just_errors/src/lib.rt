//! Errors, their names and what they say.
#![tactic(auto)]

pub mod compile_error;
pub mod error;
pub mod fault;
pub mod halt;
pub mod invocation_error;
pub mod load_error;
mod phrases;
pub mod refusal;
pub mod run_error;
pub mod signal;
pub mod status;
mod switch;

pub use compile_error::{CompileError, CompileErrorKind, Definition};
pub use error::{Error, SourceError};
pub use fault::Fault;
pub use halt::Halt;
pub use invocation_error::InvocationError;
pub use load_error::LoadError;
pub use phrases::ArgumentRange;
pub use refusal::Refusal;
pub use run_error::RunError;
pub use signal::Signal;
pub use status::Status;
pub use switch::Switch;
