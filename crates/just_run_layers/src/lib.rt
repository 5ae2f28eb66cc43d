//! The layers that a run asks: what evaluates among the values of a run, and the host; what they are asked in, what a task
//! holds between its questions and its block, and the steps of a run as its contracts see them.
#![tactic(auto)]

pub mod calls;
pub mod context;
pub mod environment;
pub mod evaluation;
pub mod held;
pub mod host;
pub mod run_answer;

pub use calls::{CommandCall, Executor, Positional, ScriptCall, ShellCall};
pub use context::Context;
pub use environment::{EnvironmentChange, EnvironmentPair};
pub use evaluation::Evaluation;
pub use held::Held;
pub use host::{Entry, Groups, Host};
pub use run_answer::RunAnswer;
