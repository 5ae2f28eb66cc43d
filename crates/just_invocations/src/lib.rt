//! What command words mean in a module of modules.
#![tactic(auto)]

mod head;
mod invocation;
pub mod invocation_parser;
pub mod laws;
mod lookup;
mod paths;
mod texts;
mod walk;

pub use invocation::Invocation;
pub use invocation_parser::InvocationParser;
