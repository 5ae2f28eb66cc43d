//! What the aliases of one module mean, and which of its recipes is its default.
#![tactic(auto)]

pub mod aliases;
mod default_choice;
mod default_mark;

pub use aliases::resolve_aliases;
pub use default_choice::default_of;
