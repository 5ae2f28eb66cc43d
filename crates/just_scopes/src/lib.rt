//! The scopes of a run: which variables of each module are evaluated, and what the modules have before the first recipe runs.
#![tactic(auto)]

mod context;
pub mod laws;
mod modules;
mod needs;
mod open_module;
mod scopes;
mod uses;

pub use open_module::{OpenedModule, folder_for, open_lazily, open_modules};
pub use scopes::{opened_at, scope_at, scopes_of};
