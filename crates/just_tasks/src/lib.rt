//! The tasks of a run, what they lead to, and the scene in which they run.
#![tactic(auto)]

mod pair;
mod recipes;
mod scopes;
mod task;

pub use pair::Pair;
pub use recipes::{dependencies_at, place_in, priors_in, recipe_at, subsequents_in};
pub use scopes::{ModuleScope, Scopes, module_of};
pub use task::Task;
