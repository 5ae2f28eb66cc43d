//! The recipes of one module: the rules of what they depend on, and what they are resolved to.
#![tactic(auto)]

mod completion;
mod counts;
mod index;
mod links;
mod merge;
mod recipe_order;
mod resolution;
mod targets;

pub use completion::{Completing, complete};
pub use counts::check_arguments;
pub use links::{Linked, link};
