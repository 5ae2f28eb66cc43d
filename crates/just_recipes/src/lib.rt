//! The recipes of a compilation, by number.
#![tactic(auto)]

mod recipes;

pub use recipes::Recipes;
