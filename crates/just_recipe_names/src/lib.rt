//! The names in recipes, as a text says them: whether they stand for something, and the numbers of what they mean.
#![tactic(auto)]

mod attributes;
mod body;
mod hidden_names;
mod lines;
mod numbers;
mod recipe_checks;
pub mod steps;

pub use numbers::{Meanings, numbered_recipe};
pub use recipe_checks::check_recipe;
