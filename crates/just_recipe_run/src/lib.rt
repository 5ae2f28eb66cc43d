//! The run of one recipe: whether it may run, what is shown before its body, and the body.
#![tactic(auto)]

mod recipe;
mod run;

pub use recipe::RunRecipe;
