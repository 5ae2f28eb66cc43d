//! A script body: the lines of a recipe are one script, which the host runs.
#![tactic(auto)]

mod attributes;
mod executor;
mod lines;
mod script;

pub use script::run_script;
