//! The rules of the bodies of a module's recipes: what needs lists, the name space of modules, aliases and recipes, and what
//! shells run.
#![tactic(auto)]

mod bodies;
mod shells;

pub use bodies::check_bodies;
