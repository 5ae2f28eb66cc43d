//! The values that the caller gives for variables of modules: which variable a key means, and that each key means one.
#![tactic(auto)]

mod application;
mod insertion;
mod walk;

pub use application::apply_overrides;
pub use insertion::insert_all;
