//! The lines of worked examples: how a case is written, and what tells of a fault and of the modules of a compilation.
#![tactic(auto)]

pub mod cases;
pub mod faults;
mod links;
pub mod lists;
pub mod marks;
mod modules;
mod overrides;
pub mod questions;
mod recipe_lines;

pub use modules::{add_loaded, add_modules};
pub use overrides::add_given;
