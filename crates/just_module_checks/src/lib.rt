//! Checks what the files of a module say, up to its recipes, and evaluates its constants, its settings and the docs of the
//! modules that it declares.
#![tactic(auto)]

mod checks;

pub use checks::{Checked, check_files};
