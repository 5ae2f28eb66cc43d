//! A shell body: the lines of a recipe go to a shell, group by group.
#![tactic(auto)]

mod body;
mod lines;
mod shell;

pub use body::run_shell;
