//! The run of what command words mean in a module of modules, and the forms Command and Evaluate.
#![tactic(auto)]

mod command_run;
mod evaluate_run;
mod groups;
pub mod laws;
mod open_run;
pub mod run;
mod tops;

pub use just_execution::Report;
pub use run::Run;
