//! The files of modules under places, joined, and the checks of a module's headers and names.
#![tactic(auto)]

pub mod files;
pub mod functions;
pub mod headers;
pub mod join;
pub mod module_names;
mod settings;
pub mod variables;
