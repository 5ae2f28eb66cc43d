//! The answers of worked examples about runs, line by line: what a compilation has, what words mean in it, what a run did and what
//! its host was asked; and what recorders, bundles and copies answer.
#![tactic(auto)]

mod answers;
mod bundles;
pub mod compilations;
mod copies;
mod entries;
pub mod evaluations;
mod recorders;
pub mod requests;
pub mod runs;

pub use answers::answer;
