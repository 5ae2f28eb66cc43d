//! The evaluation that goes with the small grammar, as a layer: while compiling, and in runs.
#![tactic(auto)]

mod dependency;
mod environments;
mod expressions;
mod lines;
mod parameters;
pub mod plain_evaluation;
mod refusals;
mod requests;
mod variables;

pub use plain_evaluation::PlainEvaluation;
pub use requests::Asked;
