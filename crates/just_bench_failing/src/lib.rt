//! An evaluation that fails at one question of a run.
#![tactic(auto)]

mod failing_evaluation;
mod failure;

pub use failing_evaluation::FailingEvaluation;
