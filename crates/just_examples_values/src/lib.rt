//! Answers of worked examples to the questions that a run asks of the evaluation: the values of the variables of a module,
//! what the parameters of a recipe come to, and what its lines and the expressions in them do among these; what programs have
//! in their environment, and how a value is shown.
#![tactic(auto)]

mod answers;
mod arguments;
mod bodies;
mod environments;
mod parameters;
mod place;
mod variables;

pub use answers::add_evaluation;
