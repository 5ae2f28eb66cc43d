//! What names in the expressions of a module stand for, whether they stand for something, the numbers of what they mean, and
//! what variables an expression needs.
#![tactic(auto)]

mod name_checks;
mod needs;
pub mod numbers;

pub use name_checks::{Known, check_call, check_expression, check_names, hidden_names};
pub use needs::{Tables, assignment_references, collect_references, needed_references};
pub use numbers::{Numbers, numbered};
