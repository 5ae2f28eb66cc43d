//! What the form Evaluate shows of compiled modules: where a path leads, which variables it asks for, and the text of their
//! values; and how a text is written to an output.
#![tactic(auto)]

mod bindings;
mod destination;
mod escapes;
mod evaluation_target;
pub mod laws;
mod lines;
mod outputs;
mod values;
mod variables;

pub use destination::submodule_aliased;
pub use evaluation_target::{EvaluationTarget, EvaluationTargets};
pub use outputs::write_all;
pub use values::evaluated_text;
pub use variables::target_numbers;
