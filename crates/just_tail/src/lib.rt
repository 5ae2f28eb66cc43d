//! The words that a recipe takes after its head: options, positional words, and the groups that its parameters get of them.
#![tactic(auto)]

mod arguments;
mod checks;
mod error;
mod groups;
pub mod laws;
mod options;
mod plan;
mod progress;
mod switch;
mod tail;

pub use arguments::take_arguments;
pub use error::TailError;
pub use tail::{Tail, read_tail};
