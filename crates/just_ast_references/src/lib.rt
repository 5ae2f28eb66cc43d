//! What expressions refer to: their parts, and their calls and variables.
#![tactic(auto)]

mod parts;
pub mod references;

pub use parts::push_parts;
pub use references::{Reference, References};
