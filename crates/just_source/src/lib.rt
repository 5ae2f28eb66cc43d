//! How a file of a compilation came in.
#![tactic(auto)]

mod source;

pub use source::Source;
