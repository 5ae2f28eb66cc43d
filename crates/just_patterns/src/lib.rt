//! Patterns of parameters: regular expressions that are compiled, and what they match.
#![tactic(auto)]

mod pattern;

pub use pattern::Pattern;
