//! The lines, the lexemes and the expressions of the plain grammar.
#![tactic(auto)]

pub mod expressions;
pub mod features;
pub mod laws;
pub mod lexer;
pub mod lines;
pub mod spelling;
mod stack;
