//! The plain grammar as a layer: the items that the lines of a text make, with numbers, sigils, and the fault as a token.
#![tactic(auto)]

mod conflicts;
mod item_numbers;
pub mod items;
pub mod plain_syntax;
mod recipe;
mod shebangs;
mod sigils;

pub use plain_syntax::PlainSyntax;
