//! What a source text says: its items in order, and how they lead to files.
#![tactic(auto)]

mod ast;
mod edge;
mod item;

pub use ast::Ast;
pub use edge::Edge;
pub use item::Item;
