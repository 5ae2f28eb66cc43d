//! The answers of worked examples about texts and compiled modules, line by line: what a text says, what the calls of a compilation
//! give, where paths lead, what listings show, and which file a search finds.
#![tactic(auto)]

pub mod calls;
mod item_lines;
mod items;
pub mod listings;
mod printed;
pub mod searches;
mod texts;
pub mod traits;
pub mod variables;
pub mod walks;

pub use items::{add_items, answer_text, read_pairs};
