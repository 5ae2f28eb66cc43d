//! What the docs, the helps and the patterns of recipes come to.
#![tactic(auto)]

mod among;
mod attributes;
mod parameters;
mod properties;
mod values;

pub use among::Among;
pub use values::valued_recipe;
