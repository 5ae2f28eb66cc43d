//! The kept recipes of a module, resolved all at once, as the analysis asks for them, and the table of their keys.
#![tactic(auto)]

mod keys;
mod resolution;

pub use keys::recipe_keys;
pub use resolution::{Resolving, resolve_kept};
