//! What a module is compiled to, put together from its parts: its justfile, the modules in it, and what is noted of its files.
#![tactic(auto)]

mod inner;
mod justfiles;
mod notes;
mod paths;

pub use inner::{labelled, take_at, take_inner};
pub use justfiles::{OwnRecipes, Surroundings, make_justfile};
pub use notes::{labels_at, notes_at};
pub use paths::relative_paths;
