//! A module as it is compiled, and what paths lead to from it.
#![tactic(auto)]

mod aliases;
mod disabled;
pub mod justfile;
pub mod laws;
pub mod resolution;

pub use aliases::{Aliases, ModuleAlias, RecipeAlias};
pub use disabled::Disabled;
pub use just_recipes::Recipes;
pub use justfile::{Justfile, RecipeKey};
pub use resolution::{Resolution, find_module};
