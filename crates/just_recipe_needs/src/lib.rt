//! The variables that a recipe needs, by their numbers. Recipes that name the same share one list.
#![tactic(auto)]

mod collection;
mod direct_names;
mod references;

pub use collection::Sources;
pub use references::{RecipeReferences, references_of_all};
