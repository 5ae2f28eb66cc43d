//! Recipes, as a text says them and resolved, and what they depend on.
#![tactic(auto)]

mod dependency;
mod groups;
mod recipe;
mod recipe_signature;
mod texts;

pub use dependency::{Dependency, DependencyArgument, UnresolvedDependency};
pub use recipe::{Recipe, UnresolvedRecipe};
pub use recipe_signature::RecipeSignature;
