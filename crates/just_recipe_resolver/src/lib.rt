//! Resolves recipes of a module, as a caller may: those that it keeps all at once, or one over those that it depends on.
#![tactic(auto)]

pub mod recipe_resolver;
pub mod unresolved_recipe;

pub use recipe_resolver::RecipeResolver;
