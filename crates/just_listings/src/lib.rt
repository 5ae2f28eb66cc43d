//! What listings show of compiled modules: which recipes and modules, in which order, and under which groups; and the text of a
//! whole module.
#![tactic(auto)]

mod alias_listing;
mod group_listing;
mod groups;
pub mod laws;
mod listed_alias;
mod listing;
mod module_listing;
mod modules;
mod order;
mod recipe_listing;
mod recipes;
mod recursive;
mod recursive_listing;
mod shown_justfile;
mod spaced_path;
mod stable;
mod unstable;
mod walk;

pub use alias_listing::AliasListing;
pub use group_listing::GroupListing;
pub use listed_alias::ListedAlias;
pub use listing::Listing;
pub use module_listing::ModuleListing;
pub use recipe_listing::RecipeListing;
pub use recursive_listing::RecursiveListing;
pub use shown_justfile::{ShownJustfile, shown};
pub use spaced_path::SpacedPath;
pub use stable::Stability;
