//! Bundles of files: an input as a text, a text as a map from paths to texts, paths that are like another, and the lines that lead
//! to files.
#![tactic(auto)]

mod bundle;
mod input;
mod leads;
mod places;
mod similar_paths;
mod walk;

pub use bundle::{BundleError, read_sources};
pub use input::{InputError, read_text};
pub use places::{FileLine, line_of};
pub use similar_paths::paths_like;
