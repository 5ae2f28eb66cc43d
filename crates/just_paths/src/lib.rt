//! Paths of modules, and clean paths of files.
#![tactic(auto)]

mod clean;
mod join;
mod modulepath;

pub use clean::{folder_of, is_clean};
pub use join::clean_join;
pub use modulepath::Modulepath;
