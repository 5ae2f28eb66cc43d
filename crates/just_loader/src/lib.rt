//! Loads the files of a compilation from a source map: what a root reaches, or what is at fault.
#![tactic(auto)]

mod circles;
pub mod files;
mod index;
mod links;
pub mod loaded;
mod module_file;
mod scan;
mod scan_result;
pub mod sources;
mod texts;

pub use files::load;
pub use links::link;
pub use loaded::Loaded;
pub use module_file::{find_module_file, relative_path};
pub use sources::Sources;
