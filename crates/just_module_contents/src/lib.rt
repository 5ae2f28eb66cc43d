//! What the files of a module say of it, and which of several definitions of one name is kept; and what no rule reads of it:
//! labels, modules without a file, features, and warnings. The rules of modules stand in `specs/`.
#![tactic(auto)]

pub mod definitions;
mod labels;
mod notes;
mod platforms;
pub mod precedence;
pub mod redefinition;
mod values;

pub use labels::{Label, doc_of, push_labels};
pub use notes::Notes;
pub use platforms::is_enabled;
pub use values::text_of_value;
