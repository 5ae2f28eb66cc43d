//! What each line of a text says, in the plain grammar.
#![tactic(auto)]

pub mod alias;
pub mod attributes;
pub mod body;
pub mod definitions;
pub mod dependencies;
pub mod heading;
pub mod laws;
pub mod meaning;
pub mod path;
pub mod places;
