//! Where reading of a line stops that does not follow the plain grammar.
#![tactic(auto)]

pub mod attributes;
pub mod body;
pub mod definitions;
pub mod halt;
pub mod heading;
pub mod laws;
pub mod marks;
pub mod parts;
pub mod stops;
pub mod tokens;
