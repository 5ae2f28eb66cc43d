//! What the bodies of recipes share: what they run by, what attributes say of their run, and what the end of a program comes to.
#![tactic(auto)]

pub mod attributes;
pub mod body;
pub mod confirmation;
pub mod judgement;
