//! Modules as data, with those in them, and the groups of their rules. It has no calls: definitions and what holds of them.
#![tactic(auto)]
