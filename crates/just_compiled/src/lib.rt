//! What modules are compiled to, as data: tables of each, and the tree of all. It has no calls: definitions and what holds of them.
#![tactic(auto)]
