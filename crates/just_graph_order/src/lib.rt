//! The order of a graph's solid nodes by what they read, and which of them are needed.
//!
//! A node is a place in a list of rows, and its row lists the nodes that it has an edge to. Some nodes are solid, and the
//! others pass: a solid node reads the solid nodes that its edges lead to, also through nodes that pass. Nodes that pass
//! may lead to one another in circles. A circle with a solid node in it has no order.
#![tactic(auto)]

mod circles;
mod finish_order;
mod solid_order;

pub use solid_order::order_through;
