//! What an analysis is given.
use crate::layers::config::Config;
use std::alloc::Global;

/// What an analysis is given: the layers that it asks, what the caller asks of it, and the allocator.
#[derive(Drop)]
pub struct Given<'given, S, E> {
    /// Where memory is taken.
    pub alloc: Global,
    /// The grammar.
    pub syntax: &'given S,
    /// What evaluates expressions.
    pub evaluation: &'given E,
    /// What the caller asks for.
    pub config: &'given Config,
}
