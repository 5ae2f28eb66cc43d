use crate::once::Once;
use just_run_layers::Held;
use just_tasks::Task;

/// A once table that is open, and the number of its counter.
#[derive(Drop)]
pub struct OpenTable {
    /// The number of its counter, in the order of opening.
    pub number: usize,
    /// The pairs that ran under it.
    pub table: Once,
}

/// What is still to do in a run.
#[derive(Drop)]
pub enum Frame<'src> {
    /// A task is called.
    Call(Task),
    /// A task whose priors ran is executed, and then its subsequents, with what was held since it was asked for.
    Block(Task, Held<'src>),
    /// An outer table is open again.
    Back(OpenTable),
}
