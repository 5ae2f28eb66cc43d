//! Sets of what a run needs: there are such, for each root with recipes and tasks, so that what other contracts say of each
//! collection of them says something.
#![tactic(auto)]

pub mod laws;
