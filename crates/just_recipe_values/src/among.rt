//! The constants of a module.

use just_parts::layers::{Assignment, ConstantEvaluation, FunctionDefinition, Scope};
use just_table::Table;

/// The constants of a module and what there is to evaluate expressions among them: its variables and functions, and the
/// evaluation.
#[derive(Drop)]
pub struct Among<'a, 'src, E: ConstantEvaluation> {
    /// Its variables.
    pub assignments: &'a Table<'src, Assignment<'src>>,
    /// Its constants, each with its value.
    pub constants: &'a Scope<'src>,
    /// What evaluates.
    pub evaluation: &'a E,
    /// Its functions.
    pub functions: &'a Table<'src, FunctionDefinition<'src>>,
}
