//! What runs a script, as the script's first line says it.
use just_data::BorrowedText;

/// The program that runs a script, and what it is handed before the script.
#[derive(Clone, PartialEq, Eq, Drop)]
pub struct Shebang<'text> {
    /// The program.
    pub interpreter: BorrowedText<'text>,
    /// What it is handed, if there is something.
    pub argument: Option<BorrowedText<'text>>,
}
