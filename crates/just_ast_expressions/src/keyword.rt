use just_data::{Exact, Text};

/// A word that the grammar gives a meaning, as the name of a setting.
#[derive(Clone, PartialEq, Eq, Drop)]
pub struct Keyword {
    /// The word.
    pub lexeme: Text,
}

impl Exact for Keyword {
    ghost use Rattle.std.proofs.Common.{rules};

    ghost exact = { Prim.search rules };
}
