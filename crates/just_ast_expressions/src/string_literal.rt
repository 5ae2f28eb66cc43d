use just_data::{Exact, Text};
use just_names::Token;

/// A quoted text of a source text: what stands between the quotes, and the whole with its quotes.
#[derive(Clone, PartialEq, Eq, Drop)]
pub struct StringLiteral<'src> {
    /// What stands between the quotes.
    pub cooked: Text,
    /// The whole, with its quotes.
    pub token: Token<'src>,
}

impl<'src> Exact for StringLiteral<'src> {
    ghost use Rattle.std.proofs.Common.{rules};

    ghost exact = { Prim.search rules };
}
