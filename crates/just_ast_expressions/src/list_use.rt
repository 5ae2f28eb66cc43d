use just_data::Exact;
use just_names::{ListFeature, Token};

/// A place of a text that needs lists.
#[derive(Clone, PartialEq, Eq, Drop)]
pub struct ListUse<'src> {
    /// What needs them.
    pub feature: ListFeature,
    /// Where it stands. A function's is its name.
    pub token: Token<'src>,
}

impl<'src> Exact for ListUse<'src> {
    ghost use Rattle.std.proofs.Common.{rules};

    ghost exact = { Prim.search rules };
}
