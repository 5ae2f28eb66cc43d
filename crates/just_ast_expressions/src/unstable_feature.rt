use just_data::{BorrowedText, Exact};
use just_table::Keyed;

/// A feature of the grammar that is not stable.
#[derive(Clone, PartialEq, Eq, Drop)]
pub struct UnstableFeature<'src> {
    /// What it is called.
    pub name: BorrowedText<'src>,
}

impl<'src> Keyed<'src> for UnstableFeature<'src> {
    ghost key_of = { λ feature. feature.name };

    fn key(&self) -> &'src str {
        self.name.as_str()
    }
}

impl<'src> Exact for UnstableFeature<'src> {
    ghost use Rattle.std.proofs.Common.{rules};

    ghost exact = { Prim.search rules };
}
