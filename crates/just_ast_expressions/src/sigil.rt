use just_data::Exact;

/// What stands before a line of a body and says how it runs.
#[derive(Clone, Copy, PartialEq, Eq)]
pub enum Sigil {
    /// Its failure ends the recipe, and is none of the recipe.
    Guard,
    /// Its failure is no failure.
    Infallible,
    /// It is not shown.
    Quiet,
}

impl Exact for Sigil {
    ghost use Rattle.std.proofs.Common.{rules};

    ghost exact = { Prim.search rules };
}
