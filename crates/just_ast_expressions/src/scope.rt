use just_data::{Chain, Exact, Sequence, Text};
use just_names::{Name, Number};

/// A name and its value.
#[derive(Clone, PartialEq, Eq, Drop)]
pub struct Binding<'src> {
    /// The name.
    pub name: Name<'src>,
    /// What it is told apart by, as every definition.
    pub number: Number,
    /// Its value, which is a list of texts.
    pub value: Sequence<Text>,
    /// Whether recipes have it in their environment.
    pub export: bool,
    /// Whether it is left out of listings.
    pub private: bool,
}

impl<'src> Exact for Binding<'src> {
    ghost use Rattle.std.proofs.Common.{rules};

    ghost exact = { Prim.search rules };
}

/// The values of names: what a name is bound to last. A scope that extends another one shares what that one binds.
#[derive(Clone, Drop)]
pub struct Scope<'src> {
    /// The names and their values, in the order in which they were bound.
    pub bindings: Chain<Binding<'src>>,
}

impl<'src> Exact for Scope<'src> {
    ghost use Rattle.std.proofs.Common.{rules};

    ghost exact = { Prim.search rules };
}
