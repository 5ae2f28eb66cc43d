use just_data::Exact;
use std::fmt;

/// What needs lists.
#[derive(Clone, Copy, Debug, PartialEq, Eq)]
pub enum ListFeature {
    /// A function over lists, which a function of the text may stand for.
    Function,
    /// A list, or lists one after another.
    List,
}

impl ListFeature {
    ghost use Rattle.std.specs.Prelude.{◌≡◌};
    ghost use Rattle.just_names.specs.ListFeature.{is_function};

    /// Whether a function of the text may stand for it.
    pub fn function(&self) -> bool
        ensures { result ≡ is_function self.now }
    {
        matches!(self, ListFeature::Function)
    }
}

impl fmt::Display for ListFeature {
    ghost use Rattle.std.specs.Prelude.{Some};
    ghost use Rattle.just_names.specs.ListFeature.{feature_text};

    ghost output = { λ feature. Some (feature_text feature) };

    fn fmt<W: fmt::Write>(&self, f: &mut fmt::Formatter<W>) -> fmt::Result {
        match self {
            ListFeature::Function => f.write_str("A function over lists"),
            ListFeature::List => f.write_str("A list"),
        }
    }
}

impl Exact for ListFeature {
    ghost use Rattle.std.proofs.Common.{rules};

    ghost exact = { Prim.search rules };
}
