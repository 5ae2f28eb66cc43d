//! Recipes and aliases that cannot be used.
use just_parts::layers::Name;
use just_paths::Modulepath;
use just_table::Keyed;
use std::collections::BTreeSet;

/// A recipe or an alias that is not there, since what it depends on or leads to lies in optional modules without a file.
#[derive(Drop)]
pub struct Disabled<'src> {
    /// Its name.
    pub name: Name<'src>,
    /// The paths of these modules, each from the module that names it.
    pub modules: BTreeSet<Modulepath>,
}

impl<'src> Keyed<'src> for Disabled<'src> {
    ghost use Rattle.just_names.specs.Token.{lexeme};

    ghost key_of = { λ it. lexeme it.name.token };

    fn key(&self) -> &'src str {
        self.name.lexeme()
    }
}
