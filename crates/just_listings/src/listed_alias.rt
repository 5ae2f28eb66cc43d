//! Whether listings show an alias.
ghost use Rattle.std.specs.Prelude.{◌≡◌};
ghost use Rattle.std.specs.List.{list_any};
ghost use Rattle.just_ast_definitions.specs.declared.alias.Alias.{Alias};
ghost use Rattle.just_names.specs.declared.number.Number.{Number};
ghost use Rattle.just_recipe_run.specs.Calls.{says_private};

use just_justfile::RecipeAlias;
use just_parts::layers::{Attribute, NamedAttribute};

// Whether an attribute says that a listing leaves it out.
fn has_private(attributes: &[NamedAttribute]) -> bool
    ensures { result ≡ list_any says_private attributes.now }
{
    attributes
        .iter()
        .any(|named| matches!(named.attribute, Attribute::Private))
}

/// Aliases of recipes that listings show or leave out.
pub trait ListedAlias {
    ghost use Rattle.std.specs.Prelude.{◌≡◌};
    ghost use Rattle.just_listings.specs.Public.{is_public_alias};

    /// The alias.
    ghost alias_of: { Self → Alias Number };

    /// Whether the alias is private neither by its name, which begins with `_` then, nor by an attribute.
    fn is_public(&self) -> bool
        ensures { result ≡ is_public_alias (alias_of self.now) };
}

impl<'src> ListedAlias for RecipeAlias<'src> {
    ghost alias_of = { λ alias. alias };

    fn is_public(&self) -> bool {
        !self.name.lexeme().starts_with('_') && !has_private(self.attributes.as_slice())
    }
}
