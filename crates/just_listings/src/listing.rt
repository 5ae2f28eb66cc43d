//! The call of a module that lists its public recipes.
ghost use Rattle.just_justfile.specs.declared.justfile.Justfile.{Justfile};

use crate::recipes::public_recipes;
use just_justfile::Justfile;
use just_parts::Recipe;
use just_parts::layers::Config;
use just_recipes::Recipes;
use std::alloc::{AllocError, Global};

/// Modules whose recipes can be listed, as those of compiled ones can.
pub trait Listing<'src> {
    ghost use Rattle.std.specs.Prelude.{IfOk};
    ghost use Rattle.just_listings.specs.Order.{referents};
    ghost use Rattle.just_listings.specs.Public.{ArePublicRecipes};

    /// The module that is listed.
    ghost listed: { Self → Justfile };

    /// The recipes of the module, of these, that are private neither by their name nor by an attribute, in the order of their
    /// names; unsorted by the imports that lead to them, and of one file in the order of its text. The error is want of memory.
    fn public_recipes<'run>(
        &self,
        alloc: Global,
        config: &Config,
        recipes: &'run Recipes<'src>,
    ) -> Result<Vec<&'run Recipe<'src>>, AllocError>
        ensures { IfOk result (λ found. ArePublicRecipes config.now.unsorted recipes.now (listed self.now) (referents found.items)) };
}

impl<'src> Listing<'src> for Justfile<'src> {
    ghost listed = { λ j. j };

    fn public_recipes<'run>(
        &self,
        alloc: Global,
        config: &Config,
        recipes: &'run Recipes<'src>,
    ) -> Result<Vec<&'run Recipe<'src>>, AllocError> {
        public_recipes(alloc, config.unsorted, recipes, self)
    }
}
