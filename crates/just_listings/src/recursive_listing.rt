//! The call of a module that lists the public recipes of it and of the modules below it.
ghost use Rattle.just_justfile.specs.declared.justfile.Justfile.{Justfile};

use crate::recursive::public_recipes_below;
use just_justfile::Justfile;
use just_parts::Recipe;
use just_parts::layers::Config;
use just_recipes::Recipes;
use std::alloc::{AllocError, Global};

/// Modules whose recipes can be listed with those below them, as those of compiled ones can.
pub trait RecursiveListing<'src> {
    ghost use Rattle.std.specs.Prelude.{IfOk};
    ghost use Rattle.just_listings.specs.Below.{ArePublicRecipesBelow};
    ghost use Rattle.just_listings.specs.Order.{referents};

    /// The module that is listed.
    ghost root: { Self → Justfile };

    /// The public recipes of the module and of the modules below it that are reached through public ones: those of a module
    /// before those of the modules in it, which follow one after another in their order, each with those below it. The error is
    /// want of memory.
    fn public_recipes_recursive<'run>(
        &self,
        alloc: Global,
        config: &Config,
        recipes: &'run Recipes<'src>,
    ) -> Result<Vec<&'run Recipe<'src>>, AllocError>
        ensures { IfOk result (λ found. ArePublicRecipesBelow config.now.unsorted recipes.now (root self.now) (referents found.items)) };
}

impl<'src> RecursiveListing<'src> for Justfile<'src> {
    ghost root = { λ j. j };

    fn public_recipes_recursive<'run>(
        &self,
        alloc: Global,
        config: &Config,
        recipes: &'run Recipes<'src>,
    ) -> Result<Vec<&'run Recipe<'src>>, AllocError> {
        public_recipes_below(alloc, config.unsorted, recipes, self)
    }
}
