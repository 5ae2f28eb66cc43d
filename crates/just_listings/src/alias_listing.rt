//! The call of a module that lists the public aliases of it and of the modules below it.
ghost use Rattle.just_justfile.specs.declared.justfile.Justfile.{Justfile};

use crate::recursive::public_aliases_below;
use just_justfile::{Justfile, RecipeAlias};
use just_parts::layers::Config;
use just_paths::Modulepath;
use std::alloc::{AllocError, Global};

/// Modules whose aliases can be listed with those below them, as those of compiled ones can.
pub trait AliasListing<'src> {
    ghost use Rattle.std.specs.Prelude.{map, IfOk};
    ghost use Rattle.just_listings.specs.Below.{ArePublicAliasesBelow};
    ghost use Rattle.just_listings.specs.Public.{alias_behind};

    /// The module that is listed.
    ghost root: { Self → Justfile };

    /// The aliases of recipes that are private neither by their name nor by an attribute, each with the path of the module
    /// that has it: of the module and of the modules below it, in the same order, and those of one module in the order of
    /// their names. The error is want of memory.
    fn public_aliases_recursive<'run>(
        &'run self,
        alloc: Global,
        config: &Config,
    ) -> Result<Vec<(&'run RecipeAlias<'src>, &'run Modulepath)>, AllocError>
        ensures { IfOk result (λ found. ArePublicAliasesBelow config.now.unsorted (root self.now) (map alias_behind found.items)) };
}

impl<'src> AliasListing<'src> for Justfile<'src> {
    ghost root = { λ j. j };

    fn public_aliases_recursive<'run>(
        &'run self,
        alloc: Global,
        config: &Config,
    ) -> Result<Vec<(&'run RecipeAlias<'src>, &'run Modulepath)>, AllocError> {
        public_aliases_below(alloc, config.unsorted, self)
    }
}
