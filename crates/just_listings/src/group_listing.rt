//! The calls of a module that listings of its groups make.
ghost use Rattle.just_justfile.specs.declared.justfile.Justfile.{Justfile};

use crate::groups::{group_texts, public_groups};
use just_data::Text;
use just_justfile::Justfile;
use just_parts::layers::Config;
use just_recipes::Recipes;
use std::alloc::{AllocError, Global};

/// Modules whose groups can be listed, as those of compiled ones can.
pub trait GroupListing<'src> {
    ghost use Rattle.std.specs.Prelude.{◌≡◌, IfOk};
    ghost use Rattle.just_listings.specs.Groups.{ArePublicGroups, group_texts};
    ghost use Rattle.just_listings.specs.Order.{referents};

    /// The module that is listed.
    ghost grouped: { Self → Justfile };

    /// The groups that the declaration of the module names, in order. The error is want of memory.
    fn groups<'run>(&'run self, alloc: Global) -> Result<Vec<&'run str>, AllocError>
        ensures { IfOk result (λ texts. referents texts.items ≡ group_texts (grouped self.now)) };

    /// The groups of the public recipes of the module, of these, and of its public modules, each once: in the order of their
    /// texts; unsorted in that of the first that is in them, by the imports that lead to it, of which a module has none, what
    /// stands before it, and the text. The error is want of memory.
    fn public_groups(
        &self,
        alloc: Global,
        config: &Config,
        recipes: &Recipes<'src>,
    ) -> Result<Vec<Text>, AllocError>
        ensures { IfOk result (λ texts. ArePublicGroups config.now.unsorted recipes.now (grouped self.now) texts.items) };
}

impl<'src> GroupListing<'src> for Justfile<'src> {
    ghost grouped = { λ j. j };

    fn groups<'run>(&'run self, alloc: Global) -> Result<Vec<&'run str>, AllocError> {
        group_texts(alloc, self)
    }

    fn public_groups(
        &self,
        alloc: Global,
        config: &Config,
        recipes: &Recipes<'src>,
    ) -> Result<Vec<Text>, AllocError> {
        public_groups(alloc, config.unsorted, recipes, self)
    }
}
