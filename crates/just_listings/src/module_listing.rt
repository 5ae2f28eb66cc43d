//! The call of a module that lists the public modules in it.
ghost use Rattle.just_justfile.specs.declared.justfile.Justfile.{Justfile};

use crate::modules::public_modules;
use just_justfile::Justfile;
use just_parts::layers::Config;
use std::alloc::{AllocError, Global};

/// Modules whose modules can be listed, as those of compiled ones can.
pub trait ModuleListing<'src> {
    ghost use Rattle.std.specs.Prelude.{map, IfOk};
    ghost use Rattle.just_listings.specs.Public.{ArePublicModules};

    /// The module that is listed.
    ghost parent: { Self → Justfile };

    /// The modules of the module that are not private, in the order of their names; unsorted by how many bytes stand before
    /// the name where they are declared, and those with equally many in the order of their names. The error is want of memory.
    fn public_modules<'run>(
        &'run self,
        alloc: Global,
        config: &Config,
    ) -> Result<Vec<&'run Self>, AllocError>
        ensures { IfOk result (λ modules. ArePublicModules config.now.unsorted (parent self.now) (map (λ it. parent it.now) modules.items)) };
}

impl<'src> ModuleListing<'src> for Justfile<'src> {
    ghost parent = { λ j. j };

    fn public_modules<'run>(
        &'run self,
        alloc: Global,
        config: &Config,
    ) -> Result<Vec<&'run Justfile<'src>>, AllocError> {
        public_modules(alloc, config.unsorted, self)
    }
}
