//! The call of a module that refuses features that are not stable.
ghost use Rattle.just_justfile.specs.declared.justfile.Justfile.{Justfile};

use crate::unstable::check_unstable;
use just_errors::Error;
use just_justfile::Justfile;
use just_parts::layers::Config;
use std::alloc::Global;

/// Modules that may have features that are not stable, as compiled ones may.
pub trait Stability<'src> {
    ghost use Rattle.std.specs.Prelude.{IfErr, OnOk};
    ghost use Rattle.just_listings.specs.Unstable.{AreAllAllowed, IsUnstableRefusal};

    /// The module that is checked.
    ghost checked: { Self → Justfile };

    /// Refuses features that are not stable: of the module, and then of those in it in the order of their names, each before
    /// those in it, the first that has such features; its least is named. None is refused where the configuration allows them,
    /// and none of a module whose settings do.
    ///
    /// The error is `UnstableFeature`, or want of memory.
    fn check_unstable(&self, alloc: Global, config: &Config) -> Result<(), Error<'src>>
        ensures allowed { OnOk result (AreAllAllowed config.now.unstable (checked self.now)) }
        ensures refused { IfErr result (IsUnstableRefusal config.now.unstable (checked self.now)) };
}

impl<'src> Stability<'src> for Justfile<'src> {
    ghost checked = { λ j. j };

    fn check_unstable(&self, alloc: Global, config: &Config) -> Result<(), Error<'src>> {
        check_unstable(alloc, config.unstable, self)
    }
}
