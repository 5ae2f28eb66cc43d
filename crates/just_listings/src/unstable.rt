//! Features that are not stable.
ghost use Rattle.std.specs.Prelude.{◌≡◌, IfErr, OnOk};
ghost use Rattle.std.specs.Option.{option_copied};
ghost use Rattle.just_listings.specs.Unstable.{AreAllAllowed, IsUnstableRefusal, least_feature, refused};

use crate::walk::{Choice, preorder};
use just_data::{BorrowedText, Text};
use just_errors::{Error, RunError};
use just_justfile::Justfile;
use std::alloc::Global;

// The least feature of a module that is not stable.
fn least_feature<'run, 'src>(justfile: &'run Justfile<'src>) -> Option<&'run BorrowedText<'src>>
    ensures { option_copied result ≡ least_feature justfile.now }
{
    justfile.unstable_features.values().next()
}

// The feature of a module that is refused.
fn refused<'run, 'src>(
    allowed: bool,
    justfile: &'run Justfile<'src>,
) -> Option<&'run BorrowedText<'src>>
    ensures { option_copied result ≡ refused allowed justfile.now }
{
    if allowed || justfile.settings.unstable {
        return None;
    }
    least_feature(justfile)
}

/// Refuses the least feature that is not stable of the first of a module and of those below it that have one, unless all are
/// allowed or the settings of that module allow it.
pub(crate) fn check_unstable<'src>(
    alloc: Global,
    allowed: bool,
    root: &Justfile<'src>,
) -> Result<(), Error<'src>>
    ensures allowed { OnOk result (AreAllAllowed allowed root.now) }
    ensures refused { IfErr result (IsUnstableRefusal allowed root.now) }
{
    let modules = preorder(alloc, Choice::All, root)?;
    for at in 0..modules.len() {
        if let Some(feature) = refused(allowed, &*modules[at]) {
            let feature = Text::from_str(alloc, feature.as_str())?;
            return Err(Error::Run(RunError::UnstableFeature { feature }));
        }
    }
    Ok(())
}
