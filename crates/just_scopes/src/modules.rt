//! The modules that stand in one.
ghost use Rattle.std.specs.Prelude.{◌≡◌, ◌++◌, map, IfOk, OnOk};
ghost use Rattle.just_justfile.specs.declared.justfile.Justfile.{out-Justfile};
ghost use Rattle.just_scopes.specs.Preorder.{IsPreorderUnder, is_lazy_under};
ghost use Rattle.just_scopes.specs.loops.Preorder.{inner_modules, placed, waiting};

use just_justfile::Justfile;
use std::alloc::{AllocError, Global};

/// A module in the order of a walk, the place of the one that it stands in, of which the root's has none, and whether it is
/// lazy.
#[derive(Drop)]
pub struct PlacedModule<'run, 'src> {
    /// The module.
    pub justfile: &'run Justfile<'src>,
    /// The place, which is before that of this one.
    pub parent: Option<usize>,
    /// Whether it, or one above it, is to be evaluated where its variables are read alone.
    pub is_lazy: bool,
}

// Whether a module is lazy where the one around it is or is not.
fn is_lazy_in<'src>(above: bool, justfile: &Justfile<'src>) -> bool
    ensures { result ≡ is_lazy_under above justfile.now }
{
    above || justfile.settings.lazy
}

// Adds the modules of the one at a place to those that are left to look at, so that the first is taken next.
fn add_modules<'run, 'src>(
    left: &mut Vec<PlacedModule<'run, 'src>>,
    place: usize,
    parent: &PlacedModule<'run, 'src>,
) -> Result<(), AllocError>
    ensures { let modules = (out-Justfile parent.now.justfile.now).modules in
        OnOk result (waiting left.new.items ≡ inner_modules place parent.now.is_lazy modules ++ waiting left.old.items) }
{
    let modules = parent.justfile.modules.as_slice();
    for inner in (0..modules.len()).rev() {
        left.push(PlacedModule {
            justfile: &modules[inner],
            parent: Some(place),
            is_lazy: is_lazy_in(parent.is_lazy, &modules[inner]),
        })?;
    }
    Ok(())
}

/// The modules that stand in the root, itself among them: each before those in it, and these in the order of their names.
/// Where `above` says so all are lazy, and else each that sets so, with those in it.
pub(crate) fn modules_in<'run, 'src>(
    alloc: Global,
    root: &'run Justfile<'src>,
    above: bool,
) -> Result<Vec<PlacedModule<'run, 'src>>, AllocError>
    ensures { IfOk result (λ modules. IsPreorderUnder above root.now (map placed modules.items)) }
{
    let mut modules = Vec::new(alloc);
    let mut left = Vec::new(alloc);
    left.push(PlacedModule {
        justfile: root,
        parent: None,
        is_lazy: is_lazy_in(above, root),
    })?;
    while let Some(next) = left.pop() {
        add_modules(&mut left, modules.len(), &next)?;
        modules.push(next)?;
    }
    Ok(modules)
}
