//! Modules in preorder: each before those in it.
ghost use Rattle.std.specs.Prelude.{◌≡◌, ◌++◌, ◌∷◌, [], map, reverse, IfOk, OnOk};
ghost use Rattle.just_justfile.specs.declared.justfile.Justfile.{out-Justfile};
ghost use Rattle.just_listings.specs.Order.{referents};
ghost use Rattle.just_listings.specs.Preorder.{AreChosen, AreInPreorder, choice_of};

use crate::modules::public_modules;
use just_justfile::Justfile;
use std::alloc::{AllocError, Global};

/// Which modules of a module a walk goes into.
#[derive(Clone, Copy)]
pub(crate) enum Choice {
    /// All, in the order of their names.
    All,
    /// The public ones, in the order of their names.
    Public,
    /// The public ones, in the order of the text.
    PublicUnsorted,
}

/// The choice of the public modules.
pub(crate) fn public_choice(unsorted: bool) -> Choice
    ensures { result ≡ choice_of unsorted }
{
    if unsorted {
        Choice::PublicUnsorted
    } else {
        Choice::Public
    }
}

// All modules of a module.
fn all_modules<'run, 'src>(
    alloc: Global,
    justfile: &'run Justfile<'src>,
) -> Result<Vec<&'run Justfile<'src>>, AllocError>
    ensures { IfOk result (λ modules. referents modules.items ≡ (out-Justfile justfile.now).modules) }
{
    let modules = justfile.modules.as_slice();
    let mut all = Vec::new(alloc);
    for inner in modules {
        all.push(inner)?;
    }
    Ok(all)
}

// The modules of a module that are chosen.
fn chosen_modules<'run, 'src>(
    alloc: Global,
    choice: Choice,
    justfile: &'run Justfile<'src>,
) -> Result<Vec<&'run Justfile<'src>>, AllocError>
    ensures { IfOk result (λ modules. AreChosen choice justfile.now (referents modules.items)) }
{
    match choice {
        Choice::All => all_modules(alloc, justfile),
        Choice::Public => public_modules(alloc, false, justfile),
        Choice::PublicUnsorted => public_modules(alloc, true, justfile),
    }
}

/// A module, and after it the chosen ones of its modules in order, each followed by its own.
pub(crate) fn preorder<'run, 'src>(
    alloc: Global,
    choice: Choice,
    root: &'run Justfile<'src>,
) -> Result<Vec<&'run Justfile<'src>>, AllocError>
    ensures { IfOk result (λ modules. AreInPreorder choice (root.now ∷ []) (referents modules.items)) }
{
    let mut listed = Vec::new(alloc);
    let mut left = Vec::new(alloc);
    left.push(root)?;
    while let Some(next) = left.pop() {
        let mut inner = chosen_modules(alloc, choice, next)?;
        inner.reverse();
        left.append(&mut inner)?;
        listed.push(next)?;
    }
    Ok(listed)
}
