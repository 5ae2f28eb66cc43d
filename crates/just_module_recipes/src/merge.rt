//! Which recipes of a module are disabled, and by which modules.
ghost use Rattle.std.specs.Prelude.{◌≡◌, ◌<◌, ◌∷◌, ◌++◌, [], length, IfOk, OnOk};
ghost use Rattle.std.specs.List.{All};
ghost use Rattle.just_module_recipes.specs.loops.Rows.{AreTold, IsOrderOf, SameMembers, gathered_paths, near};

use crate::targets::Target;
use just_data::Sequence;
use just_paths::Modulepath;
use std::alloc::{AllocError, Global};
use std::collections::BTreeSet;

// Adds a path that is not yet in the set.
fn add_path(all: &mut BTreeSet<Modulepath>, path: &Modulepath) -> Result<(), AllocError>
    ensures { OnOk result (SameMembers all.new.keys (all.old.keys ++ path.now ∷ [])) }
{
    if all.contains(path) {
        return Ok(());
    }
    all.insert(path.clone()?)?;
    Ok(())
}

// Adds the paths that are not yet in the set.
fn add(all: &mut BTreeSet<Modulepath>, more: &BTreeSet<Modulepath>) -> Result<(), AllocError>
    ensures { OnOk result (SameMembers all.new.keys (all.old.keys ++ more.now.keys)) }
{
    for path in more {
        add_path(all, path)?;
    }
    Ok(())
}

// Adds the set of what a dependency leads to.
fn add_target(
    all: &mut BTreeSet<Modulepath>,
    target: &Target,
    sets: &[BTreeSet<Modulepath>],
) -> Result<(), AllocError>
    requires { All (λ j. j < length sets.now) (near (target.now ∷ [])) }
    ensures { OnOk result (SameMembers all.new.keys (all.old.keys ++ gathered_paths sets.now (target.now ∷ []))) }
{
    match target {
        Target::Near(place) => add(all, &sets[*place]),
        Target::Far(_) => Ok(()),
        Target::Gone(modules) => add(all, modules),
    }
}

// The union of the sets of what a recipe's dependencies lead to.
fn gather(
    alloc: Global,
    targets: &[Target],
    sets: &[BTreeSet<Modulepath>],
) -> Result<BTreeSet<Modulepath>, AllocError>
    requires { All (λ j. j < length sets.now) (near targets.now) }
    ensures { IfOk result (λ all. SameMembers all.keys (gathered_paths sets.now targets.now)) }
{
    let mut all = BTreeSet::new(alloc);
    for target in targets {
        add_target(&mut all, target, sets)?;
    }
    Ok(all)
}

fn no_sets(alloc: Global, count: usize) -> Result<Vec<BTreeSet<Modulepath>>, AllocError>
    ensures { IfOk result (λ sets. length sets.items ≡ count) }
{
    let mut sets = Vec::with_capacity(alloc, count)?;
    for _ in 0..count {
        sets.push(BTreeSet::new(alloc))?;
    }
    Ok(sets)
}

/// The paths of the modules that disable the recipe at each place: one pass over an order.
pub fn merge(
    alloc: Global,
    rows: &[Sequence<Target>],
    order: &[usize],
) -> Result<Vec<BTreeSet<Modulepath>>, AllocError>
    requires { IsOrderOf rows.now order.now }
    ensures count { IfOk result (λ sets. length sets.items ≡ length rows.now) }
    ensures told { IfOk result (λ sets. AreTold rows.now order.now (length order.now) sets.items) }
{
    let mut sets = no_sets(alloc, rows.len())?;
    for n in 0..order.len() {
        let place = order[n];
        let set = gather(alloc, rows[place].as_slice(), sets.as_slice())?;
        sets[place] = set;
    }
    Ok(sets)
}
