//! The public modules of a module.
ghost use Rattle.std.specs.Prelude.{◌≡◌, map, IfOk};
ghost use Rattle.std.specs.List.{All, filter};
ghost use Rattle.just_listings.specs.Order.{referents};
ghost use Rattle.just_listings.specs.loops.Order.{item_behind};
ghost use Rattle.just_listings.specs.Public.{ArePublicModules, is_public_module, module_place};

use crate::order::{Place, Placed, in_order, items_of};
use just_data::Sequence;
use just_justfile::Justfile;
use std::alloc::{AllocError, Global};

/// Where a module is declared. By which import its declaration comes in is not told.
pub(crate) fn place_of_module<'src>(alloc: Global, justfile: &Justfile<'src>) -> Place
    ensures { result ≡ module_place justfile.now }
{
    let offset = match &justfile.name {
        Some(name) => name.offset(),
        None => 0,
    };
    Place {
        imports: Sequence::new(alloc),
        offset,
    }
}

// The public ones of some modules, each where it is declared.
fn placed_modules<'run, 'src>(
    alloc: Global,
    modules: &'run [Justfile<'src>],
) -> Result<Vec<Placed<&'run Justfile<'src>>>, AllocError>
    ensures public { IfOk result (λ placed. map item_behind placed.items ≡ filter is_public_module modules.now) }
    ensures places { IfOk result (λ placed. All (λ it. it.place ≡ module_place it.item.now) placed.items) }
{
    let mut placed = Vec::new(alloc);
    for inner in modules {
        if !inner.private {
            placed.push(Placed {
                place: place_of_module(alloc, inner),
                item: inner,
            })?;
        }
    }
    Ok(placed)
}

/// The public modules of a module, in the order of their names, or unsorted in that of their declarations.
pub(crate) fn public_modules<'run, 'src>(
    alloc: Global,
    unsorted: bool,
    justfile: &'run Justfile<'src>,
) -> Result<Vec<&'run Justfile<'src>>, AllocError>
    ensures { IfOk result (λ modules. ArePublicModules unsorted justfile.now (referents modules.items)) }
{
    let placed = placed_modules(alloc, justfile.modules.as_slice())?;
    let ordered = in_order(unsorted, placed)?;
    let modules = items_of(alloc, ordered)?;
    Ok(modules)
}
