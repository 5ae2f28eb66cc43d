//! Lists in the order of a text.
ghost use Rattle.std.specs.Prelude.{◌≡◌, map, IfOk};
ghost use Rattle.just_listings.specs.Order.{AreInAskedOrder, placed_item, place_order};
ghost use Rattle.just_listings.specs.loops.Order.{placed_at};

use just_data::Sequence;
use std::alloc::{AllocError, Global};

/// Where something stands in the files of a module: how many bytes stand before each import that leads to its file, the
/// outermost first, and how many before it in that file. Places are ordered by the imports, and then by what stands before.
#[derive(PartialEq, Eq, PartialOrd, Ord, Drop)]
pub(crate) struct Place {
    pub(crate) imports: Sequence<usize>,
    pub(crate) offset: usize,
}

/// Something, and where it stands.
#[derive(Drop)]
pub(crate) struct Placed<T> {
    pub(crate) place: Place,
    pub(crate) item: T,
}

/// What stands at places, in their order where it is unsorted, and otherwise as it comes.
pub(crate) fn in_order<T: Drop>(
    unsorted: bool,
    mut placed: Vec<Placed<T>>,
) -> Result<Vec<Placed<T>>, AllocError>
    ensures { IfOk result (λ there. AreInAskedOrder unsorted placed_at place_order placed.items there.items) }
{
    if unsorted {
        placed.sort_by(|a, b| a.place.cmp(&b.place))?;
    }
    Ok(placed)
}

/// What stands at places, without these.
pub(crate) fn items_of<T: Drop>(alloc: Global, placed: Vec<Placed<T>>) -> Result<Vec<T>, AllocError>
    ensures { IfOk result (λ items. items.items ≡ map placed_item placed.items) }
{
    placed.into_iter().map(|it| it.item).collect(alloc)
}
