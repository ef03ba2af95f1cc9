//! Where each cache of an engine is served.

ghost use Rattle.std.specs.Prelude.{◌≡◌, length, map, IfOk};
ghost use Rattle.std.specs.List.{All};
ghost use Rattle.grid_core.specs.Cells.{items_of};
ghost use Rattle.grid_core.specs.Places.{IsPlace, list_placed};

use cache_core::Geometry;
use std::alloc::{AllocError, Global};

/// A cache of an engine: the one of this index among those that are served together, or among those
/// of their own. Or the shadow of a cache: that of one that is served together with others, or one
/// of those that are kept for caches of their own.
#[derive(Clone, Copy, Debug)]
pub(crate) enum Place {
    Together(usize),
    Apart(usize),
}

/// One geometry of an engine: the place of its cache, and the place that counts the misses of its
/// shadow.
#[derive(Clone, Copy, Debug)]
pub(crate) struct Seat {
    pub geometry: Geometry,
    pub cell: Place,
    pub shadow: Place,
}

/// The list at a place.
fn list_at(
    together: &Vec<Vec<u64>>,
    apart: &Vec<Vec<u64>>,
    place: Place,
) -> Result<Vec<u64>, AllocError>
    requires { IsPlace (length together.now.items) (length apart.now.items) place }
    ensures { IfOk result (λ list. list.items ≡ list_placed (map items_of together.now.items)
        (map items_of apart.now.items) place) }
{
    match place {
        Place::Together(index) => together[index].clone(),
        Place::Apart(index) => apart[index].clone(),
    }
}

/// The list of each seat.
pub(crate) fn lists_of(
    alloc: Global,
    seats: &Vec<Seat>,
    together: &Vec<Vec<u64>>,
    apart: &Vec<Vec<u64>>,
) -> Result<Vec<Vec<u64>>, AllocError>
    requires { All (λ s. IsPlace (length together.now.items) (length apart.now.items) s.cell)
        seats.now.items }
    ensures { IfOk result (λ lists. map items_of lists.items ≡ map (λ s. list_placed
        (map items_of together.now.items) (map items_of apart.now.items) s.cell)
        seats.now.items) }
{
    let mut lists = Vec::new(alloc);
    for seat in seats.iter() {
        let list = list_at(together, apart, seat.cell)?;
        lists.push(list)?;
    }
    Ok(lists)
}
