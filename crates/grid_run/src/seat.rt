//! Where a cache is served, among the families of one side.

ghost use Rattle.std.specs.Prelude.{IfOk, IfSome, OnOk, map};
ghost use Rattle.cache_core.specs.Standing.{rules_from};
ghost use Rattle.grid_run.specs.Plans.{IsShelfFor};
ghost use Rattle.grid_run.specs.Seats.{IsSeatOf, Keeps, rules_on};

use crate::lists::add_to;
use crate::shelf::Shelf;
use cache_core::{Geometry, NoMemory, Policy};
use stage_core::Side;
use std::alloc::Global;

/// Which family, of those of a side or of the second levels, and which cache of it. A family is the
/// caches of one block size and one policy that one engine serves together.
#[derive(Clone, Copy, Debug, PartialEq, Eq)]
pub(crate) struct Seat {
    pub family: usize,
    pub cell: usize,
}

/// The seats of the two first-level caches in front of a second level.
#[derive(Clone, Copy, Debug)]
pub(crate) struct BothSeats {
    pub i: Seat,
    pub d: Seat,
}

impl BothSeats {
    ghost use Rattle.std.specs.Prelude.{◌≡◌};
    ghost use Rattle.grid_run.specs.Senders.{seat_on};

    /// The seat of the first-level cache on a side.
    pub fn on(self, side: Side) -> Seat
        ensures { result ≡ seat_on side self }
    {
        match side {
            Side::I => self.i,
            Side::D => self.d,
        }
    }
}

/// The index of a shelf for this block size and policy, if there is one.
fn find_shelf(shelves: &Vec<Shelf>, geometry: Geometry, policy: Policy) -> Option<usize>
    ensures { IfSome result (IsShelfFor geometry policy shelves.now.items) }
{
    for (index, shelf) in shelves.iter().enumerate() {
        if shelf.suits(geometry, policy) {
            return Some(index);
        }
    }
    None
}

/// The index of a shelf for this block size and policy. Where there is none, an empty one joins
/// them.
fn shelf_for(
    alloc: Global,
    shelves: &mut Vec<Shelf>,
    geometry: Geometry,
    policy: Policy,
) -> Result<usize, NoMemory>
    ensures shelf { IfOk result (IsShelfFor geometry policy shelves.new.items) }
    ensures keeps { OnOk result
        (Keeps (map rules_on shelves.old.items) (map rules_on shelves.new.items)) }
{
    if let Some(index) = find_shelf(shelves, geometry, policy) {
        return Ok(index);
    }
    add_to(shelves, Shelf::new(alloc, geometry, policy))
}

/// The seat of a cache. Where there is none yet, it joins the others of its block size and policy.
pub(crate) fn seat_for(
    alloc: Global,
    shelves: &mut Vec<Shelf>,
    geometry: Geometry,
    policy: Policy,
) -> Result<Seat, NoMemory>
    ensures seat { IfOk result (IsSeatOf (map rules_on shelves.new.items)
        (rules_from geometry policy)) }
    ensures keeps { OnOk result
        (Keeps (map rules_on shelves.old.items) (map rules_on shelves.new.items)) }
{
    let family = shelf_for(alloc, shelves, geometry, policy)?;
    let cell = shelves[family].cell_for(geometry)?;
    Ok(Seat { family, cell })
}
