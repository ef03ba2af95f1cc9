//! The parts of what a first-level cache sends to the second level for one request.

ghost use Rattle.std.specs.Prelude.{◌≡◌, map, option_to_list};
ghost use Rattle.stage_core.specs.Places.{list_if};
ghost use Rattle.stage_core.specs.SecondLevel.{back, fetch_class, flush_all};
ghost use Rattle.stage_core.specs.declared.message.What.TheVariants as what;

use crate::message::{Side, What};
use cache_core::Class;

/// The part for a write-back of the block with this first byte, if there is one.
pub fn back_part(addr: Option<u64>) -> Option<What>
    ensures { option_to_list result ≡ map back (option_to_list addr) }
{
    addr.map(What::Back)
}

/// The part for the block with this first byte, if it is fetched.
pub fn fetch_part(side: Side, fetch: bool, first: u64) -> Option<What>
    ensures { option_to_list result ≡ list_if fetch (what.Fetch (fetch_class side) first) }
{
    if !fetch {
        return None;
    }
    let class = match side {
        Side::I => Class::Instr,
        Side::D => Class::Read,
    };
    Some(What::Fetch(class, first))
}

/// The part for a write to this address, if it is sent on.
pub fn through_part(through: bool, addr: u64) -> Option<What>
    ensures { option_to_list result ≡ list_if through (what.Through addr) }
{
    through.then_some(What::Through(addr))
}

/// The part behind the write-backs of a flush: only D's flush has one.
pub fn flush_part(side: Side) -> Option<What>
    ensures { option_to_list result ≡ flush_all side }
{
    match side {
        Side::I => None,
        Side::D => Some(What::FlushAll),
    }
}
