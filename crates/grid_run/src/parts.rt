//! What the first level sends, added to what waits for the second.

ghost use Rattle.std.specs.Prelude.{◌≡◌, ◌++◌, ℕ, OnOk, map, option_to_list};
ghost use Rattle.std.specs.List.{flat_map};
ghost use Rattle.cache_core.specs.Geometry.{bsize_of};
ghost use Rattle.grid_core.specs.Numbered.{blocks_in};
ghost use Rattle.stage_core.specs.SecondLevel.{back};
ghost use Rattle.grid_run.specs.Numbering.{KnowsNumber, StayNumbered, part_to, sent_to};

use crate::lists::add_to;
use crate::numbered::{Known, Numbered, numbered_request};
use cache_core::{Geometry, NoMemory};
use grid_core::BlockNumbers;
use shared_list::Users;
use stage_core::What;

/// Adds a request for these users. Its block gets a number, if it has none yet, and is not the one
/// that is known; `first` is of the block size of the second levels.
fn ask(
    waiting: &mut Vec<Numbered>,
    numbers: &mut BlockNumbers,
    known: Option<Known>,
    first: Geometry,
    what: What,
    users: Users,
) -> Result<(), NoMemory>
    requires known { KnowsNumber (blocks_in numbers.old) known }
    ensures asked { OnOk result ((k : ℕ) →
        sent_to k waiting.new.items ≡ sent_to k waiting.old.items ++ part_to k users what) }
    ensures numbers { OnOk result (StayNumbered (bsize_of first) (blocks_in numbers.old)
        waiting.old.items (blocks_in numbers.new) waiting.new.items) }
{
    let asked = numbered_request(numbers, known, first, what, users)?;
    add_to(waiting, asked)?;
    Ok(())
}

/// Adds a request for these users, if there is one.
pub(crate) fn ask_part(
    waiting: &mut Vec<Numbered>,
    numbers: &mut BlockNumbers,
    known: Option<Known>,
    first: Geometry,
    part: Option<What>,
    users: Users,
) -> Result<(), NoMemory>
    requires known { KnowsNumber (blocks_in numbers.old) known }
    ensures asked { OnOk result ((k : ℕ) → sent_to k waiting.new.items
        ≡ sent_to k waiting.old.items ++ flat_map (part_to k users) (option_to_list part)) }
    ensures numbers { OnOk result (StayNumbered (bsize_of first) (blocks_in numbers.old)
        waiting.old.items (blocks_in numbers.new) waiting.new.items) }
{
    match part {
        Some(what) => ask(waiting, numbers, known, first, what, users),
        None => Ok(()),
    }
}

/// Adds write-backs for these users. Not inlined, so that what accesses send is added by less code.
#[inline(never)]
pub(crate) fn ask_write_backs(
    waiting: &mut Vec<Numbered>,
    numbers: &mut BlockNumbers,
    known: Option<Known>,
    first: Geometry,
    addrs: &[u64],
    users: Users,
) -> Result<(), NoMemory>
    requires known { KnowsNumber (blocks_in numbers.old) known }
    ensures asked { OnOk result ((k : ℕ) → sent_to k waiting.new.items
        ≡ sent_to k waiting.old.items ++ flat_map (part_to k users) (map back addrs.now)) }
    ensures numbers { OnOk result (StayNumbered (bsize_of first) (blocks_in numbers.old)
        waiting.old.items (blocks_in numbers.new) waiting.new.items) }
{
    for addr in addrs {
        ask(waiting, numbers, known, first, What::Back(*addr), users)?;
    }
    Ok(())
}
