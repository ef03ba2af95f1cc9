//! Laws of the definitions. Each is a function that does nothing; its contract is the law.

ghost use Rattle.std.specs.Prelude.{◌≡◌, ◌^◌};
ghost use Rattle.cache_core.specs.Examples.{WorkedExamples};
ghost use Rattle.cache_core.specs.Laws.{AtMostOneLeaves, WriteBacksAreOfWrites};
ghost use Rattle.cache_core.specs.Laws.{WriteBacksHaveEarlierWrites, PartsAreCharged};
ghost use Rattle.cache_core.specs.Laws.{FlushesLeaveNoneDirty, DirtyBlocksAreDirty};
ghost use Rattle.cache_core.specs.Laws.{DirtyBlocksRise, OneLruSetHasNoConflict};
ghost use Rattle.cache_core.specs.Laws.{OrderedWaysAreResidents, CountsGoOnByEvents};

use crate::cache::MAX_EVENTS;

/// If the blocks of a set are ordered by last use (FIFO: by last load), the first ones, as many as
/// there are ways, are the residents by reuse distance. This is of one number of ways. That LRU
/// caches with more ways hold what those with fewer hold, if they allocate at writes, is the stack
/// property (Mattson and others), which `grid_core` proves over the same definitions.
pub fn ordered_ways_are_residents()
    ensures { OrderedWaysAreResidents }
{}

/// An access evicts at most one block.
pub fn at_most_one_block_leaves()
    ensures { AtMostOneLeaves }
{}

/// A fully associative LRU cache has no conflict miss: it acts as its own shadow.
pub fn one_lru_set_has_no_conflict()
    ensures { OneLruSetHasNoConflict }
{}

/// Each write-back, of an access or a flush, can be charged to a distinct earlier write: an access
/// writes back and leaves dirty no more blocks than were dirty before it, and one more if it is a
/// write. So a cache sends at most two parts for each write and one for each other access, the
/// write-backs of its flushes included.
pub fn write_backs_are_charged()
    ensures writes { WriteBacksAreOfWrites }
    ensures histories { WriteBacksHaveEarlierWrites }
    ensures accesses { PartsAreCharged }
    ensures flushes { FlushesLeaveNoneDirty }
{}

/// The list of the dirty blocks has exactly the blocks that are dirty, each once, in rising order.
pub fn dirty_blocks_are_the_dirty_ones()
    ensures rises { DirtyBlocksRise }
    ensures dirty { DirtyBlocksAreDirty }
{}

/// The counts over a whole history are those that `Counts::add_access` and `add_flush` make of no
/// counts, event by event.
pub fn counts_go_on_by_events()
    ensures { CountsGoOnByEvents }
{}

/// The value of `MAX_EVENTS`: more events than any trace within the limits makes.
pub fn max_events_is_two_to_the_forty_four()
    ensures { MAX_EVENTS ≡ 2 ^ 44 }
{}

/// The definitions give the outcomes of small traces that were worked out by hand.
pub fn definitions_meet_worked_examples()
    ensures { WorkedExamples }
{}
