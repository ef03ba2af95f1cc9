//! Laws of the definitions. Each is a function that does nothing; its contract is the law.

ghost use Rattle.grid_core.specs.Ways.{WiderWaysHoldMore, StackDistancesAreHits, MoreSetsHoldMore};
ghost use Rattle.grid_core.specs.Levels.{DirtyLevelsAreDirtyBlocks};
ghost use Rattle.grid_core.specs.Engines.{MoreNumbersServeEngines};
ghost use Rattle.grid_core.specs.WriteBacks.{WriteBacksAreFirstWrites};

/// Inclusion (Mattson and others): of two LRU caches with the same number of sets that both
/// allocate at writes, the one with more ways holds all that the other holds.
pub fn wider_ways_hold_more()
    ensures { WiderWaysHoldMore }
{}

/// One distance tells the hits of every number of ways up to that of the rows.
pub fn stack_distances_are_hits()
    ensures { StackDistancesAreHits }
{}

/// One level tells in which of these numbers of ways a block was written at or after its last load
/// (Thompson and Smith). Where a write-back cache holds it, it is then dirty.
pub fn dirty_levels_are_dirty_blocks()
    ensures { DirtyLevelsAreDirtyBlocks }
{}

/// Set refinement (Hill and Smith): of two LRU caches with the same number of ways that both
/// allocate at writes, the one whose number of sets is a multiple of the other's holds all that the
/// other holds. With one way: a block that was used last in its set was used last in its set of
/// every larger number of sets.
pub fn more_sets_hold_more()
    ensures { MoreSetsHoldMore }
{}

/// A write that finds its block not dirty makes it dirty, and the block is then written back once,
/// or is dirty still (Thompson and Smith). So under write back, where writes allocate, the blocks
/// that were written back and those that are dirty are together as many as these writes.
pub fn write_backs_are_first_writes()
    ensures { WriteBacksAreFirstWrites }
{}

/// An engine that was served with some numbers of blocks can go on with more of them.
pub fn more_numbers_serve_engines()
    ensures { MoreNumbersServeEngines }
{}
