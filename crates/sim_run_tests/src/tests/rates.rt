//! Whole reports, with rates that were worked out by hand.

use super::{EVERYTHING, USUAL, config, config_with, writes_text};
use cache_core::{Policy, Repl};

/// Reads of three blocks of a set of two ways, the first block also between the others.
static THREE_BLOCKS: &[u8] = b"0 0\n0 8\n0 0\n0 10\n0 0\n";

/// LRU keeps the first block: 3 of 5 reads miss, and each is the second level's first to its block.
static LRU: &str = "\
l1-icache                Total      Instrn        Read       Write        Misc
Demand Fetches               0           0           0           0           0
Demand Misses                0           0           0           0           0
Miss Rate               0.0000      0.0000      0.0000      0.0000      0.0000
Compulsory                   0           0           0           0           0
Capacity                     0           0           0           0           0
Conflict                     0           0           0           0           0
Blocks Fetched               0
Written Back                 0
Writes Sent On               0
Flushes                      0

l1-dcache                Total      Instrn        Read       Write        Misc
Demand Fetches               5           0           5           0           0
Demand Misses                3           0           3           0           0
Miss Rate               0.6000      0.0000      0.6000      0.0000      0.0000
Compulsory                   3           0           3           0           0
Capacity                     0           0           0           0           0
Conflict                     0           0           0           0           0
Blocks Fetched               3
Written Back                 0
Writes Sent On               0
Flushes                      0

l2-ucache                Total      Instrn        Read       Write        Misc
Demand Fetches               3           0           3           0           0
Demand Misses                3           0           3           0           0
Miss Rate               1.0000      0.0000      1.0000      0.0000      0.0000
Compulsory                   3           0           3           0           0
Capacity                     0           0           0           0           0
Conflict                     0           0           0           0           0
Blocks Fetched               3
Written Back                 0
Writes Sent On               0
Flushes                      0
";

/// FIFO evicts the first block, and reads it again from the second level, where 3 of 4 miss.
static FIFO: &str = "\
l1-icache                Total      Instrn        Read       Write        Misc
Demand Fetches               0           0           0           0           0
Demand Misses                0           0           0           0           0
Miss Rate               0.0000      0.0000      0.0000      0.0000      0.0000
Compulsory                   0           0           0           0           0
Capacity                     0           0           0           0           0
Conflict                     0           0           0           0           0
Blocks Fetched               0
Written Back                 0
Writes Sent On               0
Flushes                      0

l1-dcache                Total      Instrn        Read       Write        Misc
Demand Fetches               5           0           5           0           0
Demand Misses                4           0           4           0           0
Miss Rate               0.8000      0.0000      0.8000      0.0000      0.0000
Compulsory                   3           0           3           0           0
Capacity                     0           0           0           0           0
Conflict                     1           0           1           0           0
Blocks Fetched               4
Written Back                 0
Writes Sent On               0
Flushes                      0

l2-ucache                Total      Instrn        Read       Write        Misc
Demand Fetches               4           0           4           0           0
Demand Misses                3           0           3           0           0
Miss Rate               0.7500      0.0000      0.7500      0.0000      0.0000
Compulsory                   3           0           3           0           0
Capacity                     0           0           0           0           0
Conflict                     0           0           0           0           0
Blocks Fetched               3
Written Back                 0
Writes Sent On               0
Flushes                      0
";

/// A read and then a fetch of one block: the second level misses once in two.
static READ_AND_FETCH: &str = "\
l1-icache                Total      Instrn        Read       Write        Misc
Demand Fetches               1           1           0           0           0
Demand Misses                1           1           0           0           0
Miss Rate               1.0000      1.0000      0.0000      0.0000      0.0000
Compulsory                   1           1           0           0           0
Capacity                     0           0           0           0           0
Conflict                     0           0           0           0           0
Blocks Fetched               1
Written Back                 0
Writes Sent On               0
Flushes                      0

l1-dcache                Total      Instrn        Read       Write        Misc
Demand Fetches               1           0           1           0           0
Demand Misses                1           0           1           0           0
Miss Rate               1.0000      0.0000      1.0000      0.0000      0.0000
Compulsory                   1           0           1           0           0
Capacity                     0           0           0           0           0
Conflict                     0           0           0           0           0
Blocks Fetched               1
Written Back                 0
Writes Sent On               0
Flushes                      0

l2-ucache                Total      Instrn        Read       Write        Misc
Demand Fetches               2           1           1           0           0
Demand Misses                1           0           1           0           0
Miss Rate               0.5000      0.0000      1.0000      0.0000      0.0000
Compulsory                   1           0           1           0           0
Capacity                     0           0           0           0           0
Conflict                     0           0           0           0           0
Blocks Fetched               1
Written Back                 0
Writes Sent On               0
Flushes                      0
";

#[test]
fn a_block_that_is_used_between_stays_under_lru(rt: HostRuntime) {
    let text = LRU.as_bytes();
    writes_text(
        &rt,
        rt.alloc(),
        &config(&rt),
        &EVERYTHING,
        THREE_BLOCKS,
        text,
    );
}

#[test]
fn the_oldest_block_leaves_under_fifo(rt: HostRuntime) {
    let policy = Policy {
        repl: Repl::Fifo,
        ..USUAL
    };
    let fifo = config_with(&rt, policy);
    writes_text(
        &rt,
        rt.alloc(),
        &fifo,
        &EVERYTHING,
        THREE_BLOCKS,
        FIFO.as_bytes(),
    );
}

#[test]
fn a_fetch_hits_what_a_read_has_loaded(rt: HostRuntime) {
    let trace = b"0 0\n2 0\n";
    let text = READ_AND_FETCH.as_bytes();
    writes_text(&rt, rt.alloc(), &config(&rt), &EVERYTHING, trace, text);
}
