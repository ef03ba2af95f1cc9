//! One cache of a simulated hierarchy, as Dinero IV has them: LRU or FIFO replacement, write back
//! or write through, with or without write allocation, and Hill's three kinds of miss.
//!
//! A [`Geometry`] is a lawful shape of a cache. A [`Cache`] serves accesses and flushes one by one
//! and counts what they did. Its [`Contents`] are each set as a row of ways (`ways`), or as an
//! ordered map if the set has many ways (`maps`). To tell the kinds of miss apart it keeps a fully
//! associative LRU shadow and all blocks that were ever accessed (`kinds`). Contents alone are for
//! callers who tell the kinds of miss for many caches at once.
//!
//! Proved for every history of a cache: each outcome, the list of each flush and all counts are
//! those of the definitions in `specs/`, which work on the whole history by reuse distance and have
//! no ways. If an allocation fails, the cache keeps its counts, and every later access or flush
//! answers `NoMemory`. `laws` has properties of the definitions themselves.
//!
//! No contract says how much memory a cache takes. It is bounded by the cache's size, but for the
//! set of blocks ever accessed, which grows with the trace.
#![tactic(auto)]

mod access;
mod cache;
mod contents;
mod counts;
mod geometry;
mod kinds;
mod laws;
mod maps;
mod policy;
mod sets;
mod ways;

pub use access::{Access, Class, MissKind, Outcome, Served};
pub use cache::{Cache, MAX_EVENTS};
pub use contents::{Contents, NoMemory};
pub use counts::{Counts, PerClass};
pub use geometry::{Geometry, GeometryFault};
pub use kinds::Prior;
pub use laws::{
    at_most_one_block_leaves, counts_go_on_by_events, definitions_meet_worked_examples,
    dirty_blocks_are_the_dirty_ones, max_events_is_two_to_the_forty_four,
    one_lru_set_has_no_conflict, ordered_ways_are_residents, write_backs_are_charged,
};
pub use policy::{Policy, Repl};
