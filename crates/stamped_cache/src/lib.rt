//! Many LRU caches that allocate at writes, told by the times of last use.
//!
//! [`StampedCaches`] serve accesses and flushes of up to 32 caches of one geometry, and keep the
//! counts of each and of its shadow. A caller tells them the number of each block, and which of the
//! caches get an access. Each does for its history what a cache of cache_core does, but answers no
//! outcomes, as nothing comes behind it.
//!
//! A set has no order: `rows` has the numbers of its blocks as they came. The list of shared_list
//! knows when each cache used each block last, so an access that hits looks at no row: its `state`
//! says that the cache holds the block, and whether it was written. An access that misses lets that
//! block of a full set leave whose last use is the longest ago (`contents`). `tally` counts.
//!
//! Proved for every history that a cache stands for. If an allocation fails, the counts stay, and
//! every later access or flush answers `NoMemory`.
#![tactic(auto)]

mod caches;
mod contents;
mod laws;
mod rows;
mod state;
mod states;
mod tallies;
mod tally;

pub use caches::StampedCaches;
pub use laws::more_numbers_serve_stamped_caches;
