//! The blocks that were used last, for fully associative LRU caches of many sizes at once.
//!
//! A [`Marked`] is one list for all sizes. A use of a block answers the index of the first size
//! whose cache had the block, or the number of sizes if none had it.
#![tactic(auto)]

mod laws;
mod marked;
mod marks;
mod stamp;
mod uses;

pub use laws::{
    accesses_bring_front, levels_tell_shadow_hits, levels_tell_sizes, sizes_hold_by_distance,
};
pub use marked::Marked;
