//! Many caches of one block size, served together in one pass over a trace.
//!
//! An [`Engine`] is made for a list of geometries of one block size, with one policy. It serves
//! accesses and flushes in all these caches, and answers for each what a cache of cache_core alone
//! would: every count, what it sends to the next level, and how often its shadow missed.
//!
//! Each of these caches is a *cell*. `engine` has the list of them. It numbers the blocks
//! (`block_numbers`, `at_hand`), or is told their numbers. `plan` decides where each cell is
//! served, and `places` says where it and its shadow are; nobody above sees it. `caches` sends each
//! event to the caches that are served together and to those of their own.
//!
//! LRU caches that allocate at writes are served together (`stacked`). Those of as many sets share
//! one row for each set, in order of last use (`stack`, `slots`): the position of a block tells for
//! every number of ways whether it hits, and its dirty level whether it is written back. A `word`
//! keeps a block and its level. `front` is one access to a row, where its block is `sought`, and
//! `stacks` serves the rows of all numbers of sets, which `shapes` and `parts` make. Where blocks
//! stood is counted once for each number of sets (`histogram`), and the counts of each cache follow
//! from that (`cells`). `outcome` tells what one access did in one of them, and `sums` adds counts.
//! One list with a mark for each size is the shadow of all these caches (`shadows`).
//! `recent` knows the block that was used last.
//!
//! The others, and those of too many ways for a row (`plan`), keep their own blocks and counts
//! (`single`), and are served one after another (`singles`). They are told which blocks were
//! accessed, and what their shadows hold (`shading`). A `shade` is a shadow of its own, for caches
//! that do not allocate at writes; `shades` are served one after another too.
//!
//! `laws` has what the definitions say of caches of different sizes.
//!
//! Proved for every history that an engine stands for. If an allocation fails, the counts stay, and
//! every later access or flush answers `NoMemory`.
#![tactic(auto)]

mod at_hand;
mod block_numbers;
mod caches;
mod cells;
mod engine;
mod front;
mod histogram;
mod laws;
mod outcome;
mod parts;
mod places;
mod plan;
mod recent;
mod shade;
mod shades;
mod shading;
mod shadows;
mod shapes;
mod single;
mod singles;
mod slots;
mod sought;
mod stack;
mod stacked;
mod stacks;
mod sums;
mod word;

pub use block_numbers::BlockNumbers;
pub use engine::Engine;
pub use laws::{
    dirty_levels_are_dirty_blocks, more_numbers_serve_engines, more_sets_hold_more,
    stack_distances_are_hits, wider_ways_hold_more, write_backs_are_first_writes,
};
pub use shapes::share_block_size;
