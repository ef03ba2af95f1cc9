//! The counts that tests expect, as literals: the proof of a test goes through each call that it
//! makes. The tests of several crates share them.
#![tactic(auto)]

use cache_core::{Counts, PerClass};

/// So many accesses of these classes, as in `by_class!(read: 2, write: 1)`, and none of the others.
#[macro_export]
macro_rules! by_class {
    ($($class:ident: $count:expr),+) => {
        cache_core::PerClass {
            $($class: $count,)+
            ..$crate::NONE
        }
    };
}

/// Counts in which each miss is compulsory, and this many blocks were loaded.
#[macro_export]
macro_rules! first_misses {
    ($fetches:expr, $misses:expr, $loaded:expr) => {
        cache_core::Counts {
            fetches: $fetches,
            misses: $misses,
            compulsory: $misses,
            loaded: $loaded,
            ..$crate::NO_COUNTS
        }
    };
}

/// No access.
pub const NONE: PerClass = PerClass {
    instr: 0,
    read: 0,
    write: 0,
    misc: 0,
};

/// Nothing counted in a cache.
pub const NO_COUNTS: Counts = Counts {
    fetches: NONE,
    misses: NONE,
    compulsory: NONE,
    capacity: NONE,
    conflict: NONE,
    loaded: 0,
    written_back: 0,
    sent_on: 0,
    flushes: 0,
};
