//! The counts of runs over a few references, by the policy of the data cache.

use super::totals::{Run, come_to};
use super::{AROUND, LRU, READ_0, READ_8, READ_16, THROUGH, WRITE_0, WRITE_2};
use cache_core::{Counts, Policy, Repl};
use expected_counts::{NO_COUNTS, by_class, first_misses};
use stage_core::{NoMemory, Totals};

const FIFO: Policy = Policy {
    repl: Repl::Fifo,
    ..LRU
};

static RUNS: [Run; 4] = [
    (
        "a block in use stays",
        LRU,
        0,
        &[READ_0, READ_8, READ_0, READ_16, READ_0],
        Totals {
            i: NO_COUNTS,
            d: first_misses!(by_class!(read: 5), by_class!(read: 3), 3),
            u: first_misses!(by_class!(read: 3), by_class!(read: 3), 3),
        },
    ),
    (
        "first in first out forgets uses",
        FIFO,
        0,
        &[READ_0, READ_8, READ_0, READ_16, READ_0],
        Totals {
            i: NO_COUNTS,
            d: Counts {
                compulsory: by_class!(read: 3),
                conflict: by_class!(read: 1),
                ..first_misses!(by_class!(read: 5), by_class!(read: 4), 4)
            },
            u: first_misses!(by_class!(read: 4), by_class!(read: 3), 3),
        },
    ),
    (
        "write through sends each write on",
        THROUGH,
        0,
        &[WRITE_2, WRITE_2],
        Totals {
            i: NO_COUNTS,
            d: Counts {
                sent_on: 2,
                ..first_misses!(by_class!(write: 2), by_class!(write: 1), 1)
            },
            u: first_misses!(by_class!(read: 1, write: 2), by_class!(read: 1), 1),
        },
    ),
    (
        "a write without allocation brings nothing in",
        AROUND,
        0,
        &[WRITE_0, READ_0],
        Totals {
            i: NO_COUNTS,
            d: Counts {
                compulsory: by_class!(write: 1),
                capacity: by_class!(read: 1),
                sent_on: 1,
                ..first_misses!(
                    by_class!(read: 1, write: 1),
                    by_class!(read: 1, write: 1),
                    1
                )
            },
            u: first_misses!(by_class!(read: 1, write: 1), by_class!(write: 1), 1),
        },
    ),
];

#[test]
fn each_policy_comes_to_its_counts(rt: HostRuntime) -> Result<(), NoMemory> {
    come_to(&rt, rt.alloc(), &RUNS)
}
