//! Traces with their counts on the small caches, worked out by hand.

use super::{FLUSH, READ_8, READ_16, WRITE_0, WRITE_8, push, read};
use cache_core::{Counts, PerClass};
use din_trace::DinRecord;
use expected_counts::{NO_COUNTS, by_class, first_misses};
use stage_core::Totals;
use std::alloc::Global;
use std::process::Abort;

pub(super) const ONE_FLUSH: Counts = Counts {
    flushes: 1,
    ..NO_COUNTS
};

// A write, and two reads that evict its block.
pub(super) const VICTIM: [DinRecord; 3] = [WRITE_0, READ_8, READ_16];

const VICTIM_PARTS: PerClass = by_class!(read: 2, write: 1);

const VICTIM_D: Counts = Counts {
    written_back: 1,
    ..first_misses!(VICTIM_PARTS, VICTIM_PARTS, 3)
};

const VICTIM_U: Counts = first_misses!(by_class!(read: 3, write: 1), by_class!(read: 3), 3);

pub(super) const VICTIM_TOTALS: Totals = Totals {
    i: NO_COUNTS,
    d: VICTIM_D,
    u: VICTIM_U,
};

// The totals of the same trace with a flush after the second reference.
pub(super) const PUT_IN_TOTALS: Totals = Totals {
    i: ONE_FLUSH,
    d: Counts {
        flushes: 1,
        ..VICTIM_D
    },
    u: Counts {
        written_back: 1,
        flushes: 1,
        ..VICTIM_U
    },
};

// Two writes and a flush.
pub(super) const FLUSHED: [DinRecord; 3] = [WRITE_8, WRITE_0, FLUSH];

pub(super) const FLUSHED_TOTALS: Totals = Totals {
    i: ONE_FLUSH,
    d: Counts {
        written_back: 2,
        flushes: 1,
        ..first_misses!(by_class!(write: 2), by_class!(write: 2), 2)
    },
    u: Counts {
        written_back: 2,
        flushes: 1,
        ..first_misses!(by_class!(read: 2, write: 2), by_class!(read: 2), 2)
    },
};

// 10,000 reads, again and again through four times the size of the data cache.
pub(super) fn sweep(rt: &impl Abort, alloc: Global) -> Vec<DinRecord> {
    let mut trace = Vec::new(alloc);
    for k in 0..10_000u64 {
        push(rt, &mut trace, read(4 * k % 64));
    }
    trace
}

pub(super) const SWEEP_TOTALS: Totals = Totals {
    i: NO_COUNTS,
    d: Counts {
        compulsory: by_class!(read: 16),
        capacity: by_class!(read: 9_984),
        ..first_misses!(by_class!(read: 10_000), by_class!(read: 10_000), 10_000)
    },
    u: Counts {
        compulsory: by_class!(read: 8),
        capacity: by_class!(read: 4_992),
        ..first_misses!(by_class!(read: 10_000), by_class!(read: 5_000), 5_000)
    },
};
