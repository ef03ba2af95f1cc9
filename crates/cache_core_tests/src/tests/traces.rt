//! Small traces, each for one rule, and the total of counts.

use super::{CAPACITY, CONFLICT, DATA, FIFO, HIT, LRU, NEW, Step, cache_of, serve, walk, walk_new};
use cache_core::{Cache, Class, Counts, Outcome, PerClass, Policy};
use expected_counts::{by_class, first_misses};
use std::process::Abort;

#[test]
fn lru_keeps_the_block_used_last(rt: HostRuntime) {
    const COUNTS: Counts = first_misses!(by_class!(read: 5), by_class!(read: 3), 3);
    const TRACE: &[(u64, Outcome)] = &[(0, NEW), (8, NEW), (0, HIT), (16, NEW), (0, HIT)];
    static STEPS: [Step<'static>; 2] = [Step::Serve(Class::Read, TRACE), Step::Count(COUNTS, 5)];
    walk_new(&rt, rt.alloc(), DATA, LRU, &STEPS);
}

#[test]
fn fifo_lets_the_block_loaded_first_go(rt: HostRuntime) {
    const COUNTS: Counts = Counts {
        compulsory: by_class!(read: 3),
        conflict: by_class!(read: 1),
        ..first_misses!(by_class!(read: 5), by_class!(read: 4), 4)
    };
    const TRACE: &[(u64, Outcome)] = &[(0, NEW), (8, NEW), (0, HIT), (16, NEW), (0, CONFLICT)];
    static STEPS: [Step<'static>; 2] = [Step::Serve(Class::Read, TRACE), Step::Count(COUNTS, 5)];
    walk_new(&rt, rt.alloc(), DATA, FIFO, &STEPS);
}

#[test]
fn writes_a_dirty_victim_back(rt: HostRuntime) {
    const ALL: PerClass = by_class!(read: 2, write: 1);
    const COUNTS: Counts = Counts {
        written_back: 1,
        ..first_misses!(ALL, ALL, 3)
    };
    const VICTIM: Outcome = Outcome {
        back: Some(0),
        ..NEW
    };
    static STEPS: [Step<'static>; 3] = [
        Step::Serve(Class::Write, &[(0, NEW)]),
        Step::Serve(Class::Read, &[(8, NEW), (16, VICTIM)]),
        Step::Count(COUNTS, 3),
    ];
    walk_new(&rt, rt.alloc(), DATA, LRU, &STEPS);
}

#[test]
fn a_total_is_the_sum_of_the_classes(rt: HostRuntime) {
    const ALL: PerClass = by_class!(instr: 1, read: 20, write: 300, misc: 4_000);
    assert_eq!(rt; ALL.total(), 4_321);
}

#[test]
fn a_block_loaded_again_is_clean(rt: HostRuntime) {
    const VICTIM: Outcome = Outcome {
        back: Some(0),
        ..NEW
    };
    const AGAIN: &[(u64, Outcome)] = &[(0, CONFLICT), (8, CONFLICT), (16, CONFLICT)];
    static STEPS: [Step<'static>; 3] = [
        Step::Serve(Class::Write, &[(0, NEW)]),
        Step::Serve(Class::Read, &[(8, NEW), (16, VICTIM)]),
        Step::Serve(Class::Read, AGAIN),
    ];
    walk_new(&rt, rt.alloc(), DATA, LRU, &STEPS);
}

const THROUGH: Policy = Policy {
    wback: false,
    ..LRU
};

#[test]
fn write_through_sends_each_write_on(rt: HostRuntime) {
    const SENT_ON: Outcome = Outcome {
        through: true,
        ..NEW
    };
    const AGAIN: Outcome = Outcome {
        through: true,
        ..HIT
    };
    const COUNTS: Counts = Counts {
        sent_on: 2,
        ..first_misses!(by_class!(write: 2), by_class!(write: 1), 1)
    };
    static STEPS: [Step<'static>; 3] = [
        Step::Serve(Class::Write, &[(2, SENT_ON), (2, AGAIN)]),
        Step::Count(COUNTS, 2),
        Step::Flush(&[]),
    ];
    walk_new(&rt, rt.alloc(), DATA, THROUGH, &STEPS);
}

/// A write that misses and is sent on, where it loads nothing.
const SENT: Outcome = Outcome {
    fetch: false,
    through: true,
    ..NEW
};

#[test]
fn without_allocation_a_write_miss_brings_nothing_in(rt: HostRuntime) {
    const POLICY: Policy = Policy {
        walloc: false,
        ..LRU
    };
    const BOTH: PerClass = by_class!(read: 1, write: 1);
    const COUNTS: Counts = Counts {
        compulsory: by_class!(write: 1),
        capacity: by_class!(read: 1),
        sent_on: 1,
        ..first_misses!(BOTH, BOTH, 1)
    };
    static STEPS: [Step<'static>; 3] = [
        Step::Serve(Class::Write, &[(0, SENT)]),
        Step::Serve(Class::Read, &[(0, CAPACITY)]),
        Step::Count(COUNTS, 2),
    ];
    walk_new(&rt, rt.alloc(), DATA, POLICY, &STEPS);
}

#[test]
fn fifo_without_allocation_marks_a_write_hit(rt: HostRuntime) {
    const POLICY: Policy = Policy {
        walloc: false,
        ..FIFO
    };
    const BACK: Outcome = Outcome {
        back: Some(0),
        ..CAPACITY
    };
    static STEPS: [Step<'static>; 3] = [
        Step::Serve(Class::Read, &[(0, NEW), (8, NEW)]),
        Step::Serve(Class::Write, &[(0, HIT), (16, SENT)]),
        Step::Serve(Class::Read, &[(16, BACK)]),
    ];
    walk_new(&rt, rt.alloc(), DATA, POLICY, &STEPS);
}

#[test]
fn one_way_has_a_conflict(rt: HostRuntime) {
    const COUNTS: Counts = Counts {
        compulsory: by_class!(instr: 2),
        conflict: by_class!(instr: 1),
        ..first_misses!(by_class!(instr: 3), by_class!(instr: 3), 3)
    };
    const TRACE: &[(u64, Outcome)] = &[(0, NEW), (16, NEW), (0, CONFLICT)];
    static STEPS: [Step<'static>; 2] = [Step::Serve(Class::Instr, TRACE), Step::Count(COUNTS, 3)];
    walk_new(&rt, rt.alloc(), (16, 4, 1), LRU, &STEPS);
}

#[test]
fn keeps_an_address_above_32_bits_whole(rt: HostRuntime) {
    static STEPS: [Step<'static>; 3] = [
        Step::Serve(Class::Write, &[(u64::MAX, NEW)]),
        Step::Serve(Class::Read, &[(4_294_967_295, NEW)]),
        Step::Flush(&[18_446_744_073_709_551_612]),
    ];
    walk_new(&rt, rt.alloc(), DATA, LRU, &STEPS);
}

/// Reads one more block than a direct-mapped cache has.
fn sweep(rt: &impl Abort, cache: &mut Cache) {
    for block in 0..16_385u64 {
        let _outcome = serve(rt, cache, Class::Instr, block.wrapping_mul(4));
    }
}

/// Of two sweeps, the second misses only the two blocks that share a set.
#[test]
fn a_long_sweep_misses_where_two_blocks_share_a_set(rt: HostRuntime) {
    const COUNTS: Counts = Counts {
        compulsory: by_class!(instr: 16_385),
        capacity: by_class!(instr: 2),
        ..first_misses!(by_class!(instr: 32_770), by_class!(instr: 16_387), 16_387)
    };
    static STEPS: [Step<'static>; 1] = [Step::Count(COUNTS, 32_770)];
    let mut cache = cache_of(&rt, rt.alloc(), (65_536, 4, 1), LRU);
    sweep(&rt, &mut cache);
    sweep(&rt, &mut cache);
    walk(&rt, rt.alloc(), &mut cache, &STEPS);
}
