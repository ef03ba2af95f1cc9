//! Sets of many ways.

use super::{CAPACITY, CONFLICT, FIFO, HIT, LRU, NEW, Step, cache_of, same, serve, walk, walk_new};
use cache_core::{Cache, Class, Outcome, Policy};
use std::alloc::Global;
use std::process::Abort;

/// Fills one set of 128 ways by reads, except for a write to block 1.
fn fill(rt: &impl Abort, cache: &mut Cache) {
    for block in 0..128 {
        let class = if block == 1 {
            Class::Write
        } else {
            Class::Read
        };
        same(
            rt,
            &serve(rt, cache, class, 4 * block),
            &NEW,
            "the outcome",
            block,
        );
    }
}

/// Goes through these steps with a full set of 128 ways.
fn walk_filled(rt: &impl Abort, alloc: Global, policy: Policy, steps: &[Step<'_>]) {
    let mut cache = cache_of(rt, alloc, (512, 4, 128), policy);
    fill(rt, &mut cache);
    walk(rt, alloc, &mut cache, steps);
}

#[test]
fn many_ways_keep_the_block_used_last(rt: HostRuntime) {
    const VICTIM: Outcome = Outcome {
        back: Some(4),
        ..NEW
    };
    static STEPS: [Step<'static>; 4] = [
        Step::Serve(
            Class::Read,
            &[(0, HIT), (512, VICTIM), (0, HIT), (4, CAPACITY)],
        ),
        Step::Serve(Class::Write, &[(512, HIT), (15, HIT)]),
        Step::Flush(&[12, 512]),
        Step::Serve(Class::Read, &[(0, CAPACITY)]),
    ];
    walk_filled(&rt, rt.alloc(), LRU, &STEPS);
}

#[test]
fn many_ways_let_the_block_loaded_first_go(rt: HostRuntime) {
    const VICTIM: Outcome = Outcome {
        back: Some(4),
        ..CONFLICT
    };
    static STEPS: [Step<'static>; 4] = [
        Step::Serve(Class::Read, &[(0, HIT), (512, NEW), (0, VICTIM)]),
        Step::Serve(Class::Write, &[(12, HIT)]),
        Step::Serve(Class::Read, &[(4, CAPACITY)]),
        Step::Flush(&[12]),
    ];
    walk_filled(&rt, rt.alloc(), FIFO, &STEPS);
}

#[test]
fn many_ways_flush_by_rising_address_over_all_sets(rt: HostRuntime) {
    const TRACE: &[(u64, Outcome)] = &[(13, NEW), (9, NEW), (5, NEW), (1, NEW)];
    static STEPS: [Step<'static>; 2] = [
        Step::Serve(Class::Write, TRACE),
        Step::Flush(&[0, 4, 8, 12]),
    ];
    walk_new(&rt, rt.alloc(), (2_048, 4, 256), LRU, &STEPS);
}
