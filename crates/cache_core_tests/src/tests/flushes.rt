//! Small traces with flushes.

use super::{
    CAPACITY, DATA, HIT, LRU, NEW, Step, cache_of, expect, flush, has, push, walk, walk_new,
};
use cache_core::{Cache, Class, Counts, Outcome};
use expected_counts::{by_class, first_misses};
use std::alloc::Global;
use std::process::Abort;

#[test]
fn a_flush_writes_back_by_rising_address(rt: HostRuntime) {
    const COUNTS: Counts = Counts {
        written_back: 2,
        flushes: 1,
        ..first_misses!(by_class!(write: 2), by_class!(write: 2), 2)
    };
    static STEPS: [Step<'static>; 3] = [
        Step::Serve(Class::Write, &[(8, NEW), (0, NEW)]),
        Step::Flush(&[0, 8]),
        Step::Count(COUNTS, 3),
    ];
    walk_new(&rt, rt.alloc(), DATA, LRU, &STEPS);
}

/// Flushes behind what is in the list. Then the list has to be this.
fn expect_appended(rt: &impl Abort, cache: &mut Cache, out: &mut Vec<u64>, want: &[u64]) {
    flush(rt, cache, out);
    has(rt, out, want);
}

#[test]
fn a_flush_rises_over_all_sets_behind_what_is_there(rt: HostRuntime) {
    static TRACE: [(u64, Outcome); 4] = [(13, NEW), (9, NEW), (5, NEW), (1, NEW)];
    static FLUSHED: [u64; 5] = [99, 0, 4, 8, 12];
    let mut cache = cache_of(&rt, rt.alloc(), DATA, LRU);
    expect(&rt, &mut cache, Class::Write, &TRACE);
    let mut out = Vec::new(rt.alloc());
    push(&rt, &mut out, 99);
    expect_appended(&rt, &mut cache, &mut out, &FLUSHED);
    expect_appended(&rt, &mut cache, &mut out, &FLUSHED);
    assert!(rt; cache.served() == 6);
}

/// All misses, the flushes, and how many accesses and flushes there were.
fn missed_and_flushed(cache: &Cache) -> (u128, u64, u64) {
    let counts = cache.counts();
    (counts.misses.total(), counts.flushes, cache.served())
}

/// Loads a block, flushes, and loads it again: that is a capacity miss.
fn stays_known(rt: &impl Abort, alloc: Global, cache: &mut Cache, class: Class) {
    static FIRST: [(u64, Outcome); 1] = [(0, NEW)];
    static AGAIN: [(u64, Outcome); 1] = [(0, CAPACITY)];
    let steps = [
        Step::Serve(class, &FIRST),
        Step::Flush(&[]),
        Step::Serve(class, &AGAIN),
    ];
    walk(rt, alloc, cache, &steps);
    assert!(rt; missed_and_flushed(cache) == (2, 1, 3));
}

#[test]
fn a_block_stays_known_over_a_flush(rt: HostRuntime) {
    for class in [Class::Instr, Class::Read, Class::Misc] {
        let mut cache = cache_of(&rt, rt.alloc(), DATA, LRU);
        stays_known(&rt, rt.alloc(), &mut cache, class);
    }
}

#[test]
fn a_dirty_block_is_flushed_once(rt: HostRuntime) {
    const COUNTS: Counts = Counts {
        written_back: 1,
        flushes: 1,
        ..first_misses!(by_class!(read: 1, write: 1), by_class!(write: 1), 1)
    };
    static STEPS: [Step<'static>; 4] = [
        Step::Serve(Class::Write, &[(0, NEW)]),
        Step::Serve(Class::Read, &[(0, HIT)]),
        Step::Flush(&[0]),
        Step::Count(COUNTS, 3),
    ];
    walk_new(&rt, rt.alloc(), DATA, LRU, &STEPS);
}
