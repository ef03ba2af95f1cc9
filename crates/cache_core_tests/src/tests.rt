//! Traces whose outcomes were worked out by hand, served one access at a time.

use cache_core::{
    Access, Cache, Class, Counts, Geometry, MAX_EVENTS, MissKind, NoMemory, Outcome, Policy, Repl,
};
use std::alloc::Global;
use std::fmt::Debug;
use std::process::Abort;

mod against_slow;
mod contents;
mod flushes;
mod geometries;
mod many_ways;
mod memory;
mod slow;
mod traces;

const HIT: Outcome = Outcome {
    hit: true,
    kind: None,
    back: None,
    fetch: false,
    through: false,
};

/// The first access to a block: a compulsory miss, which loads it.
const NEW: Outcome = Outcome {
    hit: false,
    kind: Some(MissKind::Compulsory),
    fetch: true,
    ..HIT
};

const CONFLICT: Outcome = Outcome {
    kind: Some(MissKind::Conflict),
    ..NEW
};

const LRU: Policy = Policy {
    repl: Repl::Lru,
    wback: true,
    walloc: true,
};

const FIFO: Policy = Policy {
    repl: Repl::Fifo,
    wback: true,
    walloc: true,
};

const CAPACITY: Outcome = Outcome {
    kind: Some(MissKind::Capacity),
    ..NEW
};

/// What came has to be what is wanted, in this place of this case.
fn same<T: PartialEq + Debug>(rt: &impl Abort, came: &T, wanted: &T, case: &str, place: u64) {
    assert_eq!(rt; came, wanted, "{case} at {place}");
}

fn push<T: Drop>(rt: &impl Abort, list: &mut Vec<T>, item: T) {
    assert!(rt; list.push(item).is_ok());
}

/// The size of a cache in bytes, that of its blocks, and the number of ways.
type Shape = (u64, u64, u64);

fn geometry_of(rt: &impl Abort, shape: Shape) -> Geometry {
    Geometry::new(shape.0, shape.1, shape.2).expect(rt, "a lawful geometry")
}

fn try_new(
    rt: &impl Abort,
    alloc: Global,
    shape: Shape,
    policy: Policy,
) -> Result<Cache, NoMemory> {
    Cache::new(alloc, geometry_of(rt, shape), policy)
}

fn cache_of(rt: &impl Abort, alloc: Global, shape: Shape, policy: Policy) -> Cache {
    try_new(rt, alloc, shape, policy).expect(rt, "memory")
}

/// The cache has to have these counts, to have served so many accesses and flushes, and to have
/// failed or not.
fn expect_state(rt: &impl Abort, cache: &Cache, counts: &Counts, served: u64, failed: bool) {
    same(rt, &cache.counts(), counts, "the counts", served);
    assert!(rt; cache.served() == served && cache.failed() == failed);
}

fn try_serve(
    rt: &impl Abort,
    cache: &mut Cache,
    class: Class,
    addr: u64,
) -> Result<Outcome, NoMemory> {
    assert!(rt; cache.served() < MAX_EVENTS);
    cache.access(Access { class, addr })
}

fn serve(rt: &impl Abort, cache: &mut Cache, class: Class, addr: u64) -> Outcome {
    try_serve(rt, cache, class, addr).expect(rt, "memory")
}

fn try_flush(rt: &impl Abort, cache: &mut Cache, out: &mut Vec<u64>) -> Result<(), NoMemory> {
    assert!(rt; cache.served() < MAX_EVENTS);
    cache.flush(out)
}

fn flush(rt: &impl Abort, cache: &mut Cache, out: &mut Vec<u64>) {
    try_flush(rt, cache, out).expect(rt, "memory");
}

/// What a cache goes through, and what it has to answer.
#[derive(Clone, Copy)]
enum Step<'a> {
    /// Accesses of one class to these addresses. Each has to have the outcome next to it.
    Serve(Class, &'a [(u64, Outcome)]),
    /// A flush, which has to write these blocks back.
    Flush(&'a [u64]),
    /// The cache has to have these counts, after so many accesses and flushes.
    Count(Counts, u64),
}

/// Serves accesses of one class. Each has to have the outcome next to it.
fn expect(rt: &impl Abort, cache: &mut Cache, class: Class, trace: &[(u64, Outcome)]) {
    for (addr, want) in trace {
        same(
            rt,
            &serve(rt, cache, class, *addr),
            want,
            "the outcome",
            *addr,
        );
    }
}

/// The list has to have these addresses.
fn has(rt: &impl Abort, list: &Vec<u64>, wanted: &[u64]) {
    same(rt, &list.as_slice(), &wanted, "the list", 0);
}

/// Flushes the cache, which has to write these blocks back.
fn expect_flush(rt: &impl Abort, alloc: Global, cache: &mut Cache, blocks: &[u64]) {
    let mut out = Vec::new(alloc);
    flush(rt, cache, &mut out);
    has(rt, &out, blocks);
}

/// Goes through these steps.
fn walk(rt: &impl Abort, alloc: Global, cache: &mut Cache, steps: &[Step<'_>]) {
    for step in steps {
        match *step {
            Step::Serve(class, trace) => expect(rt, cache, class, trace),
            Step::Flush(blocks) => expect_flush(rt, alloc, cache, blocks),
            Step::Count(counts, served) => expect_state(rt, cache, &counts, served, false),
        }
    }
}

/// Goes through these steps with a new cache.
fn walk_new(rt: &impl Abort, alloc: Global, shape: Shape, policy: Policy, steps: &[Step<'_>]) {
    let mut cache = cache_of(rt, alloc, shape, policy);
    walk(rt, alloc, &mut cache, steps);
}

/// Two sets of two blocks of four bytes.
const DATA: Shape = (16, 4, 2);
