//! An engine beside single caches, on pseudo-random accesses and flushes.

use cache_core::{Access, Cache, Class, Geometry, MAX_EVENTS, Outcome, Policy, Repl};
use grid_core::{Engine, share_block_size};
use std::alloc::Global;
use std::process::Abort;
use std::test::Fail;

mod many;
mod memory;
mod narrow;
mod numbers;
mod sent;

/// The next pseudo-random number, by a linear congruence with Knuth's constants.
pub(crate) fn next_random(state: &mut u64) -> u64 {
    *state = state
        .wrapping_mul(6_364_136_223_846_793_005)
        .wrapping_add(1_442_695_040_888_963_407);
    *state >> 33
}

/// How many bytes a block has: enough for up to 32 ways of one set to share rows.
pub(crate) const BLOCK: u64 = 64;

/// A pseudo-random access to one of some blocks, low ones and the highest; most go to a few.
pub(crate) fn access_of(state: &mut u64, blocks: u64) -> Access {
    let class = match next_random(state) % 8 {
        0 => Class::Instr,
        1 | 2 | 3 => Class::Write,
        4 => Class::Misc,
        _ => Class::Read,
    };
    let wide = next_random(state) % 4;
    let few = if wide == 0 { blocks } else { blocks / 8 };
    let block = next_random(state).checked_rem(few).unwrap_or(0);
    let offset = block
        .wrapping_mul(BLOCK)
        .wrapping_add(next_random(state) % BLOCK);
    let addr = if block % 3 == 0 { !offset } else { offset };
    Access { class, addr }
}

/// All geometries of so many blocks of `bsize` bytes, with these numbers of ways.
fn geometries_with(
    rt: &impl Abort,
    alloc: Global,
    bsize: u64,
    blocks: &[u64],
    ways: &[u64],
) -> Vec<Geometry> {
    let mut geometries = Vec::new(alloc);
    for count in blocks.iter() {
        for way in ways.iter() {
            if let Ok(geometry) = Geometry::new(count.wrapping_mul(bsize), bsize, *way) {
                geometries.push(geometry).expect(rt, "memory");
            }
        }
    }
    geometries
}

/// The same, of `BLOCK` bytes each.
fn geometries_of(rt: &impl Abort, alloc: Global, blocks: &[u64], ways: &[u64]) -> Vec<Geometry> {
    geometries_with(rt, alloc, BLOCK, blocks, ways)
}

/// The fully associative geometry of the same size.
pub(crate) fn whole_of(rt: &impl Abort, geometry: Geometry) -> Geometry {
    let blocks = geometry.blocks();
    let size = blocks.wrapping_mul(geometry.bsize());
    Geometry::new(size, geometry.bsize(), blocks).expect(rt, "a lawful geometry")
}

/// The policy of the shadow of a cache.
fn shadow_policy(policy: Policy) -> Policy {
    Policy {
        repl: Repl::Lru,
        ..policy
    }
}

/// A cache of each geometry.
pub(crate) fn caches_of(
    rt: &impl Abort,
    alloc: Global,
    geometries: &[Geometry],
    policy: Policy,
) -> Vec<Cache> {
    let mut caches = Vec::new(alloc);
    for geometry in geometries.iter() {
        let cache = Cache::new(alloc, *geometry, policy).expect(rt, "memory");
        caches.push(cache).expect(rt, "memory");
    }
    caches
}

/// Whether an access of this outcome sends nothing to the next level.
fn sends_nothing(outcome: Outcome) -> bool {
    outcome.back.is_none() && !outcome.fetch && !outcome.through
}

/// Serves an access in the engine, each second one the short way where it may go it.
fn serve(rt: &impl Abort, engine: &mut Engine, access: Access) {
    assert!(rt; engine.served() < MAX_EVENTS);
    if engine.served() % 2 == 0 && engine.again(access) {
        return;
    }
    assert!(rt; engine.served() < MAX_EVENTS);
    engine.access(access).expect(rt, "memory");
}

/// Serves the last access of the engine in each cache. The outcomes have to agree, and where the
/// engine says that nothing was sent, no outcome sends anything.
fn follow(rt: &impl Abort, engine: &Engine, caches: &mut Vec<Cache>, access: Access) {
    for (index, cache) in caches.iter_mut().enumerate() {
        assert!(rt; cache.served() < MAX_EVENTS);
        let outcome = cache.access(access).expect(rt, "memory");
        assert!(rt; index < engine.cells());
        assert_eq!(rt; engine.answer(index), outcome);
        assert!(rt; sends_nothing(outcome) || !engine.sent_nothing());
    }
}

/// Serves an access in the engine and in each cache, alike.
fn access_alike(rt: &impl Abort, engine: &mut Engine, caches: &mut Vec<Cache>, access: Access) {
    serve(rt, engine, access);
    follow(rt, engine, caches, access);
}

/// Flushes the engine and each cache, which have to write the same blocks back.
fn flush_alike(rt: &impl Abort, alloc: Global, engine: &mut Engine, caches: &mut Vec<Cache>) {
    assert!(rt; engine.served() < MAX_EVENTS);
    let lists = engine.flush().expect(rt, "memory");
    for (index, cache) in caches.iter_mut().enumerate() {
        assert!(rt; cache.served() < MAX_EVENTS);
        let mut bytes = Vec::new(alloc);
        cache.flush(&mut bytes).expect(rt, "memory");
        assert!(rt; index < lists.len());
        assert_eq!(rt; lists[index], bytes);
    }
}

/// Flushes the engine without lists, and each cache.
fn flush_unlisted(rt: &impl Abort, alloc: Global, engine: &mut Engine, caches: &mut Vec<Cache>) {
    assert!(rt; engine.served() < MAX_EVENTS);
    engine.flush_unlisted().expect(rt, "memory");
    flush_all(rt, alloc, caches);
}

/// Serves an access in each shadow.
pub(crate) fn access_all(rt: &impl Abort, shadows: &mut Vec<Cache>, access: Access) {
    for cache in shadows.iter_mut() {
        assert!(rt; cache.served() < MAX_EVENTS);
        let _outcome = cache.access(access).expect(rt, "memory");
    }
}

/// Flushes each cache.
pub(crate) fn flush_all(rt: &impl Abort, alloc: Global, caches: &mut Vec<Cache>) {
    let mut bytes = Vec::new(alloc);
    for cache in caches.iter_mut() {
        assert!(rt; cache.served() < MAX_EVENTS);
        cache.flush(&mut bytes).expect(rt, "memory");
    }
}

/// Each cell has the counts of its cache, and its shadow the misses of the fully associative one.
fn expect_counts(rt: &impl Abort, engine: &Engine, caches: &Vec<Cache>, shadows: &Vec<Cache>) {
    for (index, cache) in caches.iter().enumerate() {
        assert!(rt; index < engine.cells());
        assert_eq!(rt; engine.counts(index), cache.counts());
    }
    for (index, cache) in shadows.iter().enumerate() {
        assert!(rt; index < engine.cells());
        assert_eq!(rt; engine.shadow_misses(index), cache.counts().misses);
    }
}

/// A pseudo-random history: how many accesses, to how many blocks, and how many before each flush.
#[derive(Clone, Copy)]
struct Long {
    turns: u64,
    blocks: u64,
    period: u64,
}

/// An engine of all these caches does on a pseudo-random history what each alone does. Of its
/// flushes, every second one is without lists.
fn is_alike(
    rt: &impl Abort,
    alloc: Global,
    geometries: &Vec<Geometry>,
    policy: Policy,
    long: Long,
) {
    let first = geometries.first().copied().expect(rt, "a geometry");
    assert!(rt; share_block_size(geometries, first));
    let mut engine = Engine::new(alloc, geometries, first, policy).expect(rt, "memory");
    let mut wholes = Vec::new(alloc);
    for geometry in geometries.iter() {
        wholes.push(whole_of(rt, *geometry)).expect(rt, "memory");
    }
    let mut caches = caches_of(rt, alloc, geometries, policy);
    let mut shadows = caches_of(rt, alloc, &wholes, shadow_policy(policy));
    assert_eq!(rt; engine.cells(), caches.len());
    let mut state = long.turns;
    for turn in 0..long.turns {
        let access = access_of(&mut state, long.blocks);
        access_alike(rt, &mut engine, &mut caches, access);
        access_all(rt, &mut shadows, access);
        let place = turn.checked_rem(long.period.wrapping_mul(2)).unwrap_or(0);
        let served = place.wrapping_add(1);
        if served == long.period {
            flush_alike(rt, alloc, &mut engine, &mut caches);
            flush_all(rt, alloc, &mut shadows);
        }
        if served == long.period.wrapping_mul(2) {
            flush_unlisted(rt, alloc, &mut engine, &mut caches);
            flush_all(rt, alloc, &mut shadows);
        }
    }
    expect_counts(rt, &engine, &caches, &shadows);
}

/// The same for both write policies, with this replacement and write allocation.
fn are_alike(
    rt: &impl Abort,
    alloc: Global,
    geometries: &Vec<Geometry>,
    repl: Repl,
    walloc: bool,
    long: Long,
) {
    let back = Policy {
        repl,
        wback: true,
        walloc,
    };
    let through = Policy {
        wback: false,
        ..back
    };
    is_alike(rt, alloc, geometries, back, long);
    is_alike(rt, alloc, geometries, through, long);
}

#[test]
fn six_cells_are_single_caches(rt: HostRuntime) -> Result<(), Fail> {
    let geometries = geometries_of(&rt, rt.alloc(), &[8, 16, 32], &[1, 4]);
    let long = Long {
        turns: 600,
        blocks: 256,
        period: 97,
    };
    are_alike(&rt, rt.alloc(), &geometries, Repl::Lru, true, long);
    are_alike(&rt, rt.alloc(), &geometries, Repl::Lru, false, long);
    are_alike(&rt, rt.alloc(), &geometries, Repl::Fifo, true, long);
    are_alike(&rt, rt.alloc(), &geometries, Repl::Fifo, false, long);
    Ok(())
}
