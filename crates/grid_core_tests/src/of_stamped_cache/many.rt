//! Pseudo-random accesses and flushes of many caches, each beside a cache of cache_core.

use super::{expect_counts, expect_served, flush};
use crate::tests::{BLOCK, access_of, caches_of, flush_all, next_random, whole_of};
use cache_core::{Access, Cache, Geometry, MAX_EVENTS, Policy, Repl};
use grid_core::BlockNumbers;
use shared_list::{MAX_USERS, Users};
use stamped_cache::StampedCaches;
use std::alloc::Global;
use std::process::Abort;
use std::test::Fail;

/// Many caches. Beside the one of each user stand, at the same index, one of the same geometry and
/// one that is fully associative, both of cache_core.
#[derive(Drop)]
struct Beside {
    caches: StampedCaches,
    others: Vec<Cache>,
    wholes: Vec<Cache>,
}

/// As many caches as there are users, of so many blocks and ways each.
#[derive(Clone, Copy)]
struct Shape {
    blocks: u64,
    ways: u64,
    users: usize,
}

/// The same geometry, as often as there are users.
fn repeated(rt: &impl Abort, alloc: Global, geometry: Geometry, users: usize) -> Vec<Geometry> {
    let mut geometries = Vec::new(alloc);
    for _ in 0..users {
        geometries.push(geometry).expect(rt, "memory");
    }
    geometries
}

/// New caches.
fn beside_of(rt: &impl Abort, alloc: Global, shape: Shape, wback: bool) -> Beside {
    let size = shape.blocks.wrapping_mul(BLOCK);
    let geometry = Geometry::new(size, BLOCK, shape.ways).expect(rt, "a lawful geometry");
    let policy = Policy {
        repl: Repl::Lru,
        wback,
        walloc: true,
    };
    assert!(rt; shape.users <= MAX_USERS);
    let alike = repeated(rt, alloc, geometry, shape.users);
    let whole = repeated(rt, alloc, whole_of(rt, geometry), shape.users);
    Beside {
        caches: StampedCaches::new(alloc, geometry, wback, shape.users).expect(rt, "memory"),
        others: caches_of(rt, alloc, &alike, policy),
        wholes: caches_of(rt, alloc, &whole, policy),
    }
}

/// The counts of each cache have to be those of the cache of the same geometry, and the misses of
/// its shadow those of the fully associative one.
fn expect_alike(rt: &impl Abort, beside: &Beside) {
    assert_eq!(rt; beside.others.len(), beside.caches.users());
    for (user, other) in beside.others.iter().enumerate() {
        assert!(rt; user < beside.wholes.len());
        let far = beside.wholes[user].counts().misses;
        expect_counts(rt, &beside.caches, user, other.counts(), far);
        expect_served(rt, &beside.caches, user, other.served());
    }
}

/// Pseudo-random users: all, or about half or a quarter of them. Most have no cache where there are
/// few caches.
fn users_of(state: &mut u64) -> Users {
    let kind = next_random(state) % 4;
    let all = next_random(state) | if kind == 0 { u64::MAX } else { 0 };
    let few = next_random(state) | if kind < 3 { u64::MAX } else { 0 };
    let mut users = Users::none();
    for user in 0..MAX_USERS {
        if (all & few) >> user & 1 == 1 {
            users = users.with(user);
        }
    }
    users
}

/// Serves an access in the caches of these users.
fn access_those(rt: &impl Abort, caches: &mut Vec<Cache>, access: Access, users: Users) {
    for (user, cache) in caches.iter_mut().enumerate() {
        assert!(rt; user < MAX_USERS);
        if users.has(user) {
            assert!(rt; cache.served() < MAX_EVENTS);
            let _outcome = cache.access(access).expect(rt, "memory");
        }
    }
}

/// Serves a pseudo-random access by pseudo-random users, and now and then a flush. Now and then it
/// compares the counts.
fn serve_next(
    rt: &impl Abort,
    alloc: Global,
    beside: &mut Beside,
    numbers: &mut BlockNumbers,
    state: &mut u64,
) {
    let access = access_of(state, 256);
    let number = numbers.number(access.addr / BLOCK).expect(rt, "memory");
    let users = users_of(state);
    assert!(rt; beside.caches.have_room());
    let served = beside.caches.access(access, number, users);
    served.expect(rt, "memory");
    access_those(rt, &mut beside.others, access, users);
    access_those(rt, &mut beside.wholes, access, users);
    if next_random(state) % 256 == 0 {
        flush(rt, &mut beside.caches);
        flush_all(rt, alloc, &mut beside.others);
        flush_all(rt, alloc, &mut beside.wholes);
    }
    if next_random(state) % 16 == 0 {
        expect_alike(rt, beside);
    }
}

/// A shape in short.
macro_rules! shape {
    ($blocks:literal $ways:literal $users:literal) => {
        Shape {
            blocks: $blocks,
            ways: $ways,
            users: $users,
        }
    };
}

/// The caches of each pair share the numbers of their blocks.
static PAIRS: [(Shape, Shape); 5] = [
    (shape!(1 1 1), shape!(32 1 3)),
    (shape!(2 2 2), shape!(16 2 32)),
    (shape!(4 4 5), shape!(64 8 1)),
    (shape!(16 16 7), shape!(8 1 4)),
    (shape!(8 2 0), shape!(4 2 9)),
];

/// Serves accesses in two sets of caches, which take turns at random, so that each gets its numbers
/// in any order.
fn are_alike(rt: &impl Abort, alloc: Global, pair: (Shape, Shape), wback: bool, seed: u64) {
    let mut numbers = BlockNumbers::new(alloc);
    let mut one = beside_of(rt, alloc, pair.0, wback);
    let mut other = beside_of(rt, alloc, pair.1, wback);
    let mut state = seed;
    for _ in 0..2_000 {
        if next_random(&mut state) % 2 == 0 {
            serve_next(rt, alloc, &mut one, &mut numbers, &mut state);
        } else {
            serve_next(rt, alloc, &mut other, &mut numbers, &mut state);
        }
    }
    expect_alike(rt, &one);
    expect_alike(rt, &other);
}

#[test]
fn caches_that_share_a_log_are_single_caches(rt: HostRuntime) {
    let mut seed = 1u64;
    for pair in PAIRS.iter() {
        are_alike(&rt, rt.alloc(), *pair, true, seed);
        are_alike(&rt, rt.alloc(), *pair, false, seed);
        seed = seed.wrapping_add(1);
    }
}
