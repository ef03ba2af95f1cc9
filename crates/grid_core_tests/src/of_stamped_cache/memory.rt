//! Failing allocations. The test passes if there is enough memory. If an allocation is refused, it
//! checks the state after that, and then fails with the name of the refusal and nothing else.

use cache_core::{Access, Class, Counts, Geometry, NoMemory, PerClass};
use shared_list::Users;
use stamped_cache::StampedCaches;
use std::alloc::Global;
use std::process::Abort;
use std::test::Fail;

/// Three caches of eight sets of two ways, unless an allocation fails.
fn made(rt: &impl Abort, alloc: Global) -> Result<StampedCaches, NoMemory> {
    let geometry = Geometry::new(64, 4, 2).expect(rt, "a lawful geometry");
    let caches = StampedCaches::new(alloc, geometry, true, 3)?;
    assert!(rt; !caches.failed());
    Ok(caches)
}

/// What a call has to leave as it was if it is refused memory.
#[derive(Clone, Copy, Debug, PartialEq, Eq)]
struct Snapshot {
    counts: Counts,
    shadow_misses: PerClass,
    served: u64,
}

/// What the cache of a user and its shadow counted, and how many events were served.
fn kept_of(rt: &impl Abort, caches: &StampedCaches, user: usize) -> Snapshot {
    assert!(rt; user < caches.users());
    Snapshot {
        counts: caches.counts(user),
        shadow_misses: caches.shadow_misses(user),
        served: caches.served(user),
    }
}

/// The same of all caches.
#[derive(Clone, Copy, Debug, PartialEq, Eq)]
struct Kept {
    first: Snapshot,
    second: Snapshot,
    third: Snapshot,
}

/// What all caches counted.
fn kept_all(rt: &impl Abort, caches: &StampedCaches) -> Kept {
    Kept {
        first: kept_of(rt, caches, 0),
        second: kept_of(rt, caches, 1),
        third: kept_of(rt, caches, 2),
    }
}

/// An access by the first and the last user to the first byte of a block. The block is its number.
fn access(
    rt: &impl Abort,
    caches: &mut StampedCaches,
    class: Class,
    block: usize,
) -> Result<(), NoMemory> {
    let addr = (block as u64).wrapping_mul(4);
    assert!(rt; caches.have_room());
    caches.access(Access { class, addr }, block, Users::one(0).with(2))
}

/// After a refusal, the counts have to be as before the call, and every later call has to fail.
fn stays_failed(rt: &impl Abort, caches: &mut StampedCaches, before: Kept) {
    assert!(rt; caches.failed());
    assert_eq!(rt; kept_all(rt, caches), before);
    for block in 0..3usize {
        assert_eq!(rt; access(rt, caches, Class::Read, block), Err(NoMemory));
        assert_eq!(rt; access(rt, caches, Class::Write, block), Err(NoMemory));
        assert!(rt; caches.have_room());
        assert_eq!(rt; caches.flush(), Err(NoMemory));
    }
    assert!(rt; caches.failed());
    assert_eq!(rt; kept_all(rt, caches), before);
}

/// Accesses a block. If an allocation fails, the caches have to stay failed.
fn used(
    rt: &impl Abort,
    caches: &mut StampedCaches,
    class: Class,
    block: usize,
) -> Result<(), NoMemory> {
    let before = kept_all(rt, caches);
    let served = access(rt, caches, class, block);
    if served.is_err() {
        stays_failed(rt, caches, before);
    }
    served
}

/// Reads and then writes each of 200 blocks, and flushes, unless an allocation fails. Each read
/// misses, in the caches of both users and in their shadows, each write hits, and each block is
/// written back once by each cache.
fn serves_all(rt: &impl Abort, alloc: Global) -> Result<(), NoMemory> {
    let mut caches = made(rt, alloc)?;
    for block in 0..200usize {
        used(rt, &mut caches, Class::Read, block)?;
        used(rt, &mut caches, Class::Write, block)?;
    }
    assert!(rt; caches.have_room());
    assert_eq!(rt; caches.flush(), Ok(()));
    let reads = PerClass {
        read: 200,
        ..PerClass::default()
    };
    let all = kept_all(rt, &caches);
    assert_eq!(rt; all.first.shadow_misses, reads);
    assert_eq!(rt; all.first.counts.misses, reads);
    assert_eq!(rt; all.first.counts.written_back, 200);
    assert_eq!(rt; all.first.served, 401);
    assert_eq!(rt; all.second.served, 1);
    assert_eq!(rt; all.third, all.first);
    Ok(())
}

#[test]
fn caches_serve_all_or_fail(rt: HostRuntime) -> Result<(), Fail> {
    serves_all(&rt, rt.alloc())?;
    Ok(())
}

/// A block of this number is refused, and then each call.
fn refuses(rt: &impl Abort, alloc: Global, number: usize) -> Result<(), NoMemory> {
    let mut caches = made(rt, alloc)?;
    used(rt, &mut caches, Class::Write, 0)?;
    used(rt, &mut caches, Class::Read, 1)?;
    assert_eq!(rt; used(rt, &mut caches, Class::Read, number), Err(NoMemory));
    Ok(())
}

#[test]
fn a_number_of_u32_max_or_more_is_refused_for_good(rt: HostRuntime) -> Result<(), Fail> {
    refuses(&rt, rt.alloc(), u32::MAX as usize)?;
    refuses(&rt, rt.alloc(), usize::MAX)?;
    Ok(())
}
