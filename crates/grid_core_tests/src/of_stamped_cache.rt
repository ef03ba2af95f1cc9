//! Counts that were worked out by hand, and pseudo-random accesses and flushes beside caches of
//! cache_core.

use cache_core::{Access, Class, Counts, Geometry, PerClass};
use shared_list::Users;
use stamped_cache::StampedCaches;
use std::alloc::Global;
use std::process::Abort;
use std::test::Fail;

mod many;
mod memory;

/// An access by its class, the address, and the number of the block.
type Use = (Class, u64, usize);

/// Serves these accesses in the caches of these users.
fn serve(rt: &impl Abort, caches: &mut StampedCaches, users: Users, uses: &[Use]) {
    for (class, addr, number) in uses {
        assert!(rt; caches.have_room());
        let access = Access {
            class: *class,
            addr: *addr,
        };
        caches.access(access, *number, users).expect(rt, "memory");
    }
}

/// Flushes all caches.
fn flush(rt: &impl Abort, caches: &mut StampedCaches) {
    assert!(rt; caches.have_room());
    caches.flush().expect(rt, "memory");
}

/// The counts of a user's cache have to be these, and the misses of its shadow these.
fn expect_counts(
    rt: &impl Abort,
    caches: &StampedCaches,
    user: usize,
    counts: Counts,
    far: PerClass,
) {
    assert!(rt; user < caches.users());
    assert_eq!(rt; caches.counts(user), counts);
    assert_eq!(rt; caches.shadow_misses(user), far);
}

/// A user's cache has to have served so many accesses and flushes.
fn expect_served(rt: &impl Abort, caches: &StampedCaches, user: usize, served: u64) {
    assert!(rt; user < caches.users());
    assert_eq!(rt; caches.served(user), served);
}

/// The accesses before the flush. A block has 16 bytes, so the first digit of an address is the
/// block. Even blocks go to set 0, odd ones to set 1. Behind each access stand the set after it,
/// where * is dirty, and the shadow, each with the latest use first.
static BEFORE: [Use; 13] = [
    // compulsory: 0*; far: 0
    (Class::Write, 0x08, 5),
    // compulsory: 2 0*; far: 2 0
    (Class::Read, 0x20, 3),
    // compulsory, 0 is written back: 4 2; far: 4 2 0
    (Class::Read, 0x4c, 1),
    // conflict: 0 4; near: 0 4 2
    (Class::Read, 0x00, 5),
    // a hit: 4* 0; near: 4 0 2
    (Class::Write, 0x40, 1),
    // compulsory: 1; far: 1 4 0 2
    (Class::Instr, 0x11, 0),
    // compulsory: 3 1; far: 3 1 4 0
    (Class::Misc, 0x30, 6),
    // capacity: 2 4*; far: 2 3 1 4
    (Class::Read, 0x2f, 3),
    // capacity, 4 is written back: 0 2; far: 0 2 3 1
    (Class::Read, 0x04, 5),
    // compulsory: 6 0; far: 6 0 2 3
    (Class::Read, 0x60, 4),
    // a hit: 1* 3; far: 1 6 0 2
    (Class::Write, 0x18, 0),
    // a hit: 1* 3; near: 1 6 0 2
    (Class::Write, 0x10, 0),
    // a hit: 6* 0; near: 6 1 0 2
    (Class::Write, 0x6f, 4),
];

/// The accesses after the flush, which writes 1 and 6 back.
static AFTER: [Use; 3] = [
    // capacity: 1; far: 1
    (Class::Read, 0x10, 0),
    // capacity: 3* 1; far: 3 1
    (Class::Write, 0x34, 6),
    // compulsory, 1 leaves and is clean: 5 3*; far: 5 3 1
    (Class::Read, 0x50, 2),
];

/// What 16 accesses and the flush in between count under write back. Hits are writes of the blocks
/// 4, 1, 1 and 6.
fn counts_by_hand() -> Counts {
    Counts {
        fetches: per_class(1, 8, 6, 1),
        misses: per_class(1, 8, 2, 1),
        compulsory: per_class(1, 4, 1, 1),
        capacity: per_class(0, 3, 1, 0),
        conflict: per_class(0, 1, 0, 0),
        loaded: 12,
        written_back: 4,
        sent_on: 0,
        flushes: 1,
    }
}

/// The same under write through, which leaves no block dirty.
fn counts_through() -> Counts {
    Counts {
        written_back: 0,
        sent_on: 6,
        ..counts_by_hand()
    }
}

/// A count for each class.
fn per_class(instr: u64, read: u64, write: u64, misc: u64) -> PerClass {
    PerClass {
        instr,
        read,
        write,
        misc,
    }
}

/// What the shadow of a cache misses in these accesses: it does where it is `far` above.
fn far_by_hand() -> PerClass {
    per_class(1, 7, 3, 1)
}

/// Of three caches of two sets of two ways, the first and the last count this much, and the other
/// one, which gets no access, counts the flush alone. The last user that is named has no cache.
fn expect_by_hand(rt: &impl Abort, alloc: Global, wback: bool, counts: Counts) {
    let geometry = Geometry::new(64, 16, 2).expect(rt, "a lawful geometry");
    let mut caches = StampedCaches::new(alloc, geometry, wback, 3).expect(rt, "memory");
    let users = Users::one(0).with(2).with(31);
    serve(rt, &mut caches, users, &BEFORE);
    flush(rt, &mut caches);
    serve(rt, &mut caches, users, &AFTER);
    let flushed = Counts {
        flushes: 1,
        ..Counts::default()
    };
    expect_counts(rt, &caches, 0, counts, far_by_hand());
    expect_counts(rt, &caches, 1, flushed, PerClass::default());
    expect_counts(rt, &caches, 2, counts, far_by_hand());
    expect_served(rt, &caches, 0, 17);
    expect_served(rt, &caches, 1, 1);
    expect_served(rt, &caches, 2, 17);
    assert!(rt; !caches.failed());
}

#[test]
fn counts_are_those_worked_out_by_hand(rt: HostRuntime) {
    expect_by_hand(&rt, rt.alloc(), true, counts_by_hand());
    expect_by_hand(&rt, rt.alloc(), false, counts_through());
}

#[test]
fn new_caches_have_counted_nothing(rt: HostRuntime) {
    let geometry = Geometry::new(64, 16, 2).expect(&rt, "a lawful geometry");
    let caches = StampedCaches::new(rt.alloc(), geometry, true, 2).expect(&rt, "memory");
    expect_counts(&rt, &caches, 0, Counts::default(), PerClass::default());
    expect_counts(&rt, &caches, 1, Counts::default(), PerClass::default());
    expect_served(&rt, &caches, 1, 0);
    assert_eq!(&rt; caches.users(), 2);
    assert!(&rt; caches.have_room());
    assert!(&rt; !caches.failed());
}
