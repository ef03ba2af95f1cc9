//! Whether an access sent nothing to the next level, worked out by hand.

use cache_core::{Access, Class, Geometry, MAX_EVENTS, Policy, Repl};
use grid_core::{Engine, share_block_size};
use std::alloc::Global;
use std::process::Abort;
use std::test::Fail;

/// An engine of a direct-mapped and a two-way cache, each of four sets of blocks of four bytes.
fn made(rt: &impl Abort, alloc: Global, repl: Repl, wback: bool) -> Engine {
    let narrow = Geometry::new(16, 4, 1).expect(rt, "a lawful geometry");
    let wide = Geometry::new(32, 4, 2).expect(rt, "a lawful geometry");
    let geometries = [narrow, wide];
    let policy = Policy {
        repl,
        wback,
        walloc: true,
    };
    assert!(rt; share_block_size(&geometries, narrow));
    Engine::new(alloc, &geometries, narrow, policy).expect(rt, "memory")
}

/// Serves an access. It has to send something, or the engine has to say that it sent nothing.
fn expect_sent(rt: &impl Abort, engine: &mut Engine, class: Class, addr: u64, sent: bool) {
    assert!(rt; engine.served() < MAX_EVENTS);
    engine.access(Access { class, addr }).expect(rt, "memory");
    assert_eq!(rt; engine.sent_nothing(), !sent);
}

/// Serves an access the short way, if it may go it, and answers whether it did.
fn goes_short(rt: &impl Abort, engine: &mut Engine, class: Class, addr: u64) -> bool {
    assert!(rt; engine.served() < MAX_EVENTS);
    engine.again(Access { class, addr })
}

/// Reads of two blocks of one set. Both stay in the two-way cache, and push one another out of the
/// direct-mapped one.
fn reads_alike(rt: &impl Abort, engine: &mut Engine) {
    expect_sent(rt, engine, Class::Read, 0, true);
    expect_sent(rt, engine, Class::Read, 3, false);
    expect_sent(rt, engine, Class::Instr, 16, true);
    expect_sent(rt, engine, Class::Misc, 17, false);
    expect_sent(rt, engine, Class::Read, 0, true);
    expect_sent(rt, engine, Class::Read, 16, true);
    assert!(rt; engine.served() < MAX_EVENTS);
    engine.flush_unlisted().expect(rt, "memory");
    expect_sent(rt, engine, Class::Read, 16, true);
    expect_sent(rt, engine, Class::Read, 16, false);
}

/// A write to a block that all caches hold is sent on if they write through. A block that was
/// written is written back if the direct-mapped cache needs its place.
fn writes_alike(rt: &impl Abort, engine: &mut Engine, through: bool) {
    expect_sent(rt, engine, Class::Write, 18, through);
    expect_sent(rt, engine, Class::Read, 18, false);
    expect_sent(rt, engine, Class::Write, 4, true);
    expect_sent(rt, engine, Class::Write, 4, through);
    expect_sent(rt, engine, Class::Read, 16, false);
    expect_sent(rt, engine, Class::Write, 0, true);
}

/// Both caches have counted so many reads, writes and accesses of class `Misc`, so many misses, and
/// so many blocks written back.
fn expect_counts(rt: &impl Abort, engine: &Engine, fetches: [u64; 3], misses: u128, back: u64) {
    assert!(rt; 1 < engine.cells());
    for index in 0..2 {
        let counts = engine.counts(index);
        let counted = &counts.fetches;
        assert_eq!(rt; [counted.read, counted.write, counted.misc], fetches);
        assert_eq!(rt; counts.misses.total(), misses);
        assert_eq!(rt; counts.written_back, back);
    }
}

#[test]
fn a_block_that_is_used_again_is_counted(rt: HostRuntime) -> Result<(), Fail> {
    let mut engine = made(&rt, rt.alloc(), Repl::Lru, true);
    expect_sent(&rt, &mut engine, Class::Read, 0, true);
    expect_sent(&rt, &mut engine, Class::Misc, 1, false);
    expect_sent(&rt, &mut engine, Class::Write, 2, false);
    expect_sent(&rt, &mut engine, Class::Write, 3, false);
    expect_sent(&rt, &mut engine, Class::Read, 0, false);
    assert!(&rt; engine.served() < MAX_EVENTS);
    let lists = engine.flush()?;
    for list in lists.iter() {
        assert_eq!(&rt; list.len(), 1);
    }
    expect_sent(&rt, &mut engine, Class::Write, 0, true);
    expect_counts(&rt, &engine, [2, 3, 1], 2, 1);
    assert!(&rt; 1 < engine.cells());
    for index in 0..2 {
        assert_eq!(&rt; engine.shadow_misses(index).total(), 2);
    }
    Ok(())
}

#[test]
fn stacked_caches_tell_what_they_send(rt: HostRuntime) -> Result<(), Fail> {
    let mut back = made(&rt, rt.alloc(), Repl::Lru, true);
    reads_alike(&rt, &mut back);
    writes_alike(&rt, &mut back, false);
    let mut through = made(&rt, rt.alloc(), Repl::Lru, false);
    reads_alike(&rt, &mut through);
    writes_alike(&rt, &mut through, true);
    Ok(())
}

#[test]
fn fifo_caches_tell_what_they_send(rt: HostRuntime) -> Result<(), Fail> {
    let mut back = made(&rt, rt.alloc(), Repl::Fifo, true);
    reads_alike(&rt, &mut back);
    writes_alike(&rt, &mut back, false);
    let mut through = made(&rt, rt.alloc(), Repl::Fifo, false);
    reads_alike(&rt, &mut through);
    writes_alike(&rt, &mut through, true);
    Ok(())
}

#[test]
fn the_block_used_last_goes_the_short_way(rt: HostRuntime) -> Result<(), Fail> {
    let mut engine = made(&rt, rt.alloc(), Repl::Lru, true);
    assert!(&rt; !goes_short(&rt, &mut engine, Class::Read, 0));
    expect_sent(&rt, &mut engine, Class::Read, 0, true);
    assert!(&rt; goes_short(&rt, &mut engine, Class::Misc, 3));
    assert!(&rt; engine.sent_nothing());
    assert!(&rt; !goes_short(&rt, &mut engine, Class::Read, 4));
    // The first write makes the block dirty.
    assert!(&rt; !goes_short(&rt, &mut engine, Class::Write, 1));
    expect_sent(&rt, &mut engine, Class::Write, 1, false);
    assert!(&rt; goes_short(&rt, &mut engine, Class::Write, 2));
    assert_eq!(&rt; engine.served(), 4);
    assert!(&rt; engine.served() < MAX_EVENTS);
    let _lists = engine.flush()?;
    assert!(&rt; !goes_short(&rt, &mut engine, Class::Read, 0));
    assert_eq!(&rt; engine.served(), 5);
    expect_counts(&rt, &engine, [1, 2, 1], 1, 1);
    Ok(())
}

#[test]
fn what_sends_or_has_no_order_goes_no_short_way(rt: HostRuntime) {
    let mut through = made(&rt, rt.alloc(), Repl::Lru, false);
    expect_sent(&rt, &mut through, Class::Write, 0, true);
    assert!(&rt; !goes_short(&rt, &mut through, Class::Write, 0));
    assert!(&rt; goes_short(&rt, &mut through, Class::Instr, 0));
    let mut fifo = made(&rt, rt.alloc(), Repl::Fifo, true);
    expect_sent(&rt, &mut fifo, Class::Read, 0, true);
    assert!(&rt; !goes_short(&rt, &mut fifo, Class::Read, 0));
}
