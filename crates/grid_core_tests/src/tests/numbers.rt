//! Engines that are told the numbers of their blocks, from one table for all.

use super::{BLOCK, access_of, caches_of, expect_counts, flush_alike, follow, geometries_of};
use cache_core::{Access, Cache, Class, MAX_EVENTS, PerClass, Policy, Repl};
use grid_core::{BlockNumbers, Engine, share_block_size};
use std::alloc::Global;
use std::process::Abort;
use std::test::Fail;

/// An engine, and a cache for each of its cells.
#[derive(Drop)]
struct Pair {
    engine: Engine,
    caches: Vec<Cache>,
}

fn pair_of(rt: &impl Abort, alloc: Global, blocks: &[u64], policy: Policy) -> Pair {
    let geometries = geometries_of(rt, alloc, blocks, &[1, 2, 4]);
    let first = geometries.first().copied().expect(rt, "a geometry");
    assert!(rt; share_block_size(&geometries, first));
    Pair {
        engine: Engine::new(alloc, &geometries, first, policy).expect(rt, "memory"),
        caches: caches_of(rt, alloc, &geometries, policy),
    }
}

/// Serves an access in the engine, by the shared number of its block.
fn serve(rt: &impl Abort, engine: &mut Engine, numbers: &mut BlockNumbers, access: Access) {
    let number = numbers.number(access.addr / BLOCK).expect(rt, "memory");
    assert!(rt; engine.served() < MAX_EVENTS);
    engine.access_numbered(access, number).expect(rt, "memory");
}

/// Serves some accesses by the shared numbers, and perhaps a flush.
fn serve_some(
    rt: &impl Abort,
    alloc: Global,
    pair: &mut Pair,
    numbers: &mut BlockNumbers,
    seed: u64,
) {
    let mut state = seed;
    for _ in 0..40 {
        let access = access_of(&mut state, 96);
        serve(rt, &mut pair.engine, numbers, access);
        follow(rt, &pair.engine, &mut pair.caches, access);
    }
    if seed % 3 == 0 {
        flush_alike(rt, alloc, &mut pair.engine, &mut pair.caches);
    }
    let none = Vec::new(alloc);
    expect_counts(rt, &pair.engine, &pair.caches, &none);
}

#[test]
fn engines_that_share_numbers_are_single_caches(rt: HostRuntime) -> Result<(), Fail> {
    let alloc = rt.alloc();
    let lru = Policy {
        repl: Repl::Lru,
        wback: true,
        walloc: true,
    };
    let fifo = Policy {
        repl: Repl::Fifo,
        ..lru
    };
    let mut numbers = BlockNumbers::new(alloc);
    let mut small = pair_of(&rt, alloc, &[4, 8], lru);
    let mut large = pair_of(&rt, alloc, &[16, 64], lru);
    let mut apart = pair_of(&rt, alloc, &[8, 16], fifo);
    for part in 0..9u64 {
        serve_some(&rt, alloc, &mut small, &mut numbers, part);
        serve_some(&rt, alloc, &mut large, &mut numbers, part.wrapping_mul(7));
        serve_some(&rt, alloc, &mut apart, &mut numbers, part.wrapping_add(5));
    }
    Ok(())
}

/// Reads the block of address 0 by its shared number, and answers the compulsory misses of the
/// first cache.
fn compulsory_after_read(
    rt: &impl Abort,
    engine: &mut Engine,
    numbers: &mut BlockNumbers,
) -> PerClass {
    let class = Class::Read;
    serve(rt, engine, numbers, Access { class, addr: 0 });
    assert!(rt; 0 < engine.cells());
    engine.counts(0).compulsory
}

#[test]
fn a_block_that_another_engine_used_is_accessed_first(rt: HostRuntime) -> Result<(), Fail> {
    let alloc = rt.alloc();
    let policy = Policy {
        repl: Repl::Lru,
        wback: true,
        walloc: true,
    };
    let mut numbers = BlockNumbers::new(alloc);
    let mut one = pair_of(&rt, alloc, &[4], policy).engine;
    let mut other = pair_of(&rt, alloc, &[4], policy).engine;
    let once = PerClass {
        read: 1,
        ..PerClass::default()
    };
    for _ in 0..2 {
        assert_eq!(&rt; compulsory_after_read(&rt, &mut one, &mut numbers), once);
        assert_eq!(&rt; compulsory_after_read(&rt, &mut other, &mut numbers), once);
    }
    Ok(())
}
