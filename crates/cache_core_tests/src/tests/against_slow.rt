//! Pseudo-random traces, served by a cache and by the slow reference cache.

use super::slow::Slow;
use super::{Shape, cache_of, expect_flush, same, serve};
use cache_core::{Access, Cache, Class, Policy, Repl};
use std::alloc::Global;
use std::process::Abort;

/// The next pseudo-random number, by a linear congruence with Knuth's constants.
fn next_random(state: &mut u64) -> u64 {
    *state = state
        .wrapping_mul(6_364_136_223_846_793_005)
        .wrapping_add(1_442_695_040_888_963_407);
    *state >> 33
}

/// A pseudo-random access to one of `blocks` blocks of four bytes: low ones and the highest.
fn access_of(state: &mut u64, blocks: u64) -> Access {
    let class = match next_random(state) % 8 {
        0 => Class::Instr,
        1 | 2 | 3 => Class::Write,
        4 => Class::Misc,
        _ => Class::Read,
    };
    let block = next_random(state).checked_rem(blocks).unwrap_or(0);
    let offset = block.wrapping_mul(4).wrapping_add(next_random(state) % 4);
    let addr = if block % 3 == 0 { !offset } else { offset };
    Access { class, addr }
}

/// Serves an access on both caches. The outcomes have to agree.
fn serves_alike(rt: &impl Abort, cache: &mut Cache, slow: &mut Slow, access: Access, place: u64) {
    let outcome = serve(rt, cache, access.class, access.addr);
    same(rt, &outcome, &slow.access(rt, access), "the outcome", place);
}

/// Flushes both caches, which have to write the same blocks back.
fn flushes_alike(rt: &impl Abort, alloc: Global, cache: &mut Cache, slow: &mut Slow) {
    let wanted = slow.flush(rt);
    expect_flush(rt, alloc, cache, &wanted);
}

/// A pseudo-random history: to how many blocks of four bytes, how many accesses, and after how many
/// of them, on average, a flush comes.
#[derive(Clone, Copy)]
struct Long {
    blocks: u64,
    turns: u64,
    period: u64,
}

/// Serves the same accesses on both caches, with a flush now and then.
fn serve_alike(rt: &impl Abort, alloc: Global, cache: &mut Cache, slow: &mut Slow, long: Long) {
    let mut random = long.blocks;
    for k in 0..long.turns {
        let access = access_of(&mut random, long.blocks);
        serves_alike(rt, cache, slow, access, k);
        if next_random(&mut random).checked_rem(long.period) == Some(0) {
            flushes_alike(rt, alloc, cache, slow);
        }
    }
    flushes_alike(rt, alloc, cache, slow);
    same(
        rt,
        &cache.counts(),
        &slow.counts(),
        "the counts",
        long.blocks,
    );
}

/// Compares caches of this shape, with each policy.
fn is_alike(rt: &impl Abort, alloc: Global, shape: Shape, long: Long) {
    for (wback, walloc) in [(true, true), (true, false), (false, true), (false, false)] {
        for repl in [Repl::Lru, Repl::Fifo] {
            let policy = Policy {
                repl,
                wback,
                walloc,
            };
            let mut cache = cache_of(rt, alloc, shape, policy);
            let mut slow = Slow::new(alloc, shape, policy);
            serve_alike(rt, alloc, &mut cache, &mut slow, long);
        }
    }
}

#[test]
fn rows_answer_as_the_slow_cache(rt: HostRuntime) {
    for (shape, blocks) in [
        ((16, 4, 1), 12),
        ((64, 4, 4), 24),
        ((64, 8, 2), 24),
        ((256, 16, 16), 100),
    ] {
        let long = Long {
            blocks,
            turns: 300,
            period: 100,
        };
        is_alike(&rt, rt.alloc(), shape, long);
    }
}

/// A history in which maps of 128 ways replace blocks: long, with few flushes.
fn long_history(blocks: u64) -> Long {
    Long {
        blocks,
        turns: 400,
        period: 1_000,
    }
}

#[test]
fn a_map_answers_as_the_slow_cache(rt: HostRuntime) {
    is_alike(&rt, rt.alloc(), (512, 4, 128), long_history(180));
}

#[test]
fn two_maps_answer_as_the_slow_cache(rt: HostRuntime) {
    is_alike(&rt, rt.alloc(), (2_048, 8, 128), long_history(1_200));
}
