//! Failing allocations. Each test passes if there is enough memory. If an allocation is refused, it
//! checks the state after that, and then fails with the name of the refusal and nothing else.

use super::{FIFO, LRU, NEW, Shape, expect_state, has, same, try_flush, try_new, try_serve};
use cache_core::{Cache, Class, Counts, NoMemory, Outcome, Policy};
use expected_counts::{by_class, first_misses};
use std::alloc::Global;
use std::process::Abort;
use std::test::Fail;

/// What is in the list before a flush, and what two written blocks add.
static LENT: [u64; 1] = [7];

static WRITTEN_BACK: [u64; 3] = [7, 0, 8];

/// All counts, and how many accesses and flushes succeeded.
fn state(cache: &Cache) -> (Counts, u64) {
    (cache.counts(), cache.served())
}

/// After a refusal, the counts of the cache and the list of the flush have to be as before the
/// call, and every later call has to fail.
fn stays_failed(rt: &impl Abort, cache: &mut Cache, before: (Counts, u64), out: &mut Vec<u64>) {
    expect_state(rt, cache, &before.0, before.1, true);
    assert!(rt; try_serve(rt, cache, Class::Read, 0) == Err(NoMemory));
    assert!(rt; try_flush(rt, cache, out) == Err(NoMemory));
    expect_state(rt, cache, &before.0, before.1, true);
    has(rt, out, &LENT);
}

/// An empty cache, unless an allocation fails.
fn made(rt: &impl Abort, alloc: Global, shape: Shape, policy: Policy) -> Result<Cache, NoMemory> {
    let cache = try_new(rt, alloc, shape, policy)?;
    expect_state(rt, &cache, &Counts::default(), 0, false);
    Ok(cache)
}

/// A list with one number, to which a flush appends, unless an allocation fails.
fn lent(alloc: Global) -> Result<Vec<u64>, NoMemory> {
    let mut out = Vec::new(alloc);
    if out.push(7).is_err() {
        return Err(NoMemory);
    }
    Ok(out)
}

/// Writes to a block, with this outcome. If an allocation fails, the cache has to stay failed.
fn wrote(
    rt: &impl Abort,
    cache: &mut Cache,
    out: &mut Vec<u64>,
    addr: u64,
    want: Outcome,
) -> Result<(), NoMemory> {
    let before = state(cache);
    let served = try_serve(rt, cache, Class::Write, addr);
    if served.is_err() {
        stays_failed(rt, cache, before, out);
    }
    same(rt, &served?, &want, "the outcome", addr);
    Ok(())
}

/// Flushes. If an allocation fails, the cache has to stay failed, and the list as it was.
fn flushed(rt: &impl Abort, cache: &mut Cache, out: &mut Vec<u64>) -> Result<(), NoMemory> {
    let before = state(cache);
    let ended = try_flush(rt, cache, out);
    if ended.is_err() {
        stays_failed(rt, cache, before, out);
    }
    ended
}

/// The counts of so many writes, each to a block of its own, and of the flush after them.
fn written_and_flushed(blocks: u64) -> Counts {
    let writes = by_class!(write: blocks);
    Counts {
        written_back: blocks,
        flushes: 1,
        ..first_misses!(writes, writes, blocks)
    }
}

/// Writes the first blocks and flushes, up to the first refusal.
fn fills(rt: &impl Abort, cache: &mut Cache, out: &mut Vec<u64>) -> Result<(), NoMemory> {
    for block in 0..200 {
        wrote(rt, cache, out, 4 * block, NEW)?;
    }
    flushed(rt, cache, out)?;
    assert!(rt; out.len() == 201);
    expect_state(rt, cache, &written_and_flushed(200), 201, false);
    Ok(())
}

fn serves_or_fails(
    rt: &impl Abort,
    alloc: Global,
    shape: Shape,
    policy: Policy,
) -> Result<(), NoMemory> {
    let mut out = lent(alloc)?;
    let mut cache = made(rt, alloc, shape, policy)?;
    fills(rt, &mut cache, &mut out)
}

/// Writes two blocks and flushes, up to the first refusal.
fn writes_two(rt: &impl Abort, cache: &mut Cache, out: &mut Vec<u64>) -> Result<(), NoMemory> {
    wrote(rt, cache, out, 8, NEW)?;
    wrote(rt, cache, out, 0, NEW)?;
    flushed(rt, cache, out)?;
    has(rt, out, &WRITTEN_BACK);
    expect_state(rt, cache, &written_and_flushed(2), 3, false);
    Ok(())
}

#[test]
fn two_blocks_are_written_and_flushed_or_the_cache_fails(rt: HostRuntime) -> Result<(), Fail> {
    let mut out = lent(rt.alloc())?;
    let mut cache = made(&rt, rt.alloc(), (16, 4, 2), LRU)?;
    Ok(writes_two(&rt, &mut cache, &mut out)?)
}

#[test]
fn a_cache_of_few_ways_serves_all_or_fails(rt: HostRuntime) -> Result<(), Fail> {
    Ok(serves_or_fails(&rt, rt.alloc(), (1_024, 4, 4), LRU)?)
}

#[test]
fn a_cache_of_many_ways_serves_all_or_fails(rt: HostRuntime) -> Result<(), Fail> {
    serves_or_fails(&rt, rt.alloc(), (1_024, 4, 256), FIFO)?;
    Ok(serves_or_fails(&rt, rt.alloc(), (1_024, 4, 256), LRU)?)
}
