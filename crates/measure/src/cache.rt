//! Serves the same generated references to caches of one size and 1, 8, 256 and 4,096 ways, and
//! prints the misses.
//!
//! Words: `cache`, or `cache-times` to print the time of one access too; then the number of
//! references.

use crate::POLICY;
use anyhow::bail;
use cache_core::{Access, Cache, Class, Geometry, MAX_EVENTS};
use std::env::Args;
use std::time::Instant;

const SIZE: u64 = 65_536;

const BLOCK: u64 = 16;

/// The next state of the generator, a linear congruence with Knuth's constants.
fn next(state: u64) -> u64 {
    state
        .wrapping_mul(6_364_136_223_846_793_005)
        .wrapping_add(1_442_695_040_888_963_407)
}

/// The access that a state of the generator gives: one in four is a write, and three in four go to
/// a sixteenth of all blocks.
fn access_from(state: u64) -> Access {
    let bits = state >> 32;
    let class = if bits % 4 == 0 {
        Class::Write
    } else {
        Class::Read
    };
    let blocks = if bits / 4 % 4 == 0 { 16_384 } else { 1_024 };
    Access {
        class,
        addr: bits / 16 % blocks * BLOCK,
    }
}

/// Serves this many generated references.
fn serve_all(cache: &mut Cache, references: u64) -> anyhow::Result<()> {
    let mut state = 1;
    for _ in 0..references {
        if cache.served() >= MAX_EVENTS {
            bail!("more references than a cache serves");
        }
        state = next(state);
        if cache.access(access_from(state)).is_err() {
            bail!("no memory");
        }
    }
    Ok(())
}

/// Serves this many references to a cache of so many ways.
fn measure_ways(rt: &HostRuntime, ways: u64, references: u64, timed: bool) -> anyhow::Result<()> {
    let Ok(geometry) = Geometry::new(SIZE, BLOCK, ways) else {
        bail!("no lawful geometry");
    };
    let Ok(mut cache) = Cache::new(rt.alloc(), geometry, POLICY) else {
        bail!("no memory");
    };
    let start = Instant::now(rt)?;
    serve_all(&mut cache, references)?;
    let took = start.elapsed(rt)?;
    let counts = cache.counts();
    println!(rt;
        "{ways} ways: {} misses, {} compulsory, {} capacity, {} conflict, {} written back",
        counts.misses.total(),
        counts.compulsory.total(),
        counts.capacity.total(),
        counts.conflict.total(),
        counts.written_back
    )?;
    if timed && references > 0 {
        println!(rt;
            "{ways} ways: {} ns an access",
            took.as_nanos() / u128::from(references)
        )?;
    }
    Ok(())
}

/// Serves as many references as the next word says to each cache.
pub fn measure(rt: &HostRuntime, words: &mut Args, timed: bool) -> anyhow::Result<()> {
    let references = crate::number(words)?;
    for ways in [1, 8, 256, 4_096] {
        measure_ways(rt, ways, references, timed)?;
    }
    Ok(())
}
