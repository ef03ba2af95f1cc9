//! A use of sim_run.

use cache_core::{Policy, Repl};
use din_trace::{FromRead, FromWrite, MAX_LIMIT};
use sim_run::{OpenGate, RunFault, simulate};
use stage_core::{CacheSpec, Config, ConfigFault, Selection};
use std::alloc::Global;
use std::sync::Wait;
use std::thread::Threads;

/// The whole of a trace.
pub const WHOLE: Selection = Selection {
    skip: 0,
    max: 0,
    every: 0,
};

/// An LRU cache that writes back and allocates at writes.
pub fn cache(size: u64, bsize: u64, assoc: u64) -> CacheSpec {
    let policy = Policy {
        repl: Repl::Lru,
        wback: true,
        walloc: true,
    };
    CacheSpec {
        size,
        bsize,
        assoc,
        policy,
    }
}

/// Caches that fit a blackboard, and rings of two messages.
pub fn small_caches() -> Result<Config, ConfigFault> {
    Config::new(cache(16, 4, 1), cache(16, 4, 2), cache(32, 8, 2), 2)
}

/// The report of a trace, made by four threads.
pub fn report<H: Threads + Wait + Sync>(
    rt: &H,
    alloc: Global,
    config: &Config,
    trace: &[u8],
) -> Result<Vec<u8>, RunFault> {
    let mut written = Vec::new(alloc);
    let reader = FromRead::new(trace);
    simulate(
        rt,
        alloc,
        config,
        &WHOLE,
        reader,
        MAX_LIMIT,
        &OpenGate,
        &mut FromWrite::new(&mut written),
    )?;
    Ok(written)
}
