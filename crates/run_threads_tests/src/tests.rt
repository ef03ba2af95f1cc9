//! Tests of what no call of sim_run reaches. The expected values were worked out by hand. Those of
//! whole runs are in sim_run_tests.

mod gone;
mod gravest;
mod many;
mod starved;

use cache_core::{Policy, Repl};
use stage_core::{CacheSpec, Config};
use std::test::Fail;

fn spec(size: u64, bsize: u64, assoc: u64) -> CacheSpec {
    CacheSpec {
        size,
        bsize,
        assoc,
        policy: Policy {
            repl: Repl::Lru,
            wback: true,
            walloc: true,
        },
    }
}

/// An instruction cache of 16 bytes, a data cache of 16 bytes in two ways, and a second level of 32
/// bytes. Each ring holds `ring` messages.
fn config(ring: u64) -> Result<Config, Fail> {
    Ok(Config::new(spec(16, 4, 1), spec(16, 4, 2), spec(32, 8, 2), ring)?)
}
