//! Simulates a trace on one thread, and prints its report.
//!
//! It measures `simulate_plain`, which keeps all records in memory. Words: `run`, the trace, then
//! the size, the block size and the ways of the instruction cache, of the data cache, and of the
//! second level.

use crate::POLICY;
use anyhow::bail;
use din_trace::{FromWrite, MAX_LIMIT};
use sim_run::simulate_plain;
use stage_core::{CacheSpec, Config, Selection};
use std::env::Args;
use std::io::BufWriter;

const WHOLE: Selection = Selection {
    skip: 0,
    max: 0,
    every: 0,
};

/// The cache that the next three words describe.
fn cache(words: &mut Args) -> anyhow::Result<CacheSpec> {
    Ok(CacheSpec {
        size: crate::number(words)?,
        bsize: crate::number(words)?,
        assoc: crate::number(words)?,
        policy: POLICY,
    })
}

/// Simulates the trace that the next word names.
pub fn measure(rt: &HostRuntime, words: &mut Args) -> anyhow::Result<()> {
    let reader = crate::trace(rt, words)?;
    let (i, d, u) = (cache(words)?, cache(words)?, cache(words)?);
    let Ok(config) = Config::new(i, d, u, 1) else {
        bail!("no lawful configuration");
    };
    let mut writer = FromWrite::new(BufWriter::new(rt.alloc(), rt.stdout())?);
    match simulate_plain(rt.alloc(), &config, &WHOLE, reader, MAX_LIMIT, &mut writer) {
        Ok(()) => Ok(()),
        Err(fault) => bail!("{fault:?}"),
    }
}
