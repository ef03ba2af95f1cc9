//! Counts the records of a trace, and adds up their addresses, modulo `2^64`: the cost of reading
//! alone, since each record is one call of `Source::next`.
//!
//! Words: `read`, the trace.

use crate::trace;
use anyhow::bail;
use din_trace::{MAX_LIMIT, Source};
use std::env::Args;

/// Reads the trace that the next word names.
pub fn measure(rt: &HostRuntime, words: &mut Args) -> anyhow::Result<()> {
    let mut source = Source::new(trace(rt, words)?, MAX_LIMIT);
    let mut records = 0u64;
    let mut addresses = 0u64;
    for _ in 0..u64::MAX {
        match source.next() {
            Ok(Some(record)) => {
                records = records.wrapping_add(1);
                addresses = addresses.wrapping_add(record.addr);
            }
            Ok(None) => break,
            Err(fault) => bail!("{fault:?}"),
        }
    }
    println!(rt; "{records} records, addresses add up to {addresses}")?;
    Ok(())
}
