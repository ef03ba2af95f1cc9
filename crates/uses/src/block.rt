//! A use of cache_report.

use cache_core::{Counts, PerClass};
use cache_report::write_block;
use din_trace::{DeviceFailed, FromWrite};
use std::alloc::Global;

/// The block of a data cache that was read once, and missed.
pub fn one_miss(alloc: Global) -> Result<Vec<u8>, DeviceFailed> {
    let once = PerClass {
        read: 1,
        ..PerClass::default()
    };
    let counts = Counts {
        fetches: once,
        misses: once,
        compulsory: once,
        loaded: 1,
        ..Counts::default()
    };
    let mut written = Vec::new(alloc);
    write_block("l1-dcache", &counts, &mut FromWrite::new(&mut written))?;
    Ok(written)
}
