//! A use of din_trace.

use din_trace::{Label, MAX_LIMIT, TraceFault, read_all};
use std::alloc::Global;

/// How many stores a trace has.
pub fn stores(alloc: Global, trace: &[u8]) -> Result<usize, TraceFault> {
    let records = read_all(alloc, trace, MAX_LIMIT)?;
    Ok(
        records
            .iter()
            .filter(|record| record.label == Label::Write)
            .count(),
    )
}
