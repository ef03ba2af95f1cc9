//! A use of stage_core.

use din_trace::{DinRecord, Label};
use stage_core::{Config, NoMemory, Selection, run_plain};
use std::alloc::Global;

const WHOLE: Selection = Selection {
    skip: 0,
    max: 0,
    every: 0,
};

fn store(addr: u64) -> DinRecord {
    let label = Label::Write;
    DinRecord { label, addr }
}

/// The second level's misses over three stores, on one thread.
pub fn second_level_misses(alloc: Global, config: &Config) -> Result<u128, NoMemory> {
    let records = [store(0x0), store(0x8), store(0x10)];
    let totals = run_plain(alloc, config, &WHOLE, &records)?;
    Ok(totals.u.misses.total())
}
