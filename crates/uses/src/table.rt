//! A use of grid_run.

ghost use Rattle.std.specs.Prelude.{IfOk};
ghost use Rattle.grid_run.specs.Grids.{HasBoundedRows, IsBoundedRow};

use crate::run::{WHOLE, cache};
use anyhow::anyhow;
use din_trace::{FromRead, FromWrite, MAX_LIMIT};
use grid_run::{Columns, Grid, GridFault, Row, Setup, simulate_grid};
use stage_core::Config;
use std::alloc::Global;
use std::thread::Threads;

/// A list of one word.
fn word(alloc: Global, text: &str) -> anyhow::Result<Vec<String>> {
    let mut words = Vec::new(alloc);
    words.push(String::from_str(alloc, text)?)?;
    Ok(words)
}

/// A row for a direct-mapped data cache of so many bytes, which begins with this word.
fn row(alloc: Global, size: u64, text: &str) -> anyhow::Result<Row>
    ensures { IfOk result IsBoundedRow }
{
    let Ok(config) = Config::new(cache(16, 4, 1), cache(size, 4, 1), cache(32, 8, 2), 1) else {
        return Err(anyhow!("no lawful configuration"));
    };
    Ok(Row {
        words: word(alloc, text)?,
        setup: Setup::Simulated(config, WHOLE),
    })
}

/// A row for a data cache of 8 bytes, and one for 16.
pub fn two_sizes(alloc: Global) -> anyhow::Result<Grid>
    ensures { IfOk result HasBoundedRows }
{
    let mut rows = Vec::new(alloc);
    rows.push(row(alloc, 8, "8")?)?;
    rows.push(row(alloc, 16, "16")?)?;
    Ok(Grid {
        names: word(alloc, "l1-dsize")?,
        columns: Columns::Plain,
        rows,
    })
}

/// The table of a grid over a trace, made on two threads.
pub fn table<H: Threads + Sync>(
    rt: &H,
    alloc: Global,
    grid: &Grid,
    trace: &[u8],
) -> Result<Vec<u8>, GridFault>
    requires { HasBoundedRows grid.now }
{
    let mut written = Vec::new(alloc);
    let reader = FromRead::new(trace);
    let mut writer = FromWrite::new(&mut written);
    simulate_grid(rt, alloc, grid, reader, MAX_LIMIT, 2, &mut writer)?;
    Ok(written)
}
