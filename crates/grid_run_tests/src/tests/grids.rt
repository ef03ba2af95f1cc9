//! Whole grids, with their tables as literal bytes.

ghost use Rattle.std.specs.Prelude.{IfOk};
ghost use Rattle.stage_core.specs.Events.{IsBounded};
ghost use Rattle.grid_run.specs.Grids.{HasBoundedRows};

use super::{HEADS, add_row, is_made_of, words_of};
use cache_core::{Policy, Repl};
use din_trace::{FromRead, FromWrite, MAX_LIMIT};
use grid_run::{Columns, Grid, GridFault, Setup, simulate_grid};
use stage_core::{CacheSpec, Config, Selection};
use std::alloc::Global;
use std::io::{Read, Write};
use std::process::Abort;
use std::test::Fail;
use std::thread::Threads;

pub(super) static EVERYTHING: Selection = Selection {
    skip: 0,
    max: 0,
    every: 0,
};

/// LRU, write back, write allocation.
static USUAL: Policy = Policy {
    repl: Repl::Lru,
    wback: true,
    walloc: true,
};

fn spec(size: u64, bsize: u64, assoc: u64) -> CacheSpec {
    CacheSpec {
        size,
        bsize,
        assoc,
        policy: USUAL,
    }
}

/// An instruction cache of 16 bytes, a direct-mapped data cache of this size, and a second level of
/// 32 bytes in two ways.
fn config(data: u64) -> Result<Config, Fail> {
    Ok(Config::new(spec(16, 4, 1), spec(data, 4, 1), spec(32, 8, 2), 1)?)
}

/// Data caches of 8 and of 16 bytes with these selections, and one of 3 bytes, which is refused,
/// between them.
pub(super) fn grid(alloc: Global, small: &Selection, large: &Selection) -> Result<Grid, Fail>
    requires small { IsBounded small.now }
    requires large { IsBounded large.now }
    ensures { IfOk result HasBoundedRows }
{
    let refusal = String::from_str(alloc, "l1-dsize is not a power of two")?;
    let mut rows = Vec::new(alloc);
    add_row(
        alloc,
        &mut rows,
        &["8"],
        Setup::Simulated(config(8)?, *small),
    )?;
    add_row(alloc, &mut rows, &["3"], Setup::Refused(refusal))?;
    add_row(
        alloc,
        &mut rows,
        &["16"],
        Setup::Simulated(config(16)?, *large),
    )?;
    let names = words_of(alloc, &["l1-dsize"])?;
    Ok(Grid {
        names,
        columns: Columns::Plain,
        rows,
    })
}

/// The head of the one column of words.
static FIRST_HEAD: &str = "l1-dsize\t";

/// The line of the refused row.
static REFUSED: &str = concat!(
    "3\t-\t-\t-\t-\t-\t-\t-\t-\t-\t-\t-",
    "\t-\t-\t-\t-\t-\t-\t-\t-\t-\t-\t-",
    "\t-\t-\t-\t-\t-\t-\t-\t-\t-\t-\t-",
    "\tl1-dsize is not a power of two\n",
);

/// The result of a grid over a trace, read from any reader and written to any writer.
pub(super) fn run<H: Threads + Sync, R: Read + Drop + Send, W: Write + Drop>(
    rt: &H,
    alloc: Global,
    grid: &Grid,
    threads: usize,
    reader: R,
    writer: W,
) -> Result<(), GridFault>
    requires { HasBoundedRows grid.now }
{
    simulate_grid(
        rt,
        alloc,
        grid,
        FromRead::new(reader),
        MAX_LIMIT,
        threads,
        &mut FromWrite::new(writer),
    )
}

/// The table of a grid over a trace has to be made of these parts, whatever the number of threads.
fn writes<H: Abort + Threads + Sync>(
    rt: &H,
    alloc: Global,
    grid: &Grid,
    trace: &[u8],
    parts: [&str; 5],
)
    requires { HasBoundedRows grid.now }
{
    for threads in 0..4 {
        let mut written = Vec::new(alloc);
        assert_eq!(rt; run(rt, alloc, grid, threads, trace, &mut written), Ok(()));
        assert!(rt; is_made_of(&written, &parts), "{threads} threads");
    }
}

/// Two blocks of one set of the small data cache, the first of them twice. The large one has a set
/// for each.
pub(super) static CONFLICT: &[u8] = b"0 0\n0 8\n0 0\n2 0\n";

static CONFLICT_SMALL: &str = concat!(
    "8\t1\t1\t1.000000\t1\t0\t0\t1\t1\t0\t0\t0\t",
    "3\t3\t1.000000\t2\t0\t1\t2\t3\t0\t0\t0\t",
    "4\t2\t0.500000\t2\t0\t0\t2\t2\t0\t0\t0\t-\n",
);

static CONFLICT_LARGE: &str = concat!(
    "16\t1\t1\t1.000000\t1\t0\t0\t1\t1\t0\t0\t0\t",
    "3\t2\t0.666666\t2\t0\t0\t2\t2\t0\t0\t0\t",
    "3\t2\t0.666666\t2\t0\t0\t2\t2\t0\t0\t0\t-\n",
);

static SECOND_AND_THIRD: Selection = Selection {
    skip: 1,
    max: 2,
    every: 0,
};

/// The large cache over the second and third reference of the trace of a conflict.
static LARGE_IN_PART: &str = concat!(
    "16\t0\t0\t0.000000\t0\t0\t0\t0\t0\t0\t0\t0\t",
    "2\t2\t1.000000\t2\t0\t0\t2\t2\t0\t0\t0\t",
    "2\t2\t1.000000\t2\t0\t0\t2\t2\t0\t0\t0\t-\n",
);

/// The table with these lines of its first and last rows.
fn table<'a>(small: &'a str, large: &'a str) -> [&'a str; 5] {
    [FIRST_HEAD, HEADS, small, REFUSED, large]
}

#[test]
fn each_row_has_its_own_counts(rt: HostRuntime) -> Result<(), Fail> {
    let grid = grid(rt.alloc(), &EVERYTHING, &EVERYTHING)?;
    let wanted = table(CONFLICT_SMALL, CONFLICT_LARGE);
    writes(&rt, rt.alloc(), &grid, CONFLICT, wanted);
    Ok(())
}

#[test]
fn a_dirty_block_is_written_back(rt: HostRuntime) -> Result<(), Fail> {
    let small = concat!(
        "8\t0\t0\t0.000000\t0\t0\t0\t0\t0\t0\t0\t1\t",
        "2\t2\t1.000000\t2\t0\t0\t2\t2\t1\t0\t1\t",
        "3\t2\t0.666666\t2\t0\t0\t2\t2\t1\t0\t1\t-\n",
    );
    let large = concat!(
        "16\t0\t0\t0.000000\t0\t0\t0\t0\t0\t0\t0\t1\t",
        "2\t2\t1.000000\t2\t0\t0\t2\t2\t1\t0\t1\t",
        "3\t2\t0.666666\t2\t0\t0\t2\t2\t1\t0\t1\t-\n",
    );
    let grid = grid(rt.alloc(), &EVERYTHING, &EVERYTHING)?;
    writes(
        &rt,
        rt.alloc(),
        &grid,
        b"1 0\n0 8\n4 0\n",
        table(small, large),
    );
    Ok(())
}

#[test]
fn the_selection_is_obeyed(rt: HostRuntime) -> Result<(), Fail> {
    let small = concat!(
        "8\t0\t0\t0.000000\t0\t0\t0\t0\t0\t0\t0\t0\t",
        "2\t2\t1.000000\t2\t0\t0\t2\t2\t0\t0\t0\t",
        "2\t2\t1.000000\t2\t0\t0\t2\t2\t0\t0\t0\t-\n",
    );
    let grid = grid(rt.alloc(), &SECOND_AND_THIRD, &SECOND_AND_THIRD)?;
    writes(
        &rt,
        rt.alloc(),
        &grid,
        CONFLICT,
        table(small, LARGE_IN_PART),
    );
    Ok(())
}

#[test]
fn each_row_has_its_own_selection(rt: HostRuntime) -> Result<(), Fail> {
    let grid = grid(rt.alloc(), &EVERYTHING, &SECOND_AND_THIRD)?;
    let wanted = table(CONFLICT_SMALL, LARGE_IN_PART);
    writes(&rt, rt.alloc(), &grid, CONFLICT, wanted);
    Ok(())
}

#[test]
fn a_flush_is_inserted(rt: HostRuntime) -> Result<(), Fail> {
    let each = Selection {
        skip: 0,
        max: 1,
        every: 1,
    };
    let small = concat!(
        "8\t0\t0\t0.000000\t0\t0\t0\t0\t0\t0\t0\t1\t",
        "1\t1\t1.000000\t1\t0\t0\t1\t1\t0\t0\t1\t",
        "1\t1\t1.000000\t1\t0\t0\t1\t1\t0\t0\t1\t-\n",
    );
    let large = concat!(
        "16\t0\t0\t0.000000\t0\t0\t0\t0\t0\t0\t0\t1\t",
        "1\t1\t1.000000\t1\t0\t0\t1\t1\t0\t0\t1\t",
        "1\t1\t1.000000\t1\t0\t0\t1\t1\t0\t0\t1\t-\n",
    );
    let grid = grid(rt.alloc(), &each, &each)?;
    writes(&rt, rt.alloc(), &grid, CONFLICT, table(small, large));
    Ok(())
}

/// How many bytes the table over the trace of a conflict has.
pub(super) fn table_len() -> usize {
    let lengths = table(CONFLICT_SMALL, CONFLICT_LARGE).map(|part| part.len());
    lengths
        .iter()
        .fold(0usize, |sum, length| sum.saturating_add(*length))
}
