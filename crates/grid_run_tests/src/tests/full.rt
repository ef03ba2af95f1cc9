//! A table with columns by class, as literal bytes.

use super::grids::{EVERYTHING, grid, run};
use super::is_made_of;
use grid_run::Columns;
use std::process::Abort;
use std::test::Fail;

/// The first line.
static HEADS: &str = concat!(
    "l1-dsize\t",
    "l1-icache-fetches\tl1-icache-fetches-instr\tl1-icache-fetches-read\t",
    "l1-icache-fetches-write\tl1-icache-fetches-misc\t",
    "l1-icache-misses\tl1-icache-misses-instr\tl1-icache-misses-read\t",
    "l1-icache-misses-write\tl1-icache-misses-misc\t",
    "l1-icache-miss-rate\t",
    "l1-icache-compulsory\tl1-icache-compulsory-instr\tl1-icache-compulsory-read\t",
    "l1-icache-compulsory-write\tl1-icache-compulsory-misc\t",
    "l1-icache-capacity\tl1-icache-capacity-instr\tl1-icache-capacity-read\t",
    "l1-icache-capacity-write\tl1-icache-capacity-misc\t",
    "l1-icache-conflict\tl1-icache-conflict-instr\tl1-icache-conflict-read\t",
    "l1-icache-conflict-write\tl1-icache-conflict-misc\t",
    "l1-icache-fully-associative-misses\tl1-icache-fully-associative-misses-instr\t",
    "l1-icache-fully-associative-misses-read\tl1-icache-fully-associative-misses-write\t",
    "l1-icache-fully-associative-misses-misc\t",
    "l1-icache-blocks-fetched\tl1-icache-written-back\tl1-icache-writes-sent-on\t",
    "l1-icache-flushes\t",
    "l1-dcache-fetches\tl1-dcache-fetches-instr\tl1-dcache-fetches-read\t",
    "l1-dcache-fetches-write\tl1-dcache-fetches-misc\t",
    "l1-dcache-misses\tl1-dcache-misses-instr\tl1-dcache-misses-read\t",
    "l1-dcache-misses-write\tl1-dcache-misses-misc\t",
    "l1-dcache-miss-rate\t",
    "l1-dcache-compulsory\tl1-dcache-compulsory-instr\tl1-dcache-compulsory-read\t",
    "l1-dcache-compulsory-write\tl1-dcache-compulsory-misc\t",
    "l1-dcache-capacity\tl1-dcache-capacity-instr\tl1-dcache-capacity-read\t",
    "l1-dcache-capacity-write\tl1-dcache-capacity-misc\t",
    "l1-dcache-conflict\tl1-dcache-conflict-instr\tl1-dcache-conflict-read\t",
    "l1-dcache-conflict-write\tl1-dcache-conflict-misc\t",
    "l1-dcache-fully-associative-misses\tl1-dcache-fully-associative-misses-instr\t",
    "l1-dcache-fully-associative-misses-read\tl1-dcache-fully-associative-misses-write\t",
    "l1-dcache-fully-associative-misses-misc\t",
    "l1-dcache-blocks-fetched\tl1-dcache-written-back\tl1-dcache-writes-sent-on\t",
    "l1-dcache-flushes\t",
    "l2-ucache-fetches\tl2-ucache-fetches-instr\tl2-ucache-fetches-read\t",
    "l2-ucache-fetches-write\tl2-ucache-fetches-misc\t",
    "l2-ucache-misses\tl2-ucache-misses-instr\tl2-ucache-misses-read\t",
    "l2-ucache-misses-write\tl2-ucache-misses-misc\t",
    "l2-ucache-miss-rate\t",
    "l2-ucache-compulsory\tl2-ucache-compulsory-instr\tl2-ucache-compulsory-read\t",
    "l2-ucache-compulsory-write\tl2-ucache-compulsory-misc\t",
    "l2-ucache-capacity\tl2-ucache-capacity-instr\tl2-ucache-capacity-read\t",
    "l2-ucache-capacity-write\tl2-ucache-capacity-misc\t",
    "l2-ucache-conflict\tl2-ucache-conflict-instr\tl2-ucache-conflict-read\t",
    "l2-ucache-conflict-write\tl2-ucache-conflict-misc\t",
    "l2-ucache-fully-associative-misses\tl2-ucache-fully-associative-misses-instr\t",
    "l2-ucache-fully-associative-misses-read\tl2-ucache-fully-associative-misses-write\t",
    "l2-ucache-fully-associative-misses-misc\t",
    "l2-ucache-blocks-fetched\tl2-ucache-written-back\tl2-ucache-writes-sent-on\t",
    "l2-ucache-flushes\t",
    "fault\n",
);

/// An instruction, and three references of the data cache. In the small one they meet in one set,
/// and the write is written back.
static ONE_OF_EACH_CLASS: &[u8] = b"2 0\n0 0\n1 8\n3 0\n";

static SMALL: &str = concat!(
    "8\t",
    "1\t1\t0\t0\t0\t1\t1\t0\t0\t0\t1.000000\t1\t1\t0\t0\t0\t0\t0\t0\t0\t0\t",
    "0\t0\t0\t0\t0\t1\t1\t0\t0\t0\t1\t0\t0\t0\t",
    "3\t0\t1\t1\t1\t3\t0\t1\t1\t1\t1.000000\t2\t0\t1\t1\t0\t0\t0\t0\t0\t0\t",
    "1\t0\t0\t0\t1\t2\t0\t1\t1\t0\t3\t1\t0\t0\t",
    "5\t1\t3\t1\t0\t2\t1\t1\t0\t0\t0.400000\t2\t1\t1\t0\t0\t0\t0\t0\t0\t0\t",
    "0\t0\t0\t0\t0\t2\t1\t1\t0\t0\t2\t0\t0\t0\t-\n",
);

static REFUSED: &str = concat!(
    "3\t",
    "-\t-\t-\t-\t-\t-\t-\t-\t-\t-\t-\t-\t-\t-\t-\t-\t-\t-\t-\t-\t-\t",
    "-\t-\t-\t-\t-\t-\t-\t-\t-\t-\t-\t-\t-\t-\t-\t-\t-\t-\t-\t-\t-\t",
    "-\t-\t-\t-\t-\t-\t-\t-\t-\t-\t-\t-\t-\t-\t-\t-\t-\t-\t-\t-\t-\t",
    "-\t-\t-\t-\t-\t-\t-\t-\t-\t-\t-\t-\t-\t-\t-\t-\t-\t-\t-\t-\t-\t",
    "-\t-\t-\t-\t-\t-\t-\t-\t-\t-\t-\t-\t-\t-\t-\t-\t-\t-\t-\t-\t-\t",
    "l1-dsize is not a power of two\n",
);

static LARGE: &str = concat!(
    "16\t",
    "1\t1\t0\t0\t0\t1\t1\t0\t0\t0\t1.000000\t1\t1\t0\t0\t0\t0\t0\t0\t0\t0\t",
    "0\t0\t0\t0\t0\t1\t1\t0\t0\t0\t1\t0\t0\t0\t",
    "3\t0\t1\t1\t1\t2\t0\t1\t1\t0\t0.666666\t2\t0\t1\t1\t0\t0\t0\t0\t0\t0\t",
    "0\t0\t0\t0\t0\t2\t0\t1\t1\t0\t2\t0\t0\t0\t",
    "3\t1\t2\t0\t0\t2\t1\t1\t0\t0\t0.666666\t2\t1\t1\t0\t0\t0\t0\t0\t0\t0\t",
    "0\t0\t0\t0\t0\t2\t1\t1\t0\t0\t2\t0\t0\t0\t-\n",
);

#[test]
fn a_full_table_has_columns_by_class(rt: HostRuntime) -> Result<(), Fail> {
    let alloc = rt.alloc();
    let mut grid = grid(alloc, &EVERYTHING, &EVERYTHING)?;
    grid.columns = Columns::Full;
    let mut written = Vec::new(alloc);
    let ended = run(&rt, alloc, &grid, 3, ONE_OF_EACH_CLASS, &mut written);
    assert_eq!(rt; ended, Ok(()));
    assert!(rt; is_made_of(&written, &[HEADS, SMALL, REFUSED, LARGE]));
    Ok(())
}
