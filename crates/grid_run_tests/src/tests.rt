//! Tables, and grids over traces in memory. The expected texts were worked out by hand; those of
//! `beside` are of runs of one configuration.

mod beside;
mod faults;
mod full;
mod grids;
mod lines;
mod memory;
mod narrow;
mod writers;

ghost use Rattle.std.specs.Prelude.{OnOk};
ghost use Rattle.std.specs.List.{All};
ghost use Rattle.grid_run.specs.Grids.{IsBoundedRow, IsBoundedSetup};

use grid_run::{Row, Setup};
use std::alloc::Global;
use std::test::Fail;

/// The first line of a plain table, behind the names of the options.
static HEADS: &str = concat!(
    "l1-icache-fetches\tl1-icache-misses\tl1-icache-miss-rate\tl1-icache-compulsory\t",
    "l1-icache-capacity\tl1-icache-conflict\tl1-icache-fully-associative-misses\t",
    "l1-icache-blocks-fetched\tl1-icache-written-back\tl1-icache-writes-sent-on\t",
    "l1-icache-flushes\t",
    "l1-dcache-fetches\tl1-dcache-misses\tl1-dcache-miss-rate\tl1-dcache-compulsory\t",
    "l1-dcache-capacity\tl1-dcache-conflict\tl1-dcache-fully-associative-misses\t",
    "l1-dcache-blocks-fetched\tl1-dcache-written-back\tl1-dcache-writes-sent-on\t",
    "l1-dcache-flushes\t",
    "l2-ucache-fetches\tl2-ucache-misses\tl2-ucache-miss-rate\tl2-ucache-compulsory\t",
    "l2-ucache-capacity\tl2-ucache-conflict\tl2-ucache-fully-associative-misses\t",
    "l2-ucache-blocks-fetched\tl2-ucache-written-back\tl2-ucache-writes-sent-on\t",
    "l2-ucache-flushes\tfault\n",
);

/// Is the text made of these parts, one after another?
fn is_made_of(text: &[u8], parts: &[&str]) -> bool {
    let mut rest = text;
    for part in parts {
        let Some(left) = rest.strip_prefix(part.as_bytes()) else {
            return false;
        };
        rest = left;
    }
    rest.is_empty()
}

/// Words as a line has them.
fn words_of(alloc: Global, words: &[&str]) -> Result<Vec<String>, Fail> {
    let mut made = Vec::new(alloc);
    for word in words {
        made.push(String::from_str(alloc, word)?)?;
    }
    Ok(made)
}

/// Adds a row with these words.
fn add_row(alloc: Global, rows: &mut Vec<Row>, words: &[&str], setup: Setup) -> Result<(), Fail>
    requires rows { All IsBoundedRow rows.old.items }
    requires setup { IsBoundedSetup setup }
    ensures { OnOk result (All IsBoundedRow rows.new.items) }
{
    let words = words_of(alloc, words)?;
    rows.push(Row { words, setup })?;
    Ok(())
}
