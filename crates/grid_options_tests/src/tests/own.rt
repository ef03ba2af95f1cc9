//! The options that the program has of its own.

use super::grids::{expect_data_caches, expect_rows, made, parsed};
use super::refusals::{UNREAD, expect_refused, refusal};
use cache_core::GeometryFault;
use dinero_options::{Opt, WordsFault};
use grid_options::{GridWordsFault, ParsedGrid, grid_help_text};
use stage_core::{CacheName, ConfigFault};
use std::alloc::{AllocError, Global};
use std::process::Abort;
use std::test::Fail;

/// The names of all options but that of the rings.
static ALL: &str = "l1-isize l1-ibsize l1-iassoc l1-irepl l1-dsize l1-dbsize l1-dassoc l1-drepl
    l1-dwback l1-dwalloc l2-usize l2-ubsize l2-uassoc l2-urepl l2-uwback l2-uwalloc skipcount
    maxcount flushcount";

/// How many threads the words ask for, or why they are refused.
fn threads(alloc: Global, line: &str) -> Result<Result<usize, GridWordsFault>, AllocError> {
    match parsed(alloc, line)? {
        Ok(grid) => Ok(Ok(grid.threads)),
        Err(fault) => Ok(Err(fault)),
    }
}

#[test]
fn takes_a_number_of_threads(rt: HostRuntime) -> Result<(), Fail> {
    let rows = [
        ("--l1-dsize 16", 0),
        ("--l1-dsize 16 --threads 0", 0),
        ("--l1-dsize 16 --threads 1", 1),
        ("--threads=007 --l1-dsize 16,32", 7),
        ("--threads 1024 --l1-dsize 16 --maxcount 3", 1024),
    ];
    for (line, wanted) in rows {
        assert_eq!(rt; threads(rt.alloc(), line)?, Ok(wanted), "at {line}");
    }
    Ok(())
}

#[test]
fn refuses_other_numbers_of_threads(rt: HostRuntime) -> Result<(), Fail> {
    let lines = [
        "--l1-dsize 16 --threads 1025",
        "--l1-dsize 16 --threads 999999999999",
        "--l1-dsize 16 --threads 0000000000001",
        "--l1-dsize 16 --threads 1,2",
        "--l1-dsize 16 --threads 1k",
        "--l1-dsize 16 --threads four",
        "--l1-dsize 16 --threads +1",
        "--l1-dsize 16 --threads=-1",
        "--l1-dsize 16 --threads=",
    ];
    expect_refused(&rt, rt.alloc(), &lines, GridWordsFault::Threads)
}

#[test]
fn takes_threads_once_and_with_a_number(rt: HostRuntime) -> Result<(), Fail> {
    let lines = [
        "--l1-dsize 16 --threads 1 --threads 1",
        "--l1-dsize 16 --threads",
        "--threads --l1-dsize 16",
    ];
    expect_refused(&rt, rt.alloc(), &lines, UNREAD)
}

#[test]
fn names_the_threads_behind_other_options(rt: HostRuntime) -> Result<(), Fail> {
    let flushes = GridWordsFault::Words(WordsFault::Number(Opt::Flushcount));
    let lines = ["--threads x --l1-dsize 16 --flushcount x"];
    expect_refused(&rt, rt.alloc(), &lines, flushes)
}

#[test]
fn helps_with_threads_and_full(rt: HostRuntime) -> Result<(), Fail> {
    let text = grid_help_text(rt.alloc())?;
    assert!(rt; text.as_str().contains("--threads <COUNT>"));
    assert!(rt; text.as_str().contains("--full "));
    Ok(())
}

/// The grid has to be full, and to have points with these words.
fn expect_full(rt: &impl Abort, grid: &ParsedGrid, rows: &[&str]) {
    assert!(rt; grid.full);
    expect_rows(rt, grid, ALL, rows);
}

#[test]
fn gives_a_full_table_all_options(rt: HostRuntime) -> Result<(), Fail> {
    let grid = made(rt.alloc(), "--full --l1-dsize 16")?;
    expect_full(&rt, &grid, &["16 4 1 l 16 4 1 l a a 64 8 1 l a a 0 0 0"]);
    assert_eq!(rt; grid.threads, 0);
    expect_data_caches(&rt, &grid, &[(4, 4)]);
    Ok(())
}

#[test]
fn writes_sizes_in_bytes_and_counts_without_zeros_in_front(rt: HostRuntime) -> Result<(), Fail> {
    let line = "--l1-dsize 0016,1k,2K,1m,1M --l1-dassoc 02 --skipcount 007 --maxcount 0
        --flushcount 00,999999999999 --full --threads 3";
    let rows = [
        "16 4 1 l 16 4 2 l a a 64 8 1 l a a 7 0 0",
        "16 4 1 l 16 4 2 l a a 64 8 1 l a a 7 0 999999999999",
        "16 4 1 l 1024 4 2 l a a 64 8 1 l a a 7 0 0",
        "16 4 1 l 1024 4 2 l a a 64 8 1 l a a 7 0 999999999999",
        "16 4 1 l 2048 4 2 l a a 64 8 1 l a a 7 0 0",
        "16 4 1 l 2048 4 2 l a a 64 8 1 l a a 7 0 999999999999",
        "16 4 1 l 1048576 4 2 l a a 64 8 1 l a a 7 0 0",
        "16 4 1 l 1048576 4 2 l a a 64 8 1 l a a 7 0 999999999999",
        "16 4 1 l 1048576 4 2 l a a 64 8 1 l a a 7 0 0",
        "16 4 1 l 1048576 4 2 l a a 64 8 1 l a a 7 0 999999999999",
    ];
    let grid = made(rt.alloc(), line)?;
    expect_full(&rt, &grid, &rows);
    assert_eq!(rt; grid.threads, 3);
    Ok(())
}

#[test]
fn writes_policies_as_their_letters(rt: HostRuntime) -> Result<(), Fail> {
    let line = "--l1-dsize 16 --full --l1-iassoc 2 --l1-irepl f --l1-dassoc 4 --l1-drepl l,f
        --l1-dwback n --l1-dwalloc n --l2-uassoc 8 --l2-urepl f --l2-uwback n,a --l2-uwalloc n";
    let rows = [
        "16 4 2 f 16 4 4 l n n 64 8 8 f n n 0 0 0",
        "16 4 2 f 16 4 4 l n n 64 8 8 f a n 0 0 0",
        "16 4 2 f 16 4 4 f n n 64 8 8 f n n 0 0 0",
        "16 4 2 f 16 4 4 f n n 64 8 8 f a n 0 0 0",
    ];
    expect_full(&rt, &made(rt.alloc(), line)?, &rows);
    Ok(())
}

#[test]
fn gives_refused_points_their_values_too(rt: HostRuntime) -> Result<(), Fail> {
    let rows = [
        "16 4 1 l 24 4 1 l a a 64 8 1 l a a 0 0 0",
        "16 4 1 l 1048575999998951424 4 1 l a a 64 8 1 l a a 0 0 0",
    ];
    let grid = made(rt.alloc(), "--l1-dsize 0024,999999999999m --full")?;
    expect_full(&rt, &grid, &rows);
    let refused = ConfigFault::Geometry(CacheName::D, GeometryFault::SizeNotPower);
    for point in grid.points.iter() {
        assert_eq!(rt; point.config.err(), Some(refused));
    }
    Ok(())
}

#[test]
fn gives_no_full_table_unless_asked(rt: HostRuntime) -> Result<(), Fail> {
    let grid = made(rt.alloc(), "--l1-dsize 0016,1k")?;
    assert!(rt; !grid.full);
    expect_rows(&rt, &grid, "l1-dsize", &["0016", "1k"]);
    Ok(())
}

#[test]
fn takes_the_flag_once_and_without_a_value(rt: HostRuntime) -> Result<(), Fail> {
    let lines = [
        "--l1-dsize 16 --full=true",
        "--l1-dsize 16 --full true",
        "--l1-dsize 16 --full --full",
    ];
    expect_refused(&rt, rt.alloc(), &lines, UNREAD)?;
    assert_eq!(rt; refusal(rt.alloc(), "--full --l1-dsize 16")?, None);
    Ok(())
}
