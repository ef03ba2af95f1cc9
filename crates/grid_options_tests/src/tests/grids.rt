//! Words, and the grid that they give.

use cache_core::GeometryFault;
use grid_options::{GridWordsFault, ParsedGrid, parse_grid_words};
use stage_core::{CacheName, Config, ConfigFault, Selection};
use std::alloc::{AllocError, Global};
use std::process::Abort;
use std::test::Fail;

/// Three caches without the data cache's size: 16 bytes in blocks of 4, and a second level of 64
/// bytes in blocks of 8.
pub static OTHERS: &str = "--l1-isize 16 --l1-ibsize 4 --l1-dbsize 4 --l2-usize 64 --l2-ubsize 8";

fn add_words(alloc: Global, words: &mut Vec<String>, line: &str) -> Result<(), AllocError> {
    for word in line.split_whitespace() {
        words.push(String::from_str(alloc, word)?)?;
    }
    Ok(())
}

/// The words of `OTHERS`, and then those of this line.
pub fn words_of(alloc: Global, line: &str) -> Result<Vec<String>, AllocError> {
    let mut words = Vec::new(alloc);
    add_words(alloc, &mut words, OTHERS)?;
    add_words(alloc, &mut words, line)?;
    Ok(words)
}

/// The answer to the words of `OTHERS`, and then of this line.
pub fn parsed(alloc: Global, line: &str) -> Result<Result<ParsedGrid, GridWordsFault>, AllocError> {
    let words = words_of(alloc, line)?;
    Ok(parse_grid_words(alloc, words.as_slice()))
}

/// Are these the texts, with a blank after each?
pub fn are(texts: &[String], line: &str) -> bool {
    texts.len() == line.split_whitespace().count()
        && texts
            .iter()
            .zip(line.split_whitespace())
            .all(|(text, word)| text.as_str() == word)
}

/// Does the data cache have so many blocks and sets, and are the rings as long as by default?
pub fn has_data_cache(config: &Result<Config, ConfigFault>, blocks: u64, sets: u64) -> bool {
    match config {
        Ok(config) => {
            let data = config.d();
            data.0.blocks() == blocks && data.0.sets() == sets && config.ring() == 64
        }
        Err(_) => false,
    }
}

/// The grid of these words, which have to be taken.
pub fn made(alloc: Global, line: &str) -> Result<ParsedGrid, Fail> {
    Ok(parsed(alloc, line)??)
}

/// The grid has to have these names, and points with these words.
pub fn expect_rows(rt: &impl Abort, grid: &ParsedGrid, names: &str, rows: &[&str]) {
    assert!(rt; are(grid.names.as_slice(), names));
    assert_eq!(rt; grid.points.len(), rows.len());
    for (point, row) in grid.points.iter().zip(rows) {
        assert!(rt; are(point.words.as_slice(), *row), "at {row}");
    }
}

/// The data caches of the points have to have so many blocks and sets.
pub fn expect_data_caches(rt: &impl Abort, grid: &ParsedGrid, caches: &[(u64, u64)]) {
    assert_eq!(rt; grid.points.len(), caches.len());
    for (point, (blocks, sets)) in grid.points.iter().zip(caches) {
        assert!(rt; has_data_cache(&point.config, *blocks, *sets));
    }
}

#[test]
fn varies_the_last_list_fastest(rt: HostRuntime) -> Result<(), Fail> {
    let grid = made(rt.alloc(), "--l1-dassoc 1,2 --l1-dsize 16,32,64")?;
    let rows = ["16 1", "16 2", "32 1", "32 2", "64 1", "64 2"];
    expect_rows(&rt, &grid, "l1-dsize l1-dassoc", &rows);
    let caches = [(4, 4), (4, 2), (8, 8), (8, 4), (16, 16), (16, 8)];
    expect_data_caches(&rt, &grid, &caches);
    Ok(())
}

#[test]
fn gives_each_point_its_selection(rt: HostRuntime) -> Result<(), Fail> {
    let line = "--l1-dsize 16 --skipcount 5 --maxcount 6 --flushcount 0,007";
    let grid = made(rt.alloc(), line)?;
    expect_rows(&rt, &grid, "flushcount", &["0", "007"]);
    for (point, every) in grid.points.iter().zip([0, 7]) {
        let selection = Selection {
            skip: 5,
            max: 6,
            every,
        };
        assert_eq!(rt; point.selection, selection);
    }
    Ok(())
}

#[test]
fn takes_one_configuration_as_a_grid_without_names(rt: HostRuntime) -> Result<(), Fail> {
    let grid = made(rt.alloc(), "--l1-dsize 16")?;
    expect_rows(&rt, &grid, "", &[""]);
    expect_data_caches(&rt, &grid, &[(4, 4)]);
    Ok(())
}

#[test]
fn keeps_a_refused_point_in_its_place(rt: HostRuntime) -> Result<(), Fail> {
    let grid = made(rt.alloc(), "--l1-dsize 16,24,32")?;
    expect_rows(&rt, &grid, "l1-dsize", &["16", "24", "32"]);
    let refused = ConfigFault::Geometry(CacheName::D, GeometryFault::SizeNotPower);
    for (point, fault) in grid.points.iter().zip([None, Some(refused), None]) {
        assert_eq!(rt; point.config.err(), fault);
    }
    Ok(())
}
