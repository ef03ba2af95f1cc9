//! Engines of many caches, of up to 256 ways and of up to 4,096 blocks.

use super::{Long, are_alike, geometries_of};
use cache_core::{Geometry, Repl};
use std::alloc::Global;
use std::process::Abort;
use std::test::Fail;

/// Geometries of up to 256 ways.
fn many_geometries(rt: &impl Abort, alloc: Global) -> Vec<Geometry> {
    let blocks = [4, 8, 16, 32, 64, 128, 256];
    geometries_of(rt, alloc, &blocks, &[1, 2, 4, 8, 16, 32, 64, 128, 256])
}

#[test]
fn many_lru_cells_are_single_caches(rt: HostRuntime) -> Result<(), Fail> {
    let geometries = many_geometries(&rt, rt.alloc());
    let long = Long {
        turns: 1_000,
        blocks: 2_048,
        period: 490,
    };
    are_alike(&rt, rt.alloc(), &geometries, Repl::Lru, true, long);
    are_alike(&rt, rt.alloc(), &geometries, Repl::Lru, false, long);
    Ok(())
}

#[test]
fn many_fifo_cells_are_single_caches(rt: HostRuntime) -> Result<(), Fail> {
    let geometries = many_geometries(&rt, rt.alloc());
    let long = Long {
        turns: 1_000,
        blocks: 2_048,
        period: 490,
    };
    are_alike(&rt, rt.alloc(), &geometries, Repl::Fifo, true, long);
    are_alike(&rt, rt.alloc(), &geometries, Repl::Fifo, false, long);
    Ok(())
}

#[test]
fn sixty_cells_are_single_caches(rt: HostRuntime) -> Result<(), Fail> {
    let blocks = [4, 8, 16, 32, 64, 128, 256, 512, 1024, 2048, 4096];
    let geometries = geometries_of(&rt, rt.alloc(), &blocks, &[1, 2, 4, 8, 16, 32]);
    assert_eq!(&rt; geometries.len(), 60);
    let long = Long {
        turns: 1_600,
        blocks: 6_144,
        period: 800,
    };
    are_alike(&rt, rt.alloc(), &geometries, Repl::Lru, true, long);
    Ok(())
}
