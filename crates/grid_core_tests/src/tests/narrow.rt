//! Engines with caches of one block, of one way or all, of fewer ways among fewer sets, and of few
//! sets of small blocks.

use super::{BLOCK, Long, are_alike, geometries_of, geometries_with};
use cache_core::{Geometry, Repl};
use std::alloc::Global;
use std::process::Abort;
use std::test::Fail;

#[test]
fn caches_of_one_block_are_single_caches(rt: HostRuntime) -> Result<(), Fail> {
    let geometries = geometries_of(&rt, rt.alloc(), &[1, 2], &[1, 2]);
    let long = Long {
        turns: 500,
        blocks: 64,
        period: 97,
    };
    are_alike(&rt, rt.alloc(), &geometries, Repl::Lru, true, long);
    are_alike(&rt, rt.alloc(), &geometries, Repl::Fifo, false, long);
    Ok(())
}

#[test]
fn fewer_sets_may_have_fewer_ways(rt: HostRuntime) -> Result<(), Fail> {
    let mut geometries = geometries_of(&rt, rt.alloc(), &[32], &[8]);
    for narrow in geometries_of(&rt, rt.alloc(), &[1, 2, 16], &[1]).iter() {
        geometries.push(*narrow).expect(&rt, "memory");
    }
    let long = Long {
        turns: 600,
        blocks: 64,
        period: 97,
    };
    are_alike(&rt, rt.alloc(), &geometries, Repl::Lru, true, long);
    Ok(())
}

/// The direct-mapped and the fully associative geometry of each number of blocks.
fn extremes_of(rt: &impl Abort, alloc: Global, blocks: &[u64]) -> Vec<Geometry> {
    let mut geometries = geometries_of(rt, alloc, blocks, &[1]);
    for count in blocks.iter() {
        let size = count.wrapping_mul(BLOCK);
        let whole = Geometry::new(size, BLOCK, *count).expect(rt, "a lawful geometry");
        geometries.push(whole).expect(rt, "memory");
    }
    geometries
}

#[test]
fn one_way_and_all_ways_are_single_caches(rt: HostRuntime) -> Result<(), Fail> {
    let geometries = extremes_of(&rt, rt.alloc(), &[1, 2, 4, 8, 16, 32, 64, 128]);
    let long = Long {
        turns: 1_000,
        blocks: 1_024,
        period: 490,
    };
    are_alike(&rt, rt.alloc(), &geometries, Repl::Lru, true, long);
    Ok(())
}

/// In one set of blocks of four bytes, up to two ways share a row, in two sets up to six, and in
/// four sets up to 14. Those of more ways keep their own blocks.
#[test]
fn few_sets_of_small_blocks_may_have_many_ways(rt: HostRuntime) -> Result<(), Fail> {
    let long = Long {
        turns: 600,
        blocks: 24,
        period: 97,
    };
    for bsize in [4, 8] {
        let geometries = geometries_with(
            &rt,
            rt.alloc(),
            bsize,
            &[1, 2, 4, 8, 16, 32, 64],
            &[1, 2, 4, 8, 16],
        );
        are_alike(&rt, rt.alloc(), &geometries, Repl::Lru, true, long);
    }
    Ok(())
}
