//! A use of grid_core.

use cache_core::{Access, Class, Geometry, MAX_EVENTS, NoMemory, Policy, Repl};
use grid_core::{Engine, share_block_size};
use std::alloc::Global;

/// The misses of direct-mapped, two-way and fully associative caches of four blocks, from one
/// reading.
pub fn misses_of_ways(alloc: Global) -> Result<Option<[u128; 3]>, NoMemory> {
    let (Ok(one), Ok(two)) = (Geometry::new(16, 4, 1), Geometry::new(16, 4, 2)) else {
        return Ok(None);
    };
    let Ok(all) = Geometry::new(16, 4, 4) else {
        return Ok(None);
    };
    let geometries = [one, two, all];
    if !share_block_size(&geometries, one) {
        return Ok(None);
    }
    let policy = Policy {
        repl: Repl::Lru,
        wback: true,
        walloc: true,
    };
    let mut engine = Engine::new(alloc, &geometries, one, policy)?;
    for addr in [0x0, 0x10, 0x20, 0x0, 0x20u64] {
        if engine.served() >= MAX_EVENTS {
            return Ok(None);
        }
        let class = Class::Read;
        engine.access(Access { class, addr })?;
    }
    let mut misses = [0; 3];
    for (index, misses) in misses.iter_mut().enumerate() {
        if index < engine.cells() {
            *misses = engine.counts(index).misses.total();
        }
    }
    Ok(Some(misses))
}
