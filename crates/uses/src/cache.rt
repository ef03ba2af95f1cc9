//! A use of cache_core.

use cache_core::{Access, Cache, Class, Geometry, MissKind, NoMemory, Policy, Repl};
use std::alloc::Global;

const POLICY: Policy = Policy {
    repl: Repl::Lru,
    wback: true,
    walloc: true,
};

fn read(addr: u64) -> Access {
    let class = Class::Read;
    Access { class, addr }
}

/// Two blocks that fall on one set of a direct-mapped cache of four: the third read is a conflict.
pub fn kind_of_third_read(alloc: Global) -> Result<Option<MissKind>, NoMemory> {
    let Ok(geometry) = Geometry::new(16, 4, 1) else {
        return Ok(None);
    };
    let mut cache = Cache::new(alloc, geometry, POLICY)?;
    cache.access(read(0x0))?;
    cache.access(read(0x10))?;
    let third = cache.access(read(0x0))?;
    Ok(third.kind)
}
