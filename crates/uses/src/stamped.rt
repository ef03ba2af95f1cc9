//! A use of stamped_cache.

use cache_core::{Access, Class, Geometry, NoMemory};
use grid_core::BlockNumbers;
use shared_list::Users;
use stamped_cache::StampedCaches;
use std::alloc::Global;

/// The misses of two two-way caches of four blocks, and those of their shadows. Both get the same
/// reads but one, which only the second cache gets.
pub fn misses_with_shadows(alloc: Global) -> Result<Option<[[u128; 2]; 2]>, NoMemory> {
    let Ok(geometry) = Geometry::new(64, 16, 2) else {
        return Ok(None);
    };
    let mut numbers = BlockNumbers::new(alloc);
    let mut caches = StampedCaches::new(alloc, geometry, true, 2)?;
    let second = Users::one(1);
    let both = second.with(0);
    for (addr, users) in [
        (0x0, both),
        (0x20, both),
        (0x40, both),
        (0x0, second),
        (0x10, both),
    ] {
        if !caches.have_room() {
            return Ok(None);
        }
        let number = numbers.number(geometry.block(addr))?;
        let class = Class::Read;
        caches.access(Access { class, addr }, number, users)?;
    }
    let mut misses = [[0; 2]; 2];
    for (user, misses) in misses.iter_mut().enumerate() {
        if user < caches.users() {
            let counted = caches.counts(user).misses.total();
            *misses = [counted, caches.shadow_misses(user).total()];
        }
    }
    Ok(Some(misses))
}
