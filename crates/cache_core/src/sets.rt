//! All sets of a cache, in the form that suits their number of ways.

ghost use Rattle.std.specs.Prelude.{◌≡◌, ◌<◌, ◌≤◌, ◌≢◌, ◌+◌, ◌*◌, ◌^◌, ℕ, List, true, is_some};
ghost use Rattle.std.specs.Prelude.{length, map, filter, nat_eq, replicate, vec_len, IfOk, OnErr};
ghost use Rattle.std.specs.List.{dedup};
ghost use Rattle.std.specs.List.Sorted.{IsPermutation, IsSorted};
ghost use Rattle.std.specs.Ordering.{nat_cmp};
ghost use Rattle.cache_core.specs.Parts.{one_if};
ghost use Rattle.cache_core.specs.Row.{row, dirty_count, empty_way, is_dirty_way, block_addr_of};
ghost use Rattle.cache_core.specs.Sets.{ways_in, has_shape};
ghost use Rattle.cache_core.specs.Serving.{ServesRow};

use crate::access::Served;
use crate::maps::Maps;
use crate::policy::Policy;
use crate::ways::{Way, clear_ways, dirty_ways, empty_ways, serve_ways};
use std::alloc::{AllocError, Global};

/// The most ways of a set that is kept as a row. By measurement, up to this number the scan of a
/// row is no slower than a look-up in a map.
const MOST_IN_A_ROW: usize = 64;

/// The sets of a cache: rows of ways, one after another, if a set has few ways, or else a map for
/// each set.
#[derive(Drop)]
pub(crate) enum Sets {
    Rows(Vec<Way>),
    Maps(Maps),
}

/// `count` empty sets of `assoc` ways.
pub(crate) fn empty_sets(alloc: Global, count: usize, assoc: usize) -> Result<Sets, AllocError>
    requires ways { 0 < assoc }
    requires fits { count * assoc < 2 ^ 64 }
    ensures empty { IfOk result (λ sets. ways_in sets ≡ replicate (count * assoc) empty_way) }
    ensures shape { IfOk result (λ sets. has_shape count assoc sets ≡ true) }
{
    if assoc <= MOST_IN_A_ROW {
        let ways = empty_ways(alloc, count * assoc)?;
        return Ok(Sets::Rows(ways));
    }
    let maps = Maps::new(alloc, count, assoc)?;
    Ok(Sets::Maps(maps))
}

/// Serves one access to a set. `block_addr` is the first byte of its block.
pub(crate) fn serve_set(
    sets: &mut Sets,
    set: usize,
    assoc: usize,
    policy: Policy,
    block_addr: u64,
    write: bool,
) -> Result<Served, AllocError>
    requires { (count : ℕ) × (has_shape count assoc sets.old ≡ true) × (set < count) }
    ensures served { IfOk result (λ served. ServesRow policy block_addr write
        (row assoc set (ways_in sets.old)) (row assoc set (ways_in sets.new)) served) }
    ensures others { (s : ℕ) → s ≢ set →
        row assoc s (ways_in sets.new) ≡ row assoc s (ways_in sets.old) }
    ensures charged { IfOk result (λ served.
        dirty_count (ways_in sets.new) + one_if (is_some served.back)
        ≤ dirty_count (ways_in sets.old) + 1) }
    ensures keeps { OnErr result (ways_in sets.new ≡ ways_in sets.old) }
    ensures shape { (count : ℕ) → has_shape count assoc sets.old ≡ true →
        has_shape count assoc sets.new ≡ true }
{
    match sets {
        Sets::Rows(ways) => Ok(serve_ways(ways, set, assoc, policy, block_addr, write)),
        Sets::Maps(maps) => maps.serve(set, policy, block_addr, write),
    }
}

/// The first bytes of the dirty blocks, in the order of the ways.
fn dirty_in(alloc: Global, sets: &Sets) -> Result<Vec<u64>, AllocError>
    ensures { IfOk result
        (λ v. v.items ≡ map block_addr_of (filter is_dirty_way (ways_in sets.now))) }
{
    match sets {
        Sets::Rows(ways) => dirty_ways(alloc, ways),
        Sets::Maps(maps) => maps.dirty(alloc),
    }
}

/// The first bytes of the dirty blocks, in rising order, each once.
pub(crate) fn dirty_block_addrs(alloc: Global, sets: &Sets) -> Result<Vec<u64>, AllocError>
    ensures block_addrs { IfOk result (λ v. (ys : List ℕ)
        × IsPermutation (map block_addr_of (filter is_dirty_way (ways_in sets.now))) ys
        × IsSorted nat_cmp ys
        × (v.items ≡ dedup nat_eq ys)) }
    ensures at_most { IfOk result (λ v.
        vec_len v ≤ length (map block_addr_of (filter is_dirty_way (ways_in sets.now)))) }
{
    let mut block_addrs = dirty_in(alloc, sets)?;
    block_addrs.sort_unstable();
    block_addrs.dedup();
    Ok(block_addrs)
}

/// Empties all sets.
pub(crate) fn clear_sets(sets: &mut Sets)
    ensures empty { (count assoc : ℕ) → has_shape count assoc sets.old ≡ true →
        ways_in sets.new ≡ replicate (count * assoc) empty_way }
    ensures shape { (count assoc : ℕ) → has_shape count assoc sets.old ≡ true →
        has_shape count assoc sets.new ≡ true }
{
    match sets {
        Sets::Rows(ways) => clear_ways(ways),
        Sets::Maps(maps) => maps.clear(),
    }
}
