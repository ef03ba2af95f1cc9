//! Sets of many ways. Each is an ordered map from the first byte of a block to its dirty bit, the
//! block that was used last (FIFO: loaded last) first. The time of an access does not depend on the
//! number of ways.

ghost use Rattle.std.specs.Prelude.{◌≡◌, ◌≢◌, ◌<◌, ◌≤◌, ◌+◌, ◌*◌, ◌&&◌, ◌||◌, ℕ, None, true};
ghost use Rattle.std.specs.Prelude.{is_some, nat_eq, length, map, filter, replicate, vec_len, []};
ghost use Rattle.std.specs.Prelude.{IfOk, OnOk, OnErr};
ghost use Rattle.std.specs.Map.{lookup, set_value};
ghost use Rattle.std.specs.Option.{option_map_or};
ghost use Rattle.std.specs.NonZero.{non_zero_usize_get};
ghost use Rattle.cache_core.specs.Parts.{one_if};
ghost use Rattle.cache_core.specs.Policy.{is_fifo};
ghost use Rattle.cache_core.specs.Row.{row, empty_way, is_dirty_way, block_addr_of, dirty_count};
ghost use Rattle.cache_core.specs.Mapped.{shown, used_entries, touched_entries, dirty_entry};
ghost use Rattle.cache_core.specs.Mapped.{dirty_keys_of, cap_of, emptied, flat};
ghost use Rattle.cache_core.specs.Serving.{ServesRow};
ghost use Rattle.lru.specs.LruCache.{lru_cache, put_entries, displaced, IsValid};

use crate::access::Served;
use crate::policy::{Policy, Repl, may_load};
use lru::LruCache;
use std::alloc::{AllocError, Global};
use std::num::NonZeroUsize;

/// The dirty bit of a block after a use.
fn mark_of(wback: bool, write: bool, dirty: bool) -> bool
    ensures { result ≡ (wback && (write || dirty)) }
{
    wback && (write || dirty)
}

/// Moves a block to the front and updates its dirty bit, if it is there. Answers whether it is.
fn use_block(map: &mut LruCache<u64, bool>, block_addr: u64, wback: bool, write: bool) -> bool
    ensures hit { result ≡ is_some (lookup (nat_eq block_addr) map.old.entries) }
    ensures map { map.new
        ≡ lru_cache (used_entries block_addr wback write map.old.entries) map.old.cap }
{
    if let Some(dirty) = map.get_mut(&block_addr) {
        *dirty = mark_of(wback, write, *dirty);
        return true;
    }
    false
}

/// Marks a block dirty without moving it, if it is there. Answers whether it is.
fn mark_block(map: &mut LruCache<u64, bool>, block_addr: u64) -> bool
    ensures hit { result ≡ is_some (lookup (nat_eq block_addr) map.old.entries) }
    ensures map { map.new
        ≡ lru_cache (set_value (nat_eq block_addr) map.old.entries true) map.old.cap }
{
    if let Some(dirty) = map.peek_mut(&block_addr) {
        *dirty = true;
        return true;
    }
    false
}

/// Updates the order and the dirty bit for an access to a block, if it is there. Answers whether it
/// is.
fn touch(map: &mut LruCache<u64, bool>, policy: Policy, block_addr: u64, write: bool) -> bool
    ensures hit { result ≡ is_some (lookup (nat_eq block_addr) map.old.entries) }
    ensures map { map.new ≡ lru_cache
        (touched_entries block_addr policy.wback write (is_fifo policy) map.old.entries)
        map.old.cap }
{
    match policy.repl {
        Repl::Fifo => {
            if policy.wback && write {
                mark_block(map, block_addr)
            } else {
                map.contains(&block_addr)
            }
        }
        Repl::Lru => use_block(map, block_addr, policy.wback, write),
    }
}

/// The block of the evicted entry, if it was dirty.
fn dirty_left(left: Option<(u64, bool)>) -> Option<u64>
    ensures { result ≡ option_map_or dirty_entry left None }
{
    match left {
        Some((block_addr, true)) => Some(block_addr),
        _ => None,
    }
}

/// Loads a block, and answers the dirty block that it evicts, if any.
fn load_block(
    map: &mut LruCache<u64, bool>,
    block_addr: u64,
    dirty: bool,
) -> Result<Option<u64>, AllocError>
    ensures map { OnOk result (map.new
        ≡ lru_cache (put_entries nat_eq map.old block_addr dirty) map.old.cap) }
    ensures back { IfOk result (λ back.
        back ≡ option_map_or dirty_entry (displaced nat_eq map.old block_addr dirty) None) }
    ensures keeps { OnErr result (map.new ≡ map.old) }
{
    let Ok(left) = map.push(block_addr, dirty) else {
        return Err(AllocError);
    };
    Ok(dirty_left(left))
}

/// A set holds no more blocks than it has ways, and each once. Only the proofs need this call.
fn within_ways(map: &LruCache<u64, bool>)
    ensures { IsValid nat_eq map.now }
{
    let _len = map.len();
}

/// One access to a set.
fn serve_map(
    map: &mut LruCache<u64, bool>,
    policy: Policy,
    block_addr: u64,
    write: bool,
) -> Result<Served, AllocError>
    ensures served { IfOk result (λ served. ServesRow policy block_addr write
        (shown map.old.cap map.old.entries) (shown map.old.cap map.new.entries) served) }
    ensures capacity { map.new.cap ≡ map.old.cap }
    ensures keeps { OnErr result (map.new ≡ map.old) }
{
    within_ways(map);
    let hit = touch(map, policy, block_addr, write);
    if hit {
        return Ok(Served {
            hit: true,
            back: None,
        });
    }
    let load = may_load(write, policy);
    if !load {
        return Ok(Served {
            hit: false,
            back: None,
        });
    }
    let dirty = mark_of(policy.wback, write, false);
    let back = load_block(map, block_addr, dirty)?;
    Ok(Served { hit: false, back })
}

/// The dirty blocks of a set, by their first bytes.
fn dirty_keys(alloc: Global, set: &LruCache<u64, bool>) -> Result<Vec<u64>, AllocError>
    ensures keys { IfOk result (λ v. v.items ≡ dirty_keys_of set.now) }
    ensures room { length set.now.entries ≤ set.now.cap }
{
    within_ways(set);
    set.iter()
        .filter(|entry| *entry.1)
        .map(|entry| *entry.0)
        .collect(alloc)
}

/// Empty sets.
fn empty_maps(
    alloc: Global,
    count: usize,
    assoc: NonZeroUsize,
) -> Result<Vec<LruCache<u64, bool>>, AllocError>
    ensures { IfOk result (λ v. v.items
        ≡ replicate count (lru_cache [] (non_zero_usize_get assoc))) }
{
    let mut maps = Vec::new(alloc);
    for _ in 0..count {
        let map = LruCache::sparse(alloc, assoc)?;
        let Ok(()) = maps.push(map) else {
            return Err(AllocError);
        };
    }
    Ok(maps)
}

/// Empties all sets.
fn clear_maps(maps: &mut [LruCache<u64, bool>])
    ensures { maps.new ≡ map emptied maps.old }
{
    for map in maps.iter_mut() {
        map.clear();
    }
}

/// The dirty blocks of all sets, by their first bytes.
fn dirty_in_maps(
    alloc: Global,
    assoc: usize,
    sets: &[LruCache<u64, bool>],
) -> Result<Vec<u64>, AllocError>
    requires { map cap_of sets.now ≡ replicate (length sets.now) assoc }
    ensures { IfOk result (λ v. v.items
        ≡ map block_addr_of (filter is_dirty_way (flat assoc sets.now))) }
{
    let mut block_addrs = Vec::new(alloc);
    for set in sets.iter() {
        let more = dirty_keys(alloc, set)?;
        block_addrs.extend_from_slice(&more)?;
    }
    Ok(block_addrs)
}

/// Sets of many ways.
#[derive(Drop)]
pub(crate) struct Maps {
    assoc: usize,
    sets: Vec<LruCache<u64, bool>>,
    ghost caps: { map cap_of sets.items ≡ replicate (vec_len sets) assoc },
}

impl Maps {
    /// Empty sets.
    pub fn new(alloc: Global, count: usize, assoc: usize) -> Result<Maps, AllocError>
        requires { 0 < assoc }
        ensures empty { IfOk result (λ m. flat m.assoc m.sets.items
            ≡ replicate (count * assoc) empty_way) }
        ensures assoc { IfOk result (λ m. m.assoc ≡ assoc) }
        ensures sets { IfOk result (λ m. vec_len m.sets ≡ count) }
    {
        let sets = empty_maps(alloc, count, NonZeroUsize::new(assoc).unwrap())?;
        Ok(Maps { assoc, sets })
    }

    /// One access to a set.
    pub fn serve(
        &mut self,
        set: usize,
        policy: Policy,
        block_addr: u64,
        write: bool,
    ) -> Result<Served, AllocError>
        requires { set < vec_len self.old.sets }
        ensures served { IfOk result (λ served. ServesRow policy block_addr write
            (row self.old.assoc set (flat self.old.assoc self.old.sets.items))
            (row self.old.assoc set (flat self.new.assoc self.new.sets.items)) served) }
        ensures others { (s : ℕ) → s ≢ set →
            row self.old.assoc s (flat self.new.assoc self.new.sets.items)
            ≡ row self.old.assoc s (flat self.old.assoc self.old.sets.items) }
        ensures charged { IfOk result (λ served.
            dirty_count (flat self.new.assoc self.new.sets.items) + one_if (is_some served.back)
            ≤ dirty_count (flat self.old.assoc self.old.sets.items) + 1) }
        ensures keeps { OnErr result
            (flat self.new.assoc self.new.sets.items ≡ flat self.old.assoc self.old.sets.items) }
        ensures assoc { self.new.assoc ≡ self.old.assoc }
        ensures sets { vec_len self.new.sets ≡ vec_len self.old.sets }
    {
        serve_map(&mut self.sets[set], policy, block_addr, write)
    }

    /// The first bytes of the dirty blocks, set by set.
    pub fn dirty(&self, alloc: Global) -> Result<Vec<u64>, AllocError>
        ensures { IfOk result (λ v.
            v.items
            ≡ map block_addr_of (filter is_dirty_way (flat self.now.assoc self.now.sets.items))) }
    {
        dirty_in_maps(alloc, self.assoc, &self.sets)
    }

    /// Empties all sets.
    pub fn clear(&mut self)
        ensures empty { flat self.new.assoc self.new.sets.items
            ≡ replicate (vec_len self.old.sets * self.old.assoc) empty_way }
        ensures assoc { self.new.assoc ≡ self.old.assoc }
        ensures sets { vec_len self.new.sets ≡ vec_len self.old.sets }
    {
        clear_maps(&mut self.sets);
    }
}
