//! Sets of few ways. Each is a row of ways in order: the block that was used last (FIFO: loaded
//! last) is first, and empty ways come after the blocks. The rows of all sets are in one vector.

ghost use Rattle.std.specs.Prelude.{◌≡◌, ◌≢◌, ◌≤◌, ◌+◌, ◌*◌, ◌&&◌, ℕ, length, is_some, true, false};
ghost use Rattle.std.specs.Prelude.{None, IfOk, if◌then◌else◌};
ghost use Rattle.std.specs.Prelude.{map, filter, replicate, vec_len};
ghost use Rattle.std.specs.List.{find};
ghost use Rattle.std.specs.Option.{option_map_or};
ghost use Rattle.cache_core.specs.Parts.{one_if};
ghost use Rattle.cache_core.specs.Row.{holds_block, shifted, leaving, changed, dirtied, row};
ghost use Rattle.cache_core.specs.Row.{empty_way, is_dirty_way, block_addr_of, dirty_count};
ghost use Rattle.cache_core.specs.Row.{dirty_block};
ghost use Rattle.cache_core.specs.Policy.{is_fifo};
ghost use Rattle.cache_core.specs.Serving.{ServesRow};

use crate::access::Served;
use crate::policy::{Policy, Repl, may_load};
use std::alloc::{AllocError, Global};

/// One way of a set. If `valid`, it holds the block whose first byte is `block_addr`; else it is
/// empty.
#[derive(Clone, Copy, Debug, PartialEq, Eq)]
pub(crate) struct Way {
    pub block_addr: u64,
    pub valid: bool,
    pub dirty: bool,
}

/// An empty way.
fn no_way() -> Way
    ensures { result ≡ empty_way }
{
    Way {
        block_addr: 0,
        valid: false,
        dirty: false,
    }
}

/// `count` empty ways.
pub(crate) fn empty_ways(alloc: Global, count: usize) -> Result<Vec<Way>, AllocError>
    ensures { IfOk result (λ v. (v.items ≡ replicate count empty_way) × (vec_len v ≡ count)) }
{
    vec![in alloc; no_way(); count]
}

/// The way that holds the block, if there is one.
fn find_way(row: &[Way], block_addr: u64) -> Option<Way>
    ensures { result ≡ find (holds_block block_addr) row.now }
{
    row.iter()
        .copied()
        .find(|way| way.valid && way.block_addr == block_addr)
}

/// Whether the way that was found is dirty.
fn was_dirty(found: Option<Way>) -> bool
    ensures { result ≡ option_map_or (λ w. w.dirty) found false }
{
    match found {
        Some(way) => way.dirty,
        None => false,
    }
}

/// Puts `front` first and moves each way back by one, up to the way that holds the block, or else
/// the last. Answers the way that is removed. Not inlined, so that each way is moved as a whole.
#[inline(never)]
fn bring_front(row: &mut [Way], block_addr: u64, front: Way) -> Way
    ensures row { row.new ≡ shifted (holds_block block_addr) front row.old }
    ensures leaves { result ≡ leaving (holds_block block_addr) front row.old }
{
    let mut carried = front;
    for way in row.iter_mut() {
        let found = way.valid && way.block_addr == block_addr;
        let here = *way;
        *way = carried;
        if found {
            return here;
        }
        carried = here;
    }
    carried
}

/// Marks the block dirty, where it is.
fn mark_dirty(row: &mut [Way], block_addr: u64)
    ensures { row.new ≡ changed (holds_block block_addr) dirtied row.old }
{
    for way in row.iter_mut() {
        if way.valid && way.block_addr == block_addr {
            way.dirty = true;
            return;
        }
    }
}

/// Serves one access to the row of its set if its block is first there, and answers whether it was.
/// Such a hit moves nothing.
fn serve_front(row: &mut [Way], policy: Policy, block_addr: u64, write: bool) -> bool
    ensures serves { result ≡ true → ServesRow policy block_addr write row.old row.new
        (record { hit = true; back = None }) }
    ensures keeps { result ≡ false → row.new ≡ row.old }
{
    if row.is_empty() {
        return false;
    }
    let front = row[0];
    if !front.valid || front.block_addr != block_addr {
        return false;
    }
    row[0].dirty = match policy.repl {
        Repl::Fifo => policy.wback && write || front.dirty,
        Repl::Lru => policy.wback && (write || front.dirty),
    };
    true
}

/// Updates the row for an access to a block that it holds. `used` is the way of the block after an
/// LRU access.
fn use_way(row: &mut [Way], policy: Policy, used: Way, write: bool)
    ensures { row.new ≡ (if is_fifo policy
        then (if policy.wback && write
        then changed (holds_block used.block_addr) dirtied row.old else row.old)
        else shifted (holds_block used.block_addr) used row.old) }
{
    match policy.repl {
        Repl::Fifo => {
            if policy.wback && write {
                mark_dirty(row, used.block_addr);
            }
        }
        Repl::Lru => {
            let _left = bring_front(row, used.block_addr, used);
        }
    }
}

/// Puts a block first that the row does not hold, and answers the dirty block that it evicts, if
/// any.
fn load_way(row: &mut [Way], loaded: Way) -> Option<u64>
    ensures row { row.new ≡ shifted (holds_block loaded.block_addr) loaded row.old }
    ensures back { result
        ≡ dirty_block (leaving (holds_block loaded.block_addr) loaded row.old) }
{
    let left = bring_front(row, loaded.block_addr, loaded);
    (left.valid && left.dirty).then_some(left.block_addr)
}

/// Serves one access to the row of its set.
fn serve_row(row: &mut [Way], policy: Policy, block_addr: u64, write: bool) -> Served
    ensures { ServesRow policy block_addr write row.old row.new result }
{
    if serve_front(row, policy, block_addr, write) {
        return Served {
            hit: true,
            back: None,
        };
    }
    let found = find_way(row, block_addr);
    let used = Way {
        block_addr,
        valid: true,
        dirty: policy.wback && (write || was_dirty(found)),
    };
    let hit = found.is_some();
    if hit {
        use_way(row, policy, used, write);
    }
    if hit || !may_load(write, policy) {
        return Served { hit, back: None };
    }
    let back = load_way(row, used);
    Served { hit, back }
}

/// Serves one access to a set.
pub(crate) fn serve_ways(
    ways: &mut [Way],
    set: usize,
    assoc: usize,
    policy: Policy,
    block_addr: u64,
    write: bool,
) -> Served
    requires { (set + 1) * assoc ≤ length ways.old }
    ensures served { ServesRow policy block_addr write
        (row assoc set ways.old) (row assoc set ways.new) result }
    ensures others { (s : ℕ) → s ≢ set → row assoc s ways.new ≡ row assoc s ways.old }
    ensures charged { dirty_count ways.new + one_if (is_some result.back)
        ≤ dirty_count ways.old + 1 }
{
    let start = set * assoc;
    let end = start + assoc;
    serve_row(&mut ways[start..end], policy, block_addr, write)
}

/// The first bytes of the dirty blocks, in the order of the ways.
pub(crate) fn dirty_ways(alloc: Global, ways: &[Way]) -> Result<Vec<u64>, AllocError>
    ensures { IfOk result (λ v. v.items ≡ map block_addr_of (filter is_dirty_way ways.now)) }
{
    ways.iter()
        .filter(|way| way.valid && way.dirty)
        .map(|way| way.block_addr)
        .collect(alloc)
}

/// Empties all ways.
pub(crate) fn clear_ways(ways: &mut [Way])
    ensures { ways.new ≡ replicate (length ways.old) empty_way }
{
    ways.fill(no_way());
}
