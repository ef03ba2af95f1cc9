//! The blocks of a set, the one that was used last first, as many as the widest cache holds.

ghost use Rattle.std.specs.Prelude.{◌≡◌, ◌≤◌, ◌<◌, ◌+◌, ◌*◌, ℕ, length, vec_len, replicate};
ghost use Rattle.std.specs.Prelude.{IfOk, get_or, true};
ghost use Rattle.std.specs.Prelude.{List, nat_eq, ◌++◌, ◌^◌, OnOk};
ghost use Rattle.std.specs.List.{dedup};
ghost use Rattle.std.specs.List.Sorted.{IsPermutation, IsSorted};
ghost use Rattle.std.specs.Ordering.{nat_cmp};
ghost use Rattle.marked_list.specs.Recency.{index_of};
ghost use Rattle.cache_core.specs.Row.{row};
ghost use Rattle.grid_core.specs.Slot.{slot_of, slots_at, slots_in};
ghost use Rattle.grid_core.specs.Slots.{dirty_bytes, dirty_in_rows, dirty_slot_count};
ghost use Rattle.grid_core.specs.Slots.{dirty_slot_count_in_rows, holds, level_in, slot_level};

use crate::sought::Sought;
use crate::word::{EMPTY, first_byte_of, has_block, is_dirty, level_of};
use std::alloc::{AllocError, Global};

/// Where a block stands in its row, and its dirty level. Both are the length of the row if it is
/// not there.
#[derive(Clone, Copy, Debug, PartialEq, Eq)]
pub(crate) struct Seen {
    pub position: usize,
    pub level: usize,
}

/// The words of `count` empty slots.
pub(crate) fn empty_slots(alloc: Global, count: usize) -> Result<Vec<u64>, AllocError>
    ensures { IfOk result (λ v. (v.items ≡ replicate count 0) × (vec_len v ≡ count)) }
{
    vec![in alloc; EMPTY; count]
}

/// Empties all slots.
pub(crate) fn clear_in(slots: &mut Vec<u64>)
    ensures items { slots.new.items ≡ replicate (vec_len slots.old) 0 }
    ensures len { vec_len slots.new ≡ vec_len slots.old }
{
    slots.fill(EMPTY);
}

/// What is seen of the block that the slot at an index holds.
fn seen_at(row: &[u64], index: usize, sought: Sought) -> Seen
    requires inside { index < length row.now }
    requires held { holds sought.block (slot_of sought.stride sought.sets sought.set
        (get_or row.now index 0)) ≡ true }
    ensures position { result.position ≡ index }
    ensures level { result.level
        ≡ slot_level (slot_of sought.stride sought.sets sought.set
        (get_or row.now index 0)) }
    ensures low { result.level + 2 ≤ sought.stride }
{
    Seen {
        position: index,
        level: level_of(row[index], sought),
    }
}

/// Searches a row for a block that is not among its first `from` slots, four slots in a turn.
pub(crate) fn look(row: &[u64], sought: Sought, from: usize) -> Seen
    requires { from ≤ index_of (holds sought.block) (slots_at sought row.now) }
    ensures position { result.position
        ≡ index_of (holds sought.block) (slots_at sought row.now) }
    ensures level { result.level ≡ level_in sought.block (slots_at sought row.now) }
    ensures low { length row.now + 2 ≤ sought.stride → result.level + 2 ≤ sought.stride }
{
    let len = row.len();
    let mut index = from;
    'fours: while len - index >= 4 {
        if has_block(row[index], sought) {
            return seen_at(row, index, sought);
        }
        if has_block(row[index + 1], sought) {
            return seen_at(row, index + 1, sought);
        }
        if has_block(row[index + 2], sought) {
            return seen_at(row, index + 2, sought);
        }
        if has_block(row[index + 3], sought) {
            return seen_at(row, index + 3, sought);
        }
        index += 4;
    }
    'ones: while index < len {
        if has_block(row[index], sought) {
            return seen_at(row, index, sought);
        }
        index += 1;
    }
    Seen {
        position: len,
        level: len,
    }
}

/// Appends the first bytes of the blocks of a row that are dirty in a cache of `ways` ways. The
/// first block of its set begins at `start`.
fn gather(
    row: &[u64],
    stride: u64,
    start: u64,
    wback: bool,
    ways: usize,
    bytes: &mut Vec<u64>,
) -> Result<(), AllocError>
    requires power { (k : ℕ) × (stride ≡ 2 ^ k) × (k < 64) }
    requires inside { start < stride }
    ensures { (bsize sets set : ℕ) → stride ≡ sets * bsize → start ≡ set * bsize →
        OnOk result (bytes.new.items ≡ bytes.old.items
        ++ dirty_bytes bsize wback ways (slots_in stride sets set row.now)) }
{
    for word in row {
        if is_dirty(*word, stride, wback, ways) {
            bytes.push(first_byte_of(*word, stride, start))?;
        }
    }
    Ok(())
}

/// The first bytes of the blocks that are dirty in a cache of `ways` ways, in rising order, each
/// once.
pub(crate) fn dirty_rising(
    alloc: Global,
    slots: &Vec<u64>,
    sets: usize,
    most: usize,
    bsize: u64,
    wback: bool,
    ways: usize,
) -> Result<Vec<u64>, AllocError>
    requires room { vec_len slots.now ≡ sets * most }
    requires fits { ways ≤ most }
    requires power { (k : ℕ) × (sets * bsize ≡ 2 ^ k) × (k < 64) }
    ensures { IfOk result (λ v. (ys : List ℕ)
        × IsPermutation (dirty_in_rows bsize wback ways
        (λ t. slots_in (sets * bsize) sets t (row most t slots.now.items)) sets) ys
        × IsSorted nat_cmp ys
        × (v.items ≡ dedup nat_eq ys)) }
{
    let stride = sets as u64 * bsize;
    let mut bytes = Vec::new(alloc);
    for set in 0..sets {
        let place = set * most;
        let end = place + ways;
        let start = set as u64 * bsize;
        gather(&slots[place..end], stride, start, wback, ways, &mut bytes)?;
    }
    bytes.sort_unstable();
    bytes.dedup();
    Ok(bytes)
}

/// How many slots of a row are dirty in a cache of `ways` ways.
fn count_in(row: &[u64], stride: u64, wback: bool, ways: usize) -> usize
    requires power { (k : ℕ) × (stride ≡ 2 ^ k) × (k < 64) }
    ensures count { (sets set : ℕ) → result
        ≡ dirty_slot_count wback ways (slots_in stride sets set row.now) }
    ensures few { result ≤ length row.now }
{
    let mut count = 0;
    for word in row {
        if is_dirty(*word, stride, wback, ways) {
            count += 1;
        }
    }
    count
}

/// How many slots of all sets are dirty in a cache of `ways` ways.
pub(crate) fn count_dirty(
    slots: &Vec<u64>,
    sets: usize,
    most: usize,
    stride: u64,
    wback: bool,
    ways: usize,
) -> usize
    requires room { vec_len slots.now ≡ sets * most }
    requires fits { ways ≤ most }
    requires power { (k : ℕ) × (stride ≡ 2 ^ k) × (k < 64) }
    ensures { result ≡ dirty_slot_count_in_rows wback ways
        (λ t. slots_in stride sets t (row most t slots.now.items)) sets }
{
    let mut count = 0;
    for set in 0..sets {
        let place = set * most;
        let end = place + ways;
        count += count_in(&slots[place..end], stride, wback, ways);
    }
    count
}
