//! What one access does to the row of its set.

ghost use Rattle.std.specs.Prelude.{◌≡◌, ◌≢◌, ◌≤◌, ◌<◌, ◌+◌, ◌-◌};
ghost use Rattle.std.specs.Prelude.{◌*◌, ℕ, Bool, length, vec_len};
ghost use Rattle.std.specs.Prelude.{nat_lt, if◌then◌else◌, ◌==◌, ◌&&◌, ◌||◌, not};
ghost use Rattle.cache_core.specs.Row.{shifted, row};
ghost use Rattle.marked_list.specs.Recency.{index_of};
ghost use Rattle.grid_core.specs.Slot.{slot_of, slots_at, slots_in};
ghost use Rattle.grid_core.specs.Slots.{holds, level_after, next_slots, slot_level};
ghost use Rattle.grid_core.specs.Slots.{clean_in, level_in, lost_in, stays_in};

use crate::slots::{Seen, look};
use crate::sought::Sought;
use crate::word::{EMPTY, has_block, level_of, used_word};

/// The last of the places that are filled when a block comes to the front of a row of this length:
/// where it stood, or the last place of the row if it was not there.
fn last_moved(position: usize, len: usize) -> usize
    requires { 0 < len }
    ensures { result ≡ (if nat_lt position len then position else len - 1) }
{
    if position < len { position } else { len - 1 }
}

/// Puts the word `front` first and moves each other one back by one, up to the one at this
/// position, or else the last.
fn bring_front(row: &mut [u64], position: usize, front: u64)
    ensures { (p : ℕ → Bool) → position ≡ index_of p row.old →
        row.new ≡ shifted p front row.old }
{
    if row.len() == 0 {
        return;
    }
    let last = last_moved(position, row.len());
    row.copy_within(0..last, 1);
    row[0] = front;
}

/// The dirty level of a block after an access that found it like this.
fn level_now(write: bool, seen: Seen) -> usize
    ensures { result ≡ level_after write seen.level seen.position }
{
    if write {
        0
    } else if seen.level < seen.position {
        seen.position
    } else {
        seen.level
    }
}

/// Serves one access to the block that was seen so in a row: past its end it is loaded.
fn move_front(row: &mut [u64], seen: Seen, sought: Sought, write: bool)
    requires short { length row.old + 2 ≤ sought.stride }
    requires position { seen.position
        ≡ index_of (holds sought.block) (slots_at sought row.old) }
    requires level { seen.level ≡ level_in sought.block (slots_at sought row.old) }
    requires low { seen.level + 2 ≤ sought.stride }
    ensures { slots_at sought row.new
        ≡ next_slots sought.block write (slots_at sought row.old) }
{
    let front = used_word(sought, level_now(write, seen));
    bring_front(row, seen.position, front);
}

/// Serves one access to the block that is first in a row.
fn keep_front(row: &mut [u64], sought: Sought, write: bool)
    requires short { length row.old + 2 ≤ sought.stride }
    requires first { 0 ≡ index_of (holds sought.block) (slots_at sought row.old) }
    ensures { slots_at sought row.new
        ≡ next_slots sought.block write (slots_at sought row.old) }
{
    if write && row.len() > 0 {
        row[0] = used_word(sought, 0);
    }
}

/// Serves one access to a row, in which its block was seen so.
fn touch_row(row: &mut [u64], seen: Seen, sought: Sought, write: bool)
    requires short { length row.old + 2 ≤ sought.stride }
    requires position { seen.position
        ≡ index_of (holds sought.block) (slots_at sought row.old) }
    requires level { seen.level ≡ level_in sought.block (slots_at sought row.old) }
    requires low { seen.level + 2 ≤ sought.stride }
    ensures { slots_at sought row.new
        ≡ next_slots sought.block write (slots_at sought row.old) }
{
    if seen.position == 0 {
        keep_front(row, sought, write);
    } else {
        move_front(row, seen, sought, write);
    }
}

/// Whether an access to a block changes nothing in a row with this first word: its slot holds the
/// block, and is dirty in all numbers of ways if this is a write.
fn keeps(first: u64, sought: Sought, write: bool) -> bool
    ensures { result ≡ (holds sought.block (slot_of sought.stride sought.sets sought.set first)
        && (not write || slot_level (slot_of sought.stride sought.sets sought.set first) == 0)) }
{
    has_block(first, sought) && (!write || level_of(first, sought) == 0)
}

/// Whether an access changes nothing in the row of its set.
pub(crate) fn stays(slots: &Vec<u64>, set: usize, ways: usize, sought: Sought, write: bool) -> bool
    requires some { 0 < ways }
    requires room { (set + 1) * ways ≤ vec_len slots.now }
    ensures { result ≡ stays_in sought.block write
        (slots_at sought (row ways set slots.now.items)) }
{
    keeps(slots[set * ways], sought, write)
}

/// Where the block of an access stood in its row, or the length of the row if it was not there; the
/// number of ways up to which it was not dirty; and the word of the slot that the row lost, if any.
#[derive(Clone, Copy, Debug)]
pub(crate) struct Turned {
    pub position: usize,
    pub clean: usize,
    pub lost: u64,
}

/// The word of the slot that leaves a row in which the block of an access has this position: of an
/// empty one if it is there.
fn lost_by(row: &[u64], position: usize) -> u64
    ensures { (stride sets set : ℕ) → slot_of stride sets set result
        ≡ lost_in position (slots_in stride sets set row.now) }
{
    if position < row.len() {
        return EMPTY;
    }
    if row.len() == 0 {
        return EMPTY;
    }
    row[row.len() - 1]
}

/// The number of ways up to which a block is not dirty that was seen so in a row of `len` slots.
fn clean_of(seen: Seen, len: usize) -> usize
    ensures { result ≡ clean_in seen.level seen.position len }
{
    level_now(false, seen).min(len)
}

/// Serves one access to a row, whose first `from` slots do not hold its block.
fn turn_row(row: &mut [u64], sought: Sought, from: usize, write: bool) -> Turned
    requires short { length row.old + 2 ≤ sought.stride }
    requires far { from ≤ index_of (holds sought.block) (slots_at sought row.old) }
    ensures row { slots_at sought row.new
        ≡ next_slots sought.block write (slots_at sought row.old) }
    ensures len { length row.new ≡ length row.old }
    ensures position { result.position
        ≡ index_of (holds sought.block) (slots_at sought row.old) }
    ensures clean { result.clean ≡ clean_in
        (level_in sought.block (slots_at sought row.old))
        (index_of (holds sought.block) (slots_at sought row.old)) (length row.old) }
    ensures lost { slot_of sought.stride sought.sets sought.set result.lost ≡ lost_in
        (index_of (holds sought.block) (slots_at sought row.old))
        (slots_at sought row.old) }
{
    let seen = look(row, sought, from);
    let clean = clean_of(seen, row.len());
    let lost = lost_by(row, seen.position);
    touch_row(row, seen, sought, write);
    Turned {
        position: seen.position,
        clean,
        lost,
    }
}

/// Serves one access to the row of its set.
fn turn(
    slots: &mut [u64],
    set: usize,
    ways: usize,
    sought: Sought,
    from: usize,
    write: bool,
) -> Turned
    requires room { (set + 1) * ways ≤ length slots.old }
    requires short { ways + 2 ≤ sought.stride }
    requires far { from
        ≤ index_of (holds sought.block) (slots_at sought (row ways set slots.old)) }
    ensures slots { slots_at sought (row ways set slots.new)
        ≡ next_slots sought.block write (slots_at sought (row ways set slots.old)) }
    ensures others { (s : ℕ) → s ≢ set → row ways s slots.new ≡ row ways s slots.old }
    ensures len { length slots.new ≡ length slots.old }
    ensures position { result.position
        ≡ index_of (holds sought.block) (slots_at sought (row ways set slots.old)) }
    ensures clean { result.clean ≡ clean_in
        (level_in sought.block (slots_at sought (row ways set slots.old)))
        (index_of (holds sought.block) (slots_at sought (row ways set slots.old))) ways }
    ensures lost { slot_of sought.stride sought.sets sought.set result.lost ≡ lost_in
        (index_of (holds sought.block) (slots_at sought (row ways set slots.old)))
        (slots_at sought (row ways set slots.old)) }
{
    let start = set * ways;
    let end = start + ways;
    turn_row(&mut slots[start..end], sought, from, write)
}

/// The same for the rows of a vector.
pub(crate) fn turn_in(
    slots: &mut Vec<u64>,
    set: usize,
    ways: usize,
    sought: Sought,
    from: usize,
    write: bool,
) -> Turned
    requires room { (set + 1) * ways ≤ vec_len slots.old }
    requires short { ways + 2 ≤ sought.stride }
    requires far { from
        ≤ index_of (holds sought.block) (slots_at sought (row ways set slots.old.items)) }
    ensures slots { slots_at sought (row ways set slots.new.items)
        ≡ next_slots sought.block write (slots_at sought (row ways set slots.old.items)) }
    ensures others { (s : ℕ) → s ≢ set →
        row ways s slots.new.items ≡ row ways s slots.old.items }
    ensures len { vec_len slots.new ≡ vec_len slots.old }
    ensures position { result.position
        ≡ index_of (holds sought.block) (slots_at sought (row ways set slots.old.items)) }
    ensures clean { result.clean ≡ clean_in
        (level_in sought.block (slots_at sought (row ways set slots.old.items)))
        (index_of (holds sought.block) (slots_at sought (row ways set slots.old.items)))
        ways }
    ensures lost { slot_of sought.stride sought.sets sought.set result.lost ≡ lost_in
        (index_of (holds sought.block) (slots_at sought (row ways set slots.old.items)))
        (slots_at sought (row ways set slots.old.items)) }
{
    turn(slots, set, ways, sought, from, write)
}
