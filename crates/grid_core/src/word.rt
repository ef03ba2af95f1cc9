//! The words that keep the slots of rows.
//!
//! Blocks of one set that follow one another are a *stride* apart: the number of sets times the
//! block size. The word of a slot that holds a block is the multiple of the stride up to the
//! block's first byte, plus one, plus the dirty level of the block. Which block of the stride it
//! is, the row tells. The word of an empty slot is 0. So a row needs a stride of two bytes more
//! than it has ways, or longer.

ghost use Rattle.std.specs.Prelude.{◌≡◌, ◌<◌, ◌≤◌, ◌+◌, ◌*◌, ◌/◌, ◌%◌, ◌^◌, ℕ, true};
ghost use Rattle.std.specs.Option.{option_map};
ghost use Rattle.grid_core.specs.Pushed.{dirty_in, is_dirty_slot};
ghost use Rattle.grid_core.specs.Slot.{kept_in_set, slot_of, used_slot};
ghost use Rattle.grid_core.specs.Slots.{holds, slot_level};

use crate::sought::Sought;

/// The word of an empty slot.
pub(crate) const EMPTY: u64 = 0;

/// Whether the slot of a word holds a block. One comparison tells: with two, the first, whether the
/// word is above the base, would be a jump that no processor foresees.
#[inline(always)]
pub(crate) fn has_block(word: u64, sought: Sought) -> bool
    ensures { result ≡ holds sought.block (slot_of sought.stride sought.sets sought.set word) }
{
    word.wrapping_sub(sought.base + 1) < sought.stride - 1
}

/// The dirty level of the block that the slot of a word holds.
#[inline(always)]
pub(crate) fn level_of(word: u64, sought: Sought) -> usize
    requires { holds sought.block (slot_of sought.stride sought.sets sought.set word) ≡ true }
    ensures level { result
        ≡ slot_level (slot_of sought.stride sought.sets sought.set word) }
    ensures low { result + 2 ≤ sought.stride }
{
    (word - sought.base - 1) as usize
}

/// The word of a slot that holds a block, of this dirty level.
#[inline(always)]
pub(crate) fn used_word(sought: Sought, level: usize) -> u64
    requires { level + 2 ≤ sought.stride }
    ensures { slot_of sought.stride sought.sets sought.set result
        ≡ used_slot sought.block level }
{
    sought.base + 1 + level as u64
}

/// How far an address is above the multiple of the stride up to it.
fn above(addr: u64, stride: u64) -> u64
    requires power { (k : ℕ) × (stride ≡ 2 ^ k) }
    ensures { result ≡ addr % stride }
{
    addr & (stride - 1)
}

/// Whether the slot of a word holds a block that is dirty in a cache of `ways` ways.
#[inline(always)]
pub(crate) fn is_dirty(word: u64, stride: u64, wback: bool, ways: usize) -> bool
    requires power { (k : ℕ) × (stride ≡ 2 ^ k) }
    ensures { result ≡ is_dirty_slot wback ways (kept_in_set stride word) }
{
    let above = above(word, stride);
    if above == 0 {
        return false;
    }
    wback && above - 1 < ways as u64
}

/// The first byte of the block that the slot of a word holds, in a set whose first block begins at
/// this address.
#[inline(always)]
pub(crate) fn first_byte_of(word: u64, stride: u64, start: u64) -> u64
    requires power { (k : ℕ) × (stride ≡ 2 ^ k) × (k < 64) }
    requires inside { start < stride }
    ensures { result ≡ word / stride * stride + start }
{
    word - above(word, stride) + start
}

/// The first byte of the block of a word's slot, in a set whose first block begins at `start`, if
/// it is dirty in a cache of `ways` ways.
pub(crate) fn dirty_byte(
    word: u64,
    stride: u64,
    start: u64,
    wback: bool,
    ways: usize,
) -> Option<u64>
    requires power { (k : ℕ) × (stride ≡ 2 ^ k) × (k < 64) }
    requires inside { start < stride }
    ensures { (bsize sets set : ℕ) → stride ≡ sets * bsize → start ≡ set * bsize →
        result ≡ option_map (λ b. b * bsize)
        (dirty_in wback ways (slot_of stride sets set word)) }
{
    if is_dirty(word, stride, wback, ways) {
        Some(first_byte_of(word, stride, start))
    } else {
        None
    }
}
