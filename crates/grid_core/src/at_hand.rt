//! The numbers of blocks that were looked up recently.

ghost use Rattle.std.specs.Prelude.{◌≡◌, ℕ, Option, Some, IfSome};
ghost use Rattle.grid_core.specs.AtHand.{HaveRightNumbers};

use std::alloc::AllocError;

/// The number of a block. `usize::MAX` is no number: then no block is kept here.
#[derive(Clone, Copy, Debug)]
pub(crate) struct Entry {
    pub block: u64,
    pub number: usize,
}

/// At most so many numbers are kept. The place of a block is the remainder when the block is
/// divided by this.
const PLACES: u64 = 2048;

/// The place of a block.
fn place_of(block: u64) -> usize {
    (block % PLACES) as usize
}

/// The number of a block, if it is kept.
pub(crate) fn at_hand(entries: &Vec<Entry>, block: u64) -> Option<usize>
    ensures { (m : ℕ → Option ℕ) → HaveRightNumbers m entries.now.items →
        IfSome result (λ n. m block ≡ Some n) }
{
    let place = place_of(block);
    if place >= entries.len() {
        return None;
    }
    let entry = entries[place];
    if entry.number == usize::MAX || entry.block != block {
        return None;
    }
    Some(entry.number)
}

/// Makes the places, where there are none yet. No block is kept in them.
fn make_places(entries: &mut Vec<Entry>) -> Result<(), AllocError>
    ensures { (m : ℕ → Option ℕ) → HaveRightNumbers m entries.old.items
        → HaveRightNumbers m entries.new.items }
{
    if !entries.is_empty() {
        return Ok(());
    }
    let none = Entry {
        block: 0,
        number: usize::MAX,
    };
    entries.resize(PLACES as usize, none)
}

/// Puts the number of a block in its place, in place of another one.
fn put_in_place(entries: &mut Vec<Entry>, block: u64, number: usize)
    ensures { (m : ℕ → Option ℕ) → HaveRightNumbers m entries.old.items → m block ≡ Some number →
        HaveRightNumbers m entries.new.items }
{
    let place = place_of(block);
    if place < entries.len() {
        entries[place] = Entry { block, number };
    }
}

/// Keeps the number of a block.
pub(crate) fn keep_at_hand(
    entries: &mut Vec<Entry>,
    block: u64,
    number: usize,
) -> Result<(), AllocError>
    ensures { (m : ℕ → Option ℕ) → HaveRightNumbers m entries.old.items → m block ≡ Some number →
        HaveRightNumbers m entries.new.items }
{
    make_places(entries)?;
    put_in_place(entries, block, number);
    Ok(())
}
