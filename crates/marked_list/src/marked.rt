//! One list of blocks in order of last use, for all sizes.

ghost use Rattle.std.specs.Prelude.{◌≡◌, ◌<◌, ◌≤◌, ◌+◌, ◌*◌, length, map, true};
ghost use Rattle.std.specs.List.Sorted.{IsStrictlyIncreasing};
ghost use Rattle.marked_list.specs.Log.{uses_of};
ghost use Rattle.marked_list.specs.Uses.{living};
ghost use Rattle.marked_list.specs.Marks.{AreMarks, counted_with, mark_size};

use crate::marks::{Mark, is_rising, move_each, new_marks, restart_each, settle_each};
use crate::uses::Uses;
use std::alloc::{AllocError, Global};

/// The blocks by number, in order of last use. For each size it is known whether a block is among
/// those used last, as many as the size says.
#[derive(Drop)]
pub struct Marked {
    uses: Uses,
    marks: Vec<Mark>,
    /// How many different blocks were used since the last `clear`.
    used: usize,
    /// Whether each size is larger than those before it.
    rising: bool,
    ghost marked: { AreMarks (uses_of uses) marks.items },
    ghost counted: { used ≡ length (living (uses_of uses)) },
    ghost rises: { rising ≡ true → IsStrictlyIncreasing (map mark_size marks.items) },
    ghost short: { length (uses_of uses) ≤ 4096 + 2 * used },
}

/// How many different blocks were used after a use, by the last use of the block before it.
fn counted(used: usize, last: Option<usize>) -> usize
    requires { used < usize.MAX }
    ensures { result ≡ counted_with last used }
{
    match last {
        None => used + 1,
        Some(_) => used,
    }
}

#[tactic(auto, unfolding(crate::specs::Marked::order_of, crate::specs::Marked::marked_sizes, crate::specs::Marked::was_used, crate::specs::Marked::kept_uses))]
impl Marked {
    ghost use Rattle.std.specs.Prelude.{◌≡◌, ◌<◌, ◌≤◌, ◌+◌, ◌*◌, ◌==◌, ◌||◌, ℕ, [], false, length};
    ghost use Rattle.std.specs.Prelude.{IfOk, OnOk, OnErr, IsErr, get_or, true};
    ghost use Rattle.std.specs.List.{All, list_any};
    ghost use Rattle.marked_list.specs.Recency.{index_in, level_of, brought_front};
    ghost use Rattle.marked_list.specs.Marked.{kept_uses, order_of, marked_sizes, was_used};

    /// A list for these sizes, with no block. The sizes are numbers of blocks, in any order; a use
    /// takes fewer steps if they rise.
    pub fn new(alloc: Global, sizes: &[usize]) -> Result<Marked, AllocError>
        requires { All (λ size. 0 < size) sizes.now }
        ensures order { IfOk result (λ marked. order_of marked ≡ []) }
        ensures used { IfOk result (λ marked. (q : ℕ) → was_used marked q ≡ false) }
        ensures sizes { IfOk result (λ marked. marked_sizes marked ≡ sizes.now) }
        ensures few { IfOk result (λ marked. kept_uses marked ≡ 0) }
    {
        let marks = new_marks(alloc, sizes)?;
        Ok(Marked {
            uses: Uses::new(alloc),
            marks,
            used: 0,
            rising: is_rising(sizes),
        })
    }

    /// Forgets all uses but the last ones. Not inlined, since few uses need it.
    #[inline(never)]
    fn shorten(&mut self)
        ensures short { length (uses_of self.new.uses) < 4096 + 2 * self.new.used }
        ensures order { order_of self.new ≡ order_of self.old }
        ensures used { (q : ℕ) → was_used self.new q ≡ was_used self.old q }
        ensures sizes { marked_sizes self.new ≡ marked_sizes self.old }
    {
        self.uses.shorten();
        settle_each(&mut self.marks, self.used);
    }

    /// Serves a use of a block, as `touch` does.
    #[inline(always)]
    fn serve(&mut self, number: usize) -> Result<usize, AllocError>
        requires low { number < u32.MAX }
        requires short { length (uses_of self.old.uses) < 4096 + 2 * self.old.used }
        ensures level { IfOk result (λ level.
            level ≡ level_of (marked_sizes self.old) (order_of self.old) number) }
        ensures order { OnOk result (order_of self.new ≡ brought_front number (order_of self.old)) }
        ensures unchanged { OnErr result (order_of self.new ≡ order_of self.old) }
        ensures used { OnOk result ((q : ℕ) →
            was_used self.new q ≡ (number == q || was_used self.old q)) }
        ensures unused { OnErr result ((q : ℕ) → was_used self.new q ≡ was_used self.old q) }
        ensures sizes { marked_sizes self.new ≡ marked_sizes self.old }
    {
        let last = self.uses.last_use(number);
        self.uses.add(number, last)?;
        let level = move_each(&mut self.marks, &self.uses, last, self.used, self.rising);
        self.used = counted(self.used, last);
        Ok(level)
    }

    /// Whether a block was ever used.
    pub fn knows(&self, number: usize) -> bool
        ensures { result ≡ was_used self.now number }
    {
        self.uses.knows(number)
    }

    /// Of some blocks, all of which were used since the last `clear`, the index of the one whose
    /// last use is the longest ago.
    pub fn oldest(&self, numbers: &[u32]) -> usize
        requires { 0 < length numbers.now }
        ensures inside { result < length numbers.now }
        ensures oldest { All (λ n. list_any (λ m. m == n) (order_of self.now) ≡ true) numbers.now →
            (k : ℕ) → k < length numbers.now →
            index_in (get_or numbers.now k 0) (order_of self.now)
            ≤ index_in (get_or numbers.now result 0) (order_of self.now) }
    {
        self.uses.oldest(numbers)
    }

    /// Uses a block, and answers its level before: the index of the first size for which it was
    /// among the blocks used last, or the number of sizes. After an error the order is as before,
    /// and so is which blocks were ever used. A number of `u32::MAX` or more answers an error, as
    /// if memory were wanting. So does a use for which the list has no place left: it has places
    /// for `u32::MAX - 1` uses, and keeps at most two for each block and 4,096 more, so that takes
    /// some 2^31 blocks or more.
    #[inline(always)]
    pub fn touch(&mut self, number: usize) -> Result<usize, AllocError>
        ensures level { IfOk result (λ level.
            level ≡ level_of (marked_sizes self.old) (order_of self.old) number) }
        ensures order { OnOk result (order_of self.new ≡ brought_front number (order_of self.old)) }
        ensures unchanged { OnErr result (order_of self.new ≡ order_of self.old) }
        ensures used { OnOk result ((q : ℕ) →
            was_used self.new q ≡ (number == q || was_used self.old q)) }
        ensures unused { OnErr result ((q : ℕ) → was_used self.new q ≡ was_used self.old q) }
        ensures sizes { marked_sizes self.new ≡ marked_sizes self.old }
        ensures few { kept_uses self.new ≤ 4096 + 2 * length (order_of self.new) }
        ensures high { u32.MAX ≤ number → IsErr result }
    {
        if number >= u32::MAX as usize {
            return Err(AllocError);
        }
        if self.uses.is_latest(number) {
            return Ok(0);
        }
        if self.uses.is_long(self.used) {
            self.shorten();
        }
        self.serve(number)
    }

    /// Empties the list. Blocks that were ever used stay known.
    pub fn clear(&mut self)
        ensures order { order_of self.new ≡ [] }
        ensures used { (q : ℕ) → was_used self.new q ≡ was_used self.old q }
        ensures sizes { marked_sizes self.new ≡ marked_sizes self.old }
        ensures few { kept_uses self.new ≡ 0 }
    {
        self.uses.clear();
        restart_each(&mut self.marks);
        self.used = 0;
    }
}
