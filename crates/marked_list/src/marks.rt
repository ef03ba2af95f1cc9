//! A mark for each size: where the uses begin that have as many different blocks.

ghost use Rattle.std.specs.Prelude.{◌≡◌, ◌<◌, ◌≤◌, ℕ, List, length, map, get_or, true, IfOk};
ghost use Rattle.std.specs.List.Sorted.{IsStrictlyIncreasing};
ghost use Rattle.marked_list.specs.Recency.{index_of};
ghost use Rattle.marked_list.specs.Uses.{used_next};
ghost use Rattle.marked_list.specs.Log.{uses_of};
ghost use Rattle.marked_list.specs.Marks.{AreBelow, AreMarks, IsMark, IsUseAfter, covers};
ghost use Rattle.marked_list.specs.Marks.{fresh_mark, mark_size, no_mark, restarted, settled};

use crate::uses::Uses;
use std::alloc::{AllocError, Global};

/// The blocks used at `place` or later are those used last, as many as `size` says.
#[derive(Clone, Copy, Debug)]
pub(crate) struct Mark {
    pub size: usize,
    pub place: usize,
}

/// Marks of these sizes, before any use.
pub(crate) fn new_marks(alloc: Global, sizes: &[usize]) -> Result<Vec<Mark>, AllocError>
    ensures { IfOk result (λ v. v.items ≡ map fresh_mark sizes.now) }
{
    sizes
        .iter()
        .map(|size| Mark {
            size: *size,
            place: 0,
        })
        .collect(alloc)
}

/// Whether each size is larger than those before it.
pub(crate) fn is_rising(sizes: &[usize]) -> bool
    ensures { result ≡ true → IsStrictlyIncreasing sizes.now }
{
    for index in 1..sizes.len() {
        if sizes[index] <= sizes[index - 1] {
            return false;
        }
    }
    true
}

/// Whether the last use is at this place or after it.
#[inline(always)]
fn is_since(place: usize, last: Option<usize>) -> bool
    ensures { result ≡ covers place last }
{
    match last {
        None => false,
        Some(last) => last >= place,
    }
}

/// Moves a mark after a use, by the last use of the block before it, and the number of blocks used
/// before.
fn move_mark(mark: &mut Mark, uses: &Uses, last: Option<usize>, used: usize)
    requires { mark.old.place < length (uses_of uses.now) }
    ensures size { mark.new.size ≡ mark.old.size }
    ensures moves { (ms : List ℕ) (b : ℕ) → uses_of uses.now ≡ used_next b ms →
        IsUseAfter ms b last used → IsMark ms mark.old → IsMark (used_next b ms) mark.new }
{
    if is_since(mark.place, last) {
        return;
    }
    if used < mark.size {
        return;
    }
    mark.place = uses.behind_next(mark.place);
}

/// Moves the marks before the first that has the last use, and answers the index of that one, or
/// the number of marks.
fn move_first(marks: &mut [Mark], uses: &Uses, last: Option<usize>, used: usize) -> usize
    requires { AreBelow (length (uses_of uses.now)) marks.old }
    ensures level { result ≡ index_of (λ k. covers k.place last) marks.old }
    ensures sizes { map mark_size marks.new ≡ map mark_size marks.old }
    ensures moves { (ms : List ℕ) (b : ℕ) → uses_of uses.now ≡ used_next b ms →
        IsUseAfter ms b last used → AreMarks ms marks.old → (k : ℕ) → k < result →
        IsMark (used_next b ms) (get_or marks.new k no_mark) }
    ensures left { (k : ℕ) → result ≤ k →
        get_or marks.new k no_mark ≡ get_or marks.old k no_mark }
{
    for (index, mark) in marks.iter_mut().enumerate() {
        if is_since(mark.place, last) {
            return index;
        }
        move_mark(mark, uses, last, used);
    }
    marks.len()
}

/// Moves the marks from this index on.
fn move_rest(marks: &mut [Mark], from: usize, uses: &Uses, last: Option<usize>, used: usize)
    requires { (k : ℕ) → from ≤ k → k < length marks.old →
        (get_or marks.old k no_mark).place < length (uses_of uses.now) }
    ensures sizes { map mark_size marks.new ≡ map mark_size marks.old }
    ensures moves { (ms : List ℕ) (b : ℕ) → uses_of uses.now ≡ used_next b ms →
        IsUseAfter ms b last used → (k : ℕ) → from ≤ k → k < length marks.old →
        IsMark ms (get_or marks.old k no_mark) →
        IsMark (used_next b ms) (get_or marks.new k no_mark) }
    ensures left { (k : ℕ) → k < from → get_or marks.new k no_mark ≡ get_or marks.old k no_mark }
{
    for index in from..marks.len() {
        move_mark(&mut marks[index], uses, last, used);
    }
}

/// Moves all marks, and answers the level of the block before the use. Of rising sizes, those from
/// the level on have the block, so that their marks stay. Not inlined, so that a use at the first
/// level is served by less code.
#[inline(never)]
fn move_all(
    marks: &mut [Mark],
    uses: &Uses,
    last: Option<usize>,
    used: usize,
    rising: bool,
) -> usize
    requires { AreBelow (length (uses_of uses.now)) marks.old }
    ensures level { result ≡ index_of (λ k. covers k.place last) marks.old }
    ensures sizes { map mark_size marks.new ≡ map mark_size marks.old }
    ensures moves { (ms : List ℕ) (b : ℕ) → uses_of uses.now ≡ used_next b ms →
        IsUseAfter ms b last used →
        (rising ≡ true → IsStrictlyIncreasing (map mark_size marks.old)) →
        AreMarks ms marks.old → AreMarks (used_next b ms) marks.new }
{
    let level = move_first(marks, uses, last, used);
    if rising {
        return level;
    }
    move_rest(marks, level, uses, last, used);
    level
}

/// Whether the first mark has the last use.
#[inline(always)]
fn first_has(marks: &Vec<Mark>, last: Option<usize>) -> bool
    ensures { result ≡ true → (0 < length marks.now.items)
        × (covers (get_or marks.now.items 0 no_mark).place last ≡ true) }
{
    !marks.is_empty() && is_since(marks[0].place, last)
}

/// The same for the marks of a vector. Of rising sizes, all marks stay if the first has the last
/// use.
#[inline(always)]
pub(crate) fn move_each(
    marks: &mut Vec<Mark>,
    uses: &Uses,
    last: Option<usize>,
    used: usize,
    rising: bool,
) -> usize
    requires { AreBelow (length (uses_of uses.now)) marks.old.items }
    ensures level { result ≡ index_of (λ k. covers k.place last) marks.old.items }
    ensures sizes { map mark_size marks.new.items ≡ map mark_size marks.old.items }
    ensures moves { (ms : List ℕ) (b : ℕ) → uses_of uses.now ≡ used_next b ms →
        IsUseAfter ms b last used →
        (rising ≡ true → IsStrictlyIncreasing (map mark_size marks.old.items)) →
        AreMarks ms marks.old.items → AreMarks (used_next b ms) marks.new.items }
{
    if rising && first_has(marks, last) {
        return 0;
    }
    move_all(marks, uses, last, used, rising)
}

/// Takes all marks back to the start.
pub(crate) fn restart_each(marks: &mut Vec<Mark>)
    ensures { marks.new.items ≡ map restarted marks.old.items }
{
    for mark in marks.iter_mut() {
        mark.place = 0;
    }
}

/// Puts all marks where they belong if each of `used` blocks was used once.
pub(crate) fn settle_each(marks: &mut Vec<Mark>, used: usize)
    ensures { marks.new.items ≡ map (settled used) marks.old.items }
{
    for mark in marks.iter_mut() {
        mark.place = used.saturating_sub(mark.size);
    }
}
