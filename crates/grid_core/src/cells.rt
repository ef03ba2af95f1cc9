//! The caches of one engine that are served together: what each counts, and which of them hit last.

ghost use Rattle.std.specs.Prelude.{◌≡◌, ◌<◌, ◌≤◌, ◌+◌, map, nat_lt, IfOk, length, true};
ghost use Rattle.std.specs.List.{All, list_all};
ghost use Rattle.cache_core.specs.History.{History};
ghost use Rattle.cache_core.specs.declared.access.Access.{Access as Accessed};
ghost use Rattle.grid_core.specs.Cells.{IsPlacedOn, IsPlacedAmong, dirty_bytes_of, hit_at};
ghost use Rattle.grid_core.specs.Cells.{items_of, HitsIn, sent_on_of};
ghost use Rattle.grid_core.specs.Histograms.{past_in};
ghost use Rattle.grid_core.specs.Standing.{HasMoved, IsWithinStack, StackStandsFor, found_in};
ghost use Rattle.grid_core.specs.Standing.{rules_of_rows, told_in, written_at};
ghost use Rattle.grid_core.specs.State.{nothing_alike, whole_counts};

use crate::stack::Stack;
use crate::sums::less;
use cache_core::{Counts, Geometry, MAX_EVENTS, PerClass};
use std::alloc::{AllocError, Global};

/// Which cache a cell is: its geometry and write policy, the rows of its number of sets, its number
/// of ways, and the rank of its number of blocks among the sizes of the shadows.
#[derive(Clone, Copy, Debug)]
pub(crate) struct Shape {
    pub geometry: Geometry,
    pub wback: bool,
    pub stack: usize,
    pub ways: usize,
    pub rank: usize,
}

/// What all caches that are served together count alike: the accesses by class, those of them whose
/// blocks were never accessed before, and the flushes.
#[derive(Clone, Copy, Debug)]
pub(crate) struct Alike {
    pub fetches: PerClass,
    pub firsts: PerClass,
    pub flushes: u64,
}

/// Nothing counted.
pub(crate) fn none_alike() -> Alike
    ensures { result ≡ nothing_alike }
{
    Alike {
        fetches: PerClass::default(),
        firsts: PerClass::default(),
        flushes: 0,
    }
}

/// Whether the last access hit in the cache of a shape.
fn has_hit(shape: Shape, stack: &Stack) -> bool
    requires { IsPlacedOn (rules_of_rows stack.now) shape }
    ensures is { result ≡ nat_lt (found_in stack.now) shape.ways }
    ensures hits { result ≡ true → (h : History) (x : Accessed) → HasMoved h x stack.now →
        HitsIn h x shape }
{
    stack.position() < shape.ways
}

/// Whether the last access hit in the caches of all shapes.
fn have_hit(shapes: &[Shape], stacks: &[Stack]) -> bool
    requires { All (λ s. IsPlacedAmong (map rules_of_rows stacks.now) s) shapes.now }
    ensures is { result ≡ list_all (hit_at (map found_in stacks.now)) shapes.now }
    ensures hits { result ≡ true → (h : History) (x : Accessed) →
        All (HasMoved h x) stacks.now → All (HitsIn h x) shapes.now }
{
    for shape in shapes {
        if !has_hit(*shape, &stacks[shape.stack]) {
            return false;
        }
    }
    true
}

/// The same for vectors.
pub(crate) fn all_have_hit(shapes: &Vec<Shape>, stacks: &Vec<Stack>) -> bool
    requires { All (λ s. IsPlacedAmong (map rules_of_rows stacks.now.items) s) shapes.now.items }
    ensures is { result ≡ list_all (hit_at (map found_in stacks.now.items)) shapes.now.items }
    ensures hits { result ≡ true → (h : History) (x : Accessed) →
        All (HasMoved h x) stacks.now.items → All (HitsIn h x) shapes.now.items }
{
    have_hit(shapes, stacks)
}

/// How many writes are sent on, of so many.
fn sent_of(writes: u64, wback: bool) -> u64
    ensures { result ≡ sent_on_of wback writes }
{
    if wback { 0 } else { writes }
}

/// All counts of the cache of a shape, which these rows serve. Each miss loads its block. A miss is
/// compulsory if its block was never accessed before. Of the others, those that miss in the shadow
/// too are capacity misses, and the rest conflicts.
pub(crate) fn shape_counts(shape: Shape, stack: &Stack, alike: Alike) -> Counts
    requires ways { shape.ways ≤ (rules_of_rows stack.now).assoc }
    requires some { 0 < shape.ways }
    requires rank { shape.rank + 1 ≤ told_in stack.now }
    requires few { shape.rank < usize.MAX }
    requires within { IsWithinStack MAX_EVENTS stack.now }
    ensures { result ≡ whole_counts alike (past_in stack.now.histogram shape.ways 0)
        (past_in stack.now.histogram shape.ways (shape.rank + 1))
        (written_at stack.now shape.ways) shape.wback }
{
    let misses = stack.past(shape.ways, 0);
    let far = stack.past(shape.ways, shape.rank + 1);
    Counts {
        fetches: alike.fetches,
        misses,
        compulsory: alike.firsts,
        capacity: less(far, alike.firsts),
        conflict: less(misses, far),
        loaded: misses.total() as u64,
        written_back: stack.written_back(shape.ways),
        sent_on: sent_of(alike.fetches.write, shape.wback),
        flushes: alike.flushes,
    }
}

/// The dirty blocks of the cache of a shape, by their first bytes, in rising order.
fn dirty_list(alloc: Global, stacks: &Vec<Stack>, shape: Shape) -> Result<Vec<u64>, AllocError>
    requires { IsPlacedAmong (map rules_of_rows stacks.now.items) shape }
    ensures { IfOk result (λ bytes. (h : History) → All (λ s. StackStandsFor s h) stacks.now.items →
        bytes.items ≡ dirty_bytes_of h shape) }
{
    let bytes = stacks[shape.stack].dirty(alloc, shape.ways)?;
    Ok(bytes)
}

/// The dirty blocks of each cache.
pub(crate) fn dirty_lists(
    alloc: Global,
    stacks: &Vec<Stack>,
    shapes: &Vec<Shape>,
) -> Result<Vec<Vec<u64>>, AllocError>
    requires { All (λ s. IsPlacedAmong (map rules_of_rows stacks.now.items) s) shapes.now.items }
    ensures lists { IfOk result (λ lists. (h : History)
        → All (λ s. StackStandsFor s h) stacks.now.items →
        map items_of lists.items ≡ map (dirty_bytes_of h) shapes.now.items) }
    ensures len { IfOk result (λ lists. length lists.items ≡ length shapes.now.items) }
{
    let mut lists = Vec::new(alloc);
    for shape in shapes.iter() {
        let bytes = dirty_list(alloc, stacks, *shape)?;
        lists.push(bytes)?;
    }
    Ok(lists)
}
