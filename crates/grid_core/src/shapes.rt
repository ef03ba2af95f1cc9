//! From geometries to rows and shapes.

ghost use Rattle.std.specs.Prelude.{◌≡◌, ◌<◌, ◌==◌, ℕ, Bool, true, not, map, IfOk, OnOk};
ghost use Rattle.std.specs.Prelude.{IfSome};
ghost use Rattle.std.specs.List.{All};
ghost use Rattle.cache_core.specs.Geometry.{assoc_of, blocks_of, bsize_of};
ghost use Rattle.cache_core.specs.Dirty.{rising};
ghost use Rattle.cache_core.specs.Policy.{is_fifo};
ghost use Rattle.marked_list.specs.Recency.{index_of};
ghost use Rattle.grid_core.specs.Slot.{HasWords};
ghost use Rattle.grid_core.specs.Standing.{IsEmptyStack};
ghost use Rattle.grid_core.specs.Shapes.{IsWider, IsSuited, HaveBsize, has_size};

use crate::stack::Stack;
use cache_core::{Geometry, Policy, Repl};
use std::alloc::{AllocError, Global};

/// Whether a policy replaces the block that was used longest ago.
pub(crate) fn is_lru(policy: Policy) -> bool
    ensures { result ≡ not (is_fifo policy) }
{
    match policy.repl {
        Repl::Lru => true,
        Repl::Fifo => false,
    }
}

/// Whether all geometries have the block size of `first`.
pub fn share_block_size(geometries: &[Geometry], first: Geometry) -> bool
    ensures share { result ≡ true → All (λ g. bsize_of g ≡ bsize_of first) geometries.now }
    ensures every { All (λ g. bsize_of g ≡ bsize_of first) geometries.now → result ≡ true }
{
    for geometry in geometries {
        if geometry.bsize() != first.bsize() {
            return false;
        }
    }
    true
}

/// The numbers of blocks of the caches.
fn sizes_of(alloc: Global, geometries: &[Geometry]) -> Result<Vec<usize>, AllocError>
    ensures { IfOk result (λ sizes. sizes.items ≡ map (λ g. blocks_of g) geometries.now) }
{
    geometries
        .iter()
        .map(|geometry| geometry.blocks() as usize)
        .collect(alloc)
}

/// The numbers of blocks of the caches, each once, in rising order.
pub(crate) fn rising_sizes(alloc: Global, geometries: &[Geometry]) -> Result<Vec<usize>, AllocError>
    ensures rise { IfOk result (λ sizes. rising sizes.items ≡ sizes.items) }
    ensures some { IfOk result (λ sizes. All (λ size. 0 < size) sizes.items) }
    ensures all { IfOk result (λ sizes.
        All (λ g. has_size sizes.items (blocks_of g) ≡ true) geometries.now) }
{
    let mut sizes = sizes_of(alloc, geometries)?;
    sizes.sort_unstable();
    sizes.dedup();
    Ok(sizes)
}

/// The index of a size among the sizes.
pub(crate) fn rank_of(sizes: &[usize], size: usize) -> usize
    ensures { result ≡ index_of (λ m. m == size) sizes.now }
{
    for (index, other) in sizes.iter().enumerate() {
        if *other == size {
            return index;
        }
    }
    sizes.len()
}

/// Whether another geometry has the block size and the number of sets of this one, and at least as
/// many ways.
fn is_wider(geometry: Geometry, other: Geometry) -> bool
    ensures { result ≡ true → IsWider geometry other }
{
    other.bsize() == geometry.bsize()
        && other.sets() == geometry.sets()
        && geometry.assoc() <= other.assoc()
}

/// The wider of two geometries, if they have the same number of sets; else the first.
fn wider(geometry: Geometry, other: Geometry) -> Geometry
    ensures wider { (g : Geometry) → IsWider g geometry → IsWider g result }
    ensures words { HasWords geometry → HasWords other → HasWords result }
{
    if is_wider(geometry, other) {
        return other;
    }
    geometry
}

/// The widest geometry of the same number of sets.
fn widest(geometries: &[Geometry], geometry: Geometry) -> Geometry
    ensures wider { IsWider geometry result }
    ensures words { HasWords geometry → All HasWords geometries.now → HasWords result }
{
    let mut best = geometry;
    for other in geometries {
        best = wider(best, *other);
    }
    best
}

/// Rows that serve a cache of this geometry, if there are some.
fn find_stack(stacks: &[Stack], geometry: Geometry, ways: usize, wback: bool) -> Option<usize>
    ensures { IfSome result (λ index. IsSuited stacks.now geometry ways wback index) }
{
    for (index, stack) in stacks.iter().enumerate() {
        if stack.suits(geometry, ways, wback) {
            return Some(index);
        }
    }
    None
}

/// The index of rows that serve a cache of this geometry. Where there are none, new ones are made,
/// as wide as the widest cache of that number of sets, which tell so many levels in the shadows
/// apart.
pub(crate) fn stack_for(
    alloc: Global,
    stacks: &mut Vec<Stack>,
    geometries: &[Geometry],
    geometry: Geometry,
    levels: usize,
    wback: bool,
) -> Result<usize, AllocError>
    requires words { HasWords geometry × All HasWords geometries.now }
    ensures suited { IfOk result (λ index.
        IsSuited stacks.new.items geometry (assoc_of geometry) wback index) }
    ensures kept { OnOk result ((g : Geometry) (ways index : ℕ) (w : Bool) →
        IsSuited stacks.old.items g ways w index → IsSuited stacks.new.items g ways w index) }
    ensures empty { OnOk result (All (IsEmptyStack levels) stacks.old.items →
        All (IsEmptyStack levels) stacks.new.items) }
    ensures sizes { OnOk result ((n : ℕ) → bsize_of geometry ≡ n →
        HaveBsize n stacks.old.items → HaveBsize n stacks.new.items) }
{
    let ways = geometry.assoc() as usize;
    if let Some(index) = find_stack(stacks, geometry, ways, wback) {
        return Ok(index);
    }
    let wide = widest(geometries, geometry);
    let stack = Stack::new(alloc, wide, levels, wback)?;
    let index = stacks.len();
    stacks.push(stack)?;
    Ok(index)
}
