//! The rows and the shapes of some geometries.

ghost use Rattle.std.specs.Prelude.{◌≡◌, ◌<◌, ◌+◌, ◌-◌, ℕ, length, map, true, IfOk, OnOk};
ghost use Rattle.std.specs.List.{All};
ghost use Rattle.std.specs.List.Sorted.{IsPermutation, IsNonDecreasingBy};
ghost use Rattle.cache_core.specs.Geometry.{bsize_of, blocks_of, sets_of};
ghost use Rattle.grid_core.specs.Slot.{HasWords};
ghost use Rattle.grid_core.specs.Standing.{IsEmptyStack, rules_of_rows, stack_rules};
ghost use Rattle.grid_core.specs.declared.cells.Shape.{Shape};
ghost use Rattle.grid_core.specs.Shapes.{has_size, HaveBsize, IsSuitedShape};
ghost use Rattle.grid_core.specs.Cells.{IsPlacedAmong, shape_rules};
ghost use Rattle.grid_core.specs.State.{IsRanked, IsShapeFor};

use crate::cells::Shape;
use crate::shapes::{rank_of, stack_for};
use crate::stack::Stack;
use cache_core::Geometry;
use std::alloc::{AllocError, Global};

/// The rows of some geometries, and for each geometry the shape of its cache.
#[derive(Drop)]
pub(crate) struct Parts {
    pub stacks: Vec<Stack>,
    pub shapes: Vec<Shape>,
}

/// The geometries in the order of their numbers of sets, the most first.
fn by_sets(alloc: Global, geometries: &[Geometry]) -> Result<Vec<Geometry>, AllocError>
    ensures same { IfOk result (λ ordered. IsPermutation geometries.now ordered.items) }
    ensures falling { IfOk result (λ ordered.
        IsNonDecreasingBy (λ g. u64.MAX - sets_of g) ordered.items) }
{
    let mut ordered = Vec::from_slice(alloc, geometries)?;
    ordered.sort_unstable_by_key(|geometry| u64::MAX - geometry.sets());
    Ok(ordered)
}

/// Empty rows for these geometries, those of more sets before those of fewer. So each is searched
/// from where the block stood among more sets.
fn rows_for(
    alloc: Global,
    geometries: &[Geometry],
    first: Geometry,
    levels: usize,
    wback: bool,
) -> Result<Vec<Stack>, AllocError>
    requires one_size { All (λ g. bsize_of g ≡ bsize_of first) geometries.now }
    requires words { All HasWords geometries.now }
    ensures one_size { IfOk result (λ stacks. HaveBsize (bsize_of first) stacks.items) }
    ensures empty { IfOk result (λ stacks. All (IsEmptyStack levels) stacks.items) }
{
    let ordered = by_sets(alloc, geometries)?;
    let mut stacks = Vec::new(alloc);
    for geometry in ordered.iter() {
        stack_for(alloc, &mut stacks, geometries, *geometry, levels, wback)?;
    }
    Ok(stacks)
}

/// The shape of a cache of this geometry, and rows for it.
fn shape_for(
    alloc: Global,
    stacks: &mut Vec<Stack>,
    geometries: &[Geometry],
    geometry: Geometry,
    sizes: &[usize],
    wback: bool,
) -> Result<Shape, AllocError>
    requires size { has_size sizes.now (blocks_of geometry) ≡ true }
    requires few { length sizes.now < usize.MAX }
    requires words { HasWords geometry × All HasWords geometries.now }
    ensures own { IfOk result (λ s. IsShapeFor sizes.now stacks.new.items geometry wback s) }
    ensures kept { OnOk result ((s : Shape) → IsSuitedShape stacks.old.items s →
        IsSuitedShape stacks.new.items s) }
    ensures empty { OnOk result (
        All (IsEmptyStack (length sizes.now + 1)) stacks.old.items →
        All (IsEmptyStack (length sizes.now + 1)) stacks.new.items) }
    ensures sizes { OnOk result ((n : ℕ) → bsize_of geometry ≡ n →
        HaveBsize n stacks.old.items → HaveBsize n stacks.new.items) }
{
    let levels = sizes.len() + 1;
    let stack = stack_for(alloc, stacks, geometries, geometry, levels, wback)?;
    Ok(Shape {
        geometry,
        wback,
        stack,
        ways: geometry.assoc() as usize,
        rank: rank_of(sizes, geometry.blocks() as usize),
    })
}

/// Empty rows and the shapes of the caches, for these geometries.
pub(crate) fn parts_for(
    alloc: Global,
    geometries: &[Geometry],
    sizes: &[usize],
    first: Geometry,
    wback: bool,
) -> Result<Parts, AllocError>
    requires sizes { All (λ g. has_size sizes.now (blocks_of g) ≡ true) geometries.now }
    requires few { length sizes.now < usize.MAX }
    requires one_size { All (λ g. bsize_of g ≡ bsize_of first) geometries.now }
    requires words { All HasWords geometries.now }
    ensures rules { IfOk result (λ parts. map shape_rules parts.shapes.items
        ≡ map (λ g. stack_rules g wback) geometries.now) }
    ensures ranked { IfOk result (λ parts.
        All (IsRanked sizes.now first) parts.shapes.items) }
    ensures placed { IfOk result (λ parts.
        All (IsPlacedAmong (map rules_of_rows parts.stacks.items)) parts.shapes.items) }
    ensures one_size { IfOk result (λ parts. HaveBsize (bsize_of first) parts.stacks.items) }
    ensures one_policy { IfOk result (λ parts. All (λ s. s.wback ≡ wback) parts.shapes.items) }
    ensures empty { IfOk result (λ parts.
        All (IsEmptyStack (length sizes.now + 1)) parts.stacks.items) }
{
    let mut stacks = rows_for(alloc, geometries, first, sizes.len() + 1, wback)?;
    let mut shapes = Vec::new(alloc);
    for geometry in geometries {
        let shape = shape_for(alloc, &mut stacks, geometries, *geometry, sizes, wback)?;
        shapes.push(shape)?;
    }
    Ok(Parts { stacks, shapes })
}
