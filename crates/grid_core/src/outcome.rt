//! What one access does in the cache of one cell.

ghost use Rattle.std.specs.Prelude.{◌≡◌, ◌<◌, ◌≤◌, not, ◌&&◌, nat_lt, if◌then◌else◌};
ghost use Rattle.std.specs.Prelude.{Some, None, map};
ghost use Rattle.std.specs.List.{All};
ghost use Rattle.cache_core.specs.History.{History, is_write};
ghost use Rattle.cache_core.specs.declared.access.Access.{Access};
ghost use Rattle.cache_core.specs.Kinds.{kind_by};
ghost use Rattle.cache_core.specs.Parts.{outcome_of};
ghost use Rattle.grid_core.specs.Ways.{with_ways};
ghost use Rattle.grid_core.specs.Standing.{HasMoved, found_in, rules_of_rows};
ghost use Rattle.grid_core.specs.Cells.{IsPlacedAmong, IsPlacedOn, KnowsPrior, shape_rules};
ghost use Rattle.grid_core.specs.Hits.{hit_made};

use crate::cells::Shape;
use crate::shadows::PriorLevel;
use crate::stack::Stack;
use cache_core::{MissKind, Outcome};

/// The outcome before any access.
pub(crate) fn no_outcome() -> Outcome {
    Outcome {
        hit: false,
        kind: None,
        back: None,
        fetch: false,
        through: false,
    }
}

/// Why an access misses, if it does, in the cache whose size has this rank.
fn kind_in(hit: bool, prior: PriorLevel, rank: usize) -> Option<MissKind>
    ensures { result ≡ (if hit then None
        else Some (kind_by prior.known (not (nat_lt rank prior.level)))) }
{
    if hit {
        None
    } else {
        Some(prior.at(rank).kind())
    }
}

/// The first byte of the block that the cache of `ways` ways wrote back at the last access, if any.
fn back_in(stack: &Stack, ways: usize, hit: bool) -> Option<u64>
    requires some { 0 < ways }
    requires fits { ways ≤ (rules_of_rows stack.now).assoc }
    ensures { (h : History) (x : Access) → HasMoved h x stack.now →
        hit ≡ nat_lt (found_in stack.now) ways →
        (outcome_of (with_ways ways (rules_of_rows stack.now)) h x).back ≡ result }
{
    if hit {
        return None;
    }
    stack.back(ways)
}

/// Whether a write is sent on, where writes allocate.
pub(crate) fn sends_on(write: bool, wback: bool) -> bool
    ensures { result ≡ (write && not wback) }
{
    write && !wback
}

/// The outcome of the last access in the cache of this shape, by whether it was a write, and what
/// was known of its block.
fn outcome_in(stack: &Stack, shape: Shape, write: bool, prior: PriorLevel) -> Outcome
    requires { IsPlacedOn (rules_of_rows stack.now) shape }
    ensures hit { result.hit ≡ nat_lt (found_in stack.now) shape.ways }
    ensures is { (h : History) (x : Access) → HasMoved h x stack.now → write ≡ is_write x →
        KnowsPrior shape h x prior → result ≡ outcome_of (shape_rules shape) h x }
{
    let hit = stack.position() < shape.ways;
    Outcome {
        hit,
        kind: kind_in(hit, prior, shape.rank),
        back: back_in(stack, shape.ways, hit),
        fetch: !hit,
        through: sends_on(write, stack.wback()),
    }
}

/// What the last access did in the cache of a shape, by whether it was a write, and what was known
/// of its block.
pub(crate) fn answer_in(
    shape: Shape,
    stacks: &Vec<Stack>,
    write: bool,
    prior: PriorLevel,
) -> Outcome
    requires { IsPlacedAmong (map rules_of_rows stacks.now.items) shape }
    ensures { (h : History) (x : Access) → All (HasMoved h x) stacks.now.items →
        KnowsPrior shape h x prior → write ≡ is_write x →
        result ≡ outcome_of (shape_rules shape) h x }
{
    outcome_in(&stacks[shape.stack], shape, write, prior)
}

/// The outcome of a hit.
pub(crate) fn hit_outcome(through: bool) -> Outcome
    ensures { result ≡ hit_made through }
{
    Outcome {
        hit: true,
        kind: None,
        back: None,
        fetch: false,
        through,
    }
}
