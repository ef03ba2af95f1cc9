//! The second levels of shelves.

ghost use Rattle.std.specs.Prelude.{◌≡◌, ◌<◌, ◌≤◌, ◌∷◌, [], IfOk, get_or, length, map, take};
ghost use Rattle.cache_core.specs.Geometry.{bsize_of};
ghost use Rattle.grid_core.specs.Standing.{stack_rules};
ghost use Rattle.grid_run.specs.Alike.{AreAlike, IsBackFor};
ghost use Rattle.grid_run.specs.Backs.{seats_of_task, task_of_shelf};
ghost use Rattle.grid_run.specs.Seats.{rules_on};

use crate::back::Back;
use crate::family::Family;
use crate::lists::made_for_each;
use crate::plan::BackShelf;
use crate::seat::BothSeats;
use crate::second_caches::SecondCaches;
use crate::twins::Twins;
use cache_core::{Geometry, NoMemory};
use shared_list::MAX_USERS;
use std::alloc::Global;

/// The seats in front of the second levels of these shelves.
fn seats_for(alloc: Global, shelves: &[BackShelf]) -> Result<Vec<BothSeats>, NoMemory>
    ensures { IfOk result (λ seats. seats.items
        ≡ map (λ (shelf : BackShelf). seats_of_task (task_of_shelf shelf)) shelves.now) }
{
    made_for_each!(alloc, shelves, shelf => shelf.seats())
}

/// How many of these shelves, from the first one on, are alike, but for the cells in front of them.
/// They are as many as can share a queue, at most.
fn count_alike(shelves: &[BackShelf]) -> usize
    requires { 0 < length shelves.now }
    ensures some { 0 < result }
    ensures few { result ≤ 32 }
    ensures inside { result ≤ length shelves.now }
    ensures alike { AreAlike (take result shelves.now) }
{
    let mut count = 1;
    'alike: while count < shelves.len()
        && count < MAX_USERS
        && shelves[0].is_like(&shelves[count])
    {
        count += 1;
    }
    count
}

/// The empty caches of shelves that are alike, each of which has this geometry alone.
fn twins_for(alloc: Global, shelves: &[BackShelf], geometry: Geometry) -> Result<Back, NoMemory>
    requires some { 0 < length shelves.now }
    requires few { length shelves.now ≤ 32 }
    requires alike { AreAlike shelves.now }
    requires rules { (d : BackShelf) → let s = get_or shelves.now 0 d in
        rules_on s.shelf ≡ stack_rules geometry s.shelf.policy.wback ∷ [] }
    requires bsize { (d : BackShelf) →
        bsize_of geometry ≡ bsize_of (get_or shelves.now 0 d).shelf.first }
    ensures { IfOk result (IsBackFor shelves.now) }
{
    let shelf = &shelves[0].shelf;
    let twins = Twins::new(alloc, geometry, shelf.policy().wback, shelves.len())?;
    let users = seats_for(alloc, shelves)?;
    let caches = SecondCaches::Twins(twins);
    Ok(Back::new(shelf.first(), users, caches, alloc))
}

/// The empty caches of one shelf.
fn family_for(alloc: Global, shelves: &[BackShelf]) -> Result<Back, NoMemory>
    requires { length shelves.now ≡ 1 }
    ensures { IfOk result (IsBackFor shelves.now) }
{
    let shelf = &shelves[0].shelf;
    let family = Family::new(alloc, shelf)?;
    let users = seats_for(alloc, shelves)?;
    let caches = SecondCaches::Family(family);
    Ok(Back::new(shelf.first(), users, caches, alloc))
}

/// The empty second levels of the first of these shelves, and of those behind it that can share a
/// queue with it.
pub(crate) fn back_for(alloc: Global, shelves: &[BackShelf]) -> Result<Back, NoMemory>
    requires some { 0 < length shelves.now }
    ensures some { IfOk result (λ back. 0 < length back.users.items) }
    ensures inside { IfOk result (λ back. length back.users.items ≤ length shelves.now) }
    ensures back { IfOk result (λ back.
        IsBackFor (take (length back.users.items) shelves.now) back) }
{
    let Some(geometry) = shelves[0].shelf.lone() else {
        return family_for(alloc, &shelves[..1]);
    };
    twins_for(alloc, &shelves[..count_alike(shelves)], geometry)
}
