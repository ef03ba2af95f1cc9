//! Caches of their own, one after another.

ghost use Rattle.std.specs.Prelude.{◌≡◌, ◌<◌, ◌+◌, ◌∷◌, ℕ, true, map, length, IfOk, OnOk};
ghost use Rattle.std.specs.List.{All};
ghost use Rattle.cache_core.specs.declared.access.Access.{Access as Accessed};
ghost use Rattle.cache_core.specs.History.{History, Rules, access as accessed, flush as flushed};
ghost use Rattle.cache_core.specs.Parts.{SendsNothing, outcome_of};
ghost use Rattle.cache_core.specs.Standing.{IsKnown};
ghost use Rattle.grid_core.specs.Cells.{items_of};
ghost use Rattle.grid_core.specs.Places.{IsPlace, shadow_placed};
ghost use Rattle.grid_core.specs.Shades.{ShadeHasHit, shade_rules};
ghost use Rattle.grid_core.specs.Shading.{IsShaded, StackedFollowed, hits_in};
ghost use Rattle.grid_core.specs.Singles.{FitDirtyWays, HasSettled, IsPending, SingleHasAnswered};
ghost use Rattle.grid_core.specs.Singles.{SingleReached, SingleStandsFor, single_counts};
ghost use Rattle.grid_core.specs.Singles.{single_rules, single_shading};
ghost use Rattle.grid_core.specs.StackedCells.{StackedHasAnswered, stacked_rules};
ghost use Rattle.grid_core.specs.Written.{written_by};

use crate::places::Place;
use crate::shade::Shade;
use crate::single::Single;
use crate::stacked::Stacked;
use cache_core::{Access, MAX_EVENTS, Prior};
use std::alloc::{AllocError, Global};

/// Serves an access in all caches. It is not counted yet.
pub(crate) fn serve_all(singles: &mut Vec<Single>, access: Access) -> Result<(), AllocError>
    requires { (n : ℕ) × All (HasSettled n) singles.old.items }
    ensures reached { OnOk result ((h : History) → All (SingleStandsFor h) singles.old.items →
        All (SingleReached h access) singles.new.items) }
    ensures pending { OnOk result ((n : ℕ) → All (HasSettled n) singles.old.items →
        All (IsPending n) singles.new.items) }
    ensures counts { map single_counts singles.new.items ≡ map single_counts singles.old.items }
    ensures rules { map single_rules singles.new.items ≡ map single_rules singles.old.items }
    ensures shading { map single_shading singles.new.items
        ≡ map single_shading singles.old.items }
{
    for single in singles.iter_mut() {
        single.serve(access)?;
    }
    Ok(())
}

/// Whether the shadow at a place had the block of the last access.
fn shadow_had(stacked: &Stacked, shades: &Vec<Shade>, place: Place) -> bool
    requires { IsPlace (length (stacked_rules stacked.now))
        (length (map shade_rules shades.now.items)) place }
    ensures { (h : History) (x : Accessed) → StackedHasAnswered stacked.now h x →
        All (ShadeHasHit h x) shades.now.items → result ≡ hits_in h x
        (shadow_placed (stacked_rules stacked.now) (map shade_rules shades.now.items) place) }
{
    match place {
        Place::Together(index) => stacked.shadow_had(index),
        Place::Apart(index) => shades[index].hit(),
    }
}

/// What was known of the block of the last access, for a cache whose shadow is at this place.
fn prior_at(stacked: &Stacked, shades: &Vec<Shade>, place: Place) -> Prior
    requires some { 0 < length (stacked_rules stacked.now) }
    requires there { IsPlace (length (stacked_rules stacked.now))
        (length (map shade_rules shades.now.items)) place }
    ensures { (h : History) (x : Accessed) → StackedHasAnswered stacked.now h x →
        All (ShadeHasHit h x) shades.now.items → (r : Rules) → IsShaded
        (stacked_rules stacked.now) (map shade_rules shades.now.items) (place, r) →
        IsKnown r h x result }
{
    Prior {
        referenced: stacked.knew(),
        in_shadow: shadow_had(stacked, shades, place),
    }
}

/// Counts the access that all caches served last.
pub(crate) fn settle_all(
    singles: &mut Vec<Single>,
    stacked: &Stacked,
    shades: &Vec<Shade>,
    access: Access,
)
    requires pending { (n : ℕ) × All (IsPending n) singles.old.items × (n < MAX_EVENTS) }
    requires shaded { All (IsShaded (stacked_rules stacked.now) (map shade_rules shades.now.items))
        (map single_shading singles.old.items) }
    ensures stands { (h : History) → All (SingleReached h access) singles.old.items →
        StackedFollowed h access stacked.now → All (ShadeHasHit h access) shades.now.items →
        All (SingleStandsFor (accessed access ∷ h)) singles.new.items }
    ensures answers { (h : History) → All (SingleReached h access) singles.old.items →
        StackedFollowed h access stacked.now → All (ShadeHasHit h access) shades.now.items →
        All (SingleHasAnswered h access) singles.new.items }
    ensures settled { (n : ℕ) → All (IsPending n) singles.old.items →
        All (HasSettled (n + 1)) singles.new.items }
    ensures rules { map single_rules singles.new.items ≡ map single_rules singles.old.items }
    ensures shading { map single_shading singles.new.items
        ≡ map single_shading singles.old.items }
{
    for single in singles.iter_mut() {
        let prior = prior_at(stacked, shades, single.shadow());
        single.settle(access, prior);
    }
}

/// What a flush writes back in each cache.
pub(crate) fn lists_all(alloc: Global, singles: &Vec<Single>) -> Result<Vec<Vec<u64>>, AllocError>
    ensures lists { IfOk result (λ lists. (h : History) →
        All (SingleStandsFor h) singles.now.items →
        map items_of lists.items ≡ map (written_by h) (map single_rules singles.now.items)) }
    ensures few { IfOk result (λ lists. FitDirtyWays lists.items singles.now.items) }
    ensures len { IfOk result (λ lists. length lists.items ≡ length singles.now.items) }
{
    let mut lists = Vec::new(alloc);
    for single in singles.iter() {
        let list = single.dirty()?;
        lists.push(list)?;
    }
    Ok(lists)
}

/// Lets all blocks go, and counts a flush that wrote these lists back.
pub(crate) fn clear_all(singles: &mut Vec<Single>, lists: &Vec<Vec<u64>>)
    requires step { (n : ℕ) × All (HasSettled n) singles.old.items × (n < MAX_EVENTS) }
    requires few { FitDirtyWays lists.now.items singles.old.items }
    requires len { length lists.now.items ≡ length singles.old.items }
    ensures stands { (h : History) → All (SingleStandsFor h) singles.old.items →
        map items_of lists.now.items ≡ map (written_by h) (map single_rules singles.old.items) →
        All (SingleStandsFor (flushed ∷ h)) singles.new.items }
    ensures settled { (n : ℕ) → All (HasSettled n) singles.old.items →
        All (HasSettled (n + 1)) singles.new.items }
    ensures rules { map single_rules singles.new.items ≡ map single_rules singles.old.items }
    ensures shading { map single_shading singles.new.items
        ≡ map single_shading singles.old.items }
{
    for (index, single) in singles.iter_mut().enumerate() {
        single.clear(lists[index].len() as u64);
    }
}

/// Whether the last access sent nothing to the next level in any of these caches.
pub(crate) fn none_sent(singles: &[Single]) -> bool
    ensures { result ≡ true → (h : History) (x : Access) →
        All (SingleHasAnswered h x) singles.now →
        All (λ s. SendsNothing (outcome_of (single_rules s) h x)) singles.now }
{
    for single in singles {
        if !single.sent_nothing() {
            return false;
        }
    }
    true
}
