//! The caches of an engine: those that are served together, and those of their own.

ghost use Rattle.std.specs.Prelude.{◌≡◌, ◌<◌, ◌≤◌, ◌+◌, ◌∷◌, ℕ, List, false, length, map};
ghost use Rattle.std.specs.Prelude.{IfOk, OnOk, OnErr};
ghost use Rattle.cache_core.specs.History.{History, access as accessed, flush as flushed};
ghost use Rattle.grid_core.specs.Cells.{items_of};
ghost use Rattle.std.specs.List.{All};
ghost use Rattle.grid_core.specs.Numbers.{IsNumberIn};
ghost use Rattle.grid_core.specs.Shades.{shade_rules};
ghost use Rattle.grid_core.specs.Shading.{FollowsStacked, StackedFollowed, IsShaded};
ghost use Rattle.grid_core.specs.Singles.{single_shading};
ghost use Rattle.grid_core.specs.StackedCells.{StackedKeepsCounts, stacked_rules};
ghost use Rattle.grid_core.specs.StackedCells.{stacked_served};
ghost use Rattle.grid_core.specs.Written.{written_by};

use crate::places::{Place, Seat, lists_of};
use crate::shade::Shade;
use crate::shades::{clear_shades, serve_shades, settle_shades};
use crate::single::Single;
use crate::singles::{clear_all, lists_all, none_sent, serve_all, settle_all};
use crate::stacked::Stacked;
use cache_core::{Access, Counts, MAX_EVENTS, Outcome, PerClass};
use std::alloc::{AllocError, Global};

/// Caches of one policy: those that are served together, and those of their own. Where there are
/// any of the latter, one of the former tells them which blocks were accessed before. Their shadows
/// are those of the former too, or where writes do not allocate, caches for that alone.
#[derive(Drop)]
pub(crate) struct Caches {
    pub stacked: Stacked,
    pub shades: Vec<Shade>,
    pub singles: Vec<Single>,
    ghost shaded: { All (IsShaded (stacked_rules stacked) (map shade_rules shades.items))
        (map single_shading singles.items) },
}

/// Serves an access, whose block has this number, in the caches that are served together, if there
/// are any.
fn serve_stacked(stacked: &mut Stacked, access: Access, number: usize) -> Result<(), AllocError>
    requires { stacked_served stacked.old < MAX_EVENTS }
    ensures stands { OnOk result ((blocks : List ℕ) (h : History) →
        IsNumberIn blocks (stacked_rules stacked.old) access number →
        FollowsStacked blocks h stacked.old →
        FollowsStacked blocks (accessed access ∷ h) stacked.new) }
    ensures answers { OnOk result ((blocks : List ℕ) (h : History) →
        IsNumberIn blocks (stacked_rules stacked.old) access number →
        FollowsStacked blocks h stacked.old → StackedFollowed h access stacked.new) }
    ensures served { OnOk result (stacked_served stacked.new ≤ stacked_served stacked.old + 1) }
    ensures keeps { OnErr result (StackedKeepsCounts stacked.new stacked.old) }
    ensures rules { stacked_rules stacked.new ≡ stacked_rules stacked.old }
{
    if stacked.cells() == 0 {
        return Ok(());
    }
    stacked.access(access, number)
}

/// What a flush writes back in each of the caches that are served together.
fn written_stacked(stacked: &Stacked) -> Result<Vec<Vec<u64>>, AllocError>
    ensures lists { IfOk result (λ lists. (blocks : List ℕ) (h : History) →
        FollowsStacked blocks h stacked.now →
        map items_of lists.items ≡ map (written_by h) (stacked_rules stacked.now)) }
    ensures len { IfOk result (λ lists. length lists.items ≡ length (stacked_rules stacked.now)) }
{
    stacked.written()
}

/// Flushes the caches that are served together, if there are any.
fn flush_stacked(stacked: &mut Stacked)
    requires few { stacked_served stacked.old < MAX_EVENTS }
    ensures stands { (blocks : List ℕ) (h : History) → FollowsStacked blocks h stacked.old →
        FollowsStacked blocks (flushed ∷ h) stacked.new }
    ensures served { stacked_served stacked.new ≤ stacked_served stacked.old + 1 }
    ensures rules { stacked_rules stacked.new ≡ stacked_rules stacked.old }
{
    if stacked.cells() == 0 {
        return;
    }
    stacked.flush();
}

impl Caches {
    ghost use Rattle.std.specs.Prelude.{◌≡◌, ◌<◌, ◌+◌, ◌∷◌, List, ℕ, true, length, map};
    ghost use Rattle.std.specs.Prelude.{IfOk, OnOk, OnErr};
    ghost use Rattle.std.specs.List.{All};
    ghost use Rattle.cache_core.specs.History.{History, access as accessed, flush as flushed};
    ghost use Rattle.cache_core.specs.Counts.{counts_of};
    ghost use Rattle.cache_core.specs.Parts.{SendsNothing, outcome_of};
    ghost use Rattle.grid_core.specs.Cells.{items_of};
    ghost use Rattle.grid_core.specs.Caches.{AreInStep, CachesStandBy, HasCacheAt, HasShadowAt};
    ghost use Rattle.grid_core.specs.Caches.{HaveAnswered, HaveSameCounts, HaveSameRules};
    ghost use Rattle.grid_core.specs.Caches.{apart_rules, counts_in, misses_in, shades_rules};
    ghost use Rattle.grid_core.specs.Caches.{together_rules};
    ghost use Rattle.grid_core.specs.Numbers.{IsNumberIn};
    ghost use Rattle.grid_core.specs.Places.{rules_placed, shadow_placed};
    ghost use Rattle.grid_core.specs.Singles.{FitDirtyWays};
    ghost use Rattle.grid_core.specs.Written.{written_by};

    /// Serves an access, whose block has this number, where some caches are of their own. What can
    /// fail comes first, and only then is it counted. Not inlined, so that caches that are all
    /// served together take less code.
    #[inline(never)]
    fn access_each(&mut self, access: Access, number: usize) -> Result<(), AllocError>
        requires { (n : ℕ) × AreInStep n self.old × (n < MAX_EVENTS) }
        ensures stands { OnOk result ((blocks : List ℕ) (h : History) →
            IsNumberIn blocks (together_rules self.old) access number →
            CachesStandBy blocks h self.old →
            CachesStandBy blocks (accessed access ∷ h) self.new) }
        ensures answers { OnOk result ((blocks : List ℕ) (h : History) →
            IsNumberIn blocks (together_rules self.old) access number →
            CachesStandBy blocks h self.old → HaveAnswered h access self.new) }
        ensures step { OnOk result ((n : ℕ) → AreInStep n self.old →
            AreInStep (n + 1) self.new) }
        ensures keeps { OnErr result (HaveSameCounts self.new self.old) }
        ensures rules { HaveSameRules self.new self.old }
    {
        serve_all(&mut self.singles, access)?;
        serve_shades(&mut self.shades, access)?;
        serve_stacked(&mut self.stacked, access, number)?;
        settle_shades(&mut self.shades, access);
        settle_all(&mut self.singles, &self.stacked, &self.shades, access);
        Ok(())
    }

    /// Serves an access, whose block has this number, in all caches.
    pub fn access(&mut self, access: Access, number: usize) -> Result<(), AllocError>
        requires { (n : ℕ) × AreInStep n self.old × (n < MAX_EVENTS) }
        ensures stands { OnOk result ((blocks : List ℕ) (h : History) →
            IsNumberIn blocks (together_rules self.old) access number →
            CachesStandBy blocks h self.old →
            CachesStandBy blocks (accessed access ∷ h) self.new) }
        ensures answers { OnOk result ((blocks : List ℕ) (h : History) →
            IsNumberIn blocks (together_rules self.old) access number →
            CachesStandBy blocks h self.old → HaveAnswered h access self.new) }
        ensures step { OnOk result ((n : ℕ) → AreInStep n self.old →
            AreInStep (n + 1) self.new) }
        ensures keeps { OnErr result (HaveSameCounts self.new self.old) }
        ensures rules { HaveSameRules self.new self.old }
    {
        if self.shades.is_empty() && self.singles.is_empty() {
            return serve_stacked(&mut self.stacked, access, number);
        }
        self.access_each(access, number)
    }

    /// Serves an access the short way, if all caches are served together: see `Stacked::again`.
    #[inline(always)]
    pub fn again(&mut self, access: Access) -> bool
        requires { (n : ℕ) × AreInStep n self.old × (n < MAX_EVENTS) }
        ensures stands { result ≡ true → (blocks : List ℕ) (h : History) →
            CachesStandBy blocks h self.old →
            CachesStandBy blocks (accessed access ∷ h) self.new }
        ensures answers { result ≡ true → (blocks : List ℕ) (h : History) →
            CachesStandBy blocks h self.old → HaveAnswered h access self.new }
        ensures silent { result ≡ true → (h : History) (x : Access) → HaveAnswered h x self.new →
            (place : Place) → HasCacheAt self.new place → SendsNothing (outcome_of
            (rules_placed (together_rules self.new) (apart_rules self.new) place) h x) }
        ensures step { result ≡ true → (n : ℕ) → AreInStep n self.old →
            AreInStep (n + 1) self.new }
        ensures leaves { result ≡ false → self.new ≡ self.old }
        ensures rules { HaveSameRules self.new self.old }
    {
        if !self.shades.is_empty() || !self.singles.is_empty() || self.stacked.cells() == 0 {
            return false;
        }
        self.stacked.again(access)
    }

    /// Lets all blocks go, and counts a flush. Those of their own write these lists back.
    fn clear(&mut self, apart: &Vec<Vec<u64>>)
        requires step { (n : ℕ) × AreInStep n self.old × (n < MAX_EVENTS) }
        requires few { FitDirtyWays apart.now.items self.old.singles.items }
        requires len { length apart.now.items ≡ length self.old.singles.items }
        ensures stands { (blocks : List ℕ) (h : History) → CachesStandBy blocks h self.old →
            map items_of apart.now.items ≡ map (written_by h) (apart_rules self.old) →
            CachesStandBy blocks (flushed ∷ h) self.new }
        ensures step { (n : ℕ) → AreInStep n self.old → AreInStep (n + 1) self.new }
        ensures rules { HaveSameRules self.new self.old }
    {
        flush_stacked(&mut self.stacked);
        clear_shades(&mut self.shades);
        clear_all(&mut self.singles, apart);
    }

    /// Empties all caches, and answers for each seat what its cache writes back. What can fail
    /// comes first, and only then is it counted.
    pub fn flush(&mut self, alloc: Global, seats: &Vec<Seat>) -> Result<Vec<Vec<u64>>, AllocError>
        requires step { (n : ℕ) × AreInStep n self.old × (n < MAX_EVENTS) }
        requires seats { All (λ s. HasCacheAt self.old s.cell) seats.now.items }
        ensures lists { IfOk result (λ lists. (blocks : List ℕ) (h : History) →
            CachesStandBy blocks h self.old →
            map items_of lists.items ≡ map (λ s. written_by h (rules_placed
            (together_rules self.old) (apart_rules self.old) s.cell)) seats.now.items) }
        ensures stands { OnOk result ((blocks : List ℕ) (h : History) →
            CachesStandBy blocks h self.old → CachesStandBy blocks (flushed ∷ h) self.new) }
        ensures step { OnOk result ((n : ℕ) → AreInStep n self.old →
            AreInStep (n + 1) self.new) }
        ensures keeps { OnErr result (HaveSameCounts self.new self.old) }
        ensures rules { HaveSameRules self.new self.old }
    {
        let apart = lists_all(alloc, &self.singles)?;
        let together = written_stacked(&self.stacked)?;
        let lists = lists_of(alloc, seats, &together, &apart)?;
        self.clear(&apart);
        Ok(lists)
    }

    /// Empties all caches as `flush` does, and lists only what those of their own write back, which
    /// they count by these lists.
    pub fn flush_unlisted(&mut self, alloc: Global) -> Result<(), AllocError>
        requires { (n : ℕ) × AreInStep n self.old × (n < MAX_EVENTS) }
        ensures stands { OnOk result ((blocks : List ℕ) (h : History) →
            CachesStandBy blocks h self.old → CachesStandBy blocks (flushed ∷ h) self.new) }
        ensures step { OnOk result ((n : ℕ) → AreInStep n self.old →
            AreInStep (n + 1) self.new) }
        ensures keeps { OnErr result (HaveSameCounts self.new self.old) }
        ensures rules { HaveSameRules self.new self.old }
    {
        let apart = lists_all(alloc, &self.singles)?;
        self.clear(&apart);
        Ok(())
    }

    /// The counts at a place.
    pub fn counts(&self, place: Place) -> Counts
        requires { HasCacheAt self.now place }
        ensures kept { result ≡ counts_in self.now place }
        ensures counted { (blocks : List ℕ) (h : History) → CachesStandBy blocks h self.now →
            result ≡ counts_of (rules_placed (together_rules self.now) (apart_rules self.now)
            place) h }
    {
        match place {
            Place::Together(index) => self.stacked.counts(index),
            Place::Apart(index) => self.singles[index].counts(),
        }
    }

    /// The misses of the shadow at a place.
    pub fn shadow_misses(&self, place: Place) -> PerClass
        requires { HasShadowAt self.now place }
        ensures kept { result ≡ misses_in self.now place }
        ensures counted { (blocks : List ℕ) (h : History) → CachesStandBy blocks h self.now →
            result ≡ (counts_of (shadow_placed (together_rules self.now) (shades_rules self.now)
            place) h).misses }
    {
        match place {
            Place::Together(index) => self.stacked.shadow_misses(index),
            Place::Apart(index) => self.shades[index].misses(),
        }
    }

    /// Whether the last access sent nothing to the next level at any place, as far as is known.
    pub fn sent_nothing(&self) -> bool
        ensures { result ≡ true → (h : History) (x : Access) → HaveAnswered h x self.now →
            (place : Place) → HasCacheAt self.now place → SendsNothing (outcome_of
            (rules_placed (together_rules self.now) (apart_rules self.now) place) h x) }
    {
        if !self.stacked.sent_nothing() {
            return false;
        }
        none_sent(&self.singles)
    }

    /// What the last access did at a place.
    pub fn answer(&self, place: Place) -> Outcome
        requires { HasCacheAt self.now place }
        ensures { (h : History) (x : Access) → HaveAnswered h x self.now →
            result ≡ outcome_of (rules_placed (together_rules self.now) (apart_rules self.now)
            place) h x }
    {
        match place {
            Place::Together(index) => self.stacked.answer(index),
            Place::Apart(index) => self.singles[index].answer(),
        }
    }
}
