//! A cache of its own: one that no stack order serves.

ghost use Rattle.std.specs.Prelude.{◌≡◌, ◌≤◌, ◌+◌, true, if◌then◌else◌, is_some};
ghost use Rattle.cache_core.specs.Counting.{AreWithin};
ghost use Rattle.cache_core.specs.Parts.{one_if};
ghost use Rattle.cache_core.specs.Standing.{dirty_held};

use crate::outcome::no_outcome;
use crate::places::Place;
use cache_core::{Access, Contents, Counts, Geometry, MAX_EVENTS, Outcome, Policy, Prior, Served};
use std::alloc::{AllocError, Global};

/// The blocks of a cache, and what it counted up to the last event that all caches of its engine
/// served. So the counts stay as they were if another cache is refused memory at the same event.
#[derive(Drop)]
pub(crate) struct Single {
    contents: Contents,
    /// The place of its shadow.
    shadow: Place,
    counts: Counts,
    /// What its sets answered to the last access, which may be `pending`: not counted yet.
    served: Served,
    pending: bool,
    answer: Outcome,
    settled: u64,
    ghost bounded: { AreWithin counts settled },
    ghost charged: { counts.written_back + (if pending then one_if (is_some served.back) else 0)
        + dirty_held contents ≤ settled + one_if pending },
}

#[tactic(auto, unfolding(crate::specs::Singles::HasSettled, crate::specs::Singles::IsPending))]
impl Single {
    ghost use Rattle.std.specs.Prelude.{◌≡◌, ◌<◌, ◌≤◌, ◌+◌, ◌∷◌, ℕ, true, [], IfOk, OnOk};
    ghost use Rattle.std.specs.Prelude.{length};
    ghost use Rattle.cache_core.specs.History.{History, access as accessed, flush as flushed};
    ghost use Rattle.cache_core.specs.Standing.{IsKnown, rules_from};
    ghost use Rattle.cache_core.specs.Counts.{counts_of};
    ghost use Rattle.cache_core.specs.Parts.{SendsNothing, outcome_of};
    ghost use Rattle.grid_core.specs.Singles.{SingleStandsFor, SingleReached, SingleHasAnswered};
    ghost use Rattle.grid_core.specs.Singles.{HasSettled, IsPending, single_rules, single_counts};
    ghost use Rattle.grid_core.specs.Singles.{single_dirty};
    ghost use Rattle.grid_core.specs.Written.{written_by};

    /// An empty cache, whose shadow is at this place.
    pub fn new(
        alloc: Global,
        geometry: Geometry,
        policy: Policy,
        shadow: Place,
    ) -> Result<Single, AllocError>
        ensures stands { IfOk result (λ single. SingleStandsFor [] single) }
        ensures rules { IfOk result (λ single. single_rules single ≡ rules_from geometry policy) }
        ensures shadow { IfOk result (λ single. single.shadow ≡ shadow) }
        ensures settled { IfOk result (λ single. HasSettled 0 single) }
    {
        let Ok(contents) = Contents::new(alloc, geometry, policy) else {
            return Err(AllocError);
        };
        Ok(Single {
            contents,
            shadow,
            counts: Counts::default(),
            served: Served {
                hit: false,
                back: None,
            },
            pending: false,
            answer: no_outcome(),
            settled: 0,
        })
    }

    /// Serves one access. It is not counted before `settle`.
    pub fn serve(&mut self, access: Access) -> Result<(), AllocError>
        requires { (n : ℕ) × HasSettled n self.old }
        ensures reached { OnOk result ((h : History) → SingleStandsFor h self.old →
            SingleReached h access self.new) }
        ensures pending { OnOk result ((n : ℕ) → HasSettled n self.old → IsPending n self.new) }
        ensures counts { single_counts self.new ≡ single_counts self.old }
        ensures rules { single_rules self.new ≡ single_rules self.old }
        ensures shadow { self.new.shadow ≡ self.old.shadow }
    {
        let Ok(served) = self.contents.serve(access) else {
            return Err(AllocError);
        };
        self.served = served;
        self.pending = true;
        Ok(())
    }

    /// Counts the access that was served last, by what was known of its block before.
    pub fn settle(&mut self, access: Access, prior: Prior)
        requires { (n : ℕ) × IsPending n self.old × (n < MAX_EVENTS) }
        ensures stands { (h : History) → SingleReached h access self.old →
            IsKnown (single_rules self.old) h access prior →
            SingleStandsFor (accessed access ∷ h) self.new }
        ensures answer { (h : History) → SingleReached h access self.old →
            IsKnown (single_rules self.old) h access prior → SingleHasAnswered h access self.new }
        ensures settled { (n : ℕ) → IsPending n self.old → HasSettled (n + 1) self.new }
        ensures rules { single_rules self.new ≡ single_rules self.old }
        ensures shadow { self.new.shadow ≡ self.old.shadow }
    {
        let outcome = self.contents.outcome(access, self.served, prior);
        self.counts.add_access(access, outcome);
        self.answer = outcome;
        self.pending = false;
        self.settled += 1;
    }

    /// The first bytes of its dirty blocks, in rising order: what a flush writes back.
    pub fn dirty(&self) -> Result<Vec<u64>, AllocError>
        ensures list { IfOk result (λ list. (h : History) → SingleStandsFor h self.now →
            list.items ≡ written_by h (single_rules self.now)) }
        ensures few { IfOk result (λ list. length list.items ≤ single_dirty self.now) }
    {
        let Ok(list) = self.contents.dirty() else {
            return Err(AllocError);
        };
        Ok(list)
    }

    /// Lets all blocks go, and counts a flush that wrote so many back.
    pub fn clear(&mut self, written: u64)
        requires step { (n : ℕ) × HasSettled n self.old × (n < MAX_EVENTS) }
        requires few { written ≤ single_dirty self.old }
        ensures stands { (h : History) → SingleStandsFor h self.old →
            written ≡ length (written_by h (single_rules self.old)) →
            SingleStandsFor (flushed ∷ h) self.new }
        ensures settled { (n : ℕ) → HasSettled n self.old → HasSettled (n + 1) self.new }
        ensures rules { single_rules self.new ≡ single_rules self.old }
        ensures shadow { self.new.shadow ≡ self.old.shadow }
    {
        self.counts.add_flush(written);
        self.contents.clear();
        self.settled += 1;
    }

    /// The place of its shadow.
    pub fn shadow(&self) -> Place
        ensures { result ≡ self.now.shadow }
    {
        self.shadow
    }

    /// The counts.
    pub fn counts(&self) -> Counts
        ensures kept { result ≡ single_counts self.now }
        ensures counted { (h : History) → SingleStandsFor h self.now →
            result ≡ counts_of (single_rules self.now) h }
    {
        self.counts
    }

    /// Whether the last access sent nothing to the next level.
    pub fn sent_nothing(&self) -> bool
        ensures { result ≡ true → (h : History) (x : Access) → SingleHasAnswered h x self.now →
            SendsNothing (outcome_of (single_rules self.now) h x) }
    {
        self.answer.sends_nothing()
    }

    /// What the last access did.
    pub fn answer(&self) -> Outcome
        ensures { (h : History) (x : Access) → SingleHasAnswered h x self.now →
            result ≡ outcome_of (single_rules self.now) h x }
    {
        self.answer
    }
}
