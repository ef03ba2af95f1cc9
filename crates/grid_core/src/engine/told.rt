//! What the caches of an engine have counted, and what the last access did in them.

use crate::engine::Engine;
use cache_core::{Counts, Outcome, PerClass};

#[tactic(auto, unfolding(crate::specs::Engines::engine_rules, crate::specs::Engines::engine_counts, crate::specs::Engines::engine_shadow_misses))]
impl Engine {
    ghost use Rattle.std.specs.Prelude.{◌≡◌, ◌<◌, ℕ, List, true, get_or, length};
    ghost use Rattle.cache_core.specs.declared.access.Access.{Access};
    ghost use Rattle.cache_core.specs.History.{History};
    ghost use Rattle.cache_core.specs.Parts.{SendsNothing, outcome_of};
    ghost use Rattle.cache_core.specs.Counts.{counts_of, no_counts, none_by_class};
    ghost use Rattle.grid_core.specs.FullyAssociative.{shadow_misses};
    ghost use Rattle.grid_core.specs.Engines.{EngineHasAnswered, EngineStandsBy, engine_counts};
    ghost use Rattle.grid_core.specs.Engines.{engine_rules, engine_shadow_misses};
    ghost use Rattle.grid_core.specs.Written.{rules_at_index};

    /// The counts of one cache. For caches that are served together they are worked out from
    /// tables and all rows: ask for them at the end, and not after each access.
    pub fn counts(&self, index: usize) -> Counts
        requires { index < length (engine_rules self.now) }
        ensures kept { result ≡ get_or (engine_counts self.now) index no_counts }
        ensures counted { (blocks : List ℕ) (h : History) → EngineStandsBy blocks self.now h →
            result ≡ counts_of (rules_at_index (engine_rules self.now) index) h }
    {
        self.caches.counts(self.seats[index].cell)
    }

    /// The fully associative misses of one cache.
    pub fn shadow_misses(&self, index: usize) -> PerClass
        requires { index < length (engine_rules self.now) }
        ensures kept { result ≡ get_or (engine_shadow_misses self.now) index none_by_class }
        ensures counted { (blocks : List ℕ) (h : History) → EngineStandsBy blocks self.now h →
            result ≡ shadow_misses (rules_at_index (engine_rules self.now) index) h }
    {
        self.caches.shadow_misses(self.seats[index].shadow)
    }

    /// Whether the last access, if no flush came after it, sent nothing to the next level in any
    /// cache: it wrote nothing back, fetched nothing and is no write that is sent on. May be
    /// `false` though nothing was sent.
    pub fn sent_nothing(&self) -> bool
        ensures { result ≡ true → (h : History) (x : Access) → EngineHasAnswered self.now h x →
            (index : ℕ) → index < length (engine_rules self.now) →
            SendsNothing (outcome_of (rules_at_index (engine_rules self.now) index) h x) }
    {
        self.caches.sent_nothing()
    }

    /// What the last access did in one cache, if no flush came after it.
    pub fn answer(&self, index: usize) -> Outcome
        requires { index < length (engine_rules self.now) }
        ensures { (h : History) (x : Access) → EngineHasAnswered self.now h x →
            result ≡ outcome_of (rules_at_index (engine_rules self.now) index) h x }
    {
        self.caches.answer(self.seats[index].cell)
    }
}
