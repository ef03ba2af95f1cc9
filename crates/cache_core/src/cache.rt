//! One cache.

ghost use Rattle.std.specs.Prelude.{◌≡◌, ◌≤◌, ◌+◌};
ghost use Rattle.cache_core.specs.Counts.{AddUp};
ghost use Rattle.cache_core.specs.Geometry.{blocks_of};
ghost use Rattle.cache_core.specs.Counting.{AreWithin};
ghost use Rattle.cache_core.specs.Parts.{one_if};
ghost use Rattle.cache_core.specs.Row.{dirty_count};
ghost use Rattle.cache_core.specs.Sets.{ways_in};

use crate::access::{Access, Outcome};
use crate::contents::{Contents, NoMemory};
use crate::counts::Counts;
use crate::geometry::Geometry;
use crate::kinds::MissClassifier;
use crate::policy::Policy;
use std::alloc::Global;

/// How many accesses and flushes one cache serves at most.
pub const MAX_EVENTS: u64 = 1 << 44;

/// A cache that serves accesses and flushes, one by one. After a failed allocation, every later
/// access or flush answers `NoMemory`.
#[derive(Drop)]
pub struct Cache {
    contents: Contents,
    classifier: MissClassifier,
    counts: Counts,
    served: u64,
    failed: bool,
    ghost shadow_room: { classifier.shadow.cap ≡ blocks_of contents.geometry },
    ghost bounded: { AreWithin counts served },
    ghost sums: { AddUp counts.misses counts.compulsory counts.capacity counts.conflict },
    ghost charged: { counts.written_back + dirty_count (ways_in contents.sets)
        ≤ served + one_if failed },
}

#[tactic(auto, unfolding(crate::specs::Standing::rules_of, crate::specs::Standing::served_of, crate::specs::Standing::counts_kept, crate::specs::Standing::has_failed))]
impl Cache {
    ghost use Rattle.std.specs.Prelude.{◌≡◌, ◌<◌, ◌≤◌, ◌+◌, ◌*◌, ◌^◌, ◌++◌, map, length, []};
    ghost use Rattle.std.specs.Prelude.{◌∷◌, true, false, IfOk, OnOk, OnErr, IsErr};
    ghost use Rattle.cache_core.specs.History.{History, access as accessed, flush as flushed};
    ghost use Rattle.cache_core.specs.Dirty.{dirty_blocks};
    ghost use Rattle.cache_core.specs.Parts.{outcome_of};
    ghost use Rattle.cache_core.specs.Counts.{counts_of, no_counts, none_by_class, KindsAddUp};
    ghost use Rattle.cache_core.specs.Standing.{StandsFor, HoldsResidents, rules_of, rules_from};
    ghost use Rattle.cache_core.specs.Standing.{served_of, counts_kept, has_failed};

    /// An empty cache, with all counts zero.
    pub fn new(alloc: Global, geometry: Geometry, policy: Policy) -> Result<Cache, NoMemory>
        ensures rules { IfOk result (λ cache. rules_of cache ≡ rules_from geometry policy) }
        ensures stands { IfOk result (λ cache. StandsFor cache []) }
        ensures counts { IfOk result (λ cache. counts_kept cache ≡ no_counts) }
        ensures served { IfOk result (λ cache. served_of cache ≡ 0) }
        ensures works { IfOk result (λ cache. has_failed cache ≡ false) }
    {
        let contents = Contents::new(alloc, geometry, policy)?;
        let Ok(classifier) = MissClassifier::new(alloc, geometry.blocks()) else {
            return Err(NoMemory);
        };
        Ok(Cache {
            contents,
            classifier,
            counts: Counts::default(),
            served: 0,
            failed: false,
        })
    }

    /// The counts of all accesses and flushes that succeeded, also after a failure.
    pub fn counts(&self) -> Counts
        ensures kept { result ≡ counts_kept self.now }
        ensures counted { (h : History) → StandsFor self.now h →
            result ≡ counts_of (rules_of self.now) h }
        ensures kinds_add_up { KindsAddUp result }
        ensures one_lru_set { (h : History) → StandsFor self.now h →
            (rules_of self.now).sets ≡ 1 → (rules_of self.now).fifo ≡ false →
            result.conflict ≡ none_by_class }
    {
        self.counts
    }

    /// How many accesses and flushes succeeded.
    pub fn served(&self) -> u64
        ensures served { result ≡ served_of self.now }
        ensures all { (h : History) → StandsFor self.now h → result ≡ length h }
    {
        self.served
    }

    /// Whether a call was refused memory.
    pub fn failed(&self) -> bool
        ensures { result ≡ has_failed self.now }
    {
        self.failed
    }

    /// Serves one access.
    /// After an error the counts are unchanged, and the cache has failed.
    pub fn access(&mut self, access: Access) -> Result<Outcome, NoMemory>
        requires { served_of self.old < MAX_EVENTS }
        ensures outcome { IfOk result (λ outcome. (h : History) → StandsFor self.old h →
            outcome ≡ outcome_of (rules_of self.old) h access) }
        ensures stands { OnOk result ((h : History) → StandsFor self.old h →
            StandsFor self.new (accessed access ∷ h)) }
        // The ways hold, in order of last use or last load, the residents by reuse distance.
        ensures residents { OnOk result ((h : History) → StandsFor self.old h →
            HoldsResidents self.new (accessed access ∷ h)) }
        ensures served { OnOk result (served_of self.new ≡ served_of self.old + 1) }
        ensures works { OnOk result (has_failed self.new ≡ false) }

        ensures fails { OnErr result (has_failed self.new ≡ true) }
        ensures keeps { OnErr result ((counts_kept self.new ≡ counts_kept self.old)
            × (served_of self.new ≡ served_of self.old)) }
        ensures failed { has_failed self.old ≡ true → IsErr result }
        ensures rules { rules_of self.new ≡ rules_of self.old }
    {
        if self.failed {
            return Err(NoMemory);
        }
        let Ok(served) = self.contents.serve(access) else {
            self.failed = true;
            return Err(NoMemory);
        };
        let block = self.contents.block(access);
        let load = self.contents.may_load(access);
        let Ok(prior) = self.classifier.classify(block, load, served.hit) else {
            self.failed = true;
            return Err(NoMemory);
        };
        let outcome = self.contents.outcome(access, served, prior);
        self.counts.add_access(access, outcome);
        self.served += 1;
        Ok(outcome)
    }

    /// Empties the cache and its shadow, and appends the addresses of the first bytes of the dirty
    /// blocks to `out`, in rising order. The blocks that were ever accessed stay known. After an
    /// error the counts and `out` are unchanged, and the cache has failed.
    pub fn flush(&mut self, out: &mut Vec<u64>) -> Result<(), NoMemory>
        requires { served_of self.old < MAX_EVENTS }
        ensures appends { OnOk result ((h : History) → StandsFor self.old h →
            out.new.items ≡ out.old.items
            ++ map (λ b. b * (rules_of self.old).bsize)
            (dirty_blocks (rules_of self.old) h)) }
        ensures stands { OnOk result ((h : History) → StandsFor self.old h →
            StandsFor self.new (flushed ∷ h)) }
        // This holds without a history too: a flush appends at most one address for each way.
        ensures at_most { OnOk result (length out.new.items ≤ length out.old.items + 2 ^ 24) }
        ensures served { OnOk result (served_of self.new ≡ served_of self.old + 1) }
        ensures works { OnOk result (has_failed self.new ≡ false) }

        ensures fails { OnErr result (has_failed self.new ≡ true) }
        ensures keeps { OnErr result ((counts_kept self.new ≡ counts_kept self.old)
            × (served_of self.new ≡ served_of self.old)
            × (out.new.items ≡ out.old.items)) }
        ensures failed { has_failed self.old ≡ true → IsErr result }
        ensures rules { rules_of self.new ≡ rules_of self.old }
    {
        if self.failed() {
            return Err(NoMemory);
        }
        let Ok(block_addrs) = self.contents.dirty() else {
            self.failed = true;
            return Err(NoMemory);
        };
        let Ok(()) = out.extend_from_slice(&block_addrs) else {
            self.failed = true;
            return Err(NoMemory);
        };
        self.counts.add_flush(block_addrs.len() as u64);
        self.contents.clear();
        self.classifier.forget_shadow();
        self.served += 1;
        Ok(())
    }
}
