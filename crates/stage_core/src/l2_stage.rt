//! The second level: one cache, which serves the requests of the first level.

ghost use Rattle.std.specs.Prelude.{◌≡◌, ◌<◌, ◌+◌, ◌++◌, ◌∷◌, [], IsErr, IfOk, OnOk, OnErr, List};
ghost use Rattle.std.specs.Prelude.{true, false, length};
ghost use Rattle.cache_core.specs.History.{History, access as accessed, flush as flushed};
ghost use Rattle.cache_core.specs.Counts.{KindsAddUp, counts_of};
ghost use Rattle.cache_core.specs.Standing.{StandsFor, rules_of, rules_from, served_of};
ghost use Rattle.cache_core.specs.Standing.{counts_kept, has_failed};
ghost use Rattle.stage_core.specs.SecondLevel.{second_history};
ghost use Rattle.stage_core.specs.Standing.{L2StandsFor, ServesOne, HasFailedSince, l2_cache};
ghost use Rattle.stage_core.specs.declared.message.What.{What};

use crate::memory::NoMemory;
use crate::message::What;
use cache_core::{Access, Cache, Class, Counts, Geometry, MAX_EVENTS, Policy};
use std::alloc::Global;

/// The second-level cache. What it sends to memory is only counted.
#[derive(Drop)]
pub struct L2Stage {
    alloc: Global,
    cache: Cache,
}

#[tactic(auto, unfolding(crate::specs::Standing::l2_cache))]
impl L2Stage {
    /// A second level that has served nothing, with an empty cache.
    pub fn new(alloc: Global, geometry: Geometry, policy: Policy) -> Result<L2Stage, NoMemory>
        ensures rules { IfOk result (λ stage. rules_of (l2_cache stage)
            ≡ rules_from geometry policy) }
        ensures stands { IfOk result (λ stage. L2StandsFor stage []) }
        ensures works { IfOk result (λ stage. has_failed (l2_cache stage) ≡ false) }
    {
        let cache = Cache::new(alloc, geometry, policy)?;
        Ok(L2Stage { alloc, cache })
    }

    /// How many accesses and flushes its cache has served.
    pub fn served(&self) -> u64
        ensures served { result ≡ served_of (l2_cache self.now) }
        ensures all { (requests : List What) → L2StandsFor self.now requests →
            result ≡ length (second_history requests) }
    {
        self.cache.served()
    }

    /// The counts of its cache, also after a failure.
    pub fn counts(&self) -> Counts
        ensures kept { result ≡ counts_kept (l2_cache self.now) }
        ensures counted { (requests : List What) → L2StandsFor self.now requests →
            result ≡ counts_of (rules_of (l2_cache self.now)) (second_history requests) }
        ensures kinds_add_up { KindsAddUp result }
    {
        self.cache.counts()
    }

    /// Whether a call of `on` failed.
    pub fn failed(&self) -> bool
        ensures { result ≡ has_failed (l2_cache self.now) }
    {
        self.cache.failed()
    }

    /// Serves an access.
    fn access(&mut self, access: Access) -> Result<(), NoMemory>
        requires { served_of (l2_cache self.old) < MAX_EVENTS }
        ensures stands { OnOk result ((h : History) → StandsFor (l2_cache self.old) h →
            StandsFor (l2_cache self.new) (accessed access ∷ h)) }
        ensures serves { ServesOne result (l2_cache self.old) (l2_cache self.new) }
    {
        self.cache.access(access)?;
        Ok(())
    }

    /// Serves a flush.
    fn flush(&mut self) -> Result<(), NoMemory>
        requires { served_of (l2_cache self.old) < MAX_EVENTS }
        ensures stands { OnOk result ((h : History) → StandsFor (l2_cache self.old) h →
            StandsFor (l2_cache self.new) (flushed ∷ h)) }
        ensures serves { ServesOne result (l2_cache self.old) (l2_cache self.new) }
    {
        let mut to_memory = Vec::new(self.alloc);
        self.cache.flush(&mut to_memory)?;
        Ok(())
    }

    /// Serves a request of the first level. After an error the stage has failed, and every later
    /// call answers `NoMemory`.
    pub fn on(&mut self, what: What) -> Result<(), NoMemory>
        requires { served_of (l2_cache self.old) < MAX_EVENTS }
        ensures stands { OnOk result ((before : List What) → L2StandsFor self.old before →
            L2StandsFor self.new (before ++ what ∷ [])) }
        ensures served { OnOk result (served_of (l2_cache self.new)
            ≡ served_of (l2_cache self.old) + 1) }
        ensures works { OnOk result (has_failed (l2_cache self.new) ≡ false) }
        ensures refused { OnErr result (HasFailedSince (l2_cache self.old)
            (l2_cache self.new)) }
        ensures failed { has_failed (l2_cache self.old) ≡ true → IsErr result }
        ensures rules { rules_of (l2_cache self.new) ≡ rules_of (l2_cache self.old) }
    {
        match what {
            What::Back(addr) | What::Through(addr) => self.access(Access {
                class: Class::Write,
                addr,
            }),
            What::Fetch(class, addr) => self.access(Access { class, addr }),
            What::FlushAll => self.flush(),
        }
    }
}
