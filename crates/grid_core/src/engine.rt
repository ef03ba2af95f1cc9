//! Caches of one block size and one policy that are served together.

ghost use Rattle.std.specs.Prelude.{◌≡◌, false};
ghost use Rattle.std.specs.List.{All};
ghost use Rattle.cache_core.specs.Geometry.{bsize_of};
ghost use Rattle.grid_core.specs.Caches.{AreInStep, together_rules, apart_rules, shades_rules};
ghost use Rattle.grid_core.specs.Numbers.{HaveBlocksOf};
ghost use Rattle.grid_core.specs.Places.{IsSeated};

mod told;

use crate::block_numbers::BlockNumbers;
use crate::caches::Caches;
use crate::places::Seat;
use crate::plan::plan_for;
use crate::stacked::Stacked;
use cache_core::{Access, Geometry, MAX_EVENTS, NoMemory, Policy};
use std::alloc::Global;

/// Caches of one block size and one policy, each at the index that its geometry had in
/// [`Engine::new`]. An access or a flush that is refused memory answers `NoMemory`, and so does an
/// access if there are more blocks than can be numbered, some 2^31 or more. Every later one does
/// then, too.
#[derive(Drop)]
pub struct Engine {
    alloc: Global,
    /// A geometry of the block size.
    first: Geometry,
    policy: Policy,
    /// The numbers of the blocks that `access` was asked for.
    numbers: BlockNumbers,
    /// Of each geometry: where its cache is served, and where the misses of its shadow are counted.
    seats: Vec<Seat>,
    caches: Caches,
    served: u64,
    failed: bool,
    ghost seated: { All (IsSeated policy (together_rules caches) (apart_rules caches)
        (shades_rules caches)) seats.items },
    ghost sized: { HaveBlocksOf (bsize_of first) (together_rules caches) },
    ghost step: { failed ≡ false → AreInStep served caches },
}

#[tactic(auto, unfolding(crate::specs::Engines::engine_rules, crate::specs::Engines::engine_served, crate::specs::Engines::engine_counts, crate::specs::Engines::engine_shadow_misses, crate::specs::Engines::engine_has_failed, crate::specs::Engines::bsize_in, crate::specs::Engines::numbered_in))]
impl Engine {
    ghost use Rattle.std.specs.Prelude.{◌≡◌, ◌<◌, ◌+◌, ◌/◌, ◌∷◌, [], List, map, true, false};
    ghost use Rattle.std.specs.Prelude.{OnOk, OnErr, IfOk, IsErr, length, ℕ};
    ghost use Rattle.std.specs.List.{All};
    ghost use Rattle.cache_core.specs.Geometry.{bsize_of};
    ghost use Rattle.cache_core.specs.History.{History, access as accessed, flush as flushed};
    ghost use Rattle.cache_core.specs.Parts.{SendsNothing, outcome_of};
    ghost use Rattle.cache_core.specs.Standing.{rules_from};
    ghost use Rattle.cache_core.specs.Lists.{IsBeginning};
    ghost use Rattle.grid_core.specs.Cells.{items_of};
    ghost use Rattle.grid_core.specs.Engines.{EngineHasAnswered, EngineKeepsCounts};
    ghost use Rattle.grid_core.specs.Engines.{EngineStandsBy, EngineStandsFor, bsize_in};
    ghost use Rattle.grid_core.specs.Engines.{engine_has_failed, engine_rules, engine_served};
    ghost use Rattle.grid_core.specs.Engines.{numbered_in};
    ghost use Rattle.grid_core.specs.Numbers.{IsNumberOf, MayNumber, with_number};
    ghost use Rattle.grid_core.specs.Written.{rules_at_index, written_by};

    /// Empty caches of these geometries, which have the block size of `first`, and of this policy.
    /// Only the block size of `first` counts, and it need not be among them: there may be none.
    pub fn new(
        alloc: Global,
        geometries: &[Geometry],
        first: Geometry,
        policy: Policy,
    ) -> Result<Engine, NoMemory>
        requires { All (λ g. bsize_of g ≡ bsize_of first) geometries.now }
        ensures stands { IfOk result (λ engine. (blocks : List ℕ) →
            EngineStandsBy blocks engine []) }
        ensures rules { IfOk result (λ engine.
            engine_rules engine ≡ map (λ g. rules_from g policy) geometries.now) }
        ensures served { IfOk result (λ engine. engine_served engine ≡ 0) }
        ensures works { IfOk result (λ engine. engine_has_failed engine ≡ false) }
        ensures numbers { IfOk result (λ engine. numbered_in engine ≡ []) }
        ensures bsize { IfOk result (λ engine. bsize_in engine ≡ bsize_of first) }
    {
        let Ok(plan) = plan_for(alloc, geometries, first, policy) else {
            return Err(NoMemory);
        };
        let Ok(stacked) = Stacked::new(alloc, &plan.together, first, policy.wback) else {
            return Err(NoMemory);
        };
        Ok(Engine {
            alloc,
            first,
            policy,
            numbers: BlockNumbers::new(alloc),
            seats: plan.seats,
            caches: Caches {
                stacked,
                shades: plan.shades,
                singles: plan.singles,
            },
            served: 0,
            failed: false,
        })
    }

    /// Serves one access in all caches.
    pub fn access(&mut self, access: Access) -> Result<(), NoMemory>
        requires { engine_served self.old < MAX_EVENTS }
        ensures stands { OnOk result ((h : History) → EngineStandsFor self.old h →
            EngineStandsFor self.new (accessed access ∷ h)) }
        ensures answers { OnOk result ((h : History) → EngineStandsFor self.old h →
            EngineHasAnswered self.new h access) }
        ensures served { OnOk result (engine_served self.new ≡ engine_served self.old + 1) }
        ensures works { OnOk result (engine_has_failed self.new ≡ false) }

        ensures fails { OnErr result (engine_has_failed self.new ≡ true) }
        ensures keeps { OnErr result (EngineKeepsCounts self.new self.old) }
        ensures failed { engine_has_failed self.old ≡ true → IsErr result }
        ensures numbers { IsBeginning (numbered_in self.old) (numbered_in self.new) }
        ensures only { OnOk result (numbered_in self.new
            ≡ with_number (access.addr / bsize_in self.old) (numbered_in self.old)) }
        ensures refused { OnErr result (MayNumber (access.addr / bsize_in self.old)
            (numbered_in self.old) (numbered_in self.new)) }
        ensures rules { engine_rules self.new ≡ engine_rules self.old }
        ensures bsize { bsize_in self.new ≡ bsize_in self.old }
    {
        if self.failed {
            return Err(NoMemory);
        }
        let block = self.first.block(access.addr);
        let Ok(number) = self.numbers.number(block) else {
            self.failed = true;
            return Err(NoMemory);
        };
        self.access_numbered(access, number)
    }

    /// Serves one access as `access` does, by a number of its block that it is told. An engine that
    /// is told each number stands for its history by the list of blocks whose places these are. So
    /// many engines can do with one such list, which may grow.
    pub fn access_numbered(&mut self, access: Access, number: usize) -> Result<(), NoMemory>
        requires { engine_served self.old < MAX_EVENTS }
        ensures stands { OnOk result ((blocks : List ℕ) (h : History) →
            IsNumberOf blocks (bsize_in self.old) access number → EngineStandsBy blocks self.old h →
            EngineStandsBy blocks self.new (accessed access ∷ h)) }
        ensures answers { OnOk result ((blocks : List ℕ) (h : History) →
            IsNumberOf blocks (bsize_in self.old) access number → EngineStandsBy blocks self.old h →
            EngineHasAnswered self.new h access) }
        ensures served { OnOk result (engine_served self.new ≡ engine_served self.old + 1) }
        ensures works { OnOk result (engine_has_failed self.new ≡ false) }

        ensures fails { OnErr result (engine_has_failed self.new ≡ true) }
        ensures keeps { OnErr result (EngineKeepsCounts self.new self.old) }
        ensures failed { engine_has_failed self.old ≡ true → IsErr result }
        ensures numbers { numbered_in self.new ≡ numbered_in self.old }
        ensures rules { engine_rules self.new ≡ engine_rules self.old }
        ensures bsize { bsize_in self.new ≡ bsize_in self.old }
    {
        if self.failed {
            return Err(NoMemory);
        }
        let Ok(()) = self.caches.access(access, number) else {
            self.failed = true;
            return Err(NoMemory);
        };
        self.served += 1;
        Ok(())
    }

    /// Serves an access the short way, which a use of the block that was used last may go: it hits
    /// in all caches, changes none, sends nothing and needs no memory. Answers whether it went this
    /// way; if not, nothing is changed, and `access` serves it.
    #[inline(always)]
    pub fn again(&mut self, access: Access) -> bool
        requires { engine_served self.old < MAX_EVENTS }
        ensures stands { result ≡ true → (blocks : List ℕ) (h : History) →
            EngineStandsBy blocks self.old h →
            EngineStandsBy blocks self.new (accessed access ∷ h) }
        ensures answers { result ≡ true → (blocks : List ℕ) (h : History) →
            EngineStandsBy blocks self.old h → EngineHasAnswered self.new h access }
        ensures silent { result ≡ true → (h : History) (x : Access) →
            EngineHasAnswered self.new h x → (index : ℕ) → index < length (engine_rules self.new) →
            SendsNothing (outcome_of (rules_at_index (engine_rules self.new) index) h x) }
        ensures served { result ≡ true → engine_served self.new ≡ engine_served self.old + 1 }
        ensures works { result ≡ true → engine_has_failed self.new ≡ false }
        ensures failed { engine_has_failed self.old ≡ true → result ≡ false }
        ensures leaves { result ≡ false → self.new ≡ self.old }
        ensures numbers { numbered_in self.new ≡ numbered_in self.old }
        ensures rules { engine_rules self.new ≡ engine_rules self.old }
        ensures bsize { bsize_in self.new ≡ bsize_in self.old }
    {
        if self.failed || !self.caches.again(access) {
            return false;
        }
        self.served += 1;
        true
    }

    /// Empties all caches and the shadows, and answers for each cache the first bytes of the blocks
    /// that it writes back, in rising order. Known blocks stay known.
    pub fn flush(&mut self) -> Result<Vec<Vec<u64>>, NoMemory>
        requires { engine_served self.old < MAX_EVENTS }
        ensures lists { IfOk result (λ lists. (blocks : List ℕ) (h : History) →
            EngineStandsBy blocks self.old h →
            map items_of lists.items ≡ map (written_by h) (engine_rules self.old)) }
        ensures stands { OnOk result ((blocks : List ℕ) (h : History) →
            EngineStandsBy blocks self.old h → EngineStandsBy blocks self.new (flushed ∷ h)) }
        ensures served { OnOk result (engine_served self.new ≡ engine_served self.old + 1) }
        ensures works { OnOk result (engine_has_failed self.new ≡ false) }

        ensures fails { OnErr result (engine_has_failed self.new ≡ true) }
        ensures keeps { OnErr result (EngineKeepsCounts self.new self.old) }
        ensures failed { engine_has_failed self.old ≡ true → IsErr result }
        ensures numbers { numbered_in self.new ≡ numbered_in self.old }
        ensures rules { engine_rules self.new ≡ engine_rules self.old }
        ensures bsize { bsize_in self.new ≡ bsize_in self.old }
    {
        if self.failed() {
            return Err(NoMemory);
        }
        let Ok(lists) = self.caches.flush(self.alloc, &self.seats) else {
            self.failed = true;
            return Err(NoMemory);
        };
        self.served += 1;
        Ok(lists)
    }

    /// Empties all caches and the shadows as `flush` does, and answers no lists. Where nobody reads
    /// them, this spares the search of all rows for dirty blocks. Of a cache that no stack order
    /// serves the list is made all the same, for its count, and dropped.
    pub fn flush_unlisted(&mut self) -> Result<(), NoMemory>
        requires { engine_served self.old < MAX_EVENTS }
        ensures stands { OnOk result ((blocks : List ℕ) (h : History) →
            EngineStandsBy blocks self.old h → EngineStandsBy blocks self.new (flushed ∷ h)) }
        ensures served { OnOk result (engine_served self.new ≡ engine_served self.old + 1) }
        ensures works { OnOk result (engine_has_failed self.new ≡ false) }

        ensures fails { OnErr result (engine_has_failed self.new ≡ true) }
        ensures keeps { OnErr result (EngineKeepsCounts self.new self.old) }
        ensures failed { engine_has_failed self.old ≡ true → IsErr result }
        ensures numbers { numbered_in self.new ≡ numbered_in self.old }
        ensures rules { engine_rules self.new ≡ engine_rules self.old }
        ensures bsize { bsize_in self.new ≡ bsize_in self.old }
    {
        if self.failed {
            return Err(NoMemory);
        }
        let Ok(()) = self.caches.flush_unlisted(self.alloc) else {
            self.failed = true;
            return Err(NoMemory);
        };
        self.served += 1;
        Ok(())
    }

    /// How many caches there are.
    pub fn cells(&self) -> usize
        ensures { result ≡ length (engine_rules self.now) }
    {
        self.seats.len()
    }

    /// How many accesses and flushes succeeded.
    pub fn served(&self) -> u64
        ensures { result ≡ engine_served self.now }
    {
        self.served
    }

    /// Whether a call was refused memory.
    pub fn failed(&self) -> bool
        ensures { result ≡ engine_has_failed self.now }
    {
        self.failed
    }
}
