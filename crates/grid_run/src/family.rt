//! Caches of one block size and one policy, served together.

ghost use Rattle.std.specs.Prelude.{◌≡◌};
ghost use Rattle.std.specs.List.{All};
ghost use Rattle.cache_core.specs.Geometry.{bsize_of};
ghost use Rattle.cache_core.specs.History.{Rules};
ghost use Rattle.grid_core.specs.Engines.{bsize_in, engine_rules};

use crate::numbered::Numbered;
use crate::shelf::Shelf;
use cache_core::{Access, Counts, Geometry, NoMemory, Outcome, PerClass};
use grid_core::Engine;
use std::alloc::Global;

/// The caches of a shelf, as the cells of an engine.
#[derive(Drop)]
pub(crate) struct Family {
    first: Geometry,
    engine: Engine,
    ghost alike: { All (λ (r : Rules). r.bsize ≡ bsize_of first) (engine_rules engine) },
    ghost sized: { bsize_in engine ≡ bsize_of first },
}

#[tactic(auto, unfolding(crate::specs::Families::family_rules, crate::specs::Families::bsize_on))]
impl Family {
    ghost use Rattle.std.specs.Prelude.{◌≡◌, ◌<◌, ◌*◌, ◌/◌, ◌∷◌, [], List, ℕ, IfOk, OnOk};
    ghost use Rattle.std.specs.Prelude.{length, map, true, false};
    ghost use Rattle.cache_core.specs.Geometry.{bsize_of};
    ghost use Rattle.cache_core.specs.History.{History, access as accessed, flush as flushed};
    ghost use Rattle.cache_core.specs.Parts.{SendsNothing, outcome_of};
    ghost use Rattle.cache_core.specs.declared.access.Access.{Access};
    ghost use Rattle.cache_core.specs.Counts.{counts_of};
    ghost use Rattle.grid_core.specs.Cells.{items_of};
    ghost use Rattle.grid_core.specs.FullyAssociative.{shadow_misses};
    ghost use Rattle.grid_core.specs.Numbers.{IsNumberOf};
    ghost use Rattle.grid_core.specs.Written.{rules_at_index, written_by};
    ghost use Rattle.stage_core.specs.SecondLevel.{read_as};
    ghost use Rattle.grid_run.specs.Families.{CanServe, FamilyStandsBy, HasServedLast, bsize_on};
    ghost use Rattle.grid_run.specs.Families.{family_rules};
    ghost use Rattle.grid_run.specs.Numbering.{IsNumbered, what_of};
    ghost use Rattle.grid_run.specs.Seats.{rules_on};

    /// The empty caches of a shelf.
    pub fn new(alloc: Global, shelf: &Shelf) -> Result<Family, NoMemory>
        ensures stands { IfOk result (λ family. (blocks : List ℕ) →
            FamilyStandsBy blocks family []) }
        ensures bsize { IfOk result (λ family. bsize_on family ≡ bsize_of shelf.now.first) }
        ensures rules { IfOk result (λ family. family_rules family ≡ rules_on shelf.now) }
    {
        let first = shelf.first();
        let engine = Engine::new(alloc, shelf.geometries(), first, shelf.policy())?;
        Ok(Family { first, engine })
    }

    /// The address of the first byte of the block that holds an address.
    pub fn first_byte(&self, addr: u64) -> u64
        ensures { (cell : ℕ) → cell < length (family_rules self.now) → result
            ≡ addr / (rules_at_index (family_rules self.now) cell).bsize
            * (rules_at_index (family_rules self.now) cell).bsize }
    {
        self.first.first_byte(self.first.block(addr))
    }

    /// The block that holds an address.
    pub fn block(&self, addr: u64) -> u64
        ensures { result ≡ addr / bsize_on self.now }
    {
        self.first.block(addr)
    }

    /// Serves an access, whose block has this number.
    pub fn access(&mut self, access: Access, number: usize) -> Result<(), NoMemory>
        requires room { CanServe self.old }
        ensures last { OnOk result ((blocks : List ℕ) (h : History) →
            IsNumberOf blocks (bsize_on self.old) access number →
            FamilyStandsBy blocks self.old h → HasServedLast self.new h access) }
        ensures stands { OnOk result ((blocks : List ℕ) (h : History) →
            IsNumberOf blocks (bsize_on self.old) access number →
            FamilyStandsBy blocks self.old h →
            FamilyStandsBy blocks self.new (accessed access ∷ h)) }
        ensures bsize { bsize_on self.new ≡ bsize_on self.old }
        ensures rules { family_rules self.new ≡ family_rules self.old }
    {
        self.engine.access_numbered(access, number)
    }

    /// Serves an access the short way, if it may go it, as a use of the block that was used last
    /// may. It sends nothing then. Any other access is left.
    #[inline(always)]
    pub fn again(&mut self, access: Access) -> bool
        requires room { CanServe self.old }
        ensures last { result ≡ true → (blocks : List ℕ) (h : History) →
            FamilyStandsBy blocks self.old h → HasServedLast self.new h access }
        ensures silent { result ≡ true → (blocks : List ℕ) (h : History) →
            FamilyStandsBy blocks self.old h → (cell : ℕ) → cell < length (family_rules self.new) →
            SendsNothing (outcome_of (rules_at_index (family_rules self.new) cell) h access) }
        ensures stands { result ≡ true → (blocks : List ℕ) (h : History) →
            FamilyStandsBy blocks self.old h →
            FamilyStandsBy blocks self.new (accessed access ∷ h) }
        ensures leaves { result ≡ false → self.new ≡ self.old }
        ensures rules { family_rules self.new ≡ family_rules self.old }
    {
        self.engine.again(access)
    }

    /// Serves a flush, and answers for each cache the first bytes of the blocks that it writes
    /// back, in rising order.
    pub fn flush(&mut self) -> Result<Vec<Vec<u64>>, NoMemory>
        requires room { CanServe self.old }
        ensures backs { IfOk result (λ lists. (blocks : List ℕ) (h : History) →
            FamilyStandsBy blocks self.old h →
            map items_of lists.items ≡ map (written_by h) (family_rules self.old)) }
        ensures stands { OnOk result ((blocks : List ℕ) (h : History) →
            FamilyStandsBy blocks self.old h → FamilyStandsBy blocks self.new (flushed ∷ h)) }
        ensures rules { family_rules self.new ≡ family_rules self.old }
    {
        self.engine.flush()
    }

    /// Serves a request of the first level, by the number of its block.
    pub fn serve(&mut self, asked: Numbered) -> Result<(), NoMemory>
        requires room { CanServe self.old }
        ensures stands { OnOk result ((blocks : List ℕ) (h : History) →
            IsNumbered blocks (bsize_on self.old) asked → FamilyStandsBy blocks self.old h →
            FamilyStandsBy blocks self.new (read_as (what_of asked) ∷ h)) }
        ensures bsize { bsize_on self.new ≡ bsize_on self.old }
        ensures rules { family_rules self.new ≡ family_rules self.old }
    {
        let Some(class) = asked.class() else {
            return self.engine.flush_unlisted();
        };
        let addr = asked.addr;
        let access = Access { class, addr };
        self.access(access, asked.number as usize)
    }

    /// What the last access did in one cache.
    pub fn outcome(&self, cell: usize) -> Outcome
        requires { cell < length (family_rules self.now) }
        ensures { (h : History) (x : Access) → HasServedLast self.now h x →
            result ≡ outcome_of (rules_at_index (family_rules self.now) cell) h x }
    {
        self.engine.answer(cell)
    }

    /// Whether the last access sent nothing in any cache. May be `false` though nothing was sent.
    pub fn sent_nothing(&self) -> bool
        ensures { result ≡ true → (h : History) (x : Access) → HasServedLast self.now h x →
            (cell : ℕ) → cell < length (family_rules self.now) →
            SendsNothing (outcome_of (rules_at_index (family_rules self.now) cell) h x) }
    {
        self.engine.sent_nothing()
    }

    /// The counts of one cache.
    pub fn counts(&self, cell: usize) -> Counts
        requires { cell < length (family_rules self.now) }
        ensures { (blocks : List ℕ) (h : History) → FamilyStandsBy blocks self.now h →
            result ≡ counts_of (rules_at_index (family_rules self.now) cell) h }
    {
        self.engine.counts(cell)
    }

    /// How often the shadow of one cache missed.
    pub fn shadow_misses(&self, cell: usize) -> PerClass
        requires { cell < length (family_rules self.now) }
        ensures { (blocks : List ℕ) (h : History) → FamilyStandsBy blocks self.now h →
            result ≡ shadow_misses (rules_at_index (family_rules self.now) cell) h }
    {
        self.engine.shadow_misses(cell)
    }
}
