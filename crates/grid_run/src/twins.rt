//! LRU caches of one geometry that allocate at writes, one for each user of a queue.

ghost use Rattle.std.specs.Prelude.{◌≡◌, ◌++◌, List, ℕ, OnOk};
ghost use Rattle.std.specs.List.{All};
ghost use Rattle.stage_core.specs.declared.message.What.{What};
ghost use Rattle.grid_run.specs.Numbering.{IsNumbered, sent_to};
ghost use Rattle.grid_run.specs.Sending.{SecondHasRoom, SecondServed};
ghost use Rattle.grid_run.specs.Twins.{twin_rules, twin_users};
ghost use Rattle.grid_run.specs.declared.second_caches.SecondCaches.TheVariants as caches;

use crate::numbered::Numbered;
use cache_core::{Access, Counts, Geometry, NoMemory, PerClass};
use stamped_cache::StampedCaches;
use std::alloc::Global;

/// LRU caches of one geometry that allocate at writes, one for each user.
#[derive(Drop)]
pub(crate) struct Twins {
    caches: StampedCaches,
}

/// Serves requests in their order.
pub(crate) fn serve_twins(twins: &mut Twins, requests: &[Numbered]) -> Result<(), NoMemory>
    requires room { (blocks : List ℕ)
        × SecondHasRoom blocks (caches.Twins twins.old) requests.now }
    ensures served { OnOk result ((blocks : List ℕ) (ws : ℕ → List What) →
        All (IsNumbered blocks (twin_rules twins.old).bsize) requests.now →
        SecondServed blocks ws (caches.Twins twins.old) → SecondServed blocks
        (λ q. ws q ++ sent_to q requests.now) (caches.Twins twins.new)) }
    ensures users { twin_users twins.new ≡ twin_users twins.old }
    ensures rules { twin_rules twins.new ≡ twin_rules twins.old }
{
    for asked in requests {
        twins.serve(*asked)?;
    }
    Ok(())
}

#[tactic(auto, unfolding(crate::specs::Twins::twin_rules, crate::specs::Twins::twin_users))]
impl Twins {
    ghost use Rattle.std.specs.Prelude.{◌≡◌, ◌<◌, ◌≤◌, ◌∷◌, [], List, ℕ, IfOk, OnOk};
    ghost use Rattle.std.specs.Prelude.{if◌then◌else◌};
    ghost use Rattle.cache_core.specs.Counts.{counts_of};
    ghost use Rattle.cache_core.specs.History.{History};
    ghost use Rattle.grid_core.specs.FullyAssociative.{shadow_misses};
    ghost use Rattle.grid_core.specs.Standing.{stack_rules};
    ghost use Rattle.stage_core.specs.SecondLevel.{read_as};
    ghost use Rattle.grid_run.specs.Numbering.{IsNumbered, is_for, what_of};
    ghost use Rattle.grid_run.specs.Sending.{SecondCanServe};
    ghost use Rattle.grid_run.specs.Twins.{TwinStandsBy, twin_rules, twin_users};
    ghost use Rattle.grid_run.specs.declared.second_caches.SecondCaches.TheVariants as caches;

    /// The empty caches of a geometry, for so many users.
    pub fn new(
        alloc: Global,
        geometry: Geometry,
        wback: bool,
        users: usize,
    ) -> Result<Twins, NoMemory>
        requires { users ≤ 32 }
        ensures stands { IfOk result (λ twins. (blocks : List ℕ) (q : ℕ) → q < users →
            TwinStandsBy blocks twins q []) }
        ensures users { IfOk result (λ twins. twin_users twins ≡ users) }
        ensures rules { IfOk result (λ twins. twin_rules twins ≡ stack_rules geometry wback) }
    {
        Ok(Twins {
            caches: StampedCaches::new(alloc, geometry, wback, users)?,
        })
    }

    /// Serves a request of the first level, by the number of its block, for the users that get it.
    #[inline(always)]
    fn serve(&mut self, asked: Numbered) -> Result<(), NoMemory>
        requires room { SecondCanServe (caches.Twins self.old) asked }
        ensures stands { OnOk result ((blocks : List ℕ) (q : ℕ) (h : History) →
            q < twin_users self.old → IsNumbered blocks (twin_rules self.old).bsize asked →
            TwinStandsBy blocks self.old q h → TwinStandsBy blocks self.new q
            (if is_for q asked then read_as (what_of asked) ∷ h else h)) }
        ensures users { twin_users self.new ≡ twin_users self.old }
        ensures rules { twin_rules self.new ≡ twin_rules self.old }
    {
        let Some(class) = asked.class() else {
            return self.caches.flush();
        };
        let addr = asked.addr;
        let access = Access { class, addr };
        self.caches
            .access(access, asked.number as usize, asked.users)
    }

    /// The counts of the cache of a user.
    pub fn counts(&self, user: usize) -> Counts
        requires { user < twin_users self.now }
        ensures { (blocks : List ℕ) (h : History) → TwinStandsBy blocks self.now user h →
            result ≡ counts_of (twin_rules self.now) h }
    {
        self.caches.counts(user)
    }

    /// How often the shadow of the cache of a user missed.
    pub fn shadow_misses(&self, user: usize) -> PerClass
        requires { user < twin_users self.now }
        ensures { (blocks : List ℕ) (h : History) → TwinStandsBy blocks self.now user h →
            result ≡ shadow_misses (twin_rules self.now) h }
    {
        self.caches.shadow_misses(user)
    }
}
