//! The caches of second levels that share a queue: of each user one LRU cache, or of a single user
//! others that are served together.

ghost use Rattle.std.specs.Prelude.{◌≡◌, ◌++◌, ◌∷◌, List, ℕ, OnOk, if◌then◌else◌};
ghost use Rattle.std.specs.List.{All};
ghost use Rattle.stage_core.specs.declared.message.What.{What};
ghost use Rattle.cache_core.specs.History.{History};
ghost use Rattle.stage_core.specs.SecondLevel.{read_as};
ghost use Rattle.grid_run.specs.Families.{FamilyStandsBy, bsize_on, family_rules};
ghost use Rattle.grid_run.specs.Numbering.{IsNumbered, is_for, sent_to, what_of};
ghost use Rattle.grid_run.specs.Sending.{SecondCanServe, SecondHasRoom, SecondServed};

use crate::family::Family;
use crate::numbered::Numbered;
use crate::twins::{Twins, serve_twins};
use cache_core::{Counts, NoMemory, PerClass};

/// Second-level caches of one block size and one policy, of the users of a queue. Single LRU caches
/// of few ways that allocate at writes are served in a faster way than several caches, or any other
/// one.
#[derive(Drop)]
pub(crate) enum SecondCaches {
    /// One LRU cache of few ways that allocates at writes for each user.
    Twins(Twins),
    /// Others, of one user, served together.
    Family(Family),
}

/// Serves a request, if the user of these caches gets it.
#[inline(always)]
fn serve_own(family: &mut Family, asked: Numbered) -> Result<(), NoMemory>
    requires room { SecondCanServe (SecondCaches.Family family.old) asked }
    ensures stands { OnOk result ((blocks : List ℕ) (h : History) →
        IsNumbered blocks (bsize_on family.old) asked → FamilyStandsBy blocks family.old h →
        FamilyStandsBy blocks family.new
        (if is_for 0 asked then read_as (what_of asked) ∷ h else h)) }
    ensures bsize { bsize_on family.new ≡ bsize_on family.old }
    ensures rules { family_rules family.new ≡ family_rules family.old }
{
    if !asked.is_for(0) {
        return Ok(());
    }
    family.serve(asked)
}

/// Serves requests in their order.
fn serve_together(family: &mut Family, requests: &[Numbered]) -> Result<(), NoMemory>
    requires room { (blocks : List ℕ)
        × SecondHasRoom blocks (SecondCaches.Family family.old) requests.now }
    ensures served { OnOk result ((blocks : List ℕ) (ws : ℕ → List What) →
        All (IsNumbered blocks (bsize_on family.old)) requests.now →
        SecondServed blocks ws (SecondCaches.Family family.old) → SecondServed blocks
        (λ q. ws q ++ sent_to q requests.now) (SecondCaches.Family family.new)) }
    ensures bsize { bsize_on family.new ≡ bsize_on family.old }
    ensures rules { family_rules family.new ≡ family_rules family.old }
{
    for asked in requests {
        serve_own(family, *asked)?;
    }
    Ok(())
}

impl SecondCaches {
    ghost use Rattle.std.specs.Prelude.{◌≡◌, ◌<◌, ◌++◌, List, ℕ, OnOk, length};
    ghost use Rattle.std.specs.List.{All};
    ghost use Rattle.cache_core.specs.Counts.{counts_of};
    ghost use Rattle.cache_core.specs.History.{History};
    ghost use Rattle.grid_core.specs.FullyAssociative.{shadow_misses};
    ghost use Rattle.grid_core.specs.Written.{rules_at_index};
    ghost use Rattle.stage_core.specs.declared.message.What.{What};
    ghost use Rattle.grid_run.specs.Numbering.{IsNumbered, sent_to};
    ghost use Rattle.grid_run.specs.SecondCaches.{SecondStandsBy, second_bsize, second_rules};
    ghost use Rattle.grid_run.specs.SecondCaches.{second_users};
    ghost use Rattle.grid_run.specs.Sending.{SecondHasRoom, SecondServed};

    /// Serves requests in their order.
    pub fn serve_each(&mut self, requests: &[Numbered]) -> Result<(), NoMemory>
        requires room { (blocks : List ℕ) × SecondHasRoom blocks self.old requests.now }
        ensures served { OnOk result ((blocks : List ℕ) (ws : ℕ → List What) →
            All (IsNumbered blocks (second_bsize self.old)) requests.now →
            SecondServed blocks ws self.old →
            SecondServed blocks (λ q. ws q ++ sent_to q requests.now) self.new) }
        ensures users { second_users self.new ≡ second_users self.old }
        ensures bsize { second_bsize self.new ≡ second_bsize self.old }
        ensures rules { second_rules self.new ≡ second_rules self.old }
    {
        match self {
            SecondCaches::Twins(twins) => serve_twins(twins, requests),
            SecondCaches::Family(family) => serve_together(family, requests),
        }
    }

    /// The counts of one cache of a user.
    pub fn counts(&self, user: usize, cell: usize) -> Counts
        requires user { user < second_users self.now }
        requires cell { cell < length (second_rules self.now) }
        ensures { (blocks : List ℕ) (h : History) → SecondStandsBy blocks self.now user h →
            result ≡ counts_of (rules_at_index (second_rules self.now) cell) h }
    {
        match self {
            SecondCaches::Twins(twins) => twins.counts(user),
            SecondCaches::Family(family) => family.counts(cell),
        }
    }

    /// How often the shadow of one cache of a user missed.
    pub fn shadow_misses(&self, user: usize, cell: usize) -> PerClass
        requires user { user < second_users self.now }
        requires cell { cell < length (second_rules self.now) }
        ensures { (blocks : List ℕ) (h : History) → SecondStandsBy blocks self.now user h →
            result ≡ shadow_misses (rules_at_index (second_rules self.now) cell) h }
    {
        match self {
            SecondCaches::Twins(twins) => twins.shadow_misses(user),
            SecondCaches::Family(family) => family.shadow_misses(cell),
        }
    }
}
