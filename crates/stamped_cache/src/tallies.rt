//! What is counted of each cache.

ghost use Rattle.std.specs.Prelude.{◌≡◌, ◌<◌, map};
ghost use Rattle.std.specs.List.{All};
ghost use Rattle.stamped_cache.specs.Counted.{IsTally, flushed_tally};

use crate::tally::Tally;
use cache_core::{Access, Counts, MAX_EVENTS, PerClass, Prior};
use std::alloc::{AllocError, Global};

/// What is counted of each cache.
#[derive(Drop)]
pub(crate) struct Tallies {
    tallies: Vec<Tally>,
    ghost within: { All IsTally tallies.items },
}

/// Counts a flush of each cache.
fn flush_each(tallies: &mut Vec<Tally>, wback: bool)
    requires within { All IsTally tallies.old.items }
    requires few { All (λ t. t.served < MAX_EVENTS) tallies.old.items }
    ensures flushed { tallies.new.items ≡ map (flushed_tally wback) tallies.old.items }
    ensures within { All IsTally tallies.new.items }
{
    for tally in tallies.iter_mut() {
        tally.flush(wback);
    }
}

#[tactic(auto, unfolding(crate::specs::Tallies::tally_of, crate::specs::Tallies::tallies_in))]
impl Tallies {
    ghost use Rattle.std.specs.Prelude.{◌≡◌, ◌≢◌, ◌<◌, ◌≤◌, ◌&&◌, not, true, false};
    ghost use Rattle.std.specs.Prelude.{ℕ, Option, is_some, IfOk};
    ghost use Rattle.cache_core.specs.History.{is_write};
    ghost use Rattle.cache_core.specs.Kinds.{kind_by};
    ghost use Rattle.grid_core.specs.Hits.{hit_made};
    ghost use Rattle.stamped_cache.specs.Counted.{CountsAccess, flushed_tally, load_made};
    ghost use Rattle.stamped_cache.specs.Counted.{no_tally};
    ghost use Rattle.stamped_cache.specs.Tallies.{tallies_in, tally_of};

    /// Nothing is counted of so many caches.
    pub fn new(alloc: Global, users: usize) -> Result<Tallies, AllocError>
        ensures none { IfOk result (λ t. (q : ℕ) → tally_of t q ≡ no_tally) }
        ensures users { IfOk result (λ t. tallies_in t ≡ users) }
    {
        let mut tallies = Vec::new(alloc);
        tallies.resize(users, Tally::new())?;
        Ok(Tallies { tallies })
    }

    /// Counts an access that hits in a cache, whose shadow has the block or not, and a write used
    /// it before or not.
    #[inline(always)]
    pub fn hit(&mut self, user: usize, access: Access, near: bool, written: bool, wback: bool)
        requires user { user < tallies_in self.old }
        requires few { (tally_of self.old user).served < MAX_EVENTS }
        ensures counts { CountsAccess access (hit_made (is_write access && not wback)) (not near)
            (is_write access && not written) (tally_of self.old user) (tally_of self.new user) }
        ensures others { (q : ℕ) → q ≢ user → tally_of self.new q ≡ tally_of self.old q }
        ensures users { tallies_in self.new ≡ tallies_in self.old }
    {
        self.tallies[user].hit(access, near, written, wback);
    }

    /// Counts an access that loads its block into a cache. `back` says whether a written block
    /// leaves.
    pub fn load(&mut self, user: usize, access: Access, prior: Prior, back: bool, wback: bool)
        requires user { user < tallies_in self.old }
        requires few { (tally_of self.old user).served < MAX_EVENTS }
        ensures counts { (address : Option ℕ) → is_some address ≡ (back && wback) →
            CountsAccess access (load_made (kind_by prior.referenced prior.in_shadow) address
            (is_write access && not wback)) (not prior.in_shadow) (is_write access)
            (tally_of self.old user) (tally_of self.new user) }
        ensures others { (q : ℕ) → q ≢ user → tally_of self.new q ≡ tally_of self.old q }
        ensures users { tallies_in self.new ≡ tallies_in self.old }
    {
        self.tallies[user].load(access, prior, back, wback);
    }

    /// Counts a flush of all caches.
    pub fn flush(&mut self, wback: bool)
        requires { (q : ℕ) → q < tallies_in self.old →
            (tally_of self.old q).served < MAX_EVENTS }
        ensures each { (q : ℕ) → q < tallies_in self.old →
            tally_of self.new q ≡ flushed_tally wback (tally_of self.old q) }
        ensures users { tallies_in self.new ≡ tallies_in self.old }
    {
        flush_each(&mut self.tallies, wback);
    }

    /// All counts of a cache.
    pub fn counts(&self, user: usize) -> Counts
        requires { user < tallies_in self.now }
        ensures { result ≡ (tally_of self.now user).counts }
    {
        self.tallies[user].counts
    }

    /// How often the shadow of a cache missed.
    pub fn far(&self, user: usize) -> PerClass
        requires { user < tallies_in self.now }
        ensures { result ≡ (tally_of self.now user).far }
    {
        self.tallies[user].far
    }

    /// Whether another event of each cache can be counted.
    pub fn have_room(&self) -> bool
        ensures room { result ≡ true → (q : ℕ) → q < tallies_in self.now →
            (tally_of self.now q).served < MAX_EVENTS }
        ensures full { result ≡ false → (q : ℕ) × (q < tallies_in self.now)
            × (MAX_EVENTS ≤ (tally_of self.now q).served) }
    {
        for tally in &self.tallies {
            if tally.served >= MAX_EVENTS {
                return false;
            }
        }
        true
    }

    /// How many accesses and flushes of a cache were counted.
    pub fn served(&self, user: usize) -> u64
        requires { user < tallies_in self.now }
        ensures { result ≡ (tally_of self.now user).served }
    {
        self.tallies[user].served
    }
}
