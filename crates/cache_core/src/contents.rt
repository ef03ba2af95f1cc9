//! The blocks that a cache holds, without its counts and the kinds of its misses.

ghost use Rattle.std.specs.Prelude.{◌≡◌, true};
ghost use Rattle.cache_core.specs.Geometry.{sets_of, assoc_of};
ghost use Rattle.cache_core.specs.Row.{outcome_made};
ghost use Rattle.cache_core.specs.Sets.{has_shape};

use crate::access::{Access, Outcome, Served};
use crate::geometry::Geometry;
use crate::kinds::Prior;
use crate::policy::{Policy, may_load};
use crate::sets::{Sets, clear_sets, dirty_block_addrs, empty_sets, serve_set};
use std::alloc::Global;

/// An allocation failed, in this call or an earlier one.
#[derive(Clone, Copy, Debug, PartialEq, Eq)]
pub struct NoMemory;

/// The blocks that a cache holds. They serve accesses and flushes and count nothing. Why an access
/// misses is for the caller to know, so many caches can share what tells it.
#[derive(Drop)]
pub struct Contents {
    alloc: Global,
    geometry: Geometry,
    policy: Policy,
    sets: Sets,
    ghost room: { has_shape (sets_of geometry) (assoc_of geometry) sets ≡ true },
}

/// The outcome of an access, from what its set answered and what was known of its block.
fn outcome_from(policy: Policy, write: bool, served: Served, prior: Prior) -> Outcome
    ensures { result ≡ outcome_made policy.wback policy.walloc write
        served.hit served.back prior.referenced prior.in_shadow }
{
    let kind = if served.hit { None } else { Some(prior.kind()) };
    let uses = served.hit || may_load(write, policy);
    Outcome {
        hit: served.hit,
        kind,
        back: served.back,
        fetch: uses && !served.hit,
        through: write && !(policy.wback && uses),
    }
}

#[tactic(auto, unfolding(crate::specs::Standing::rules_held, crate::specs::Standing::ways_held))]
impl Contents {
    ghost use Rattle.std.specs.Prelude.{◌≡◌, ◌≤◌, ◌+◌, ◌*◌, ◌^◌, ◌∷◌, [], ◌||◌, not, is_some, map};
    ghost use Rattle.std.specs.Prelude.{length, IfOk, OnOk, OnErr};
    ghost use Rattle.cache_core.specs.History.{History, access as accessed, flush as flushed};
    ghost use Rattle.cache_core.specs.History.{block_of, is_write};
    ghost use Rattle.cache_core.specs.Dirty.{dirty_blocks};
    ghost use Rattle.cache_core.specs.Parts.{one_if, outcome_of};
    ghost use Rattle.cache_core.specs.Row.{outcome_made};
    ghost use Rattle.cache_core.specs.Standing.{Holds, IsServed, IsKnown, rules_from, rules_held};
    ghost use Rattle.cache_core.specs.Standing.{ways_held, dirty_held};

    /// No block.
    pub fn new(alloc: Global, geometry: Geometry, policy: Policy) -> Result<Contents, NoMemory>
        ensures rules { IfOk result (λ contents.
            rules_held contents ≡ rules_from geometry policy) }
        ensures holds { IfOk result (λ contents. Holds contents []) }
        ensures clean { IfOk result (λ contents. dirty_held contents ≡ 0) }
    {
        let count = geometry.sets() as usize;
        let assoc = geometry.assoc() as usize;
        let sets = empty_sets(alloc, count, assoc).or(Err(NoMemory))?;
        Ok(Contents {
            alloc,
            geometry,
            policy,
            sets,
        })
    }

    /// The number of the block of an access.
    pub fn block(&self, access: Access) -> u64
        ensures { result ≡ block_of (rules_held self.now) access }
    {
        self.geometry.block(access.addr)
    }

    /// Whether an access loads its block if it misses.
    pub fn may_load(&self, access: Access) -> bool
        ensures { result ≡ (not (is_write access) || (rules_held self.now).walloc) }
    {
        may_load(access.writes(), self.policy)
    }

    /// Serves one access. After an error nothing has changed.
    pub fn serve(&mut self, access: Access) -> Result<Served, NoMemory>
        ensures served { IfOk result (λ served. (h : History) → Holds self.old h →
            IsServed (rules_held self.old) h access served) }
        ensures holds { OnOk result ((h : History) → Holds self.old h →
            Holds self.new (accessed access ∷ h)) }
        // Each block that is written back was marked dirty by an access of its own.
        ensures charged { IfOk result (λ served. dirty_held self.new
            + one_if (is_some served.back) ≤ dirty_held self.old + 1) }
        ensures keeps { OnErr result (ways_held self.new ≡ ways_held self.old) }
        ensures rules { rules_held self.new ≡ rules_held self.old }
    {
        let block = self.geometry.block(access.addr);
        let set = self.geometry.set(block);
        let assoc = self.geometry.assoc();
        let block_addr = self.geometry.first_byte(block);
        let answer = serve_set(
            &mut self.sets,
            set as usize,
            assoc as usize,
            self.policy,
            block_addr,
            access.writes(),
        );
        answer.or(Err(NoMemory))
    }

    /// The outcome of an access, by what `serve` answered, and by what was known of its block
    /// before.
    pub fn outcome(&self, access: Access, served: Served, prior: Prior) -> Outcome
        ensures is { (h : History) → IsServed (rules_held self.now) h access served →
            IsKnown (rules_held self.now) h access prior →
            result ≡ outcome_of (rules_held self.now) h access }
        ensures made { result ≡ outcome_made (rules_held self.now).wback
            (rules_held self.now).walloc (is_write access) served.hit served.back
            prior.referenced prior.in_shadow }
    {
        outcome_from(self.policy, access.writes(), served, prior)
    }

    /// The first bytes of the dirty blocks, in rising order: what a flush writes back.
    pub fn dirty(&self) -> Result<Vec<u64>, NoMemory>
        ensures list { IfOk result (λ list. (h : History) → Holds self.now h →
            list.items ≡ map (λ b. b * (rules_held self.now).bsize)
            (dirty_blocks (rules_held self.now) h)) }
        ensures at_most { IfOk result (λ list. length list.items ≤ dirty_held self.now) }
        ensures few { dirty_held self.now ≤ 2 ^ 24 }
    {
        dirty_block_addrs(self.alloc, &self.sets).or(Err(NoMemory))
    }

    /// Lets all blocks go. What a flush writes back has to be taken before.
    pub fn clear(&mut self)
        ensures holds { (h : History) → Holds self.new (flushed ∷ h) }
        ensures clean { dirty_held self.new ≡ 0 }
        ensures rules { rules_held self.new ≡ rules_held self.old }
    {
        clear_sets(&mut self.sets);
    }
}
