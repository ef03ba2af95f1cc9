//! The shadow of caches that do not allocate at writes.

ghost use Rattle.std.specs.Prelude.{◌≡◌, true};
ghost use Rattle.cache_core.specs.Counting.{IsWithin};
ghost use Rattle.cache_core.specs.Standing.{rules_held, rules_from};
ghost use Rattle.grid_core.specs.Wholes.{IsWholeOf, IsLruOf};

use crate::shapes::is_lru;
use cache_core::{Access, Contents, Geometry, MAX_EVENTS, PerClass, Policy};
use std::alloc::{AllocError, Global};

/// A fully associative LRU cache that counts its misses alone, up to the last event that all caches
/// of its engine served. So they stay as they were if another cache is refused memory at the same
/// event.
#[derive(Drop)]
pub(crate) struct Shade {
    geometry: Geometry,
    policy: Policy,
    contents: Contents,
    misses: PerClass,
    /// Whether the last access hit.
    hit: bool,
    counted: u64,
    ghost made: { rules_held contents ≡ rules_from geometry policy },
    ghost bounded: { IsWithin misses counted },
}

/// Whether a geometry is the fully associative one of the same block size and number of blocks.
fn is_whole_of(geometry: Geometry, other: Geometry) -> bool
    ensures { result ≡ true → IsWholeOf geometry other }
{
    geometry.sets() == 1 && geometry.bsize() == other.bsize() && geometry.blocks() == other.blocks()
}

/// Whether a policy is LRU, and writes as another does.
fn is_lru_of(policy: Policy, other: Policy) -> bool
    ensures { result ≡ true → IsLruOf policy other }
{
    is_lru(policy) && policy.wback == other.wback && policy.walloc == other.walloc
}

#[tactic(auto, unfolding(crate::specs::Shades::ShadeHasCounted, crate::specs::Shades::ShadeHasHit))]
impl Shade {
    ghost use Rattle.std.specs.Prelude.{◌≡◌, ◌<◌, ◌+◌, ◌∷◌, ℕ, true, [], IfOk, OnOk};
    ghost use Rattle.cache_core.specs.History.{History, access as accessed, flush as flushed};
    ghost use Rattle.cache_core.specs.Counts.{counts_of};
    ghost use Rattle.cache_core.specs.Kinds.{shadow_of};
    ghost use Rattle.cache_core.specs.Parts.{outcome_of};
    ghost use Rattle.cache_core.specs.Standing.{rules_from};
    ghost use Rattle.grid_core.specs.Shades.{ShadeStandsFor, ShadeReached, ShadeHasHit};
    ghost use Rattle.grid_core.specs.Shades.{ShadeHasCounted};
    ghost use Rattle.grid_core.specs.Shades.{shade_rules, shade_misses};

    /// An empty one.
    pub fn new(alloc: Global, geometry: Geometry, policy: Policy) -> Result<Shade, AllocError>
        ensures stands { IfOk result (λ shade. ShadeStandsFor [] shade) }
        ensures rules { IfOk result (λ shade. shade_rules shade ≡ rules_from geometry policy) }
        ensures counted { IfOk result (λ shade. ShadeHasCounted 0 shade) }
    {
        let Ok(contents) = Contents::new(alloc, geometry, policy) else {
            return Err(AllocError);
        };
        Ok(Shade {
            geometry,
            policy,
            contents,
            misses: PerClass::default(),
            hit: false,
            counted: 0,
        })
    }

    /// Whether this is the shadow of a cache of this geometry and policy.
    pub fn is_shadow_of(&self, geometry: Geometry, policy: Policy) -> bool
        ensures { result ≡ true → shade_rules self.now ≡ shadow_of (rules_from geometry policy) }
    {
        is_whole_of(self.geometry, geometry) && is_lru_of(self.policy, policy)
    }

    /// Serves one access. It is not counted before `settle`.
    pub fn serve(&mut self, access: Access) -> Result<(), AllocError>
        ensures reached { OnOk result ((h : History) → ShadeStandsFor h self.old →
            ShadeReached h access self.new) }
        ensures counted { (n : ℕ) → ShadeHasCounted n self.old → ShadeHasCounted n self.new }
        ensures misses { shade_misses self.new ≡ shade_misses self.old }
        ensures rules { shade_rules self.new ≡ shade_rules self.old }
    {
        let Ok(served) = self.contents.serve(access) else {
            return Err(AllocError);
        };
        self.hit = served.hit;
        Ok(())
    }

    /// Counts the access that was served last.
    pub fn settle(&mut self, access: Access)
        requires { (n : ℕ) × ShadeHasCounted n self.old × (n < MAX_EVENTS) }
        ensures stands { (h : History) → ShadeReached h access self.old →
            ShadeStandsFor (accessed access ∷ h) self.new }
        ensures hit { (h : History) → ShadeReached h access self.old →
            ShadeHasHit h access self.new }
        ensures counted { (n : ℕ) → ShadeHasCounted n self.old → ShadeHasCounted (n + 1) self.new }
        ensures rules { shade_rules self.new ≡ shade_rules self.old }
    {
        self.misses.count(access, !self.hit);
        self.counted += 1;
    }

    /// Lets all blocks go.
    pub fn clear(&mut self)
        requires { (n : ℕ) × ShadeHasCounted n self.old × (n < MAX_EVENTS) }
        ensures stands { (h : History) → ShadeStandsFor h self.old →
            ShadeStandsFor (flushed ∷ h) self.new }
        ensures counted { (n : ℕ) → ShadeHasCounted n self.old → ShadeHasCounted (n + 1) self.new }
        ensures rules { shade_rules self.new ≡ shade_rules self.old }
    {
        self.contents.clear();
        self.counted += 1;
    }

    /// How often it missed, by class.
    pub fn misses(&self) -> PerClass
        ensures kept { result ≡ shade_misses self.now }
        ensures counted { (h : History) → ShadeStandsFor h self.now →
            result ≡ (counts_of (shade_rules self.now) h).misses }
    {
        self.misses
    }

    /// Whether the last access hit.
    pub fn hit(&self) -> bool
        ensures { (h : History) (x : Access) → ShadeHasHit h x self.now →
            result ≡ (outcome_of (shade_rules self.now) h x).hit }
    {
        self.hit
    }
}
