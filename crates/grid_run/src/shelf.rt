//! Which caches are served together.

ghost use Rattle.std.specs.Prelude.{◌≡◌};
ghost use Rattle.std.specs.List.{All};
ghost use Rattle.cache_core.specs.Geometry.{bsize_of};

use crate::lists::add_to;
use cache_core::{Geometry, NoMemory, Policy, Repl};
use std::alloc::Global;

/// The most ways of a cache that is served by itself: one that misses looks for the last use of
/// each block of its set.
const MOST_WAYS: u64 = 16;

/// The geometries of caches of one block size and one policy, each once.
#[derive(Drop)]
pub(crate) struct Shelf {
    first: Geometry,
    policy: Policy,
    geometries: Vec<Geometry>,
    ghost alike: { All (λ g. bsize_of g ≡ bsize_of first) geometries.items },
}

#[tactic(auto, unfolding(crate::specs::Seats::rules_on))]
impl Shelf {
    ghost use Rattle.std.specs.Prelude.{◌≡◌, ◌∷◌, [], IfOk, IfSome, OnOk, true, map};
    ghost use Rattle.std.specs.List.{All};
    ghost use Rattle.cache_core.specs.Geometry.{bsize_of};
    ghost use Rattle.cache_core.specs.Standing.{rules_from};
    ghost use Rattle.grid_core.specs.Standing.{stack_rules};
    ghost use Rattle.grid_run.specs.Plans.{IsSameShape, ShelfSuits};
    ghost use Rattle.grid_run.specs.Seats.{IsCellOf, KeepsCells, rules_on};

    /// A shelf without caches, for those of this block size and policy.
    pub fn new(alloc: Global, first: Geometry, policy: Policy) -> Shelf
        ensures suits { ShelfSuits first policy result }
        ensures empty { rules_on result ≡ [] }
    {
        Shelf {
            first,
            policy,
            geometries: Vec::new(alloc),
        }
    }

    /// Whether a cache belongs here.
    pub fn suits(&self, geometry: Geometry, policy: Policy) -> bool
        ensures { result ≡ true → ShelfSuits geometry policy self.now }
    {
        geometry.bsize() == self.first.bsize() && policy == self.policy
    }

    /// The index of the geometry of as many blocks in as many sets, if it is here.
    fn find(&self, geometry: Geometry) -> Option<usize>
        ensures { IfSome result (IsSameShape self.now.geometries.items geometry) }
    {
        for (index, other) in self.geometries.iter().enumerate() {
            if other.blocks() == geometry.blocks() && other.sets() == geometry.sets() {
                return Some(index);
            }
        }
        None
    }

    /// The index of a geometry. Where it is not here yet, it joins the others.
    pub fn cell_for(&mut self, geometry: Geometry) -> Result<usize, NoMemory>
        requires { bsize_of geometry ≡ bsize_of self.old.first }
        ensures cell { IfOk result (IsCellOf (rules_on self.new)
            (rules_from geometry self.old.policy)) }
        ensures keeps { OnOk result (KeepsCells (rules_on self.old) (rules_on self.new)) }
    {
        if let Some(index) = self.find(geometry) {
            return Ok(index);
        }
        add_to(&mut self.geometries, geometry)
    }

    /// Whether another shelf has the same geometry, and no other one, and the same policy. May be
    /// `false` though they have the same geometries.
    pub fn is_like(&self, other: &Shelf) -> bool
        ensures rules { result ≡ true → rules_on other.now ≡ rules_on self.now }
    {
        if self.geometries.len() != 1 || other.geometries.len() != 1 {
            return false;
        }
        let (own, its) = (self.geometries[0], other.geometries[0]);
        if self.policy != other.policy {
            return false;
        }
        if own.bsize() != its.bsize() || own.blocks() != its.blocks() {
            return false;
        }
        own.sets() == its.sets()
    }

    /// The geometry, if there is just one, of few ways, and the policy is LRU with write
    /// allocation.
    pub fn lone(&self) -> Option<Geometry>
        ensures rules { IfSome result (λ g.
            rules_on self.now ≡ stack_rules g self.now.policy.wback ∷ []) }
        ensures bsize { IfSome result (λ g. bsize_of g ≡ bsize_of self.now.first) }
    {
        if self.policy.repl != Repl::Lru || !self.policy.walloc {
            return None;
        }
        if self.geometries.len() != 1 {
            return None;
        }
        let geometry = self.geometries[0];
        if geometry.assoc() > MOST_WAYS {
            return None;
        }
        Some(geometry)
    }

    /// The block size, as that of a geometry.
    pub fn first(&self) -> Geometry
        ensures { result ≡ self.now.first }
    {
        self.first
    }

    /// The policy of the caches.
    pub fn policy(&self) -> Policy
        ensures { result ≡ self.now.policy }
    {
        self.policy
    }

    /// The geometries of the caches.
    pub fn geometries(&self) -> &[Geometry]
        ensures geometries { map (λ g. rules_from g self.now.policy) result.now
            ≡ rules_on self.now }
        ensures alike { All (λ g. bsize_of g ≡ bsize_of self.now.first) result.now }
    {
        &self.geometries
    }
}
