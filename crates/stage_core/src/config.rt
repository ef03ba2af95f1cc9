//! A configuration: the three caches and the capacity of the rings.

ghost use Rattle.std.specs.Prelude.{◌≡◌, ◌<◌, ◌≤◌, Some, None, OnOk, IfOk, IfErr};
ghost use Rattle.cache_core.specs.Geometry.{IsMadeOf};
ghost use Rattle.stage_core.specs.Lawful.{geometry_refusal};

use cache_core::{Geometry, GeometryFault, Policy};

/// One cache as it is asked for: its size and block size in bytes, its number of ways, its policy.
/// The instruction cache gets no writes, so its choices for writes have no effect.
#[derive(Clone, Copy, Debug, PartialEq, Eq)]
pub struct CacheSpec {
    /// The size of the cache in bytes.
    pub size: u64,
    /// The size of a block in bytes.
    pub bsize: u64,
    /// The number of ways of a set.
    pub assoc: u64,
    /// The replacement, and the choices for writes.
    pub policy: Policy,
}

/// One of the three caches.
#[derive(Clone, Copy, Debug, PartialEq, Eq)]
pub enum CacheName {
    /// The instruction cache.
    I,
    /// The data cache.
    D,
    /// The unified second level.
    U,
}

/// Why a configuration is refused: the first broken rule, in the order below.
#[derive(Clone, Copy, Debug, PartialEq, Eq)]
pub enum ConfigFault {
    /// The geometry of this cache is refused: the first of I, D and U, and why.
    Geometry(CacheName, GeometryFault),
    /// The block of U is shorter than that of I or D.
    BlockOrder,
    /// The capacity of the rings is not from 1 to 65,536.
    Ring,
}

/// A lawful configuration.
#[derive(Clone, Copy, Debug, PartialEq, Eq)]
pub struct Config {
    i: (Geometry, Policy),
    d: (Geometry, Policy),
    u: (Geometry, Policy),
    ring: u64,
    ghost some_ring: { 0 < ring },
    ghost short_ring: { ring ≤ 65536 },
}

/// The geometry of a cache, or why it is refused.
#[tactic(auto, unfolding(crate::specs::Lawful::geometry_refusal))]
fn geometry(which: CacheName, spec: CacheSpec) -> Result<Geometry, ConfigFault>
    ensures made { IfOk result (λ geometry. IsMadeOf geometry spec.size spec.bsize spec.assoc) }
    ensures lawful { OnOk result (geometry_refusal which spec ≡ None) }
    ensures refused { IfErr result (λ fault. geometry_refusal which spec ≡ Some fault) }
{
    let made = Geometry::new(spec.size, spec.bsize, spec.assoc);
    made.map_err(|fault| ConfigFault::Geometry(which, fault))
}

#[tactic(auto, unfolding(crate::specs::Lawful::refusal_of, crate::specs::Config::geometry_in, crate::specs::Config::policy_in, crate::specs::Config::ring_of))]
impl Config {
    ghost use Rattle.std.specs.Prelude.{◌≡◌, ◌<◌, ◌≤◌, Some, None, OnOk, IfOk, IfErr};
    ghost use Rattle.stage_core.specs.Lawful.{refusal_of};
    ghost use Rattle.stage_core.specs.Config.{IsCacheOf, geometry_in, policy_in, ring_of};
    ghost use Rattle.stage_core.specs.declared.config.CacheName.TheVariants as cache_name;

    /// The configuration with these caches and with rings of `ring` messages, or the first rule
    /// that they break.
    pub fn new(i: CacheSpec, d: CacheSpec, u: CacheSpec, ring: u64) -> Result<Config, ConfigFault>
        ensures i { IfOk result (λ config. IsCacheOf config cache_name.I i) }
        ensures d { IfOk result (λ config. IsCacheOf config cache_name.D d) }
        ensures u { IfOk result (λ config. IsCacheOf config cache_name.U u) }
        ensures ring { IfOk result (λ config. ring_of config ≡ ring) }
        ensures lawful { OnOk result (refusal_of i d u ring ≡ None) }
        ensures refused { IfErr result (λ fault. refusal_of i d u ring ≡ Some fault) }
    {
        let i_geometry = geometry(CacheName::I, i)?;
        let d_geometry = geometry(CacheName::D, d)?;
        let u_geometry = geometry(CacheName::U, u)?;
        if u.bsize < i.bsize || u.bsize < d.bsize {
            return Err(ConfigFault::BlockOrder);
        }
        if ring < 1 || ring > 65_536 {
            return Err(ConfigFault::Ring);
        }
        Ok(Config {
            i: (i_geometry, i.policy),
            d: (d_geometry, d.policy),
            u: (u_geometry, u.policy),
            ring,
        })
    }

    /// The instruction cache.
    pub fn i(&self) -> (Geometry, Policy)
        ensures geometry { result.0 ≡ geometry_in self.now cache_name.I }
        ensures policy { result.1 ≡ policy_in self.now cache_name.I }
    {
        self.i
    }

    /// The data cache.
    pub fn d(&self) -> (Geometry, Policy)
        ensures geometry { result.0 ≡ geometry_in self.now cache_name.D }
        ensures policy { result.1 ≡ policy_in self.now cache_name.D }
    {
        self.d
    }

    /// The unified second-level cache.
    pub fn u(&self) -> (Geometry, Policy)
        ensures geometry { result.0 ≡ geometry_in self.now cache_name.U }
        ensures policy { result.1 ≡ policy_in self.now cache_name.U }
    {
        self.u
    }

    /// The capacity of each ring, in messages.
    pub fn ring(&self) -> usize
        ensures ring { result ≡ ring_of self.now }
        ensures some { 0 < result }
        ensures at_most { result ≤ 65536 }
    {
        self.ring as usize
    }
}
