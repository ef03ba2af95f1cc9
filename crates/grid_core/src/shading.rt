//! Where the shadows of caches of their own are.

ghost use Rattle.std.specs.Prelude.{◌≡◌, ◌<◌, ◌≤◌, ◌++◌, ◌∷◌, [], ℕ, true, map, length};
ghost use Rattle.std.specs.Prelude.{IfOk, OnOk, IfSome};
ghost use Rattle.std.specs.Int.{is_power_of_two};
ghost use Rattle.std.specs.List.{All};
ghost use Rattle.cache_core.specs.Geometry.{IsMadeOf, bsize_of, size_of, blocks_of};
ghost use Rattle.cache_core.specs.Kinds.{shadow_of};
ghost use Rattle.cache_core.specs.Standing.{rules_from};
ghost use Rattle.cache_core.specs.Lists.{IsBeginning};
ghost use Rattle.grid_core.specs.Places.{IsPlace, planned_rules, shadow_placed};
ghost use Rattle.grid_core.specs.Plans.{IsAsLarge, IsShadowAt, IsNewShade};
ghost use Rattle.grid_core.specs.Shades.{shade_rules};
ghost use Rattle.grid_core.specs.Slot.{HasWords};

use crate::places::Place;
use crate::shade::Shade;
use cache_core::{Geometry, Policy, Repl};
use std::alloc::{AllocError, Global};

/// The geometry of the same size with another number of ways.
fn with_assoc(geometry: Geometry, assoc: u64) -> Geometry
    requires power { is_power_of_two assoc ≡ true }
    requires fits { assoc ≤ blocks_of geometry }
    ensures { IsMadeOf result (size_of geometry) (bsize_of geometry) assoc }
{
    let bsize = geometry.bsize();
    let size = geometry.blocks() * bsize;
    Geometry::new(size, bsize, assoc).unwrap()
}

/// The index of a geometry of as many blocks, if there is one.
fn find_as_large(geometries: &Vec<Geometry>, geometry: Geometry) -> Option<usize>
    ensures { IfSome result (λ index. IsAsLarge geometries.now.items geometry index) }
{
    for (index, other) in geometries.iter().enumerate() {
        if other.bsize() == geometry.bsize() && other.blocks() == geometry.blocks() {
            return Some(index);
        }
    }
    None
}

/// The index of a geometry of as many blocks among those that are served together. Where there is
/// none, a direct-mapped one joins them.
fn as_large(together: &mut Vec<Geometry>, geometry: Geometry) -> Result<usize, AllocError>
    ensures found { IfOk result (λ index. IsAsLarge together.new.items geometry index) }
    ensures grows { OnOk result (IsBeginning together.old.items together.new.items) }
    ensures same { (b : ℕ) → OnOk result (bsize_of geometry ≡ b →
        All (λ g. bsize_of g ≡ b) together.old.items →
        All (λ g. bsize_of g ≡ b) together.new.items) }
    ensures words { OnOk result (All HasWords together.old.items →
        All HasWords together.new.items) }
{
    if let Some(index) = find_as_large(together, geometry) {
        return Ok(index);
    }
    let index = together.len();
    together.push(with_assoc(geometry, 1))?;
    Ok(index)
}

/// Sees to it that some cache is served together with others, and so knows which blocks were
/// accessed: if there is none, a direct-mapped one joins.
fn know_blocks(together: &mut Vec<Geometry>, geometry: Geometry) -> Result<(), AllocError>
    ensures some { OnOk result (0 < length together.new.items) }
    ensures grows { OnOk result (IsBeginning together.old.items together.new.items) }
    ensures same { (b : ℕ) → OnOk result (bsize_of geometry ≡ b →
        All (λ g. bsize_of g ≡ b) together.old.items →
        All (λ g. bsize_of g ≡ b) together.new.items) }
    ensures words { OnOk result (All HasWords together.old.items →
        All HasWords together.new.items) }
{
    if together.is_empty() {
        together.push(with_assoc(geometry, 1))?;
    }
    Ok(())
}

/// The index of the shadow of a cache of this geometry and policy, if it is there.
fn find_shade(shades: &Vec<Shade>, geometry: Geometry, policy: Policy) -> Option<usize>
    ensures { IfSome result (λ index. IsShadowAt (map shade_rules shades.now.items)
        geometry policy index) }
{
    for (index, shade) in shades.iter().enumerate() {
        if shade.is_shadow_of(geometry, policy) {
            return Some(index);
        }
    }
    None
}

/// A new shadow, and its index.
fn push_shade(
    alloc: Global,
    shades: &mut Vec<Shade>,
    geometry: Geometry,
    policy: Policy,
) -> Result<usize, AllocError>
    ensures last { IfOk result (λ index. index ≡ length shades.old.items) }
    ensures rules { OnOk result (map shade_rules shades.new.items
        ≡ map shade_rules shades.old.items ++ rules_from geometry policy ∷ []) }
    ensures fresh { OnOk result (All IsNewShade shades.old.items →
        All IsNewShade shades.new.items) }
{
    let shade = Shade::new(alloc, geometry, policy)?;
    let index = shades.len();
    shades.push(shade)?;
    Ok(index)
}

/// The index of the shadow of a cache. Where it is not there, it joins the others: a fully
/// associative LRU cache of as many blocks.
fn shade_apart(
    alloc: Global,
    shades: &mut Vec<Shade>,
    geometry: Geometry,
    policy: Policy,
) -> Result<usize, AllocError>
    ensures found { IfOk result (λ index. IsShadowAt (map shade_rules shades.new.items)
        geometry policy index) }
    ensures grows { OnOk result (IsBeginning (map shade_rules shades.old.items)
        (map shade_rules shades.new.items)) }
    ensures fresh { OnOk result (All IsNewShade shades.old.items →
        All IsNewShade shades.new.items) }
{
    if let Some(index) = find_shade(shades, geometry, policy) {
        return Ok(index);
    }
    let whole = with_assoc(geometry, geometry.blocks());
    let lru = Policy {
        repl: Repl::Lru,
        ..policy
    };
    let index = push_shade(alloc, shades, whole, lru)?;
    Ok(index)
}

/// The place of the shadow of a cache of its own. Where writes allocate, it is that of a cache that
/// is served together with others.
pub(crate) fn shade_for(
    alloc: Global,
    together: &mut Vec<Geometry>,
    shades: &mut Vec<Shade>,
    geometry: Geometry,
    policy: Policy,
) -> Result<Place, AllocError>
    ensures there { IfOk result (λ place. IsPlace (length together.new.items)
        (length shades.new.items) place) }
    ensures shadow { IfOk result (λ place. shadow_placed
        (planned_rules policy.wback together.new.items) (map shade_rules shades.new.items) place
        ≡ shadow_of (rules_from geometry policy)) }
    ensures some { OnOk result (0 < length together.new.items) }
    ensures together { OnOk result (IsBeginning together.old.items together.new.items) }
    ensures shades { OnOk result (IsBeginning (map shade_rules shades.old.items)
        (map shade_rules shades.new.items)) }
    ensures same { (b : ℕ) → OnOk result (bsize_of geometry ≡ b →
        All (λ g. bsize_of g ≡ b) together.old.items →
        All (λ g. bsize_of g ≡ b) together.new.items) }
    ensures words { OnOk result (All HasWords together.old.items →
        All HasWords together.new.items) }
    ensures fresh { OnOk result (All IsNewShade shades.old.items →
        All IsNewShade shades.new.items) }
{
    if policy.walloc {
        let index = as_large(together, geometry)?;
        return Ok(Place::Together(index));
    }
    know_blocks(together, geometry)?;
    let shade = shade_apart(alloc, shades, geometry, policy)?;
    Ok(Place::Apart(shade))
}
