//! Where the caches of some geometries go: together with others, or apart.

ghost use Rattle.std.specs.Prelude.{◌≡◌, ◌++◌, ◌∷◌, [], ℕ, true, false, map, length, IfOk, OnOk};
ghost use Rattle.std.specs.List.{All};
ghost use Rattle.cache_core.specs.Geometry.{bsize_of};
ghost use Rattle.cache_core.specs.Policy.{is_fifo};
ghost use Rattle.cache_core.specs.Standing.{rules_from};
ghost use Rattle.cache_core.specs.Lists.{IsBeginning};
ghost use Rattle.grid_core.specs.Places.{IsSeated, planned_rules};
ghost use Rattle.grid_core.specs.declared.places.Place.TheVariants.{Together};
ghost use Rattle.grid_core.specs.Plans.{IsNewShade, IsNewSingle};
ghost use Rattle.grid_core.specs.Shades.{shade_rules};
ghost use Rattle.grid_core.specs.Shading.{IsShaded};
ghost use Rattle.grid_core.specs.Singles.{single_rules, single_shading};
ghost use Rattle.grid_core.specs.Slot.{HasWords};

use crate::places::{Place, Seat};
use crate::shade::Shade;
use crate::shading::shade_for;
use crate::shapes::is_lru;
use crate::single::Single;
use cache_core::{Geometry, Policy};
use std::alloc::{AllocError, Global};

/// The most ways of a cache that is served together with others: a longer row is slow to search.
const MOST_TOGETHER: u64 = 64;

/// What an engine is made of: a seat for each geometry, the geometries of the caches that are
/// served together, the shadows of caches that do not allocate at writes, and the caches of their
/// own.
#[derive(Drop)]
pub(crate) struct Plan {
    pub seats: Vec<Seat>,
    pub together: Vec<Geometry>,
    pub shades: Vec<Shade>,
    pub singles: Vec<Single>,
}

/// Whether a cache has few enough ways for a row that it shares with others: words can keep the
/// slots, and they are searched fast.
fn has_row(geometry: Geometry) -> bool
    ensures { result ≡ true → HasWords geometry }
{
    geometry.assoc() <= MOST_TOGETHER && geometry.assoc() + 2 <= geometry.sets() * geometry.bsize()
}

/// Whether a cache has a stack order, and few enough ways for it.
fn has_stack(geometry: Geometry, policy: Policy) -> bool
    ensures lru { result ≡ true → is_fifo policy ≡ false }
    ensures allocates { result ≡ true → policy.walloc ≡ true }
    ensures words { result ≡ true → HasWords geometry }
{
    is_lru(policy) && policy.walloc && has_row(geometry)
}

/// A new cache of its own, and its index.
fn push_single(
    alloc: Global,
    singles: &mut Vec<Single>,
    geometry: Geometry,
    policy: Policy,
    shadow: Place,
) -> Result<usize, AllocError>
    ensures last { IfOk result (λ index. index ≡ length singles.old.items) }
    ensures rules { OnOk result (map single_rules singles.new.items
        ≡ map single_rules singles.old.items ++ rules_from geometry policy ∷ []) }
    ensures shading { OnOk result (map single_shading singles.new.items
        ≡ map single_shading singles.old.items ++ (shadow, rules_from geometry policy) ∷ []) }
    ensures fresh { OnOk result (All IsNewSingle singles.old.items →
        All IsNewSingle singles.new.items) }
{
    let single = Single::new(alloc, geometry, policy, shadow)?;
    let index = singles.len();
    singles.push(single)?;
    Ok(index)
}

/// A seat for a cache that is served together with others.
fn seat_together(together: &mut Vec<Geometry>, geometry: Geometry) -> Result<Seat, AllocError>
    ensures seat { IfOk result (λ seat. (seat.geometry ≡ geometry)
        × (seat.cell ≡ Together (length together.old.items))
        × (seat.shadow ≡ Together (length together.old.items))) }
    ensures joins { OnOk result (together.new.items ≡ together.old.items ++ geometry ∷ []) }
{
    let index = together.len();
    together.push(geometry)?;
    Ok(Seat {
        geometry,
        cell: Place::Together(index),
        shadow: Place::Together(index),
    })
}

/// A seat for a geometry.
fn seat_for(
    alloc: Global,
    together: &mut Vec<Geometry>,
    shades: &mut Vec<Shade>,
    singles: &mut Vec<Single>,
    geometry: Geometry,
    policy: Policy,
) -> Result<Seat, AllocError>
    ensures geometry { IfOk result (λ seat. seat.geometry ≡ geometry) }
    ensures seated { IfOk result (λ seat. IsSeated policy
        (planned_rules policy.wback together.new.items) (map single_rules singles.new.items)
        (map shade_rules shades.new.items) seat) }
    ensures shaded { (b : ℕ) → OnOk result (bsize_of geometry ≡ b →
        All (λ g. bsize_of g ≡ b) together.old.items →
        All (IsShaded (planned_rules policy.wback together.old.items)
        (map shade_rules shades.old.items)) (map single_shading singles.old.items) →
        All (IsShaded (planned_rules policy.wback together.new.items)
        (map shade_rules shades.new.items)) (map single_shading singles.new.items)) }
    ensures together { OnOk result (IsBeginning together.old.items together.new.items) }
    ensures apart { OnOk result (IsBeginning (map single_rules singles.old.items)
        (map single_rules singles.new.items)) }
    ensures shades { OnOk result (IsBeginning (map shade_rules shades.old.items)
        (map shade_rules shades.new.items)) }
    ensures same { (b : ℕ) → OnOk result (bsize_of geometry ≡ b →
        All (λ g. bsize_of g ≡ b) together.old.items →
        All (λ g. bsize_of g ≡ b) together.new.items) }
    ensures words { OnOk result (All HasWords together.old.items →
        All HasWords together.new.items) }
    ensures fresh { OnOk result (All IsNewSingle singles.old.items →
        All IsNewSingle singles.new.items) }
    ensures fresh_shades { OnOk result (All IsNewShade shades.old.items →
        All IsNewShade shades.new.items) }
{
    if has_stack(geometry, policy) {
        let seat = seat_together(together, geometry)?;
        return Ok(seat);
    }
    let shadow = shade_for(alloc, together, shades, geometry, policy)?;
    let cell = push_single(alloc, singles, geometry, policy, shadow)?;
    Ok(Seat {
        geometry,
        cell: Place::Apart(cell),
        shadow,
    })
}

/// The plan for some geometries, which have the block size of `first`.
pub(crate) fn plan_for(
    alloc: Global,
    geometries: &[Geometry],
    first: Geometry,
    policy: Policy,
) -> Result<Plan, AllocError>
    requires { All (λ g. bsize_of g ≡ bsize_of first) geometries.now }
    ensures rules { IfOk result (λ plan. map (λ s. rules_from s.geometry policy) plan.seats.items
        ≡ map (λ g. rules_from g policy) geometries.now) }
    ensures seated { IfOk result (λ plan. All (IsSeated policy
        (planned_rules policy.wback plan.together.items) (map single_rules plan.singles.items)
        (map shade_rules plan.shades.items)) plan.seats.items) }
    ensures shaded { IfOk result (λ plan. All (IsShaded
        (planned_rules policy.wback plan.together.items) (map shade_rules plan.shades.items))
        (map single_shading plan.singles.items)) }
    ensures same { IfOk result (λ plan.
        All (λ g. bsize_of g ≡ bsize_of first) plan.together.items) }
    ensures words { IfOk result (λ plan. All HasWords plan.together.items) }
    ensures fresh { IfOk result (λ plan. All IsNewSingle plan.singles.items) }
    ensures fresh_shades { IfOk result (λ plan. All IsNewShade plan.shades.items) }
{
    let mut seats = Vec::new(alloc);
    let mut together = Vec::new(alloc);
    let mut shades = Vec::new(alloc);
    let mut singles = Vec::new(alloc);
    for geometry in geometries {
        let seat = seat_for(
            alloc,
            &mut together,
            &mut shades,
            &mut singles,
            *geometry,
            policy,
        )?;
        seats.push(seat)?;
    }
    Ok(Plan {
        seats,
        together,
        shades,
        singles,
    })
}
