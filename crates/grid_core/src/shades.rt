//! The shadows of caches that do not allocate at writes, one after another.

ghost use Rattle.std.specs.Prelude.{◌≡◌, ◌<◌, ◌+◌, ◌∷◌, ℕ, map, OnOk};
ghost use Rattle.std.specs.List.{All};
ghost use Rattle.cache_core.specs.History.{History, access as accessed, flush as flushed};
ghost use Rattle.grid_core.specs.Shades.{ShadeStandsFor, ShadeReached, ShadeHasHit};
ghost use Rattle.grid_core.specs.Shades.{ShadeHasCounted, shade_rules, shade_misses};

use crate::shade::Shade;
use cache_core::{Access, MAX_EVENTS};
use std::alloc::AllocError;

/// Serves an access in all of them. It is not counted yet.
pub(crate) fn serve_shades(shades: &mut Vec<Shade>, access: Access) -> Result<(), AllocError>
    ensures reached { OnOk result ((h : History) → All (ShadeStandsFor h) shades.old.items →
        All (ShadeReached h access) shades.new.items) }
    ensures counted { OnOk result ((n : ℕ) → All (ShadeHasCounted n) shades.old.items →
        All (ShadeHasCounted n) shades.new.items) }
    ensures misses { map shade_misses shades.new.items ≡ map shade_misses shades.old.items }
    ensures rules { map shade_rules shades.new.items ≡ map shade_rules shades.old.items }
{
    for shade in shades.iter_mut() {
        shade.serve(access)?;
    }
    Ok(())
}

/// Counts the access that all of them served last.
pub(crate) fn settle_shades(shades: &mut Vec<Shade>, access: Access)
    requires { (n : ℕ) × All (ShadeHasCounted n) shades.old.items × (n < MAX_EVENTS) }
    ensures stands { (h : History) → All (ShadeReached h access) shades.old.items →
        All (ShadeStandsFor (accessed access ∷ h)) shades.new.items }
    ensures hit { (h : History) → All (ShadeReached h access) shades.old.items →
        All (ShadeHasHit h access) shades.new.items }
    ensures counted { (n : ℕ) → All (ShadeHasCounted n) shades.old.items →
        All (ShadeHasCounted (n + 1)) shades.new.items }
    ensures rules { map shade_rules shades.new.items ≡ map shade_rules shades.old.items }
{
    for shade in shades.iter_mut() {
        shade.settle(access);
    }
}

/// Lets all blocks of all of them go.
pub(crate) fn clear_shades(shades: &mut Vec<Shade>)
    requires { (n : ℕ) × All (ShadeHasCounted n) shades.old.items × (n < MAX_EVENTS) }
    ensures stands { (h : History) → All (ShadeStandsFor h) shades.old.items →
        All (ShadeStandsFor (flushed ∷ h)) shades.new.items }
    ensures counted { (n : ℕ) → All (ShadeHasCounted n) shades.old.items →
        All (ShadeHasCounted (n + 1)) shades.new.items }
    ensures rules { map shade_rules shades.new.items ≡ map shade_rules shades.old.items }
{
    for shade in shades.iter_mut() {
        shade.clear();
    }
}
