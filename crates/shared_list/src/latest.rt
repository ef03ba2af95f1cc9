//! The latest use of a log.

ghost use Rattle.std.specs.Prelude.{◌≡◌, ◌≢◌, ◌<◌, ◌≤◌, ◌-◌, ◌==◌, ◌&&◌, ◌∷◌, ◌^◌, ℕ, List, Some};
ghost use Rattle.std.specs.List.{All};
ghost use Rattle.std.specs.Prelude.{if◌then◌else◌, length, map, get_or};
ghost use Rattle.cache_core.specs.Residents.{distinct};
ghost use Rattle.marked_list.specs.Uses.{dead, forgotten, last_in, living, stamp_at, used_next};
ghost use Rattle.marked_list.specs.Uses.{with_dead};
ghost use Rattle.shared_list.specs.Log.{no_use, seen, seen_by};
ghost use Rattle.shared_list.specs.Stamps.{blocks_in, stamps_of, users_in};

use crate::log::{Use, bury, give};
use crate::stamps::Stamps;

/// Takes a use from a user, if there is one.
#[inline(always)]
fn bury_last(log: &mut Vec<Use>, user: usize, last: Option<usize>)
    requires inside { (p : ℕ) → last ≡ Some p → p < length log.old.items }
    requires user { user < 32 }
    ensures seen { (q : ℕ) → q < 32 → map (seen q) log.new.items
        ≡ (if q == user then with_dead (map (seen q) log.old.items) last
        else map (seen q) log.old.items) }
    ensures numbers { map (λ u. u.number) log.new.items ≡ map (λ u. u.number) log.old.items }
    ensures fit { All (λ u. u.users < 2 ^ 32) log.old.items →
        All (λ u. u.users < 2 ^ 32) log.new.items }
{
    if let Some(place) = last {
        bury(log, place, user);
    }
}

/// Makes the latest use one of a user, by the last use of its block by this user before it.
#[inline(always)]
pub(crate) fn use_latest(
    log: &mut Vec<Use>,
    stamps: &mut Stamps,
    user: usize,
    number: usize,
    last: Option<usize>,
)
    requires some { 0 < length log.old.items }
    requires short { length log.old.items ≤ forgotten }
    requires few { users_in stamps.old ≤ 32 }
    requires user { user < users_in stamps.old }
    requires room { number < blocks_in stamps.old }
    requires block { (get_or log.old.items (length log.old.items - 1) (no_use 0)).number ≡ number }
    requires before { (p : ℕ) → last ≡ Some p → p < length log.old.items - 1 }
    ensures seen { (ms : List ℕ) → seen_by user log.old.items ≡ dead ∷ ms →
        distinct (living ms) ≡ living ms → number ≢ dead → last ≡ last_in ms number →
        seen_by user log.new.items ≡ used_next number ms }
    ensures others { (q : ℕ) → q < 32 → q ≢ user →
        seen_by q log.new.items ≡ seen_by q log.old.items }
    ensures stamps { (q n : ℕ) → q < users_in stamps.old → stamp_at (stamps_of stamps.new q) n
        ≡ (if number == n && user == q then length log.old.items - 1
        else stamp_at (stamps_of stamps.old q) n) }
    ensures numbers { map (λ u. u.number) log.new.items ≡ map (λ u. u.number) log.old.items }
    ensures fit { All (λ u. u.users < 2 ^ 32) log.old.items →
        All (λ u. u.users < 2 ^ 32) log.new.items }
    ensures blocks { blocks_in stamps.new ≡ blocks_in stamps.old }
    ensures users { users_in stamps.new ≡ users_in stamps.old }
{
    let latest = log.len() - 1;
    bury_last(log, user, last);
    give(log, latest, user);
    stamps.set(number, user, latest as u32);
}
