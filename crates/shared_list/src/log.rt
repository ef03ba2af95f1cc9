//! A log of uses that many users share.

ghost use Rattle.std.specs.Prelude.{◌≡◌, ◌<◌, ◌≤◌, ◌+◌, ◌-◌, ◌==◌, ◌^◌, ℕ};
ghost use Rattle.std.specs.Prelude.{if◌then◌else◌, length, map, get_or, set, take};
ghost use Rattle.std.specs.List.{All};
ghost use Rattle.marked_list.specs.Uses.{dead, living, since};
ghost use Rattle.shared_list.specs.Log.{no_use, seen, seen_by};

use crate::users::{has, with, without};

/// A use of a block, by the number of the block, and the users whose last use of the block it is.
#[derive(Clone, Copy, Debug)]
pub(crate) struct Use {
    pub number: u32,
    pub users: u32,
}

/// Lets a use be the last one of a user no longer.
#[inline(always)]
pub(crate) fn bury(log: &mut Vec<Use>, place: usize, user: usize)
    requires inside { place < length log.old.items }
    requires user { user < 32 }
    ensures seen { (q : ℕ) → q < 32 → map (seen q) log.new.items
        ≡ (if q == user then set (map (seen q) log.old.items) place dead
        else map (seen q) log.old.items) }
    ensures numbers { map (λ u. u.number) log.new.items ≡ map (λ u. u.number) log.old.items }
    ensures fit { All (λ u. u.users < 2 ^ 32) log.old.items →
        All (λ u. u.users < 2 ^ 32) log.new.items }
{
    log[place].users = without(log[place].users, user);
}

/// Lets a use be the last one of a user.
#[inline(always)]
pub(crate) fn give(log: &mut Vec<Use>, place: usize, user: usize)
    requires inside { place < length log.old.items }
    requires user { user < 32 }
    ensures seen { (q : ℕ) → q < 32 → map (seen q) log.new.items
        ≡ (if q == user
        then set (map (seen q) log.old.items) place (get_or log.old.items place (no_use 0)).number
        else map (seen q) log.old.items) }
    ensures numbers { map (λ u. u.number) log.new.items ≡ map (λ u. u.number) log.old.items }
    ensures fit { All (λ u. u.users < 2 ^ 32) log.old.items →
        All (λ u. u.users < 2 ^ 32) log.new.items }
{
    log[place].users = with(log[place].users, user);
}

/// The place behind the first use from `place` on that is the last one of a user, or behind all.
pub(crate) fn behind_next(log: &[Use], user: usize, place: usize) -> usize
    requires inside { place < length log.now }
    requires user { user < 32 }
    requires low { All (λ u. u.number < dead) log.now }
    ensures within { result ≤ length log.now }
    ensures one_less { let window = living (since place (seen_by user log.now)) in
        living (since result (seen_by user log.now)) ≡ take (length window - 1) window }
{
    let mut index = place;
    while index + 1 < log.len() && !has(log[index].users, user) {
        index += 1;
    }
    index + 1
}
