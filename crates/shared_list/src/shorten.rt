//! A log is shortened to the uses that are the last one of some user.

ghost use Rattle.std.specs.Prelude.{◌≡◌, ◌≢◌, ◌<◌, ◌≤◌, ◌+◌, ◌^◌, ◌==◌, ◌&&◌, [], ℕ, true};
ghost use Rattle.std.specs.Prelude.{IfOk};
ghost use Rattle.std.specs.Prelude.{if◌then◌else◌, filter, length, map, get_or, take, unwrap_or};
ghost use Rattle.std.specs.List.{All, list_any};
ghost use Rattle.marked_list.specs.Uses.{dead, forgotten, last_in, living, stamp_at};
ghost use Rattle.shared_list.specs.Log.{has_users, seen_by};
ghost use Rattle.shared_list.specs.Stamps.{blocks_in, stamps_of, users_in};
ghost use Rattle.shared_list.specs.Users.{has_user};
ghost use Rattle.shared_list.specs.Windows.{at_place, no_window};

use crate::log::Use;
use crate::stamps::{FORGOTTEN, Stamps};
use crate::users::{first, without};
use crate::window::Window;
use std::alloc::{AllocError, Global};

/// For each place of a log, and for its end, how many uses before it have users.
pub(crate) fn kept_before(alloc: Global, log: &[Use]) -> Result<Vec<u32>, AllocError>
    requires short { length log.now < 2 ^ 32 }
    ensures kept { IfOk result (λ before. (p : ℕ) → p ≤ length log.now →
        get_or before.items p 0 ≡ length (filter has_users (take p log.now))) }
    ensures len { IfOk result (λ before. length before.items ≡ length log.now + 1) }
{
    let mut before = Vec::new(alloc);
    let mut kept = 0;
    for one in log {
        before.push(kept)?;
        if one.users != 0 {
            kept += 1;
        }
    }
    before.push(kept)?;
    Ok(before)
}

/// Keeps the uses that have users.
pub(crate) fn keep_used(log: &mut Vec<Use>)
    ensures { log.new.items ≡ filter has_users log.old.items }
{
    log.retain(
        |one: &Use| -> bool
            ensures { result ≡ has_users one.now }
        { one.users != 0 },
    );
}

/// Sets the stamps that the users of a use have of its block.
fn stamp_users(stamps: &mut Stamps, one: Use, stamp: u32)
    requires few { users_in stamps.old ≤ 32 }
    requires users { (q : ℕ) → q < 32 → has_user one.users q ≡ true → q < users_in stamps.old }
    requires room { one.number < blocks_in stamps.old }
    ensures set { (q n : ℕ) → q < users_in stamps.old → stamp_at (stamps_of stamps.new q) n
        ≡ (if one.number == n && has_user one.users q then stamp
        else stamp_at (stamps_of stamps.old q) n) }
    ensures blocks { blocks_in stamps.new ≡ blocks_in stamps.old }
    ensures users { users_in stamps.new ≡ users_in stamps.old }
{
    let mut rest = one.users;
    while rest != 0 {
        let user = first(rest);
        stamps.set(one.number as usize, user, stamp);
        rest = without(rest, user);
    }
}

/// Stamps the users of each use with its place.
pub(crate) fn restamp(log: &[Use], stamps: &mut Stamps)
    requires short { length log.now < 2 ^ 32 }
    requires few { users_in stamps.old ≤ 32 }
    requires users { (q : ℕ) → users_in stamps.old ≤ q → q < 32 → living (seen_by q log.now) ≡ [] }
    requires low { All (λ u. u.number < dead) log.now }
    requires room { All (λ u. u.number < blocks_in stamps.old) log.now }
    ensures stamped { (q n : ℕ) → q < users_in stamps.old → n ≢ dead →
        stamp_at (stamps_of stamps.new q) n
        ≡ unwrap_or (last_in (seen_by q log.now) n) (stamp_at (stamps_of stamps.old q) n) }
    ensures no_block { (q : ℕ) → q < users_in stamps.old →
        stamp_at (stamps_of stamps.new q) dead ≡ stamp_at (stamps_of stamps.old q) dead }
    ensures blocks { blocks_in stamps.new ≡ blocks_in stamps.old }
    ensures users { users_in stamps.new ≡ users_in stamps.old }
{
    for (place, one) in log.iter().enumerate() {
        stamp_users(stamps, *one, place as u32);
    }
}

/// Stamps the blocks of all uses as ones whose uses were forgotten.
pub(crate) fn unstamp(log: &[Use], stamps: &mut Stamps)
    requires few { users_in stamps.old ≤ 32 }
    requires users { (q : ℕ) → users_in stamps.old ≤ q → q < 32 → living (seen_by q log.now) ≡ [] }
    requires low { All (λ u. u.number < dead) log.now }
    requires room { All (λ u. u.number < blocks_in stamps.old) log.now }
    ensures forgotten { (q n : ℕ) → q < users_in stamps.old → stamp_at (stamps_of stamps.new q) n
        ≡ (if list_any (λ m. m == n) (living (seen_by q log.now)) then forgotten
        else stamp_at (stamps_of stamps.old q) n) }
    ensures blocks { blocks_in stamps.new ≡ blocks_in stamps.old }
    ensures users { users_in stamps.new ≡ users_in stamps.old }
{
    for one in log {
        stamp_users(stamps, *one, FORGOTTEN);
    }
}

/// Moves each window to the place that it has once only uses with users are kept.
pub(crate) fn move_windows(windows: &mut Vec<Window>, before: &[u32])
    requires { (k : ℕ) → k < length windows.old.items →
        (get_or windows.old.items k no_window).place < length before.now }
    ensures { windows.new.items ≡ map (at_place before.now) windows.old.items }
{
    for window in windows.iter_mut() {
        window.place = before[window.place] as usize;
    }
}
