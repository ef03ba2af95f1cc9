//! Which blocks a cache holds, and what it knows of each.

ghost use Rattle.std.specs.Prelude.{◌≡◌, ◌≢◌, ◌<◌, ◌==◌, ◌++◌, ◌∷◌, [], ◌&&◌, ◌+◌, ◌*◌, ℕ};
ghost use Rattle.std.specs.Prelude.{List, if◌then◌else◌, get_or, is_some, length};
ghost use Rattle.std.specs.Prelude.{set as set_at};
ghost use Rattle.cache_core.specs.declared.access.Access.{Access};
ghost use Rattle.cache_core.specs.History.{History, Rules, access as accessed, is_write};
ghost use Rattle.cache_core.specs.Parts.{outcome_of};
ghost use Rattle.stamped_cache.specs.declared.state.State.TheVariants.{Absent};
ghost use Rattle.stamped_cache.specs.Holding.{HoldBy};
ghost use Rattle.stamped_cache.specs.Putting.{LeavesRoom, Misses, loaded};
ghost use Rattle.stamped_cache.specs.Rows.{row_held, rows_in, rows_of, set_ways};
ghost use Rattle.stamped_cache.specs.States.{state_blocks, state_users, states_of, was_written};

use crate::rows::Rows;
use crate::state::State;
use crate::states::States;

/// Puts a block of this number into a row that has room.
fn put_beside(
    states: &mut States,
    rows: &mut Rows,
    user: usize,
    row: usize,
    number: u32,
    write: bool,
)
    requires user { user < state_users states.old }
    requires row { row < rows_in rows.old }
    requires room { length (row_held rows.old row) < set_ways rows.old }
    requires number { number < state_blocks states.old }
    ensures states { (q k : ℕ) → q < state_users states.old → states_of states.new q k
        ≡ (if number == k && user == q then loaded write else states_of states.old q k) }
    ensures row { row_held rows.new row ≡ row_held rows.old row ++ number ∷ [] }
    ensures others { (t : ℕ) → t ≢ row → row_held rows.new t ≡ row_held rows.old t }
    ensures rows { rows_in rows.new ≡ rows_in rows.old }
    ensures ways { set_ways rows.new ≡ set_ways rows.old }
    ensures users { state_users states.new ≡ state_users states.old }
    ensures blocks { state_blocks states.new ≡ state_blocks states.old }
{
    rows.add(row, number);
    states.set(number as usize, user, State::of_load(write));
}

/// Puts a block of this number into a row, in the place of the one at an index, which leaves.
/// Answers whether that one was written.
fn put_over(
    states: &mut States,
    rows: &mut Rows,
    user: usize,
    row: usize,
    index: usize,
    number: u32,
    write: bool,
) -> bool
    requires user { user < state_users states.old }
    requires row { row < rows_in rows.old }
    requires index { index < length (row_held rows.old row) }
    requires number { number < state_blocks states.old }
    ensures back { result
        ≡ was_written (states_of states.old user (get_or (row_held rows.old row) index 0)) }
    ensures states { (q k : ℕ) → q < state_users states.old → states_of states.new q k
        ≡ (if number == k && user == q then loaded write
        else (if get_or (row_held rows.old row) index 0 == k && user == q then Absent
        else states_of states.old q k)) }
    ensures row { row_held rows.new row ≡ set_at (row_held rows.old row) index number }
    ensures others { (t : ℕ) → t ≢ row → row_held rows.new t ≡ row_held rows.old t }
    ensures rows { rows_in rows.new ≡ rows_in rows.old }
    ensures ways { set_ways rows.new ≡ set_ways rows.old }
    ensures users { state_users states.new ≡ state_users states.old }
    ensures blocks { state_blocks states.new ≡ state_blocks states.old }
{
    let left = rows.replace(row, index, number) as usize;
    let written = states.of(left, user).was_written();
    states.remove(left, user);
    states.set(number as usize, user, State::of_load(write));
    written
}

/// Puts a block of this number into a row of a user's cache, and lets the one at an index leave, if
/// there is one. Answers whether that one was written.
pub(crate) fn put(
    states: &mut States,
    rows: &mut Rows,
    user: usize,
    row: usize,
    leaving: Option<usize>,
    number: u32,
    write: bool,
) -> bool
    requires user { user < state_users states.old }
    requires row { row < rows_in rows.old }
    requires place { LeavesRoom (set_ways rows.old) (row_held rows.old row) leaving }
    requires number { number < state_blocks states.old }
    ensures held { (blocks : List ℕ) (r : Rules) (h : History) (x : Access) (set : ℕ) →
        let n = state_users states.old in row ≡ set * n + user → write ≡ is_write x →
        Misses blocks r h x number set leaving (states_of states.old user)
        (rows_of rows.old n user) →
        HoldBy blocks r (accessed x ∷ h) (states_of states.new user) (rows_of rows.new n user) }
    ensures back { (blocks : List ℕ) (r : Rules) (h : History) (x : Access) (set : ℕ) →
        let n = state_users states.old in row ≡ set * n + user →
        Misses blocks r h x number set leaving (states_of states.old user)
        (rows_of rows.old n user) →
        is_some (outcome_of r h x).back ≡ (result && r.wback) }
    ensures others { (q k : ℕ) → q < state_users states.old → q ≢ user →
        states_of states.new q k ≡ states_of states.old q k }
    ensures apart { (t : ℕ) → t ≢ row → row_held rows.new t ≡ row_held rows.old t }
    ensures rows { rows_in rows.new ≡ rows_in rows.old }
    ensures ways { set_ways rows.new ≡ set_ways rows.old }
    ensures users { state_users states.new ≡ state_users states.old }
    ensures blocks { state_blocks states.new ≡ state_blocks states.old }
{
    match leaving {
        None => {
            put_beside(states, rows, user, row, number, write);
            false
        }
        Some(index) => put_over(states, rows, user, row, index, number, write),
    }
}
