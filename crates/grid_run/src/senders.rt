//! The first-level caches that send to a queue, and to which of its users each does.

ghost use Rattle.std.specs.Prelude.{◌≡◌, ◌≢◌, ◌<◌, ◌≤◌, ◌+◌, ◌∷◌, [], ℕ, List, IfOk, OnOk};
ghost use Rattle.std.specs.Prelude.{length};
ghost use Rattle.grid_run.specs.Senders.{AreSendersTo, HaveCells, cells_for, seat_on, seats_at};

use crate::lists::add_to;
use crate::seat::BothSeats;
use cache_core::NoMemory;
use shared_list::Users;
use stage_core::Side;
use std::alloc::Global;

/// The cache at a cell, and the users to which it sends.
#[derive(Clone, Copy, Debug)]
pub(crate) struct Sender {
    pub cell: usize,
    pub users: Users,
}

/// The caches of one side that send to the users of a queue. All of them are of one family.
#[derive(Drop)]
pub(crate) struct Senders {
    pub family: usize,
    pub each: Vec<Sender>,
}

/// Lets the cache at a cell send to one more user.
fn send_to(each: &mut Vec<Sender>, cell: usize, user: usize) -> Result<(), NoMemory>
    requires low { user < 32 }
    requires alone { cells_for user each.old.items ≡ [] }
    ensures own { OnOk result (cells_for user each.new.items ≡ cell ∷ []) }
    ensures others { OnOk result ((k : ℕ) → k < 32 → k ≢ user →
        cells_for k each.new.items ≡ cells_for k each.old.items) }
    ensures cells { OnOk result ((users : List BothSeats) (s : Side) (n : ℕ) →
        n ≡ user → cell ≡ (seat_on s (seats_at users n)).cell →
        HaveCells s users n each.old.items → HaveCells s users (n + 1) each.new.items) }
{
    let last = each.len().saturating_sub(1);
    if last < each.len() && each[last].cell == cell {
        each[last].users = each[last].users.with(user);
        return Ok(());
    }
    let users = Users::one(user);
    add_to(each, Sender { cell, users })?;
    Ok(())
}

/// The caches of a side that send to these users.
pub(crate) fn senders_for(
    alloc: Global,
    side: Side,
    users: &[BothSeats],
) -> Result<Senders, NoMemory>
    requires some { 0 < length users.now }
    requires few { length users.now ≤ 32 }
    requires family { (k : ℕ) → k < length users.now → (seat_on side (seats_at users.now k)).family
        ≡ (seat_on side (seats_at users.now 0)).family }
    ensures { IfOk result (AreSendersTo side users.now) }
{
    let mut each = Vec::new(alloc);
    for (user, seats) in users.iter().enumerate() {
        send_to(&mut each, seats.on(side).cell, user)?;
    }
    let family = users[0].on(side).family;
    Ok(Senders { family, each })
}
