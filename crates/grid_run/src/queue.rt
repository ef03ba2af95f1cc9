//! Requests that wait for second levels.

ghost use Rattle.std.specs.Prelude.{List};
ghost use Rattle.stage_core.specs.declared.message.Side.TheVariants as one;
ghost use Rattle.grid_run.specs.Senders.{AreSendersTo, MayShare};

use crate::front::Front;
use crate::numbered::Numbered;
use crate::seat::BothSeats;
use crate::senders::{Senders, senders_for};
use cache_core::{Geometry, NoMemory};
use grid_core::BlockNumbers;
use stage_core::Side;
use std::alloc::Global;

/// What first-level caches have sent to second levels since these were last given it. The users of
/// a queue are second levels of one block size, each behind two first-level caches of its own. A
/// request that many of them get stands in the queue once.
#[derive(Drop)]
pub(crate) struct Queue {
    /// The block size of the second levels, as that of a geometry.
    pub first: Geometry,
    /// The seats in front of each user.
    pub users: Vec<BothSeats>,
    i: Senders,
    d: Senders,
    pub waiting: Vec<Numbered>,
    ghost share: { MayShare users.items },
    ghost from_i: { AreSendersTo one.I users.items i },
    ghost from_d: { AreSendersTo one.D users.items d },
}

/// Of what there is for each side, that of a side.
fn of_side<'a>(side: Side, i: &'a Senders, d: &'a Senders) -> &'a Senders
    ensures { (users : List BothSeats) → AreSendersTo one.I users i.now →
        AreSendersTo one.D users d.now → AreSendersTo side users result.now }
{
    match side {
        Side::I => i,
        Side::D => d,
    }
}

#[tactic(auto, unfolding(crate::specs::Backs::queue_seats))]
impl Queue {
    ghost use Rattle.std.specs.Prelude.{◌≡◌, IfOk, OnOk, map};
    ghost use Rattle.std.specs.List.{All};
    ghost use Rattle.cache_core.specs.History.{History};
    ghost use Rattle.grid_core.specs.Numbered.{blocks_in};
    ghost use Rattle.grid_run.specs.Backs.{AreSeatedOn, AreWaiting, HasNone, RequestsFor};
    ghost use Rattle.grid_run.specs.Backs.{StaysNumbered, followed_by, queue_seats, sent_for};
    ghost use Rattle.grid_run.specs.Fronts.{HasSent, KnowsLast, front_rules};
    ghost use Rattle.grid_run.specs.Senders.{MayShare};
    ghost use Rattle.grid_run.specs.Sending.{event_of};
    ghost use Rattle.grid_run.specs.declared.requests.Request.{Request};

    /// An empty queue for these users.
    pub fn new(alloc: Global, first: Geometry, users: &[BothSeats]) -> Result<Queue, NoMemory>
        requires { MayShare users.now }
        ensures seats { IfOk result (λ queue.
            queue_seats queue ≡ record { first = first; users = users.now }) }
        ensures none { IfOk result HasNone }
    {
        let Ok(own) = Vec::from_slice(alloc, users) else {
            return Err(NoMemory);
        };
        Ok(Queue {
            first,
            users: own,
            i: senders_for(alloc, Side::I, users)?,
            d: senders_for(alloc, Side::D, users)?,
            waiting: Vec::new(alloc),
        })
    }

    /// Takes what the first-level caches of a side sent for the last request. `fronts` are the
    /// caches of this side. Blocks get numbers, if they have none yet.
    pub fn ask(
        &mut self,
        fronts: &[Front],
        side: Side,
        numbers: &mut BlockNumbers,
    ) -> Result<(), NoMemory>
        requires placed { AreSeatedOn side (map front_rules fronts.now) (queue_seats self.old) }
        requires sent { (h : History) × (q : Request) × All (HasSent h q) fronts.now }
        requires known { All (KnowsLast (blocks_in numbers.old)) fronts.now }
        ensures asked { OnOk result ((served : RequestsFor) (h : History) (q : Request)
            (before : RequestsFor) → All (HasSent h q) fronts.now →
            AreWaiting served before self.old → AreWaiting served (followed_by before
            (sent_for side (map front_rules fronts.now) h (event_of q))) self.new) }
        ensures numbers { OnOk result (StaysNumbered (blocks_in numbers.old) self.old
            (blocks_in numbers.new) self.new) }
        ensures seats { queue_seats self.new ≡ queue_seats self.old }
    {
        let senders = of_side(side, &self.i, &self.d);
        let front = &fronts[senders.family];
        front.send(&senders.each, side, self.first, numbers, &mut self.waiting)
    }
}
