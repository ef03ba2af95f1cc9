//! The queues behind the first-level caches of a lane.

ghost use Rattle.std.specs.Prelude.{◌≡◌, ◌++◌, IfOk, OnOk, map};
ghost use Rattle.std.specs.List.{All};
ghost use Rattle.cache_core.specs.History.{History};
ghost use Rattle.grid_core.specs.Numbered.{blocks_in};
ghost use Rattle.grid_run.specs.Backs.{AreSeatedOn, AreWaiting, HasNone, QueuesStayNumbered};
ghost use Rattle.grid_run.specs.Backs.{RequestsFor, back_seats, followed_by, queue_seats};
ghost use Rattle.grid_run.specs.Backs.{seats_of_shared, sent_for};
ghost use Rattle.grid_run.specs.Banks.{tasks_of_banks};
ghost use Rattle.grid_run.specs.Fronts.{HasSent, KnowsLast, front_rules};
ghost use Rattle.grid_run.specs.Sending.{event_of};
ghost use Rattle.grid_run.specs.declared.requests.Request.{Request};

use crate::back::Back;
use crate::bank::Bank;
use crate::front::Front;
use crate::lists::add_to;
use crate::queue::Queue;
use cache_core::NoMemory;
use grid_core::BlockNumbers;
use stage_core::Side;
use std::alloc::Global;

/// One thread serves what waits as soon as there are so many requests for each second level, on
/// average. The more there are, the longer each second level finds its own in the processor's
/// caches; but what waits takes memory.
const MUCH_EACH: usize = 65_536;

/// It does so, too, as soon as there are so many for all second levels of a lane.
const MUCH: usize = 2_097_152;

/// Adds an empty queue in front of each of these second levels.
fn add_queues(alloc: Global, backs: &[Back], queues: &mut Vec<Queue>) -> Result<(), NoMemory>
    ensures seats { OnOk result (map queue_seats queues.new.items
        ≡ map queue_seats queues.old.items ++ map back_seats backs.now) }
    ensures none { OnOk result (All HasNone queues.old.items → All HasNone queues.new.items) }
{
    for back in backs {
        let queue = Queue::new(alloc, back.first, &back.users)?;
        add_to(queues, queue)?;
    }
    Ok(())
}

/// An empty queue in front of each of the second levels of these banks, in their order.
pub(crate) fn queues_for(alloc: Global, banks: &[Bank]) -> Result<Vec<Queue>, NoMemory>
    ensures seats { IfOk result (λ queues. map queue_seats queues.items
        ≡ map seats_of_shared (tasks_of_banks banks.now)) }
    ensures none { IfOk result (λ queues. All HasNone queues.items) }
{
    let mut queues = Vec::new(alloc);
    for bank in banks {
        add_queues(alloc, &bank.backs, &mut queues)?;
    }
    Ok(queues)
}

/// All queues take what the first-level caches of a side sent for the last request.
pub(crate) fn ask_queues(
    queues: &mut Vec<Queue>,
    fronts: &[Front],
    side: Side,
    numbers: &mut BlockNumbers,
) -> Result<(), NoMemory>
    requires placed { All (AreSeatedOn side (map front_rules fronts.now))
        (map queue_seats queues.old.items) }
    requires sent { (h : History) × (q : Request) × All (HasSent h q) fronts.now }
    requires known { All (KnowsLast (blocks_in numbers.old)) fronts.now }
    ensures asked { OnOk result ((served : RequestsFor) (h : History) (q : Request)
        (before : RequestsFor) → All (HasSent h q) fronts.now →
        All (AreWaiting served before) queues.old.items →
        All (AreWaiting served (followed_by before
        (sent_for side (map front_rules fronts.now) h (event_of q)))) queues.new.items) }
    ensures numbers { OnOk result (QueuesStayNumbered (blocks_in numbers.old) queues.old.items
        (blocks_in numbers.new) queues.new.items) }
    ensures seats { map queue_seats queues.new.items ≡ map queue_seats queues.old.items }
{
    for queue in queues.iter_mut() {
        queue.ask(fronts, side, numbers)?;
    }
    Ok(())
}

/// Whether so many requests wait that they should be served.
pub(crate) fn much_waits(queues: &[Queue]) -> bool {
    let mut sum = 0usize;
    for queue in queues {
        sum = sum.saturating_add(queue.waiting.len());
    }
    sum >= queues.len().saturating_mul(MUCH_EACH).min(MUCH)
}
