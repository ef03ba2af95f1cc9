//! The first-level caches of a lane.

ghost use Rattle.std.specs.Prelude.{◌≡◌, ◌<◌, ◌≤◌, ◌+◌, ◌*◌, ◌^◌, ◌++◌, ◌∷◌, [], List, IfOk};
ghost use Rattle.std.specs.Prelude.{OnOk, length, map, option_to_list, take};
ghost use Rattle.std.specs.List.{All};
ghost use Rattle.cache_core.specs.History.{History};
ghost use Rattle.grid_core.specs.Numbered.{blocks_in};
ghost use Rattle.din_trace.specs.declared.record.DinRecord.{DinRecord};
ghost use Rattle.stage_core.specs.Events.{IsBounded, history};
ghost use Rattle.grid_run.specs.Backs.{AreSeatedOn, AreWaiting, HasNone, QueuesStayNumbered};
ghost use Rattle.grid_run.specs.Backs.{RequestsFor, followed_by, no_requests, queue_seats};
ghost use Rattle.grid_run.specs.Backs.{sent_for, sent_on_side};
ghost use Rattle.grid_run.specs.FirstLevels.{AreSeated, HasServed, StaysNumberedIn, WasGiven};
ghost use Rattle.grid_run.specs.FirstLevels.{first_of_plan, first_task};
ghost use Rattle.grid_run.specs.Fronts.{FrontAt, front_rules};
ghost use Rattle.grid_run.specs.Sending.{event_of};

use crate::bank::Bank;
use crate::front::Front;
use crate::fronts::{are_silent, fronts_for, serve_again, serve_fetches, serve_fronts};
use crate::picker::Picker;
use crate::plan::LanePlan;
use crate::queue::Queue;
use crate::queues::{ask_queues, queues_for};
use crate::requests::{Request, asked_of};
use cache_core::NoMemory;
use din_trace::{DinRecord, Label, MAX_LIMIT};
use grid_core::BlockNumbers;
use stage_core::{Side, selections_make_at_most_two};
use std::alloc::Global;

/// A picker, the first-level caches that serve the events that it picks, and the queues of what
/// these send.
#[derive(Drop)]
pub(crate) struct FirstLevels {
    picker: Picker,
    pub i: Vec<Front>,
    pub d: Vec<Front>,
    pub queues: Vec<Queue>,
    /// The numbers of the blocks, for these caches and for the second levels.
    pub numbers: BlockNumbers,
}

/// Serves a request in all caches of a side. What these send waits for the second levels. Not
/// inlined, so that what an event does not ask of a side costs next to nothing.
#[inline(never)]
fn serve_request(
    fronts: &mut Vec<Front>,
    queues: &mut Vec<Queue>,
    numbers: &mut BlockNumbers,
    side: Side,
    request: Request,
) -> Result<(), NoMemory>
    requires placed { All (AreSeatedOn side (map front_rules fronts.old.items))
        (map queue_seats queues.old.items) }
    requires room { (h : History) × All (FrontAt (blocks_in numbers.old) h) fronts.old.items
        × (length h < 2 ^ 44) }
    ensures stands { OnOk result ((h : History) →
        All (FrontAt (blocks_in numbers.old) h) fronts.old.items →
        All (FrontAt (blocks_in numbers.new) (event_of request ∷ h)) fronts.new.items) }
    ensures asked { OnOk result ((served : RequestsFor) (h : History) (before : RequestsFor) →
        All (FrontAt (blocks_in numbers.old) h) fronts.old.items →
        All (AreWaiting served before) queues.old.items → All (AreWaiting served (followed_by before
        (sent_for side (map front_rules fronts.old.items) h (event_of request))))
        queues.new.items) }
    ensures numbers { OnOk result (QueuesStayNumbered (blocks_in numbers.old) queues.old.items
        (blocks_in numbers.new) queues.new.items) }
    ensures rules { map front_rules fronts.new.items ≡ map front_rules fronts.old.items }
    ensures seats { map queue_seats queues.new.items ≡ map queue_seats queues.old.items }
{
    serve_fronts(fronts, request, numbers)?;
    if are_silent(fronts) {
        return Ok(());
    }
    ask_queues(queues, fronts, side, numbers)
}

/// Serves what an event asks of a side, if it does. This is inlined, as are its callers and what
/// leads to the short way, which is so served within the loop over the records. Not inlined, a
/// fetch took about 30 instructions more.
#[inline(always)]
fn serve_side(
    fronts: &mut Vec<Front>,
    queues: &mut Vec<Queue>,
    numbers: &mut BlockNumbers,
    side: Side,
    event: DinRecord,
) -> Result<(), NoMemory>
    requires placed { All (AreSeatedOn side (map front_rules fronts.old.items))
        (map queue_seats queues.old.items) }
    requires room { (es : List DinRecord)
        × All (FrontAt (blocks_in numbers.old) (history side es)) fronts.old.items
        × (length es < 2 * MAX_LIMIT) }
    ensures stands { OnOk result ((es : List DinRecord) →
        All (FrontAt (blocks_in numbers.old) (history side es)) fronts.old.items →
        All (FrontAt (blocks_in numbers.new) (history side (es ++ event ∷ [])))
        fronts.new.items) }
    ensures asked { OnOk result ((served : RequestsFor) (es : List DinRecord)
        (before : RequestsFor) →
        All (FrontAt (blocks_in numbers.old) (history side es)) fronts.old.items →
        All (AreWaiting served before) queues.old.items → All (AreWaiting served (followed_by before
        (sent_on_side side (map front_rules fronts.old.items) es event))) queues.new.items) }
    ensures numbers { OnOk result (QueuesStayNumbered (blocks_in numbers.old) queues.old.items
        (blocks_in numbers.new) queues.new.items) }
    ensures rules { map front_rules fronts.new.items ≡ map front_rules fronts.old.items }
    ensures seats { map queue_seats queues.new.items ≡ map queue_seats queues.old.items }
{
    let Some(request) = asked_of(side, event) else {
        return Ok(());
    };
    if serve_again(fronts, request) {
        return Ok(());
    }
    serve_request(fronts, queues, numbers, side, request)
}

#[tactic(auto, unfolding(crate::specs::FirstLevels::first_task, crate::specs::FirstLevels::first_of_plan))]
impl FirstLevels {
    /// The empty caches of a plan, in front of these banks.
    pub fn new(alloc: Global, plan: &LanePlan, banks: &[Bank]) -> Result<FirstLevels, NoMemory>
        requires bounded { IsBounded plan.now.selection }
        requires seated { AreSeated (first_of_plan plan.now banks.now) }
        ensures given { IfOk result (WasGiven no_requests []) }
        ensures none { IfOk result (λ first. All HasNone first.queues.items) }
        ensures task { IfOk result (λ first.
            first_task first ≡ first_of_plan plan.now banks.now) }
    {
        Ok(FirstLevels {
            picker: Picker::new(plan.selection),
            i: fronts_for(alloc, &plan.i)?,
            d: fronts_for(alloc, &plan.d)?,
            queues: queues_for(alloc, banks)?,
            numbers: BlockNumbers::new(alloc),
        })
    }

    /// Serves an event in all caches. What these send waits for the second levels.
    #[inline(always)]
    fn take_event(&mut self, event: DinRecord) -> Result<(), NoMemory>
        requires seated { AreSeated (first_task self.old) }
        requires room { (served : RequestsFor) × (es : List DinRecord)
            × HasServed served es self.old × (length es < 2 * MAX_LIMIT) }
        ensures served { OnOk result ((served : RequestsFor) (es : List DinRecord) →
            HasServed served es self.old → HasServed served (es ++ event ∷ []) self.new) }
        ensures numbers { OnOk result (StaysNumberedIn self.old self.new) }
        ensures task { first_task self.new ≡ first_task self.old }
        ensures picker { self.new.picker ≡ self.old.picker }
    {
        let numbers = &mut self.numbers;
        serve_side(&mut self.i, &mut self.queues, numbers, Side::I, event)?;
        // Most events are fetches, which ask nothing of the data caches.
        if matches!(event.label, Label::Instr) {
            return Ok(());
        }
        serve_side(&mut self.d, &mut self.queues, numbers, Side::D, event)
    }

    /// Serves an event in all caches, if there is one.
    #[inline(always)]
    fn take_some(&mut self, event: Option<DinRecord>) -> Result<(), NoMemory>
        requires seated { AreSeated (first_task self.old) }
        requires room { (served : RequestsFor) × (es : List DinRecord)
            × HasServed served es self.old × (length es < 2 * MAX_LIMIT) }
        ensures served { OnOk result ((served : RequestsFor) (es : List DinRecord) →
            HasServed served es self.old → HasServed served (es ++ option_to_list event) self.new) }
        ensures numbers { OnOk result (StaysNumberedIn self.old self.new) }
        ensures task { first_task self.new ≡ first_task self.old }
        ensures picker { self.new.picker ≡ self.old.picker }
    {
        match event {
            Some(event) => self.take_event(event),
            None => Ok(()),
        }
    }

    /// Takes a record, and serves the events that the selection makes of it.
    fn take(&mut self, next: DinRecord) -> Result<(), NoMemory>
        requires room { (served : RequestsFor) × (past : List DinRecord)
            × WasGiven served past self.old × (length past < MAX_LIMIT) }
        ensures given { OnOk result ((served : RequestsFor) (past : List DinRecord) →
            WasGiven served past self.old → WasGiven served (past ++ next ∷ []) self.new) }
        ensures numbers { OnOk result (StaysNumberedIn self.old self.new) }
        ensures task { first_task self.new ≡ first_task self.old }
    {
        selections_make_at_most_two();
        let picked = self.picker.offer(next);
        self.take_some(picked.event)?;
        self.take_some(picked.inserted())
    }

    /// Takes the fetches that stand first among these records, as long as they go the short way, if
    /// each record is an event as it is. Answers how many these are.
    fn take_fetches(&mut self, part: &[DinRecord]) -> usize
        requires room { (served : RequestsFor) × (past : List DinRecord)
            × WasGiven served past self.old × (length past + length part.now ≤ MAX_LIMIT) }
        ensures inside { result ≤ length part.now }
        ensures given { (served : RequestsFor) (past : List DinRecord) →
            WasGiven served past self.old →
            WasGiven served (past ++ take result part.now) self.new }
        ensures numbers { StaysNumberedIn self.old self.new }
        ensures task { first_task self.new ≡ first_task self.old }
    {
        selections_make_at_most_two();
        if !self.picker.is_whole() {
            return 0;
        }
        serve_fetches(&mut self.i, part)
    }

    /// Takes records in their order.
    pub fn take_part(&mut self, part: &[DinRecord]) -> Result<(), NoMemory>
        requires room { (served : RequestsFor) × (past : List DinRecord)
            × WasGiven served past self.old × (length past + length part.now ≤ MAX_LIMIT) }
        ensures given { OnOk result ((served : RequestsFor) (past : List DinRecord) →
            WasGiven served past self.old → WasGiven served (past ++ part.now) self.new) }
        ensures numbers { OnOk result (StaysNumberedIn self.old self.new) }
        ensures task { first_task self.new ≡ first_task self.old }
    {
        let mut index = 0;
        'records: while index < part.len() {
            self.take(part[index])?;
            index += 1;
            index += self.take_fetches(&part[index..]);
        }
        Ok(())
    }
}
