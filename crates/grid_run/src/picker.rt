//! Which events a selection makes of the records of a trace.

ghost use Rattle.std.specs.Prelude.{◌≡◌, true};
ghost use Rattle.stage_core.specs.Events.{TakesAll};

use din_trace::{DinRecord, MAX_LIMIT};
use stage_core::{Picked, Selection, Selector};

/// Makes the events of records, one record at a time. If a selection leaves nothing out and puts
/// nothing in, each record is an event as it is, and no selector is asked.
#[derive(Drop)]
pub(crate) struct Picker {
    selector: Selector,
    /// Whether each record is an event as it is.
    whole: bool,
    ghost takes: { whole ≡ true → TakesAll selector.selection },
    ghost every: { TakesAll selector.selection → whole ≡ true },
}

impl Picker {
    ghost use Rattle.std.specs.Prelude.{◌≡◌, ◌<◌, ◌++◌, ◌∷◌, [], List, length, true};
    ghost use Rattle.din_trace.specs.declared.record.DinRecord.{DinRecord};
    ghost use Rattle.stage_core.specs.Events.{IsBounded, TakesAll, events_at, picked_events};
    ghost use Rattle.grid_run.specs.Picking.{HasPicked, picked_by};

    /// A picker that was offered nothing.
    pub fn new(selection: Selection) -> Picker
        requires { IsBounded selection }
        ensures selection { picked_by result ≡ selection }
        ensures none { HasPicked [] result }
    {
        Picker {
            selector: Selector::new(selection),
            whole: selection.takes_all(),
        }
    }

    /// Whether each record is an event as it is.
    pub fn is_whole(&self) -> bool
        ensures takes { result ≡ true → TakesAll (picked_by self.now) }
        ensures every { TakesAll (picked_by self.now) → result ≡ true }
        ensures picked { result ≡ true → (past : List DinRecord) → HasPicked past self.now }
    {
        self.whole
    }

    /// Takes the next record, and answers its events.
    #[inline(always)]
    pub fn offer(&mut self, next: DinRecord) -> Picked
        requires room { (past : List DinRecord) × HasPicked past self.old
            × (length past < MAX_LIMIT) }
        ensures picked { (past : List DinRecord) → HasPicked past self.old →
            picked_events result ≡ events_at (picked_by self.old) past next }
        ensures stands { (past : List DinRecord) → HasPicked past self.old →
            HasPicked (past ++ next ∷ []) self.new }
        ensures selection { picked_by self.new ≡ picked_by self.old }
    {
        if self.whole {
            return Picked {
                event: Some(next),
                flush: false,
            };
        }
        self.selector.offer(next)
    }
}
