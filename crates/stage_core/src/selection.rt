//! Which records of a trace are simulated.

ghost use Rattle.std.specs.Prelude.{◌≡◌, ◌<◌, ◌≤◌, ◌+◌, ◌++◌, ◌∷◌, [], List, count_by, IfOk};
ghost use Rattle.std.specs.Prelude.{length, OnOk, option_to_list};
ghost use Rattle.stage_core.specs.Places.{list_if};
ghost use Rattle.stage_core.specs.Events.{IsBounded, is_reference, picked, events, inserted_flush};
ghost use Rattle.stage_core.specs.Standing.{WasOffered};
ghost use Rattle.din_trace.specs.declared.record.DinRecord.{DinRecord};

use crate::memory::NoMemory;
use din_trace::{DinRecord, Label, MAX_LIMIT};
use std::alloc::Global;
use std::marker::Model;

/// Which part of a trace is simulated: `skip` references are left out, then at most `max` are taken
/// (0: no bound), and a flush is inserted after every `every` of those (0: none). Dinero IV has
/// options for this: skipcount, maxcount and flushcount.
#[derive(Clone, Copy, Debug, PartialEq, Eq)]
pub struct Selection {
    /// How many references are left out at the start.
    pub skip: u64,
    /// How many references are simulated after those, at most; 0 means all.
    pub max: u64,
    /// After how many simulated references a flush is inserted; 0 means never.
    pub every: u64,
}

impl Selection {
    ghost use Rattle.std.specs.Prelude.{◌≡◌, true};
    ghost use Rattle.stage_core.specs.Events.{TakesAll};

    /// Whether it leaves nothing out and puts nothing in. The events of a trace are then its
    /// records: see [`taking_all_keeps_each_record`](crate::taking_all_keeps_each_record).
    pub fn takes_all(self) -> bool
        ensures takes { result ≡ true → TakesAll self }
        ensures every { TakesAll self → result ≡ true }
    {
        self.skip == 0 && self.max == 0 && self.every == 0
    }
}

/// What a selector makes of a record: the record if it is selected, and whether a flush is inserted
/// after it.
#[derive(Clone, Copy, Debug, PartialEq, Eq)]
pub struct Picked {
    /// The record, if it is selected.
    pub event: Option<DinRecord>,
    /// Whether a flush is inserted after it.
    pub flush: bool,
}

impl Picked {
    /// The flush that the selection inserts after the record, if it does.
    pub fn inserted(self) -> Option<DinRecord>
        ensures { option_to_list result ≡ list_if self.flush inserted_flush }
    {
        self.flush.then_some(DinRecord {
            label: Label::Flush,
            addr: 0,
        })
    }
}

/// Makes the events of a trace, one record at a time.
#[derive(Drop)]
pub struct Selector {
    selection: Selection,
    records: u64,
    references: u64,
}

impl Model for Selector {
    ghost use Rattle.std.specs.Prelude.{◌≤◌, ◌^◌};
    ghost use Rattle.stage_core.specs.Events.{IsBounded};
    ghost use Rattle.stage_core.specs.Standing.{Offers};

    ghost Value = { Offers };

    ghost view = { λ s. record {
      selection = s.selection;
      records = s.records;
      references =
          s.references;
    } };

    ghost invariant = { λ s. (s.references ≤ s.records) × (s.records ≤ 2 ^ 40)
        × IsBounded s.selection };
}

impl Selector {
    /// A selector that was offered nothing.
    pub fn new(selection: Selection) -> Self
        requires { IsBounded selection }
        ensures selection { result.selection ≡ selection }
        ensures none { WasOffered result [] }
    {
        Selector {
            selection,
            records: 0,
            references: 0,
        }
    }

    /// How many records it was offered.
    pub fn offered(&self) -> u64
        ensures { result ≡ self.now.records }
    {
        self.records
    }

    /// Takes the next record, and answers its events. Only references count for `skip`, `max` and
    /// `every`; flush records do not.
    pub fn offer(&mut self, next: DinRecord) -> Picked
        requires { self.old.records < MAX_LIMIT }
        ensures selection { self.new.selection ≡ self.old.selection }
        ensures offered { self.new.records ≡ self.old.records + 1 }
        ensures stands { (before : List DinRecord) → WasOffered self.old before
            → WasOffered self.new (before ++ next ∷ []) }
        ensures picked { (before : List DinRecord) → WasOffered self.old before →
            result ≡ picked self.old.selection (count_by is_reference (before ++ next ∷ [])) next }
    {
        let Selection { skip, max, every } = self.selection;
        let is_reference = !matches!(next.label, Label::Flush);
        self.records += 1;
        self.references += is_reference as u64;
        let number = self.references;
        let selected = if is_reference {
            skip < number && (max == 0 || number <= skip + max)
        } else {
            skip <= number && (max == 0 || number < skip + max)
        };
        let flush = selected && is_reference && every > 0 && (number - skip) % every == 0;
        Picked {
            event: if selected { Some(next) } else { None },
            flush,
        }
    }
}

/// Adds an event, if there is one.
fn add(events: &mut Vec<DinRecord>, event: Option<DinRecord>) -> Result<(), NoMemory>
    ensures { OnOk result (events.new.items ≡ events.old.items ++ option_to_list event) }
{
    if let Some(event) = event {
        let Ok(()) = events.push(event) else {
            return Err(NoMemory);
        };
    }
    Ok(())
}

/// The event list of a trace.
pub(crate) fn events_of(
    alloc: Global,
    selection: Selection,
    records: &[DinRecord],
) -> Result<Vec<DinRecord>, NoMemory>
    requires bounded { IsBounded selection }
    requires short { length records.now ≤ MAX_LIMIT }
    ensures { IfOk result (λ made. made.items ≡ events selection records.now) }
{
    let mut made = Vec::new(alloc);
    let mut selector = Selector::new(selection);
    for next in records {
        let picked = selector.offer(*next);
        add(&mut made, picked.event)?;
        add(&mut made, picked.inserted())?;
    }
    Ok(made)
}
