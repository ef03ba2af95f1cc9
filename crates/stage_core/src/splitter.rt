//! The splitter: from an event to its messages.

ghost use Rattle.std.specs.Prelude.{◌≡◌, ℕ, ◌+◌, ◌*◌, ◌<◌, Some, None, option_to_list, map};
ghost use Rattle.stage_core.specs.Events.{asked};
ghost use Rattle.stage_core.specs.Streams.{turn_of, message};
ghost use Rattle.stage_core.specs.declared.message.Side.TheVariants as side;
ghost use Rattle.stage_core.specs.declared.message.Turn.TheVariants as turn;
ghost use Rattle.stage_core.specs.declared.message.ToStage.TheVariants as to_stage;

use crate::message::{Routed, ToStage, Turn};
use cache_core::Class;
use din_trace::{DinRecord, Label, MAX_LIMIT};
use std::marker::Model;

/// Numbers the events, and makes the messages of each to the merge and the two sides. The contracts
/// see the place (the number) of the last event.
#[derive(Drop)]
pub struct Splitter {
    place: u64,
}

impl Model for Splitter {
    ghost Value = { ℕ };

    ghost view = { λ s. s.place };
}

impl Splitter {
    /// A splitter before the first event.
    pub fn new() -> Self
        ensures { result ≡ 0 }
    {
        Splitter { place: 0 }
    }

    /// The place of the last event, or 0 before the first one.
    pub fn place(&self) -> u64
        ensures { result ≡ self.now }
    {
        self.place
    }

    /// The messages of the next event.
    pub fn route(&mut self, event: DinRecord) -> Routed
        requires { self.old < 2 * MAX_LIMIT }
        ensures place { self.new ≡ self.old + 1 }
        ensures turn { result.turn ≡ turn_of event.label }
        ensures i { option_to_list result.i ≡ map (message (self.old + 1)) (asked side.I event) }
        ensures d { option_to_list result.d ≡ map (message (self.old + 1)) (asked side.D event) }
    {
        self.place += 1;
        let place = self.place;
        let addr = event.addr;
        match event.label {
            Label::Instr => Routed {
                turn: Turn::I,
                i: Some(ToStage::Ref {
                    place,
                    class: Class::Instr,
                    addr,
                }),
                d: None,
            },
            Label::Read => data(place, Class::Read, addr),
            Label::Write => data(place, Class::Write, addr),
            Label::Misc => data(place, Class::Misc, addr),
            Label::Flush => Routed {
                turn: Turn::Both,
                i: Some(ToStage::Flush { place }),
                d: Some(ToStage::Flush { place }),
            },
        }
    }

    /// The messages of the end.
    pub fn finish(self) -> Routed
        ensures turn { result.turn ≡ turn.Finish }
        ensures i { result.i ≡ Some to_stage.Finish }
        ensures d { result.d ≡ Some to_stage.Finish }
    {
        Routed {
            turn: Turn::Finish,
            i: Some(ToStage::Finish),
            d: Some(ToStage::Finish),
        }
    }
}

/// The messages of a data reference.
fn data(place: u64, class: Class, addr: u64) -> Routed
    ensures turn { result.turn ≡ turn.D }
    ensures i { result.i ≡ None }
    ensures d { result.d ≡ Some (to_stage.Ref place class addr) }
{
    Routed {
        turn: Turn::D,
        i: None,
        d: Some(ToStage::Ref { place, class, addr }),
    }
}
