//! The merge: in which order the second level takes the messages of the two sides.

ghost use Rattle.std.specs.Prelude.{◌≡◌, ◌⊎◌, option_to_list};
ghost use Rattle.stage_core.specs.Merging.{AtOrder, wanted, after_turn, after_message, what_in};
ghost use Rattle.stage_core.specs.declared.message.Want.TheVariants as want;

use crate::message::{FromStage, Turn, Want, What};
use std::marker::Model;

/// The state of the merge. `Both` is a turn of both sides, with I's answer still to come.
#[derive(Clone, Copy)]
enum State {
    Order,
    I,
    D,
    Both,
    LastI,
    LastD,
    End,
}

/// Says from which ring the next message has to come, and takes it. This order never depends on
/// which ring has a message first.
#[derive(Drop)]
pub struct Merge {
    state: State,
}

impl Model for Merge {
    ghost use Rattle.stage_core.specs.Merging.{MergeState};
    ghost use Rattle.stage_core.specs.Standing.{state_of};

    ghost Value = { MergeState };

    ghost view = { λ m. state_of m.state };
}

impl Merge {
    /// A merge that waits for its first turn.
    pub fn new() -> Self
        ensures { result ≡ AtOrder }
    {
        Merge {
            state: State::Order,
        }
    }

    /// From which ring the next message has to come.
    pub fn wants(&self) -> Want
        ensures { result ≡ wanted self.now }
    {
        match self.state {
            State::Order => Want::Order,
            State::I | State::Both | State::LastI => Want::I,
            State::D | State::LastD => Want::D,
            State::End => Want::Nothing,
        }
    }

    /// Takes a turn.
    pub fn turn(&mut self, turn: Turn)
        requires { wanted self.old ≡ want.Order }
        ensures { self.new ≡ after_turn turn }
    {
        self.state = match turn {
            Turn::I => State::I,
            Turn::D => State::D,
            Turn::Both => State::Both,
            Turn::Finish => State::LastI,
        };
    }

    /// Takes a message of the wanted side, and answers the request in it: a Part has one. The place
    /// and the numbers in the message are not checked.
    pub fn take(&mut self, message: FromStage) -> Option<What>
        requires { (wanted self.old ≡ want.I) ⊎ (wanted self.old ≡ want.D) }
        ensures stands { self.new ≡ after_message self.old message }
        ensures brings { option_to_list result ≡ what_in message }
    {
        match message {
            FromStage::Part { what, .. } => Some(what),
            FromStage::Done { .. } | FromStage::Finish => {
                self.state = match self.state {
                    State::Both => State::D,
                    State::LastI => State::LastD,
                    State::LastD | State::End => State::End,
                    State::Order | State::I | State::D => State::Order,
                };
                None
            }
        }
    }
}
