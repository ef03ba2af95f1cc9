//! What each machine of the network does at its next step, and whether it can.

ghost use Rattle.std.specs.Prelude.{◌≡◌, ◌<◌, ◌++◌, Some, OnOk, List, length, option_to_list};
ghost use Rattle.cache_core.specs.Standing.{rules_of, served_of};
ghost use Rattle.stage_core.specs.Standing.{L2StandsFor, l2_cache};
ghost use Rattle.stage_core.specs.Network.Rings.{pop};
ghost use Rattle.stage_core.specs.Network.Sides.{of_side, OneChanges};
ghost use Rattle.stage_core.specs.Network.Lanes.{MayStep, HasStepped};
ghost use Rattle.stage_core.specs.declared.message.What.{What};

use crate::l2_stage::L2Stage;
use crate::laws::second_level_sees_at_most_two;
use crate::memory::NoMemory;
use crate::message::{FromStage, Side, Want, What};
use crate::network::lane::Lane;
use crate::network::pushes::{Push, push_to};
use crate::network::ring::Ring;
use crate::network::{Core, Machine};
use cache_core::MAX_EVENTS;

/// The second level serves what a message brought, if it brought anything.
fn serve_l2(u: &mut L2Stage, what: Option<What>) -> Result<(), NoMemory>
    requires { served_of (l2_cache u.old) < MAX_EVENTS }
    ensures stands { OnOk result ((before : List What) → L2StandsFor u.old before →
        L2StandsFor u.new (before ++ option_to_list what)) }
    ensures rules { rules_of (l2_cache u.new) ≡ rules_of (l2_cache u.old) }
{
    match what {
        Some(what) => u.on(what),
        None => Ok(()),
    }
}

/// Makes the next step of the stage of a side, if each ring has this capacity.
fn step_of_side(side: Side, capacity: usize, i: &mut Lane, d: &mut Lane) -> Result<(), NoMemory>
    requires { MayStep capacity (of_side side i.old d.old) }
    ensures { OnOk result (OneChanges side (HasStepped capacity) i.old d.old i.new d.new) }
{
    match side {
        Side::I => i.step(capacity),
        Side::D => d.step(capacity),
    }
}

/// Pops the oldest message of the ring from a side.
fn pop_of_side(side: Side, i: &mut Ring<FromStage>, d: &mut Ring<FromStage>) -> FromStage
    requires { 0 < length (of_side side i.old d.old).waiting }
    ensures { OneChanges side (λ was now. pop was ≡ Some (result, now)) i.old d.old i.new d.new }
{
    match side {
        Side::I => i.pop(),
        Side::D => d.pop(),
    }
}

impl Core {
    ghost use Rattle.std.specs.Prelude.{◌≡◌, ◌<◌, IsSome, OnOk, OnErr, true, false, length};
    ghost use Rattle.stage_core.specs.Merging.{wanted, want_of};
    ghost use Rattle.stage_core.specs.Network.{Splitter, Stage, Merging, lane};
    ghost use Rattle.stage_core.specs.Network.Cores.{next_in, can_in, MakesStep, IsSameRun};
    ghost use Rattle.stage_core.specs.declared.message.Want.TheVariants as want;

    /// Whether the splitter's next step is possible.
    fn can_split(&self) -> bool
        requires { self.now.failed ≡ false }
        ensures { result ≡ can_in self.now Splitter }
    {
        let capacity = self.config.ring();
        match self.pushes.get(self.pushed) {
            None => false,
            Some(Push::Order(_)) => self.order.waiting() < capacity,
            Some(Push::To(Side::I, _)) => self.i.to.waiting() < capacity,
            Some(Push::To(Side::D, _)) => self.d.to.waiting() < capacity,
        }
    }

    /// Whether the merge's next step is possible.
    fn can_merge(&self) -> bool
        ensures { result ≡ can_in self.now Merging }
    {
        match self.merge.wants() {
            Want::Order => self.order.waiting() > 0,
            Want::I => self.i.from.waiting() > 0,
            Want::D => self.d.from.waiting() > 0,
            Want::Nothing => false,
        }
    }

    /// Whether a machine's next step is possible.
    pub(super) fn can(&self, machine: Machine) -> bool
        requires { self.now.failed ≡ false }
        ensures { result ≡ can_in self.now machine }
    {
        match machine {
            Machine::Splitter => self.can_split(),
            Machine::Stage(Side::I) => self.i.can_step(self.config.ring()),
            Machine::Stage(Side::D) => self.d.can_step(self.config.ring()),
            Machine::Merging => self.can_merge(),
        }
    }

    /// Makes the splitter's next step.
    fn split(&mut self) -> Result<(), NoMemory>
        requires works { self.old.failed ≡ false }
        requires possible { IsSome (next_in self.old Splitter) }
        ensures made { OnOk result (MakesStep Splitter self.old self.new) }
        ensures refused { OnErr result (self.new.failed ≡ true) }
        ensures run { IsSameRun self.old self.new }
    {
        let push = self.pushes[self.pushed];
        self.pushed += 1;
        let sent = push_to(push, &mut self.order, &mut self.i.to, &mut self.d.to);
        self.failed = sent.is_err();
        sent
    }

    /// Makes the next step of the stage of a side.
    fn step_stage(&mut self, side: Side) -> Result<(), NoMemory>
        requires works { self.old.failed ≡ false }
        requires possible { IsSome (next_in self.old (Stage side)) }
        ensures made { OnOk result (MakesStep (Stage side) self.old self.new) }
        ensures refused { OnErr result (self.new.failed ≡ true) }
        ensures run { IsSameRun self.old self.new }
    {
        let made = step_of_side(side, self.config.ring(), &mut self.i, &mut self.d);
        self.failed = made.is_err();
        made
    }

    /// Whose message the merge takes next.
    fn wants(&self) -> Want
        ensures { result ≡ wanted self.now.network.at }
    {
        self.merge.wants()
    }

    /// The merge takes a turn.
    fn take_turn(&mut self)
        requires works { self.old.failed ≡ false }
        requires wants { wanted self.old.network.at ≡ want.Order }
        requires waits { 0 < length self.old.network.order.waiting }
        ensures made { MakesStep Merging self.old self.new }
        ensures run { IsSameRun self.old self.new }
    {
        let turn = self.order.pop();
        self.merge.turn(turn);
    }

    /// The merge takes a message of a side.
    fn take_from(&mut self, side: Side) -> Result<(), NoMemory>
        requires works { self.old.failed ≡ false }
        requires wants { wanted self.old.network.at ≡ want_of side }
        requires waits { 0 < length (lane side self.old.network).from.waiting }
        ensures made { OnOk result (MakesStep Merging self.old self.new) }
        ensures refused { OnErr result (self.new.failed ≡ true) }
        ensures run { IsSameRun self.old self.new }
    {
        second_level_sees_at_most_two();
        let message = pop_of_side(side, &mut self.i.from, &mut self.d.from);
        let what = self.merge.take(message);
        let served = serve_l2(&mut self.u, what);
        self.failed = served.is_err();
        served
    }

    /// Makes the merge's next step.
    fn merge_step(&mut self) -> Result<(), NoMemory>
        requires works { self.old.failed ≡ false }
        requires possible { IsSome (next_in self.old Merging) }
        ensures made { OnOk result (MakesStep Merging self.old self.new) }
        ensures refused { OnErr result (self.new.failed ≡ true) }
        ensures run { IsSameRun self.old self.new }
    {
        match self.wants() {
            Want::Order => {
                self.take_turn();
                Ok(())
            }
            Want::I => self.take_from(Side::I),
            Want::D => self.take_from(Side::D),
            Want::Nothing => Ok(()),
        }
    }

    /// Makes a machine's next step.
    pub(super) fn make(&mut self, machine: Machine) -> Result<(), NoMemory>
        requires works { self.old.failed ≡ false }
        requires possible { IsSome (next_in self.old machine) }
        ensures made { OnOk result (MakesStep machine self.old self.new) }
        ensures refused { OnErr result (self.new.failed ≡ true) }
        ensures run { IsSameRun self.old self.new }
    {
        match machine {
            Machine::Splitter => self.split(),
            Machine::Stage(side) => self.step_stage(side),
            Machine::Merging => self.merge_step(),
        }
    }
}
