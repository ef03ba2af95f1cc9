//! The network of the stages as one machine of single pushes and pops. No program uses it: it
//! serves the proofs and the tests.
//!
//! [`Core`] is the network and `machines` makes each machine's next step. Its parts are `ring`,
//! `lane` (a first-level stage between two rings) and `pushes` (what the splitter pushes).
//! `schedule` makes a whole run, and `laws` has what holds of every schedule.

mod lane;
mod laws;
mod machines;
mod pushes;
mod ring;
mod schedule;

use crate::config::Config;
use crate::l2_stage::L2Stage;
use crate::laws::selections_make_at_most_two;
use crate::memory::NoMemory;
use crate::merge::Merge;
use crate::message::{Side, Turn};
use crate::network::lane::Lane;
use crate::network::pushes::{Push, pushes_of};
use crate::network::ring::Ring;
use crate::selection::{Selection, events_of};
use crate::totals::Totals;
use din_trace::{DinRecord, MAX_LIMIT};
pub use laws::{
    complete_schedules_are_as_long, no_schedule_is_stuck, rings_carry_beginnings,
    rings_hold_their_capacity, second_level_is_given_no_more, steps_keep_consistency,
};
pub use schedule::drive;
use std::alloc::Global;
use std::marker::Model;

/// One of the four machines.
#[derive(Clone, Copy)]
pub(crate) enum Machine {
    /// The splitter.
    Splitter,
    /// The first-level stage of a side.
    Stage(Side),
    /// The merge, with the second level that it feeds.
    Merging,
}

/// The four machines of a run and the five rings between them. In each step, one machine makes one
/// push or one pop. The contracts see the configuration, the event list and the state of the
/// network.
#[derive(Drop)]
pub struct Core {
    config: Config,
    events: Vec<DinRecord>,
    pushes: Vec<Push>,
    pushed: usize,
    order: Ring<Turn>,
    i: Lane,
    d: Lane,
    merge: Merge,
    u: L2Stage,
    failed: bool,
}

impl Model for Core {
    ghost use Rattle.std.specs.Prelude.{◌≡◌, false};
    ghost use Rattle.stage_core.specs.Network.Cores.{CoreState, core_of, Sound};

    ghost Value = { CoreState };

    ghost view = { core_of };

    ghost invariant = { λ c. c.failed ≡ false → Sound c };
}

/// The lanes of the first level, and the second level.
#[derive(Drop)]
struct Levels {
    i: Lane,
    d: Lane,
    u: L2Stage,
}

impl Levels {
    ghost use Rattle.std.specs.Prelude.{◌≡◌, [], IfOk};
    ghost use Rattle.stage_core.specs.Config.{hierarchy_of};
    ghost use Rattle.stage_core.specs.Network.{empty_lane};
    ghost use Rattle.stage_core.specs.Network.Lanes.{lane_of};
    ghost use Rattle.stage_core.specs.Network.Cores.{CachesStand};

    /// Empty rings, and empty caches as configured.
    fn new(alloc: Global, config: &Config) -> Result<Levels, NoMemory>
        ensures i { IfOk result (λ levels. lane_of levels.i ≡ empty_lane) }
        ensures d { IfOk result (λ levels. lane_of levels.d ≡ empty_lane) }
        ensures caches { IfOk result (λ levels. CachesStand (hierarchy_of config.now)
            levels.i.stage levels.d.stage levels.u levels.i.to.popped levels.d.to.popped []) }
    {
        let (i_geometry, i_policy) = config.i();
        let (d_geometry, d_policy) = config.d();
        let (u_geometry, u_policy) = config.u();
        Ok(Levels {
            i: Lane::new(alloc, Side::I, i_geometry, i_policy)?,
            d: Lane::new(alloc, Side::D, d_geometry, d_policy)?,
            u: L2Stage::new(alloc, u_geometry, u_policy)?,
        })
    }
}

impl Core {
    ghost use Rattle.std.specs.Prelude.{◌≡◌, ◌<◌, ◌≤◌, ◌↔◌, Some, IsTrue, IfOk, OnOk, OnErr, true};
    ghost use Rattle.std.specs.Prelude.{false, length, filter, slice_get};
    ghost use Rattle.stage_core.specs.Events.{IsBounded, events};
    ghost use Rattle.stage_core.specs.SecondLevel.{totals};
    ghost use Rattle.stage_core.specs.Config.{hierarchy_of};
    ghost use Rattle.stage_core.specs.Network.{IsFinished};
    ghost use Rattle.stage_core.specs.Network.Cores.{started, can_in, enabled_in, IsChosen};
    ghost use Rattle.stage_core.specs.Network.Cores.{MakesStep, IsSameRun, IsConsistent, IsOver};
    ghost use Rattle.stage_core.specs.declared.network.Machine.{Machine};

    /// The network at its start, for the selected records of a trace.
    pub fn new(
        alloc: Global,
        config: &Config,
        selection: &Selection,
        records: &[DinRecord],
    ) -> Result<Core, NoMemory>
        requires bounded { IsBounded selection.now }
        requires short { length records.now ≤ MAX_LIMIT }
        ensures { IfOk result (λ core. core
            ≡ started config.now (events selection.now records.now)) }
    {
        selections_make_at_most_two();
        let events = events_of(alloc, *selection, records)?;
        let pushes = pushes_of(alloc, &events)?;
        let levels = Levels::new(alloc, config)?;
        Ok(Core {
            config: *config,
            events,
            pushes,
            pushed: 0,
            order: Ring::new(alloc),
            i: levels.i,
            d: levels.d,
            merge: Merge::new(),
            u: levels.u,
            failed: false,
        })
    }

    /// The machine number nth of those among these whose next step is possible.
    fn nth_of(&self, machines: &[Machine], nth: u8) -> Machine
        requires works { self.now.failed ≡ false }
        requires below { nth < length (filter (can_in self.now) machines.now) }
        ensures { slice_get (filter (can_in self.now) machines.now) nth ≡ Some result }
    {
        let mut left = nth;
        for machine in machines {
            if self.can(*machine) {
                if left == 0 {
                    return *machine;
                }
                left -= 1;
            }
        }
        unreachable!()
    }

    /// How many machines can step, if no allocation has failed.
    fn count(&self) -> u8
        requires { self.now.failed ≡ false }
        ensures { result ≡ length (enabled_in self.now) }
    {
        u8::from(self.can(Machine::Splitter))
            + u8::from(self.can(Machine::Stage(Side::I)))
            + u8::from(self.can(Machine::Stage(Side::D)))
            + u8::from(self.can(Machine::Merging))
    }

    /// How many machines can step, from 0 to 4. It is 0 only if all have finished, or after a
    /// failed allocation.
    pub fn enabled(&self) -> u8
        ensures count { result ≡ length (enabled_in self.now) }
        ensures consistent { self.now.failed ≡ false → IsConsistent self.now }
        ensures goes_on { self.now.failed ≡ false → result ≡ 0 → IsFinished self.now.network }
    {
        if self.failed { 0 } else { self.count() }
    }

    /// Makes one step of machine number `nth` (from 0) among those that can step, in the order
    /// splitter, I, D, merge. After an error, no machine can step any more.
    pub fn step(&mut self, nth: u8) -> Result<(), NoMemory>
        requires { nth < length (enabled_in self.old) }
        ensures step { OnOk result ((m : Machine) × IsChosen nth self.old m
            × MakesStep m self.old self.new) }
        ensures refused { OnErr result (self.new.failed ≡ true) }
        ensures run { IsSameRun self.old self.new }
    {
        let machine = self.nth_of(
            &[
                Machine::Splitter,
                Machine::Stage(Side::I),
                Machine::Stage(Side::D),
                Machine::Merging,
            ],
            nth,
        );
        self.make(machine)
    }

    /// Whether all machines have finished, and no allocation failed.
    pub fn finished(&self) -> bool
        ensures { IsTrue result ↔ IsOver self.now }
    {
        !self.failed && self.enabled() == 0
    }

    /// Whether a call of `step` failed.
    pub fn failed(&self) -> bool
        ensures { result ≡ self.now.failed }
    {
        self.failed
    }

    /// The counts of the three caches, once the run is over.
    pub fn totals(&self) -> Totals
        requires { IsOver self.now }
        ensures { result ≡ totals (hierarchy_of self.now.config) self.now.events }
    {
        Totals {
            i: self.i.stage.counts(),
            d: self.d.stage.counts(),
            u: self.u.counts(),
        }
    }
}
