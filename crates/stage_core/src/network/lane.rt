//! A first-level stage between its two rings.

ghost use Rattle.std.specs.Prelude.{◌≡◌, ◌<◌, Some, is_some, IsSome, IfOk, OnOk};
ghost use Rattle.cache_core.specs.Standing.{rules_of, rules_from, served_of};
ghost use Rattle.stage_core.specs.SecondLevel.{Parts};
ghost use Rattle.stage_core.specs.Standing.{StageStandsFor, cache_of, side_of, outbox_of};
ghost use Rattle.stage_core.specs.Network.{stage, empty_lane};
ghost use Rattle.stage_core.specs.Network.Lanes.{lane_of, stage_next, TookIn};
ghost use Rattle.stage_core.specs.declared.message.Side.{Side};

use crate::l1_stage::L1Stage;
use crate::memory::NoMemory;
use crate::message::{FromStage, Side, ToStage};
use crate::network::ring::Ring;
use cache_core::{Geometry, MAX_EVENTS, Policy};
use std::alloc::Global;

/// A first-level stage, the ring to it and the ring from it to the merge.
#[derive(Drop)]
pub(crate) struct Lane {
    pub to: Ring<ToStage>,
    pub stage: L1Stage,
    pub from: Ring<FromStage>,
}

impl Lane {
    /// A lane with empty rings, whose stage has received nothing.
    pub fn new(
        alloc: Global,
        side: Side,
        geometry: Geometry,
        policy: Policy,
    ) -> Result<Lane, NoMemory>
        ensures lane { IfOk result (λ lane. lane_of lane ≡ empty_lane) }
        ensures stands { IfOk result (λ lane. TookIn (rules_from geometry policy) side lane.stage
            lane.to.popped) }
    {
        Ok(Lane {
            to: Ring::new(alloc),
            stage: L1Stage::new(alloc, side, geometry, policy)?,
            from: Ring::new(alloc),
        })
    }

    /// Whether the stage can make its next step, if each ring has this capacity.
    pub fn can_step(&self, capacity: usize) -> bool
        requires { StageStandsFor self.now.stage self.now.to.popped }
        ensures { (parts : Parts) (s : Side) →
            result ≡ is_some (stage parts capacity s (outbox_of self.now.stage)
            (lane_of self.now)) }
    {
        if self.stage.ready() {
            self.to.waiting() > 0
        } else if self.stage.finished() {
            false
        } else {
            self.from.waiting() < capacity
        }
    }

    /// Makes the stage's next step: one push or one pop.
    pub fn step(&mut self, capacity: usize) -> Result<(), NoMemory>
        requires stands { StageStandsFor self.old.stage self.old.to.popped }
        requires possible { IsSome (stage_next capacity self.old) }
        requires room { served_of (cache_of self.old.stage) < MAX_EVENTS }
        ensures step { OnOk result (stage_next capacity self.old ≡ Some (lane_of self.new)) }
        ensures stands { OnOk result (StageStandsFor self.new.stage self.new.to.popped) }
        ensures side { side_of self.new.stage ≡ side_of self.old.stage }
        ensures rules { rules_of (cache_of self.new.stage) ≡ rules_of (cache_of self.old.stage) }
    {
        match self.stage.outbox_next() {
            Some(message) => self.from.push(message),
            None => {
                let message = self.to.pop();
                self.stage.on(message)
            }
        }
    }
}
