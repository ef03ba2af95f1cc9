//! A lane as what a worker does.

use crate::figures::Figures;
use crate::lane::Lane;
use crate::plan::{LanePlan, Place};
use cache_core::NoMemory;
use din_trace::{DinRecord, MAX_LIMIT};
use std::alloc::Global;
use std::thread::Threads;

/// A lane takes so many records at a time. With several threads, the second levels serve meanwhile
/// what was sent for so many before. More of them are served a little faster, since each second
/// level finds its own in the processor's caches for longer; but what waits for it takes memory.
pub(crate) const PART: usize = 49_152;

/// A lane, and whether it was refused memory. If it was, it takes no more records.
#[derive(Drop)]
pub(crate) struct Worker {
    lane: Lane,
    failed: bool,
}

#[tactic(auto, unfolding(crate::specs::Workers::worker_task))]
impl Worker {
    ghost use Rattle.std.specs.Prelude.{◌≡◌, ◌+◌, ◌≤◌, ◌++◌, [], List, IfOk, length};
    ghost use Rattle.din_trace.specs.declared.record.DinRecord.{DinRecord};
    ghost use Rattle.stage_core.specs.Events.{events};
    ghost use Rattle.stage_core.specs.SecondLevel.{Hierarchy};
    ghost use Rattle.stage_core.specs.declared.selection.Selection.{Selection};
    ghost use Rattle.grid_run.specs.Grids.{figures_of};
    ghost use Rattle.grid_run.specs.Lanes.{task_of_plan};
    ghost use Rattle.grid_run.specs.Rows.{IsPlaceIn, IsSound};
    ghost use Rattle.grid_run.specs.Workers.{HasSettledUnlessFailed, HasTakenUnlessFailed};
    ghost use Rattle.grid_run.specs.Workers.{WorkerHasServed, worker_task};

    /// The empty lane of a plan, for so many threads.
    pub fn new(alloc: Global, plan: &LanePlan, threads: usize) -> Result<Worker, NoMemory>
        requires { IsSound plan.now }
        ensures taken { IfOk result (HasTakenUnlessFailed []) }
        ensures task { IfOk result (λ worker. worker_task worker ≡ task_of_plan plan.now) }
    {
        Ok(Worker {
            lane: Lane::new(alloc, plan, threads)?,
            failed: false,
        })
    }

    /// Takes some records in their order.
    fn take_part<T: Threads + Sync>(&mut self, rt: &T, threads: usize, part: &[DinRecord])
        requires room { (past : List DinRecord) × HasTakenUnlessFailed past self.old
            × (length past + length part.now ≤ MAX_LIMIT) }
        ensures taken { (past : List DinRecord) → HasTakenUnlessFailed past self.old
            → HasTakenUnlessFailed (past ++ part.now) self.new }
        ensures task { worker_task self.new ≡ worker_task self.old }
    {
        if !self.failed {
            self.failed = self.lane.take(rt, threads, part).is_err();
        }
    }

    /// Takes records in their order, part by part.
    fn take_parts<T: Threads + Sync>(&mut self, rt: &T, threads: usize, batch: &[DinRecord])
        requires room { (past : List DinRecord) × HasTakenUnlessFailed past self.old
            × (length past + length batch.now ≤ MAX_LIMIT) }
        ensures taken { (past : List DinRecord) → HasTakenUnlessFailed past self.old
            → HasTakenUnlessFailed (past ++ batch.now) self.new }
        ensures task { worker_task self.new ≡ worker_task self.old }
    {
        let mut taken = 0;
        'parts: while batch.len() - taken > PART {
            self.take_part(rt, threads, &batch[taken..taken + PART]);
            taken += PART;
        }
        self.take_part(rt, threads, &batch[taken..]);
    }

    /// Takes records in their order. Of several workers, each waits at the end of a long batch for
    /// the slowest one. So a worker with one thread lets nothing wait for the next batch, which
    /// would make them uneven.
    pub fn take<T: Threads + Sync>(&mut self, rt: &T, threads: usize, batch: &[DinRecord])
        requires room { (past : List DinRecord) × HasTakenUnlessFailed past self.old
            × (length past + length batch.now ≤ MAX_LIMIT) }
        ensures taken { (past : List DinRecord) → HasTakenUnlessFailed past self.old
            → HasTakenUnlessFailed (past ++ batch.now) self.new }
        ensures task { worker_task self.new ≡ worker_task self.old }
    {
        self.take_parts(rt, threads, batch);
        if threads < 2 && batch.len() > PART && !self.failed {
            self.failed = self.lane.catch_up(rt, threads).is_err();
        }
    }

    /// Serves what waits for the second levels.
    pub fn settle<T: Threads + Sync>(&mut self, rt: &T, threads: usize)
        requires room { (past : List DinRecord) × HasTakenUnlessFailed past self.old
            × (length past ≤ MAX_LIMIT) }
        ensures settled { (past : List DinRecord) → HasTakenUnlessFailed past self.old
            → HasSettledUnlessFailed past self.new }
        ensures task { worker_task self.new ≡ worker_task self.old }
    {
        if !self.failed {
            self.failed = self.lane.settle(rt, threads).is_err();
        }
    }

    /// Whether it was refused memory.
    pub fn has_failed(&self) -> bool
        ensures { result ≡ self.now.failed }
    {
        self.failed
    }

    /// What the caches of a row have counted.
    pub fn figures(&self, place: &Place) -> Figures
        requires { (c : Hierarchy) × (s : Selection)
            × IsPlaceIn (worker_task self.now) c s place.now }
        ensures { (c : Hierarchy) (s : Selection) (past : List DinRecord) →
            IsPlaceIn (worker_task self.now) c s place.now → WorkerHasServed past self.now →
            result ≡ figures_of c (events s past) }
    {
        self.lane.figures(place)
    }
}
