//! The lanes of a grid, which take records in batches.

ghost use Rattle.std.specs.Prelude.{◌≡◌, ◌<◌, ◌+◌, ◌≤◌, ◌++◌, [], List, IfOk, OnOk};
ghost use Rattle.std.specs.Prelude.{length, map};
ghost use Rattle.std.specs.List.{All};
ghost use Rattle.din_trace.specs.declared.record.DinRecord.{DinRecord};
ghost use Rattle.grid_run.specs.Lanes.{task_of_plan};
ghost use Rattle.grid_run.specs.Rows.{IsSound};
ghost use Rattle.grid_run.specs.Workers.{HasSettledUnlessFailed, HasTakenUnlessFailed};
ghost use Rattle.grid_run.specs.Workers.{WorkerHasServed, worker_task};

use crate::lists::made_for_each;
use crate::plan::LanePlan;
use crate::worker::{PART, Worker};
use cache_core::NoMemory;
use din_trace::{DinRecord, MAX_LIMIT};
use std::alloc::Global;
use std::thread;
use std::thread::Threads;

/// At most so many records are taken together. Threads start and end with each batch, and wait for
/// the slowest of them; so a batch should give them tens of milliseconds of work.
const BATCH: usize = 393_216;

/// The first batch of one thread has so many, and every one if it has a single lane: what was read
/// stays in the processor's caches.
const BATCH_ALONE: usize = 16_384;

/// The workers of all lanes.
#[derive(Drop)]
pub(crate) struct Crew {
    pub workers: Vec<Worker>,
    /// At most so many threads take a batch.
    threads: usize,
    /// How many of them each worker has.
    share: usize,
    ghost some: { 0 < threads },
}

/// The workers of these plans, of which each has so many threads.
fn workers_for(alloc: Global, plans: &[LanePlan], share: usize) -> Result<Vec<Worker>, NoMemory>
    requires { All IsSound plans.now }
    ensures tasks { IfOk result (λ workers.
        map worker_task workers.items ≡ map task_of_plan plans.now) }
    ensures taken { IfOk result (λ workers. All (HasTakenUnlessFailed []) workers.items) }
{
    made_for_each!(alloc, plans, plan => Worker::new(alloc, plan, share)?)
}

/// Each worker takes the batch, on so many threads of its own; at most so many work at once.
fn take_batch<T: Threads + Sync>(
    rt: &T,
    workers: &mut [Worker],
    threads: usize,
    share: usize,
    batch: &[DinRecord],
)
    requires threads { 0 < threads }
    requires room { (past : List DinRecord) × All (HasTakenUnlessFailed past) workers.old
        × (length past + length batch.now ≤ MAX_LIMIT) }
    ensures taken { (past : List DinRecord) → All (HasTakenUnlessFailed past) workers.old →
        All (HasTakenUnlessFailed (past ++ batch.now)) workers.new }
    ensures tasks { map worker_task workers.new ≡ map worker_task workers.old }
{
    thread::for_each_mut(
        rt,
        workers,
        threads,
        &|_, worker: &mut Worker|
            requires { (past : List DinRecord) × HasTakenUnlessFailed past worker.now
                × (length past + length batch.now ≤ MAX_LIMIT) }
        { worker.take(rt, share, batch) },
    );
}

/// The same for the workers of a vector.
fn take_in<T: Threads + Sync>(
    rt: &T,
    workers: &mut Vec<Worker>,
    threads: usize,
    share: usize,
    batch: &[DinRecord],
)
    requires threads { 0 < threads }
    requires room { (past : List DinRecord) × All (HasTakenUnlessFailed past) workers.old.items
        × (length past + length batch.now ≤ MAX_LIMIT) }
    ensures taken { (past : List DinRecord) → All (HasTakenUnlessFailed past) workers.old.items →
        All (HasTakenUnlessFailed (past ++ batch.now)) workers.new.items }
    ensures tasks { map worker_task workers.new.items ≡ map worker_task workers.old.items }
{
    take_batch(rt, workers, threads, share, batch);
}

/// Each worker serves what waits for its second levels.
fn settle_each<T: Threads + Sync>(rt: &T, workers: &mut [Worker], threads: usize, share: usize)
    requires threads { 0 < threads }
    requires room { (past : List DinRecord) × All (HasTakenUnlessFailed past) workers.old
        × (length past ≤ MAX_LIMIT) }
    ensures settled { (past : List DinRecord) → All (HasTakenUnlessFailed past) workers.old →
        All (HasSettledUnlessFailed past) workers.new }
    ensures tasks { map worker_task workers.new ≡ map worker_task workers.old }
{
    thread::for_each_mut(
        rt,
        workers,
        threads,
        &|_, worker: &mut Worker|
            requires { (past : List DinRecord) × HasTakenUnlessFailed past worker.now
                × (length past ≤ MAX_LIMIT) }
        { worker.settle(rt, share) },
    );
}

/// The same for the workers of a vector.
fn settle_in<T: Threads + Sync>(rt: &T, workers: &mut Vec<Worker>, threads: usize, share: usize)
    requires threads { 0 < threads }
    requires room { (past : List DinRecord) × All (HasTakenUnlessFailed past) workers.old.items
        × (length past ≤ MAX_LIMIT) }
    ensures settled { (past : List DinRecord) → All (HasTakenUnlessFailed past) workers.old.items →
        All (HasSettledUnlessFailed past) workers.new.items }
    ensures tasks { map worker_task workers.new.items ≡ map worker_task workers.old.items }
{
    settle_each(rt, workers, threads, share);
}

/// Answers `NoMemory` if some worker was refused memory.
fn tell_failure(workers: &[Worker]) -> Result<(), NoMemory>
    ensures { OnOk result ((past : List DinRecord) → All (HasSettledUnlessFailed past) workers.now
        → All (WorkerHasServed past) workers.now) }
{
    for worker in workers {
        if worker.has_failed() {
            return Err(NoMemory);
        }
    }
    Ok(())
}

impl Crew {
    /// The workers of these plans, for at most so many threads; 0 counts as 1.
    pub fn new(alloc: Global, plans: &[LanePlan], threads: usize) -> Result<Crew, NoMemory>
        requires { All IsSound plans.now }
        ensures tasks { IfOk result (λ crew.
            map worker_task crew.workers.items ≡ map task_of_plan plans.now) }
        ensures taken { IfOk result (λ crew. All (HasTakenUnlessFailed []) crew.workers.items) }
    {
        let share = (threads / plans.len().max(1)).max(1);
        Ok(Crew {
            workers: workers_for(alloc, plans, share)?,
            threads: threads.max(1),
            share,
        })
    }

    /// All workers take these records. What they ask of the second levels may wait.
    pub fn take<T: Threads + Sync>(
        &mut self,
        rt: &T,
        batch: &Vec<DinRecord>,
    ) -> Result<(), NoMemory>
        requires room { (past : List DinRecord)
            × All (HasTakenUnlessFailed past) self.old.workers.items
            × (length past + length batch.now.items ≤ MAX_LIMIT) }
        ensures taken { OnOk result ((past : List DinRecord) →
            All (HasTakenUnlessFailed past) self.old.workers.items →
            All (HasTakenUnlessFailed (past ++ batch.now.items)) self.new.workers.items) }
        ensures tasks { map worker_task self.new.workers.items
            ≡ map worker_task self.old.workers.items }
    {
        take_in(rt, &mut self.workers, self.threads, self.share, batch);
        tell_failure(&self.workers)
    }

    /// All workers serve what waits for their second levels: with a thread each, that is what the
    /// batches since the last long one left.
    pub fn settle<T: Threads + Sync>(&mut self, rt: &T) -> Result<(), NoMemory>
        requires room { (past : List DinRecord)
            × All (HasTakenUnlessFailed past) self.old.workers.items
            × (length past ≤ MAX_LIMIT) }
        ensures settled { OnOk result ((past : List DinRecord) →
            All (HasTakenUnlessFailed past) self.old.workers.items →
            All (WorkerHasServed past) self.new.workers.items) }
        ensures tasks { map worker_task self.new.workers.items
            ≡ map worker_task self.old.workers.items }
    {
        settle_in(rt, &mut self.workers, self.threads, self.share);
        tell_failure(&self.workers)
    }

    /// How many records the first batch has.
    pub fn first_size(&self) -> usize {
        if self.may_start_threads() {
            PART
        } else {
            BATCH_ALONE
        }
    }

    /// How many records the batch after one of this size has. A worker that is alone waits for no
    /// other. For several, each batch is twice as long as the one before it: so on several threads
    /// a short trace is read beside the work, too.
    pub fn size_after(&self, size: usize) -> usize {
        if self.workers.len() < 2 {
            return size;
        }
        size.saturating_mul(2).min(BATCH)
    }

    /// Whether threads may be started.
    pub fn may_start_threads(&self) -> bool {
        self.threads > 1
    }
}
