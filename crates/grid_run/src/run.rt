//! One reading of a trace, in which the caches of all rows are served.

ghost use Rattle.std.specs.Prelude.{◌≡◌, ◌≢◌, ◌+◌, ◌≤◌, ◌++◌, [], List, ℕ, IfErr, OnOk};
ghost use Rattle.std.specs.Prelude.{length, map};
ghost use Rattle.std.specs.List.{All};
ghost use Rattle.din_trace.specs.Text.{Remaining};
ghost use Rattle.din_trace.specs.Remaining.{Script, Fate, Follows};
ghost use Rattle.din_trace.specs.Source.{HasLeft, Takes};
ghost use Rattle.din_trace.specs.declared.record.DinRecord.{DinRecord};
ghost use Rattle.grid_run.specs.Readings.{HasReadBatch};
ghost use Rattle.grid_run.specs.Rows.{ServedAll};
ghost use Rattle.grid_run.specs.Workers.{HasTakenUnlessFailed, worker_task};

use crate::crew::Crew;
use crate::fault::{GridFault, fault_of_source};
use din_trace::{ByteReader, DinRecord, MAX_LIMIT, Source, TraceFault};
use std::alloc::Global;
use std::mem::swap;
use std::thread::{Threads, join_mut};

/// Reads so many records into an empty batch, or up to the end of the trace. Answers whether there
/// may be more. Stops at a fault of the trace; the rest is then not read.
fn read_batch<R: ByteReader>(
    source: &mut Source<R>,
    batch: &mut Vec<DinRecord>,
    size: usize,
) -> Result<bool, GridFault>
    ensures read { HasReadBatch R.remaining R.failures source.old source.new batch.new.items
        result }
    ensures unwritten { IfErr result (λ why. why ≢ GridFault.Write) }
    ensures memory { result ≢ Err (GridFault.Trace TraceFault.Memory) }
{
    batch.clear();
    'records: loop {
        match source.next() {
            Ok(Some(next)) => {
                if batch.push(next).is_err() {
                    return Err(GridFault::Memory);
                }
                if batch.len() >= size {
                    return Ok(true);
                }
            }
            Ok(None) => return Ok(false),
            Err(fault) => return Err(fault_of_source(fault)),
        }
    }
}

/// All workers take a batch, and the next one, of so many records, is read: beside that if threads
/// may be started, and else after it. The reader gets the new thread: what the workers have stands
/// in the caches of this core.
fn take_and_read<R: ByteReader + Send, T: Threads + Sync>(
    rt: &T,
    crew: &mut Crew,
    batch: &Vec<DinRecord>,
    source: &mut Source<R>,
    next: &mut Vec<DinRecord>,
    size: usize,
) -> Result<bool, GridFault>
    requires room { (past : List DinRecord) × All (HasTakenUnlessFailed past) crew.old.workers.items
        × (length past + length batch.now.items ≤ MAX_LIMIT) }
    ensures taken { OnOk result ((past : List DinRecord) →
        All (HasTakenUnlessFailed past) crew.old.workers.items →
        All (HasTakenUnlessFailed (past ++ batch.now.items)) crew.new.workers.items) }
    ensures tasks { map worker_task crew.new.workers.items
        ≡ map worker_task crew.old.workers.items }
    ensures read { HasReadBatch R.remaining R.failures source.old source.new next.new.items
        result }
    ensures unwritten { IfErr result (λ why. why ≢ GridFault.Write) }
    ensures memory { result ≢ Err (GridFault.Trace TraceFault.Memory) }
{
    if !crew.may_start_threads() {
        if crew.take(rt, batch).is_err() {
            return Err(GridFault::Memory);
        }
        return read_batch(source, next, size);
    }
    let (read, taken) = join_mut(
        rt,
        &mut || read_batch(source, next, size),
        &mut ||
            requires { (past : List DinRecord)
                × All (HasTakenUnlessFailed past) crew.now.workers.items
                × (length past + length batch.now.items ≤ MAX_LIMIT) }
        { crew.take(rt, batch) },
    );
    if taken.is_err() {
        return Err(GridFault::Memory);
    }
    read
}

/// Reads the records in batches, and gives each to all workers, who serve what each row selects.
/// Stops at a fault of the trace; the rest is then not read.
pub(crate) fn serve_trace<R: ByteReader + Send, T: Threads + Sync>(
    rt: &T,
    alloc: Global,
    source: &mut Source<R>,
    crew: &mut Crew,
) -> Result<(), GridFault>
    requires fresh { All (HasTakenUnlessFailed []) crew.old.workers.items }
    ensures tasks { map worker_task crew.new.workers.items
        ≡ map worker_task crew.old.workers.items }
    ensures unwritten { IfErr result (λ why. why ≢ GridFault.Write) }
    ensures memory { result ≢ Err (GridFault.Trace TraceFault.Memory) }
    // Whatever the reader did, all workers took all records, or the run stopped with a fault.
    ensures reads { (given : List ℕ) × (fate : Fate)
        × Takes R.remaining R.failures source.old source.new given fate
        × ((before later : Script) (l : Remaining)
        → Follows fate given before later → HasLeft source.old before l
        → ServedAll l crew.new.workers.items result) }
{
    let mut batch = Vec::new(alloc);
    let mut next = Vec::new(alloc);
    let mut size = crew.first_size();
    let mut more = read_batch(source, &mut batch, size)?;
    'batches: while more {
        size = crew.size_after(size);
        more = take_and_read(rt, crew, &batch, source, &mut next, size)?;
        swap(&mut batch, &mut next);
    }
    if crew.take(rt, &batch).is_err() {
        return Err(GridFault::Memory);
    }
    if crew.settle(rt).is_err() {
        return Err(GridFault::Memory);
    }
    Ok(())
}
