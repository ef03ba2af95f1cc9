//! First-level caches that take records beside the second levels, which serve what waits for them.

ghost use Rattle.std.specs.Prelude.{◌≡◌, ◌<◌, ◌≤◌, ◌+◌, ℕ, List, OnOk, length, map};
ghost use Rattle.std.specs.List.{All};
ghost use Rattle.din_trace.specs.declared.record.DinRecord.{DinRecord};
ghost use Rattle.grid_run.specs.Backs.{AreFewRequests, RequestsFor};
ghost use Rattle.grid_run.specs.Banks.{HaveServed, WasAsked, bank_task};
ghost use Rattle.grid_run.specs.FirstLevels.{WasGiven, WereGivenNext, first_task};

use crate::bank::Bank;
use crate::banks::{settle_all, settle_on, waiting_for};
use crate::first_levels::FirstLevels;
use cache_core::NoMemory;
use din_trace::{DinRecord, MAX_LIMIT};
use std::thread::{Threads, join_mut};

/// How many of `banks` banks the thread of the first levels serves before the first levels take
/// `records` records, while `waiting` requests wait. With two threads, both then have about as much
/// to do. With more threads this one serves none: the first levels are work enough for it. Counted
/// in instructions, the first levels spend on a record a third, and on a request that they send a
/// half, of what a second level spends on a request.
fn banks_near(records: usize, waiting: usize, banks: usize, threads: usize) -> usize
    ensures { result ≤ banks }
{
    if threads > 2 || waiting == 0 {
        return 0;
    }
    let first = (records / 3).saturating_add(waiting / 2);
    let twice = waiting.saturating_sub(first).saturating_mul(banks) / waiting;
    (twice.saturating_add(1) / 2).min(banks)
}

/// These second levels serve what waits for them, and then first-level caches take records.
fn settle_and_take(
    first: &mut FirstLevels,
    part: &[DinRecord],
    banks: &mut [Bank],
) -> Result<(), NoMemory>
    requires near { (blocks : List ℕ) × (all : RequestsFor)
        × All (WasAsked blocks all) banks.old × AreFewRequests all }
    requires room { (served : RequestsFor) × (past : List DinRecord)
        × WasGiven served past first.old × (length past + length part.now ≤ MAX_LIMIT) }
    ensures served { OnOk result (HaveServed banks.old banks.new) }
    ensures tasks { map bank_task banks.new ≡ map bank_task banks.old }
    ensures taken { OnOk result (WereGivenNext part.now first.old first.new) }
    ensures task { first_task first.new ≡ first_task first.old }
{
    settle_all(banks)?;
    first.take_part(part)
}

/// On this thread the near banks serve what waits for them, and then first-level caches take
/// records; on the other threads the far banks serve.
fn take_beside<T: Threads + Sync>(
    rt: &T,
    threads: usize,
    far: &mut [Bank],
    near: &mut [Bank],
    first: &mut FirstLevels,
    part: &[DinRecord],
) -> Result<(), NoMemory>
    requires two { 1 < threads }
    requires far { (blocks : List ℕ) × (all : RequestsFor)
        × All (WasAsked blocks all) far.old × AreFewRequests all }
    requires near { (blocks : List ℕ) × (all : RequestsFor)
        × All (WasAsked blocks all) near.old × AreFewRequests all }
    requires room { (served : RequestsFor) × (past : List DinRecord)
        × WasGiven served past first.old × (length past + length part.now ≤ MAX_LIMIT) }
    ensures far { OnOk result (HaveServed far.old far.new) }
    ensures near { OnOk result (HaveServed near.old near.new) }
    ensures tasks { (map bank_task far.new ≡ map bank_task far.old)
        × (map bank_task near.new ≡ map bank_task near.old) }
    ensures taken { OnOk result (WereGivenNext part.now first.old first.new) }
    ensures task { first_task first.new ≡ first_task first.old }
{
    let others = threads - 1;
    let (settled, taken) = join_mut(
        rt,
        &mut ||
            requires { (blocks : List ℕ) × (all : RequestsFor)
                × All (WasAsked blocks all) far.now × AreFewRequests all }
        { settle_on(rt, others, far) },
        &mut ||
            requires near { (blocks : List ℕ) × (all : RequestsFor)
                × All (WasAsked blocks all) near.now × AreFewRequests all }
            requires room { (served : RequestsFor) × (past : List DinRecord)
                × WasGiven served past first.now × (length past + length part.now ≤ MAX_LIMIT) }
        { settle_and_take(first, part, near) },
    );
    settled?;
    taken
}

/// First-level caches take records, and second levels serve what waits for them: beside one
/// another, if so many threads may work.
pub(crate) fn take_on<T: Threads + Sync>(
    rt: &T,
    threads: usize,
    banks: &mut [Bank],
    first: &mut FirstLevels,
    part: &[DinRecord],
) -> Result<(), NoMemory>
    requires asked { (blocks : List ℕ) × (all : RequestsFor)
        × All (WasAsked blocks all) banks.old × AreFewRequests all }
    requires room { (served : RequestsFor) × (past : List DinRecord)
        × WasGiven served past first.old × (length past + length part.now ≤ MAX_LIMIT) }
    ensures served { OnOk result (HaveServed banks.old banks.new) }
    ensures tasks { map bank_task banks.new ≡ map bank_task banks.old }
    ensures taken { OnOk result (WereGivenNext part.now first.old first.new) }
    ensures task { first_task first.new ≡ first_task first.old }
{
    if threads < 2 {
        return settle_and_take(first, part, banks);
    }
    let near = banks_near(part.len(), waiting_for(banks), banks.len(), threads);
    let (far, near) = banks.split_at_mut(banks.len() - near);
    take_beside(rt, threads, far, near, first, part)
}
