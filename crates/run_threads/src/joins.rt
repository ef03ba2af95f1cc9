//! Joins the threads of a run, and collects their results.

ghost use Rattle.std.specs.Prelude.{◌≡◌, ◌⊎◌, None, IsNone, IfOk, IfErr, IsOk, Ok, Err};
ghost use Rattle.run_threads.specs.Threads.{StageCounted, MergeCounted};
ghost use Rattle.run_threads.specs.declared.fault.Stop.TheVariants as Stop;
ghost use Rattle.run_threads.specs.declared.fault.RunFault.TheVariants as RunFault;

use crate::ends::{MergeEnds, StageEnds};
use crate::fault::{RunFault, Stop, gravest};
use crate::merge_thread::MergeHandle;
use crate::stage_thread::StageHandle;
use cache_core::Counts;
use std::thread::{Promise, PromisedHandle, Threads};

/// Joins a thread. Answers why it stopped, if it stopped before its end. If not, its result keeps
/// the thread's promise, which says nothing of a thread that stopped.
pub fn why_stopped<H: Threads, T: Drop, P: Promise<Result<T, Stop>>>(
    rt: &H,
    handle: PromisedHandle<Result<T, Stop>, P>,
) -> Option<Stop>
    ensures ended { IsNone result → (answer : T) × P.kept_by handle.promise (Ok answer) }
{
    handle.join(rt).err()
}

/// Joins the thread of a stage, if it was started. Answers why it stopped, if it did.
fn stop_of<H: Threads>(rt: &H, stage: Option<StageHandle>) -> Option<Stop>
    ensures { IsNone stage → result ≡ None }
{
    match stage {
        Some(handle) => why_stopped(rt, handle),
        None => None,
    }
}

/// Joins the threads of the stages that were started before another one could not be, and answers
/// the fault of the run. The ends that feed them have to be dropped before.
pub fn wind_up<H: Threads>(rt: &H, i: Option<StageHandle>, d: Option<StageHandle>) -> RunFault
    ensures met { (result ≡ RunFault.Memory) ⊎ (result ≡ RunFault.Threads) }
    ensures none { IsNone i → IsNone d → result ≡ RunFault.Threads }
{
    let i = stop_of(rt, i);
    let d = stop_of(rt, d);
    gravest(RunFault::Threads, i, d, None)
}

/// Drops what the threads that were not started were to own, and only then joins those that were
/// started: they end when their peers are gone.
pub fn give_up<H: Threads, L: Drop>(
    rt: &H,
    left: L,
    i: Option<StageHandle>,
    d: Option<StageHandle>,
) -> RunFault
    ensures { (result ≡ RunFault.Memory) ⊎ (result ≡ RunFault.Threads) }
{
    drop(left);
    wind_up(rt, i, d)
}

/// Joins the thread of a stage. Answers the counts of the stage and its ends.
pub fn join_stage<H: Threads>(rt: &H, handle: StageHandle) -> Result<(Counts, StageEnds), Stop>
    ensures { IfOk result (λ r. StageCounted handle.promise.machine.value
        handle.promise.ends.value r.0 r.1) }
{
    let (stage, ends) = handle.join(rt)?;
    Ok((stage.counts(), ends))
}

/// Joins the thread of the merge. Answers the counts of the second level and the merge's ends.
pub fn join_merge<H: Threads>(rt: &H, handle: MergeHandle) -> Result<(Counts, MergeEnds), Stop>
    ensures { IfOk result (λ r. MergeCounted handle.promise.machine.value
        handle.promise.ends.value r.0 r.1) }
{
    let (u, ends) = handle.join(rt)?;
    Ok((u.counts(), ends))
}

/// The results of all three threads. If one stopped before its end, the fault of lowest rank.
pub fn all_ended<A: Drop, B: Drop, C: Drop>(
    i: Result<A, Stop>,
    d: Result<B, Stop>,
    merge: Result<C, Stop>,
) -> Result<(A, B, C), RunFault>
    ensures i { IfOk result (λ ends. i ≡ Ok ends.0) }
    ensures d { IfOk result (λ ends. d ≡ Ok ends.1) }
    ensures merge { IfOk result (λ ends. merge ≡ Ok ends.2) }
    ensures all { IsOk i → IsOk d → IsOk merge → IsOk result }
    ensures stopped { IfErr result (λ why. (why ≡ RunFault.Memory) ⊎ (why ≡ RunFault.Cut)) }
    // It is want of memory exactly if a thread stopped for it.
    ensures wanted { IfErr result (λ why. why ≡ RunFault.Memory → (i ≡ Err Stop.Memory)
        ⊎ ((d ≡ Err Stop.Memory) ⊎ (merge ≡ Err Stop.Memory))) }
    ensures memory_i { i ≡ Err Stop.Memory → result ≡ Err RunFault.Memory }
    ensures memory_d { d ≡ Err Stop.Memory → result ≡ Err RunFault.Memory }
    ensures memory_merge { merge ≡ Err Stop.Memory → result ≡ Err RunFault.Memory }
{
    match (i, d, merge) {
        (Ok(i), Ok(d), Ok(merge)) => Ok((i, d, merge)),
        (i, d, merge) => Err(gravest(RunFault::Cut, i.err(), d.err(), merge.err())),
    }
}
