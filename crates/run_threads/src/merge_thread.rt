//! The thread of the merge and the second level.

ghost use Rattle.std.specs.Prelude.{◌≡◌, ◌≤◌, ◌⊎◌, [], ◌∷◌, ◌++◌, List, IfOk, OnOk, IfErr, false};
ghost use Rattle.pipe_rings.specs.Rings.{received, SameRx};
ghost use Rattle.cache_core.specs.Standing.{has_failed, rules_of, served_of};
ghost use Rattle.stage_core.specs.Merging.{AtEnd, wanted, want_of, after_message, what_in};
ghost use Rattle.stage_core.specs.Standing.{L2StandsFor, l2_cache};
ghost use Rattle.stage_core.specs.declared.message.Want.TheVariants as want;
ghost use Rattle.stage_core.specs.declared.message.What.{What};
ghost use Rattle.stage_core.specs.declared.message.FromStage.{FromStage};
ghost use Rattle.run_threads.specs.declared.fault.Stop.{Stop};
ghost use Rattle.run_threads.specs.Ends.{UnusedMerge};
ghost use Rattle.run_threads.specs.Faults.{StopFits};
ghost use Rattle.run_threads.specs.Threads.{MergeServed};
ghost use Rattle.run_threads.specs.Waits.{MergeUsed, OnlyFrom, end_from};

use crate::ends::MergeEnds;
use crate::fault::{NoThread, Stop};
use crate::gate::Gate;
use crate::waits::{BodyRuntime, await_from, await_turn, pass_merge};
use cache_core::MAX_EVENTS;
use stage_core::{FromStage, L2Stage, Merge, Side, Turn, Want};
use std::snapshot::Snapshot;
use std::sync::Wait;
use std::thread::{Promise, PromisedHandle, Scope};

/// The result of the merge's thread.
pub type MergeResult = Result<(L2Stage, MergeEnds), Stop>;

/// What the thread of the merge promises about its result, given the values that it began with.
#[derive(Drop)]
pub struct MergePromise {
    pub machine: Snapshot<L2Stage>,
    pub ends: Snapshot<MergeEnds>,
}

impl Promise<MergeResult> for MergePromise {
    ghost kept_by = { λ p r. IfOk r (λ t. MergeServed AtEnd p.machine.value p.ends.value t.0 t.1) };
}

/// The merge's thread, which is still to be joined.
pub type MergeHandle = PromisedHandle<MergeResult, MergePromise>;

/// The merge takes a message of a side, and the second level serves the request in it, if any.
#[inline(always)]
fn take_and_serve(merge: &mut Merge, u: &mut L2Stage, message: FromStage) -> Result<(), Stop>
    requires { (wanted merge.old ≡ want.I) ⊎ (wanted merge.old ≡ want.D) }
    ensures merge { merge.new ≡ after_message merge.old message }
    ensures stands { OnOk result ((before : List What) → L2StandsFor u.old before
        → L2StandsFor u.new (before ++ what_in message)) }
    ensures rules { rules_of (l2_cache u.new) ≡ rules_of (l2_cache u.old) }
    ensures cut { IfErr result (λ why. why ≡ Stop.Cut
        → MAX_EVENTS ≤ served_of (l2_cache u.old)) }
    ensures stopped { has_failed (l2_cache u.old) ≡ false
        → IfErr result (StopFits (l2_cache u.new)) }
{
    let Some(what) = merge.take(message) else {
        return Ok(());
    };
    if u.served() >= MAX_EVENTS {
        return Err(Stop::Cut);
    }
    u.on(what).or(Err(Stop::Memory))
}

/// The next turn.
#[inline(always)]
fn next_turn<H: Wait>(
    rt: &BodyRuntime<H>,
    merge: &Merge,
    ends: &mut MergeEnds,
) -> Result<Turn, Stop>
    requires used { MergeUsed merge.now ends.old }
    requires wants { wanted merge.now ≡ want.Order }
    ensures order { SameRx ends.old.order ends.new.order }
    ensures received { IfOk result (λ turn. received ends.new.order
        ≡ received ends.old.order ++ turn ∷ []) }
    ensures from_i { ends.new.from_i ≡ ends.old.from_i }
    ensures from_d { ends.new.from_d ≡ ends.old.from_d }
    ensures cut { IfErr result (λ why. why ≡ Stop.Cut) }
{
    match ends.order.try_recv() {
        Some(turn) => Ok(turn),
        None => await_turn(rt, merge, ends),
    }
}

/// The next message from a stage.
#[inline(always)]
fn next_from<H: Wait>(
    rt: &BodyRuntime<H>,
    side: Side,
    merge: &Merge,
    ends: &mut MergeEnds,
) -> Result<FromStage, Stop>
    requires used { MergeUsed merge.now ends.old }
    requires wants { wanted merge.now ≡ want_of side }
    ensures ring { OnlyFrom side ends.old ends.new }
    ensures received { IfOk result (λ message. received (end_from ends.new side)
        ≡ received (end_from ends.old side) ++ message ∷ []) }
    ensures cut { IfErr result (λ why. why ≡ Stop.Cut) }
{
    match side {
        Side::I => match ends.from_i.try_recv() {
            Some(message) => Ok(message),
            None => await_from(rt, side, merge, ends),
        },
        Side::D => match ends.from_d.try_recv() {
            Some(message) => Ok(message),
            None => await_from(rt, side, merge, ends),
        },
    }
}

/// Receives the next message from a stage, passes the gate with it, and then serves it.
#[inline(always)]
fn take_from<H: Wait, G: Gate>(
    rt: &BodyRuntime<H>,
    gate: &G,
    side: Side,
    merge: &mut Merge,
    u: &mut L2Stage,
    ends: &mut MergeEnds,
    count: u64,
) -> Result<u64, Stop>
    requires used { MergeUsed merge.old ends.old }
    requires wants { wanted merge.old ≡ want_of side }
    ensures served { OnOk result ((began : L2Stage) (start : MergeEnds)
        → MergeServed merge.old began start u.old ends.old
        → MergeServed merge.new began start u.new ends.new) }
    ensures stopped { has_failed (l2_cache u.old) ≡ false
        → IfErr result (StopFits (l2_cache u.new)) }
{
    let message = next_from(rt, side, merge, ends)?;
    let count = pass_merge(rt, gate, ends, count)?;
    take_and_serve(merge, u, message)?;
    Ok(count)
}

/// Receives messages, each from the ring that the merge wants next, until the merge is at its end.
fn merge_all<H: Wait, G: Gate>(
    rt: &BodyRuntime<H>,
    gate: &G,
    u: &mut L2Stage,
    ends: &mut MergeEnds,
) -> Result<(), Stop>
    requires new { L2StandsFor u.old [] }
    requires unused { UnusedMerge ends.old }
    ensures served { OnOk result (MergeServed AtEnd u.old ends.old u.new ends.new) }
    ensures stopped { IfErr result (StopFits (l2_cache u.new)) }
{
    let mut merge = Merge::new();
    let mut received = 0;
    for _ in rt.forever() {
        match merge.wants() {
            Want::Order => {
                let turn = next_turn(rt, &merge, ends)?;
                received = pass_merge(rt, gate, ends, received)?;
                merge.turn(turn);
            }
            Want::I => {
                received = take_from(rt, gate, Side::I, &mut merge, u, ends, received)?;
            }
            Want::D => {
                received = take_from(rt, gate, Side::D, &mut merge, u, ends, received)?;
            }
            Want::Nothing => return Ok(()),
        }
    }
    unreachable!()
}

/// Merges all messages of the rings. If it stops before the end, its ends are dropped.
pub fn run_merge<H: Wait, G: Gate>(
    rt: &BodyRuntime<H>,
    gate: &G,
    machine: L2Stage,
    unused: MergeEnds,
) -> MergeResult
    requires new { L2StandsFor machine [] }
    requires unused { UnusedMerge unused }
    ensures { IfOk result (λ r. MergeServed AtEnd machine unused r.0 r.1) }
{
    let mut u = machine;
    let mut ends = unused;
    merge_all(rt, gate, &mut u, &mut ends)?;
    Ok((u, ends))
}

/// Starts the thread of the merge. If it cannot be started, the second level and the ends are
/// dropped.
pub fn start_merge<'s, E, H: Wait + Sync, G: Gate>(
    scope: &Scope<'s, E>,
    rt: &'s BodyRuntime<H>,
    gate: &'s G,
    machine: L2Stage,
    ends: MergeEnds,
) -> Result<MergeHandle, NoThread>
    requires new { L2StandsFor machine [] }
    requires unused { UnusedMerge ends }
    ensures machine { IfOk result (λ h. h.promise.machine.value ≡ machine) }
    ensures ends { IfOk result (λ h. h.promise.ends.value ≡ ends) }
{
    let promise = MergePromise {
        machine: Snapshot::of(&machine),
        ends: Snapshot::of(&ends),
    };
    let run = move || -> MergeResult
        requires new { L2StandsFor machine [] }
        requires unused { UnusedMerge ends }
        ensures { IfOk result (λ r. MergeServed AtEnd machine ends r.0 r.1) }
    { run_merge(rt, gate, machine, ends) };
    scope.spawn_with(promise, run).or(Err(NoThread))
}
