//! The thread of a first-level stage.

ghost use Rattle.std.specs.Prelude.{◌≡◌, [], ◌∷◌, ◌++◌, false};
ghost use Rattle.std.specs.Prelude.{IsTrue, OnOk, IfOk, IfErr};
ghost use Rattle.std.specs.List.{list_any};
ghost use Rattle.pipe_rings.specs.Rings.{sent, received, HasRoom, SameTx, SameRx, IsAnnounced};
ghost use Rattle.stage_core.specs.Streams.{is_finish};
ghost use Rattle.stage_core.specs.Waiting.{HasAnswered};
ghost use Rattle.stage_core.specs.Standing.{StageStandsFor, IsReady, cache_of, side_of};
ghost use Rattle.stage_core.specs.Standing.{outbox_of, took_finish};
ghost use Rattle.run_threads.specs.declared.fault.Stop.{Stop};
ghost use Rattle.run_threads.specs.Ends.{UnusedStage};
ghost use Rattle.run_threads.specs.Faults.{StopFits};
ghost use Rattle.run_threads.specs.Threads.{StageServedAll};
ghost use Rattle.run_threads.specs.Waits.{AnswersPublished, OfStage, StageHasEnded};

use crate::ends::{BETWEEN_OFFERS, StageEnds};
use crate::fault::{NoThread, Stop};
use crate::gate::{Gate, Who};
use crate::waits::{BodyRuntime, await_message, await_room, pass_stage};
use cache_core::MAX_EVENTS;
use stage_core::{L1Stage, ToStage};
use std::snapshot::Snapshot;
use std::sync::Wait;
use std::thread::{Promise, PromisedHandle, Scope};

/// The result of a stage's thread.
pub type StageResult = Result<(L1Stage, StageEnds), Stop>;

/// What the thread of a stage promises about its result, given the values that it began with.
#[derive(Drop)]
pub struct StagePromise {
    pub machine: Snapshot<L1Stage>,
    pub ends: Snapshot<StageEnds>,
}

impl Promise<StageResult> for StagePromise {
    ghost kept_by = { λ p r. IfOk r (λ t. StageServedAll p.machine.value p.ends.value t.0 t.1) };
}

/// A stage's thread, which is still to be joined.
pub type StageHandle = PromisedHandle<StageResult, StagePromise>;

/// Publishes all posted messages. Then there is room for others.
fn publish<H: Wait>(rt: &BodyRuntime<H>, stage: &L1Stage, ends: &mut StageEnds) -> Result<(), Stop>
    requires answered { OfStage HasAnswered stage.now ends.old }
    ensures from_splitter { ends.new.from_splitter ≡ ends.old.from_splitter }
    ensures ring { SameTx ends.old.to_merge ends.new.to_merge }
    ensures sent { sent ends.new.to_merge ≡ sent ends.old.to_merge }
    ensures room { OnOk result (HasRoom ends.new.to_merge) }
    ensures published { OnOk result (AnswersPublished ends.new) }
    ensures cut { IfErr result (λ why. why ≡ Stop.Cut) }
{
    for _ in rt.forever() {
        if ends.to_merge.is_cut() {
            return Err(Stop::Cut);
        }
        let moved = ends.to_merge.publish();
        if ends.to_merge.posted() == 0 {
            return Ok(());
        }
        if moved == 0 {
            await_room(rt, stage, ends)?;
        }
    }
    unreachable!()
}

/// Receives the next message.
#[inline]
fn receive<H: Wait>(
    rt: &BodyRuntime<H>,
    stage: &L1Stage,
    ends: &mut StageEnds,
) -> Result<ToStage, Stop>
    requires answered { OfStage HasAnswered stage.now ends.old }
    requires ready { IsReady stage.now }
    requires goes_on { list_any is_finish (received ends.old.from_splitter) ≡ false }
    ensures from_splitter { SameRx ends.old.from_splitter ends.new.from_splitter }
    ensures to_merge { SameTx ends.old.to_merge ends.new.to_merge }
    ensures received { IfOk result (λ message. received ends.new.from_splitter
        ≡ received ends.old.from_splitter ++ message ∷ []) }
    ensures sent { sent ends.new.to_merge ≡ sent ends.old.to_merge }
    ensures published { AnswersPublished ends.old → OnOk result (AnswersPublished ends.new) }
    ensures cut { IfErr result (λ why. why ≡ Stop.Cut) }
{
    match ends.from_splitter.try_recv() {
        Some(message) => Ok(message),
        None => publish_and_receive(rt, stage, ends),
    }
}

/// Publishes all posted messages, and then receives the next message.
#[cold]
fn publish_and_receive<H: Wait>(
    rt: &BodyRuntime<H>,
    stage: &L1Stage,
    ends: &mut StageEnds,
) -> Result<ToStage, Stop>
    requires answered { OfStage HasAnswered stage.now ends.old }
    requires ready { IsReady stage.now }
    requires goes_on { list_any is_finish (received ends.old.from_splitter) ≡ false }
    ensures from_splitter { SameRx ends.old.from_splitter ends.new.from_splitter }
    ensures to_merge { SameTx ends.old.to_merge ends.new.to_merge }
    ensures received { IfOk result (λ message. received ends.new.from_splitter
        ≡ received ends.old.from_splitter ++ message ∷ []) }
    ensures sent { sent ends.new.to_merge ≡ sent ends.old.to_merge }
    ensures published { OnOk result (AnswersPublished ends.new) }
    ensures cut { IfErr result (λ why. why ≡ Stop.Cut) }
{
    publish(rt, stage, ends)?;
    match ends.from_splitter.try_recv() {
        Some(message) => Ok(message),
        None => await_message(rt, stage, ends),
    }
}

/// Sends all messages of the stage's outbox. If `urgent`, all of them are published at once.
fn send_outbox<H: Wait>(
    rt: &BodyRuntime<H>,
    stage: &mut L1Stage,
    ends: &mut StageEnds,
    urgent: bool,
) -> Result<(), Stop>
    requires answered { OfStage HasAnswered stage.old ends.old }
    ensures from_splitter { ends.new.from_splitter ≡ ends.old.from_splitter }
    ensures ring { SameTx ends.old.to_merge ends.new.to_merge }
    ensures sent { OnOk result (sent ends.new.to_merge
        ≡ sent ends.old.to_merge ++ outbox_of stage.old) }
    ensures empty { OnOk result (outbox_of stage.new ≡ []) }
    ensures cut { IfErr result (λ why. why ≡ Stop.Cut) }
    ensures cache { cache_of stage.new ≡ cache_of stage.old }
    ensures side { side_of stage.new ≡ side_of stage.old }
    ensures finish { took_finish stage.new ≡ took_finish stage.old }
    ensures published { IsTrue urgent → OnOk result (AnswersPublished ends.new) }
{
    if !ends.to_merge.has_room() {
        publish(rt, stage, ends)?;
    }
    while let Some(message) = stage.outbox_next() {
        ends.to_merge.post(message);
        if ends.to_merge.posted() % BETWEEN_OFFERS == 0 {
            ends.to_merge.offer();
        }
        if !ends.to_merge.has_room() {
            publish(rt, stage, ends)?;
        }
    }
    if urgent {
        return publish(rt, stage, ends);
    }
    Ok(())
}

/// Serves the messages of the splitter and sends the answers, up to `Finish`.
fn serve_all<H: Wait, G: Gate>(
    rt: &BodyRuntime<H>,
    gate: &G,
    who: Who,
    stage: &mut L1Stage,
    ends: &mut StageEnds,
) -> Result<(), Stop>
    requires ready { IsReady stage.old }
    requires new { StageStandsFor stage.old [] }
    requires unused { UnusedStage ends.old }
    ensures ended { OnOk result (StageServedAll stage.old ends.old stage.new ends.new) }
    ensures rests { OnOk result (StageHasEnded stage.new ends.new) }
    ensures announced { OnOk result (IsAnnounced ends.new.to_merge) }
    ensures stopped { IfErr result (StopFits (cache_of stage.new)) }
{
    let mut count = 0;
    for _ in rt.forever() {
        let message = receive(rt, stage, ends)?;
        count = pass_stage(rt, gate, who, ends, count)?;
        if stage.served() >= MAX_EVENTS {
            return Err(Stop::Cut);
        }
        let Ok(()) = stage.on(message) else {
            return Err(Stop::Memory);
        };
        send_outbox(rt, stage, ends, !gate.is_open())?;
        if stage.finished() {
            return publish(rt, stage, ends);
        }
    }
    unreachable!()
}

/// Serves all messages of the splitter. If it stops before `Finish`, its ends are dropped.
pub fn run_stage<H: Wait, G: Gate>(
    rt: &BodyRuntime<H>,
    gate: &G,
    who: Who,
    machine: L1Stage,
    unused: StageEnds,
) -> StageResult
    requires ready { IsReady machine }
    requires new { StageStandsFor machine [] }
    requires unused { UnusedStage unused }
    ensures ended { IfOk result (λ r. StageServedAll machine unused r.0 r.1) }
    // A stage that has ended holds no answer back, and has none left to announce.
    ensures rests { IfOk result (λ r. StageHasEnded r.0 r.1) }
    ensures announced { IfOk result (λ r. IsAnnounced r.1.to_merge) }
{
    let mut stage = machine;
    let mut ends = unused;
    serve_all(rt, gate, who, &mut stage, &mut ends)?;
    Ok((stage, ends))
}

/// Starts the thread of a stage. If it cannot be started, the stage and its ends are dropped.
pub fn start_stage<'s, E, H: Wait + Sync, G: Gate>(
    scope: &Scope<'s, E>,
    rt: &'s BodyRuntime<H>,
    gate: &'s G,
    who: Who,
    machine: L1Stage,
    ends: StageEnds,
) -> Result<StageHandle, NoThread>
    requires ready { IsReady machine }
    requires new { StageStandsFor machine [] }
    requires unused { UnusedStage ends }
    ensures machine { IfOk result (λ h. h.promise.machine.value ≡ machine) }
    ensures ends { IfOk result (λ h. h.promise.ends.value ≡ ends) }
{
    let promise = StagePromise {
        machine: Snapshot::of(&machine),
        ends: Snapshot::of(&ends),
    };
    let run = move || -> StageResult
        requires ready { IsReady machine }
        requires new { StageStandsFor machine [] }
        requires unused { UnusedStage ends }
        ensures { IfOk result (λ r. StageServedAll machine ends r.0 r.1) }
    { run_stage(rt, gate, who, machine, ends) };
    scope.spawn_with(promise, run).or(Err(NoThread))
}
