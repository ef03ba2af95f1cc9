//! Threads whose peers are gone, or that could not be started.

ghost use Rattle.std.specs.Prelude.{IfOk, []};
ghost use Rattle.stage_core.specs.Standing.{IsReady, StageStandsFor, L2StandsFor};
ghost use Rattle.run_threads.specs.Ends.{AreUnused, UnusedStage, UnusedMerge};

use super::config;
use cache_core::Class;
use pipe_rings::{OUTBOX, Rx, SenderGone, Tx, ring};
use run_threads::{
    BodyRuntime, MergeEnds, OpenGate, Rings, RunFault, StageEnds, StageHandle, Stop, Who, ends_of,
    prepare, run_merge, run_stage, start_stage, wind_up,
};
use stage_core::{FromStage, L1Stage, L2Stage, Side, ToStage, Turn, What};
use std::alloc::Global;
use std::process::Abort;
use std::sync::Wait;
use std::test::Fail;
use std::thread;
use std::thread::{Scope, Threads};

pub(super) fn stage(alloc: Global, side: Side) -> Result<L1Stage, Fail>
    ensures ready { IfOk result IsReady }
    ensures new { IfOk result (λ stage. StageStandsFor stage []) }
{
    let config = config(2)?;
    let (geometry, policy) = match side {
        Side::I => config.i(),
        Side::D => config.d(),
    };
    Ok(L1Stage::new(alloc, side, geometry, policy)?)
}

fn second_level(alloc: Global) -> Result<L2Stage, Fail>
    ensures { IfOk result (λ stage. L2StandsFor stage []) }
{
    let (geometry, policy) = config(2)?.u();
    Ok(L2Stage::new(alloc, geometry, policy)?)
}

/// Five new rings.
pub(super) fn rings(alloc: Global, capacity: u64) -> Result<Rings, Fail>
    ensures { IfOk result AreUnused }
{
    let (machines, rings) = prepare(alloc, &config(capacity)?, OUTBOX)?;
    drop(machines);
    Ok(rings)
}

/// A side, its name at a gate, and the class of its references; its fetches have that class too.
type Row = (Side, Who, Class);

static SIDES: [Row; 2] = [
    (Side::I, Who::I, Class::Instr),
    (Side::D, Who::D, Class::Read),
];

/// Sends a message that the ring has room for.
fn is_sent<T: Copy, H: Wait + Abort>(rt: &H, tx: &mut Tx<T>, message: T) {
    assert!(rt; tx.send(rt, message).is_ok());
}

/// The ends of a stage, and the two ends at the other sides of its rings.
fn stage_rings(alloc: Global) -> Result<(Tx<ToStage>, StageEnds, Rx<FromStage>), Fail>
    ensures { IfOk result (λ r. UnusedStage r.1) }
{
    let (to_stage, from_splitter) = ring::<ToStage>(alloc, 4)?;
    let (to_merge, from_stage) = ring::<FromStage>(alloc, 4)?;
    let ends = StageEnds {
        from_splitter,
        to_merge,
    };
    Ok((to_stage, ends, from_stage))
}

/// Why a stage of this side stops if it has these ends.
fn stop_of_stage<H: Wait>(
    rt: &H,
    alloc: Global,
    row: Row,
    ends: StageEnds,
) -> Result<Option<Stop>, Fail>
    requires { UnusedStage ends }
{
    let (side, who, _) = row;
    let stage = stage(alloc, side)?;
    Ok(run_stage(&BodyRuntime::new(rt), &OpenGate, who, stage, ends).err())
}

fn reference(class: Class) -> ToStage {
    ToStage::Ref {
        place: 1,
        class,
        addr: 0,
    }
}

/// The answer to the reference has to have come, and nothing after it.
fn is_answered<H: Wait + Abort>(rt: &H, from_stage: &mut Rx<FromStage>, class: Class) {
    let part = FromStage::Part {
        place: 1,
        part: 1,
        what: What::Fetch(class, 0),
    };
    let done = FromStage::Done { place: 1, parts: 1 };
    assert_eq!(rt; from_stage.recv(rt), Ok(part));
    assert_eq!(rt; from_stage.recv(rt), Ok(done));
    assert_eq!(rt; from_stage.recv(rt), Err(SenderGone));
}

/// A stage whose sender is gone has to answer the reference that was sent, and to stop.
fn without_sender<H: Wait + Abort>(rt: &H, alloc: Global, row: Row) -> Result<(), Fail> {
    let (mut to_stage, ends, mut from_stage) = stage_rings(alloc)?;
    is_sent(rt, &mut to_stage, reference(row.2));
    drop(to_stage);
    let stop = stop_of_stage(rt, alloc, row, ends)?;
    assert_eq!(rt; stop, Some(Stop::Cut));
    is_answered(rt, &mut from_stage, row.2);
    Ok(())
}

/// A stage whose receiver is gone has to stop, though its sender is there and sends nothing more.
fn without_receiver<H: Wait + Abort>(rt: &H, alloc: Global, row: Row) -> Result<(), Fail> {
    let (mut to_stage, ends, from_stage) = stage_rings(alloc)?;
    is_sent(rt, &mut to_stage, reference(row.2));
    drop(from_stage);
    let stop = stop_of_stage(rt, alloc, row, ends)?;
    assert_eq!(rt; stop, Some(Stop::Cut));
    assert!(rt; to_stage.send(rt, ToStage::Finish).is_err());
    Ok(())
}

#[test]
fn a_stage_without_its_sender_answers_what_was_sent(rt: HostRuntime) -> Result<(), Fail> {
    for row in SIDES {
        without_sender(&rt, rt.alloc(), row)?;
    }
    Ok(())
}

#[test]
fn a_stage_without_its_receiver_stops(rt: HostRuntime) -> Result<(), Fail> {
    for row in SIDES {
        without_receiver(&rt, rt.alloc(), row)?;
    }
    Ok(())
}

/// Why a merge stops if it has these ends.
fn stop_of_merge<H: Wait>(rt: &H, alloc: Global, ends: MergeEnds) -> Result<Option<Stop>, Fail>
    requires { UnusedMerge ends }
{
    let u = second_level(alloc)?;
    Ok(run_merge(&BodyRuntime::new(rt), &OpenGate, u, ends).err())
}

#[test]
fn a_merge_without_turns_stops(rt: HostRuntime) -> Result<(), Fail> {
    let (splitter, i, d, merge) = ends_of(rings(rt.alloc(), 4)?);
    drop(splitter);
    let stop = stop_of_merge(&rt, rt.alloc(), merge);
    // The stages' ends are there until then.
    drop((i, d));
    assert_eq!(rt; stop?, Some(Stop::Cut));
    Ok(())
}

/// A merge whose next turn belongs to a side that is gone has to stop, though the other side has
/// sent messages.
fn without_side<H: Wait + Abort>(rt: &H, alloc: Global, turn: Turn) -> Result<(), Fail> {
    let (mut splitter, i, d, merge) = ends_of(rings(alloc, 4)?);
    let (gone, mut other) = if turn == Turn::I { (i, d) } else { (d, i) };
    drop(gone);
    is_sent(rt, &mut splitter.order, turn);
    let done = FromStage::Done { place: 1, parts: 0 };
    is_sent(rt, &mut other.to_merge, done);
    let stop = stop_of_merge(rt, alloc, merge);
    // The other ends are there until then.
    drop((splitter, other));
    assert_eq!(rt; stop?, Some(Stop::Cut));
    Ok(())
}

#[test]
fn a_merge_without_the_side_that_it_wants_stops(rt: HostRuntime) -> Result<(), Fail> {
    for turn in [Turn::I, Turn::D] {
        without_side(&rt, rt.alloc(), turn)?;
    }
    Ok(())
}

/// The thread of a stage, if it is to be started. If not, the stage and its ends are dropped.
fn thread_of<'s, E, H: Wait + Sync>(
    scope: &Scope<'s, E>,
    rt: &'s BodyRuntime<H>,
    who: Who,
    machine: L1Stage,
    ends: StageEnds,
    starts: bool,
) -> Option<StageHandle>
    requires ready { IsReady machine }
    requires new { StageStandsFor machine [] }
    requires unused { UnusedStage ends }
{
    if starts {
        start_stage(scope, rt, &OpenGate, who, machine, ends).ok()
    } else {
        None
    }
}

/// Starts this many stages, and ends them as if the next thread could not be started.
fn wind_up_in<'s, E, T: Threads, H: Wait + Sync>(
    scope: &Scope<'s, E>,
    rt: &T,
    body_rt: &'s BodyRuntime<H>,
    i: L1Stage,
    d: L1Stage,
    rings: Rings,
    started: u8,
) -> RunFault
    requires i_ready { IsReady i }
    requires i_new { StageStandsFor i [] }
    requires d_ready { IsReady d }
    requires d_new { StageStandsFor d [] }
    requires unused { AreUnused rings }
{
    let (splitter, i_ends, d_ends, merge) = ends_of(rings);
    drop(merge);
    let i = thread_of(scope, body_rt, Who::I, i, i_ends, started > 0);
    let d = thread_of(scope, body_rt, Who::D, d, d_ends, started > 1);
    drop(splitter);
    wind_up(rt, i, d)
}

fn wind_up_after<H: Threads + Wait + Sync>(
    rt: &H,
    i: L1Stage,
    d: L1Stage,
    rings: Rings,
    started: u8,
) -> RunFault
    requires i_ready { IsReady i }
    requires i_new { StageStandsFor i [] }
    requires d_ready { IsReady d }
    requires d_new { StageStandsFor d [] }
    requires unused { AreUnused rings }
{
    let body_rt = &BodyRuntime::new(rt);
    thread::scope(
        thread::scope_env(),
        rt,
        move |scope| -> RunFault
            requires i_ready { IsReady i }
            requires i_new { StageStandsFor i [] }
            requires d_ready { IsReady d }
            requires d_new { StageStandsFor d [] }
            requires unused { AreUnused rings }
        { wind_up_in(scope, rt, body_rt, i, d, rings, started) },
    )
}

/// The same with two new stages and five new rings.
fn wind_up_new<H: Threads + Wait + Sync>(
    rt: &H,
    alloc: Global,
    started: u8,
) -> Result<RunFault, Fail> {
    let i = stage(alloc, Side::I)?;
    let d = stage(alloc, Side::D)?;
    let rings = rings(alloc, 2)?;
    Ok(wind_up_after(rt, i, d, rings, started))
}

#[test]
fn winding_up_joins_what_was_started(rt: HostRuntime) -> Result<(), Fail> {
    for started in 0..3u8 {
        let fault = wind_up_new(&rt, rt.alloc(), started)?;
        assert_eq!(rt; fault, RunFault::Threads);
    }
    Ok(())
}
