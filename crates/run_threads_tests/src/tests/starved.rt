//! Threads in which an allocation fails: a run that fails for another reason too answers `Memory`.

ghost use Rattle.std.specs.Prelude.{IfOk};
ghost use Rattle.run_threads.specs.Threads.{StageServedAll};

use super::gone::{rings, stage};
use run_threads::{
    Rings, RunFault, StageEnds, StageHandle, StagePromise, StageResult, Stop, ends_of, why_stopped,
    wind_up,
};
use stage_core::{L1Stage, Side};
use std::alloc::Global;
use std::snapshot::Snapshot;
use std::sync::Wait;
use std::test::Fail;
use std::thread;
use std::thread::{Scope, Threads};

/// The thread of a stage in which an allocation fails, if it is to be started.
fn starved<'s, E, H: Threads + Wait + Sync>(
    scope: &Scope<'s, E>,
    rt: &'s H,
    machine: L1Stage,
    ends: StageEnds,
    starts: bool,
) -> Option<StageHandle> {
    if !starts {
        return None;
    }
    let promise = StagePromise {
        machine: Snapshot::of(&machine),
        ends: Snapshot::of(&ends),
    };
    let run = move || -> StageResult
        ensures { IfOk result (λ r. StageServedAll machine ends r.0 r.1) }
    {
        drop(machine);
        drop(ends);
        Err(Stop::Memory)
    };
    scope.spawn_with(promise, run).ok()
}

/// Starts these of two stages, and ends them as if the next thread could not be started.
fn wind_up_in<'s, E, H: Threads + Wait + Sync>(
    scope: &Scope<'s, E>,
    rt: &'s H,
    i: L1Stage,
    d: L1Stage,
    rings: Rings,
    started: (bool, bool),
) -> RunFault {
    let (splitter, i_ends, d_ends, merge) = ends_of(rings);
    drop((splitter, merge));
    let i = starved(scope, rt, i, i_ends, started.0);
    let d = starved(scope, rt, d, d_ends, started.1);
    wind_up(rt, i, d)
}

/// The same with new stages and rings.
fn wind_up_new<H: Threads + Wait + Sync>(
    rt: &H,
    alloc: Global,
    started: (bool, bool),
) -> Result<RunFault, Fail> {
    let i = stage(alloc, Side::I)?;
    let d = stage(alloc, Side::D)?;
    let rings = rings(alloc, 2)?;
    Ok(thread::scope(thread::scope_env(), rt, move |scope| -> RunFault {
        wind_up_in(scope, rt, i, d, rings, started)
    }))
}

#[test]
fn winding_up_answers_want_of_memory(rt: HostRuntime) -> Result<(), Fail> {
    for started in [(true, false), (false, true), (true, true)] {
        let fault = wind_up_new(&rt, rt.alloc(), started)?;
        assert_eq!(rt; fault, RunFault::Memory);
    }
    Ok(())
}

/// Why a stage's thread stopped in which an allocation failed.
fn why_in<'s, E, H: Threads + Wait + Sync>(
    scope: &Scope<'s, E>,
    rt: &'s H,
    machine: L1Stage,
    ends: StageEnds,
) -> Option<Stop> {
    match starved(scope, rt, machine, ends, true) {
        Some(handle) => why_stopped(rt, handle),
        None => None,
    }
}

#[test]
fn a_thread_that_stopped_says_why(rt: HostRuntime) -> Result<(), Fail> {
    let machine = stage(rt.alloc(), Side::I)?;
    let (splitter, i, d, merge) = ends_of(rings(rt.alloc(), 2)?);
    let rt = &rt;
    let stop = thread::scope(thread::scope_env(), rt, move |scope| -> Option<Stop> {
        why_in(scope, rt, machine, i)
    });
    drop((splitter, d, merge));
    assert_eq!(rt; stop, Some(Stop::Memory));
    Ok(())
}
