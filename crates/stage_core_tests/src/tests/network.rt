//! Runs of the network, step by step.

use super::worked::{
    FLUSHED, FLUSHED_TOTALS, PUT_IN_TOTALS, SWEEP_TOTALS, VICTIM, VICTIM_TOTALS, sweep,
};
use super::{LRU, config_of, push, same};
use din_trace::{DinRecord, MAX_LIMIT};
use expected_counts::NO_COUNTS;
use stage_core::{Core, NoMemory, Selection, Totals, drive};
use std::alloc::Global;
use std::process::Abort;
use std::test::Fail;

/// The choices of so many steps: these two in turn.
fn choices_of(rt: &impl Abort, alloc: Global, (even, odd): (u8, u8), steps: u64) -> Vec<u8> {
    let mut choices = Vec::new(alloc);
    for k in 0..steps {
        push(rt, &mut choices, if k % 2 == 0 { even } else { odd });
    }
    choices
}

/// A run with rings of this capacity, a flush after every `every` references, and these choices.
fn run(
    rt: &impl Abort,
    alloc: Global,
    (every, ring): (u64, u64),
    records: &[DinRecord],
    choices: &[u8],
) -> Result<(Totals, u64), NoMemory> {
    assert!(rt; every <= MAX_LIMIT && records.len() as u64 <= MAX_LIMIT);
    let selection = Selection {
        skip: 0,
        max: 0,
        every,
    };
    let config = config_of(rt, LRU, ring);
    drive(alloc, &config, &selection, records, choices)
}

/// A trace, the flushes that are put in and the capacity of the rings, and the counts and the
/// number of steps that a run has to come to.
type Run<'a> = (&'a [DinRecord], (u64, u64), Totals, u64);

/// The run has to come to that with these choices.
fn is_driven(rt: &impl Abort, alloc: Global, wanted: &Run<'_>, choices: &[u8]) {
    let (records, how, totals, steps) = wanted;
    let answer = run(rt, alloc, *how, *records, choices);
    same(
        rt,
        &answer,
        &Ok((*totals, *steps)),
        "the counts and steps",
        *steps,
    );
}

/// The run has to come to that, whether each step is made by the first machine that can, or by
/// another one, or by the first two in turn.
fn is_driven_by_all(rt: &impl Abort, alloc: Global, wanted: &Run<'_>) {
    for pattern in [(0, 0), (6, 6), (0, 1)] {
        is_driven(rt, alloc, wanted, &choices_of(rt, alloc, pattern, wanted.3));
    }
}

const NO_TOTALS: Totals = Totals {
    i: NO_COUNTS,
    d: NO_COUNTS,
    u: NO_COUNTS,
};

static VICTIM_RUN: Run<'static> = (&VICTIM, (0, 2), VICTIM_TOTALS, 36);

static FLUSHED_RUN: Run<'static> = (&FLUSHED, (0, 1), FLUSHED_TOTALS, 42);

static PUT_IN_RUN: Run<'static> = (&VICTIM, (2, 2), PUT_IN_TOTALS, 48);

static EMPTY_RUN: Run<'static> = (&[], (0, 1), NO_TOTALS, 10);

#[test]
fn a_trace_has_as_many_steps_whatever_the_choices(rt: HostRuntime) {
    is_driven_by_all(&rt, rt.alloc(), &VICTIM_RUN);
    is_driven_by_all(&rt, rt.alloc(), &FLUSHED_RUN);
    is_driven_by_all(&rt, rt.alloc(), &PUT_IN_RUN);
    is_driven_by_all(&rt, rt.alloc(), &EMPTY_RUN);
}

#[test]
fn choices_may_be_fewer_or_more(rt: HostRuntime) {
    let in_turn = choices_of(&rt, rt.alloc(), (0, 1), 100);
    for choices in [[].as_slice(), &[3, 1], &[0; 100], &[6; 100], &in_turn] {
        is_driven(&rt, rt.alloc(), &VICTIM_RUN, choices);
    }
}

#[test]
fn a_long_trace_goes_through_rings_of_one_message(rt: HostRuntime) {
    let trace = sweep(&rt, rt.alloc());
    is_driven_by_all(
        &rt,
        rt.alloc(),
        &(trace.as_slice(), (0, 1), SWEEP_TOTALS, 80_010),
    );
}

/// A network with rings of one message, before its first step.
fn core_of(rt: &impl Abort, alloc: Global, records: &[DinRecord]) -> Result<Core, NoMemory> {
    assert!(rt; records.len() as u64 <= MAX_LIMIT);
    let selection = Selection {
        skip: 0,
        max: 0,
        every: 0,
    };
    let config = config_of(rt, LRU, 1);
    Core::new(alloc, &config, &selection, records)
}

/// How many machines can step, whether all have finished, and whether an allocation failed.
fn state(core: &Core) -> (u8, bool, bool) {
    (core.enabled(), core.finished(), core.failed())
}

fn try_step(rt: &impl Abort, core: &mut Core, nth: u8) -> Result<(), NoMemory> {
    assert!(rt; nth < core.enabled());
    core.step(nth)
}

fn totals(rt: &impl Abort, core: &Core) -> Totals {
    assert!(rt; core.finished());
    core.totals()
}

/// One more step of a run that is not over. If an allocation fails, nothing may be enabled after
/// it.
fn step(rt: &impl Abort, core: &mut Core, nth: u8) -> Result<(), NoMemory> {
    let (_, finished, failed) = state(core);
    assert!(rt; !finished && !failed);
    let stepped = try_step(rt, core, nth);
    assert!(rt; stepped.is_ok() || state(core) == (0, false, true));
    stepped
}

/// A run over an empty trace. Before each step this many machines have to be able to step, and the
/// one with this number does.
fn ends_are_sent(rt: &impl Abort, core: &mut Core) -> Result<(), NoMemory> {
    for (machines, nth) in [(1, 0), (2, 1), (1, 0)] {
        assert!(rt; state(core) == (machines, false, false));
        step(rt, core, nth)?;
    }
    Ok(())
}

#[test]
fn the_machines_that_can_are_counted(rt: HostRuntime) -> Result<(), Fail> {
    let mut core = core_of(&rt, rt.alloc(), &[])?;
    Ok(ends_are_sent(&rt, &mut core)?)
}

/// If an allocation fails, the run has to fail with the name of that.
#[test]
fn a_refused_run_answers_want_of_memory(rt: HostRuntime) -> Result<(), Fail> {
    let answer = run(&rt, rt.alloc(), (0, 1), &FLUSHED, &[])?;
    same(
        &rt,
        &answer,
        &(FLUSHED_TOTALS, 42),
        "the counts and steps",
        42,
    );
    Ok(())
}

fn runs_to_its_end(rt: &impl Abort, core: &mut Core) -> Result<(), NoMemory> {
    for _ in 0..42 {
        step(rt, core, 0)?;
    }
    assert!(rt; state(core) == (0, true, false));
    same(rt, &totals(rt, core), &FLUSHED_TOTALS, "the counts", 42);
    Ok(())
}

/// If an allocation fails in a step, the test fails with the name of that.
#[test]
fn a_refused_step_leaves_nothing_enabled(rt: HostRuntime) -> Result<(), Fail> {
    let mut core = core_of(&rt, rt.alloc(), &FLUSHED)?;
    Ok(runs_to_its_end(&rt, &mut core)?)
}
