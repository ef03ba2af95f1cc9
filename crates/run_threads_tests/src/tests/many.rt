//! Many runs through small rings, with outboxes of one message. Each has to end, and always with
//! the same result. Those with outboxes of the usual size are in sim_run_tests.

ghost use Rattle.run_threads.specs.Ends.{ArePaired, AreUnused};
ghost use Rattle.run_threads.specs.Machines.{AreNew};

use super::config;
use cache_core::{Counts, PerClass};
use din_trace::{FromRead, MAX_LIMIT, Source, TraceFault, Why};
use expected_counts::{NO_COUNTS, by_class, first_misses};
use run_threads::{BodyRuntime, OpenGate, RunFault, Settled, prepare, run_in};
use stage_core::{Config, Selection, Totals};
use std::alloc::Global;
use std::sync::Wait;
use std::test::Fail;
use std::thread;
use std::thread::Threads;

/// A trace without a fault, and three with one at the start, in the middle or at the end.
static TRACES: [(&[u8], Option<(u64, Why)>); 4] = [
    (b"1 0\n0 8\n0 10\n", None),
    (b"x 0\n1 0\n0 8\n0 10\n", Some((1, Why::Label))),
    (
        b"1 0\n0 8\n4 0\n2 4\n0 1g\n1 0\n2 8\n",
        Some((5, Why::Tail)),
    ),
    (
        b"2 0\n2 4\n2 8\n2 c\n1 0\n1 4\n1 8\n4 0\n3",
        Some((9, Why::Gap)),
    ),
];

static EVERYTHING: Selection = Selection {
    skip: 0,
    max: 0,
    every: 0,
};

/// The result of a run in threads over a trace, with an outbox of one message before each ring.
fn run_with<H: Threads + Wait + Sync>(
    rt: &H,
    alloc: Global,
    config: &Config,
    trace: &[u8],
) -> Result<Result<Totals, RunFault>, Fail> {
    let (machines, rings) = prepare(alloc, config, 1)?;
    let source = Source::new(FromRead::new(trace), MAX_LIMIT);
    let body_rt = &BodyRuntime::new(rt);
    let (source, ended) = thread::scope(
        thread::scope_env(),
        rt,
        move |scope| -> (Source<FromRead<&[u8]>>, Result<Settled, RunFault>)
            requires new { AreNew machines }
            requires paired { ArePaired rings }
            requires unused { AreUnused rings }
        {
            run_in(
                scope, rt, body_rt, &OpenGate, EVERYTHING, source, machines, rings,
            )
        },
    );
    drop(source);
    match ended {
        Ok(Settled { totals, rings }) => {
            drop(rings);
            Ok(Ok(totals))
        }
        Err(fault) => Ok(Err(fault)),
    }
}

/// The totals of the trace without a fault: the second read evicts the written block.
static TOTALS_OF_THREE: Totals = Totals {
    i: NO_COUNTS,
    d: Counts {
        written_back: 1,
        ..first_misses!(
            by_class!(read: 2, write: 1),
            by_class!(read: 2, write: 1),
            3
        )
    },
    u: first_misses!(by_class!(read: 3, write: 1), by_class!(read: 3), 3),
};

/// What a run over one of the traces has to answer.
fn wanted(fault: Option<(u64, Why)>) -> Result<Totals, RunFault> {
    match fault {
        Some((line, why)) => Err(RunFault::Trace(TraceFault::Bad { line, why })),
        None => Ok(TOTALS_OF_THREE),
    }
}

#[test]
fn a_thousand_runs_with_outboxes_of_one_end_alike(rt: HostRuntime) -> Result<(), Fail> {
    for ring in [1, 2, 3, 64] {
        let config = config(ring)?;
        for _ in 0..250 {
            for (trace, fault) in TRACES {
                let ended = run_with(&rt, rt.alloc(), &config, trace)?;
                assert_eq!(rt; ended, wanted(fault));
            }
        }
    }
    Ok(())
}

/// How many rounds the long trace has.
const ROUNDS: u64 = 600;

/// A fetch, a read and a flush in each round: turns of all three kinds.
fn rounds(alloc: Global) -> Result<Vec<u8>, Fail> {
    let mut trace = Vec::new(alloc);
    for _ in 0..ROUNDS {
        trace.extend_from_slice(b"2 0\n0 0\n4 0\n")?;
    }
    Ok(trace)
}

/// The counts of a first-level cache over them. Each round begins with an empty cache.
fn counts_of_rounds(all: PerClass, first: PerClass, again: PerClass) -> Counts {
    Counts {
        fetches: all,
        misses: all,
        compulsory: first,
        capacity: again,
        loaded: ROUNDS,
        flushes: ROUNDS,
        ..NO_COUNTS
    }
}

/// Their totals. The fetch loads the block into the second level, where the read finds it.
fn totals_of_rounds() -> Totals {
    let i = counts_of_rounds(
        by_class!(instr: ROUNDS),
        by_class!(instr: 1),
        by_class!(instr: ROUNDS - 1),
    );
    let d = counts_of_rounds(
        by_class!(read: ROUNDS),
        by_class!(read: 1),
        by_class!(read: ROUNDS - 1),
    );
    let u = Counts {
        fetches: by_class!(instr: ROUNDS, read: ROUNDS),
        ..i
    };
    Totals { i, d, u }
}

#[test]
fn long_runs_with_outboxes_of_one_count_the_same(rt: HostRuntime) -> Result<(), Fail> {
    let trace = rounds(rt.alloc())?;
    for ring in [1, 2, 3, 64] {
        let config = config(ring)?;
        for _ in 0..12 {
            let ended = run_with(&rt, rt.alloc(), &config, &trace)?;
            assert_eq!(rt; ended, Ok(totals_of_rounds()));
        }
    }
    Ok(())
}
