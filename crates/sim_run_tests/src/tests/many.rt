//! Many runs of `simulate` through small rings. Each has to end, and always with the same result.
//! The tests of run_threads make such runs with outboxes of one message.

use super::layout::ONE_WRITE_BACK;
use super::{EVERYTHING, USUAL, bad, config_of, reported, simulated, writes_text};
use cache_core::Counts;
use din_trace::{MAX_LIMIT, Why};
use expected_counts::{NO_COUNTS, by_class, first_misses};
use sim_run::{OpenGate, RunFault};
use stage_core::{Config, Totals};
use std::alloc::Global;
use std::process::Abort;
use std::sync::Wait;
use std::test::Fail;
use std::thread::Threads;

/// A trace without a fault, and three with one at the start, in the middle or at the end.
static TRACES: [(&[u8], Option<(u64, Why)>); 4] = [
    (b"1 0\n0 8\n0 10\n", None),
    (b"x 0\n1 0\n0 8\n0 10\n", Some((1, Why::Label))),
    (
        b"1 0\n0 8\n4 0\n2 4\n0 1g\n1 0\n2 8\n",
        Some((5, Why::Tail)),
    ),
    (
        b"2 0\n2 4\n2 8\n2 c\n1 0\n1 4\n1 8\n4 0\n3",
        Some((9, Why::Gap)),
    ),
];

/// A run in threads over a trace has to end with this fault, if there is one, and to write this
/// text.
fn ends_alike<H: Threads + Wait + Abort + Sync>(
    rt: &H,
    alloc: Global,
    config: &Config,
    trace: &[u8],
    fault: Option<RunFault>,
    text: &[u8],
) {
    let mut written = Vec::new(alloc);
    let gate = &OpenGate;
    let ended = simulated(
        rt,
        alloc,
        config,
        &EVERYTHING,
        trace,
        MAX_LIMIT,
        gate,
        &mut written,
    );
    assert_eq!(rt; ended.err(), fault);
    assert!(rt; written.as_slice() == text);
}

#[test]
fn a_thousand_runs_end_alike(rt: HostRuntime) {
    for ring in [1, 2, 3, 64] {
        let config = config_of(&rt, USUAL, ring);
        for _ in 0..250 {
            for (trace, fault) in TRACES {
                let (expected, text) = match fault {
                    Some((line, why)) => (Some(bad(line, why)), ""),
                    None => (None, ONE_WRITE_BACK),
                };
                ends_alike(&rt, rt.alloc(), &config, trace, expected, text.as_bytes());
            }
        }
    }
}

/// How many rounds the long trace has.
const ROUNDS: u64 = 600;

/// A fetch, a read and a flush in each round: turns of all three kinds, more than an outbox holds.
fn rounds(alloc: Global) -> Result<Vec<u8>, Fail> {
    let mut trace = Vec::new(alloc);
    for _ in 0..ROUNDS {
        trace.extend_from_slice(b"2 0\n0 0\n4 0\n")?;
    }
    Ok(trace)
}

/// Its totals. Each round begins with empty caches, and the fetch loads the block into the second
/// level, where the read finds it.
fn totals_of_rounds() -> Totals {
    let i = Counts {
        compulsory: by_class!(instr: 1),
        capacity: by_class!(instr: ROUNDS - 1),
        flushes: ROUNDS,
        ..first_misses!(by_class!(instr: ROUNDS), by_class!(instr: ROUNDS), ROUNDS)
    };
    let d = Counts {
        compulsory: by_class!(read: 1),
        capacity: by_class!(read: ROUNDS - 1),
        flushes: ROUNDS,
        ..first_misses!(by_class!(read: ROUNDS), by_class!(read: ROUNDS), ROUNDS)
    };
    let u = Counts {
        fetches: by_class!(instr: ROUNDS, read: ROUNDS),
        ..i
    };
    Totals { i, d, u }
}

#[test]
fn long_runs_write_the_same(rt: HostRuntime) -> Result<(), Fail> {
    let trace = rounds(rt.alloc())?;
    let expected = reported(&rt, rt.alloc(), &totals_of_rounds());
    for ring in [1, 2, 3, 64] {
        let config = config_of(&rt, USUAL, ring);
        for _ in 0..12 {
            ends_alike(&rt, rt.alloc(), &config, &trace, None, &expected);
        }
    }
    Ok(())
}

/// More records than any bound on a thread's messages that is not the bound on a whole trace.
const LONG: u64 = 2_000_000;

/// The totals of so many fetches of one block.
fn totals_of_fetches() -> Totals {
    Totals {
        i: first_misses!(by_class!(instr: LONG), by_class!(instr: 1), 1),
        d: NO_COUNTS,
        u: first_misses!(by_class!(instr: 1), by_class!(instr: 1), 1),
    }
}

#[test]
fn two_million_records_are_all_served(rt: HostRuntime) -> Result<(), Fail> {
    let mut trace = Vec::new(rt.alloc());
    for _ in 0..LONG {
        trace.extend_from_slice(b"2 0\n")?;
    }
    let expected = reported(&rt, rt.alloc(), &totals_of_fetches());
    let config = config_of(&rt, USUAL, 1024);
    writes_text(&rt, rt.alloc(), &config, &EVERYTHING, &trace, &expected);
    Ok(())
}
