//! The pipeline without a report, and long traces through small rings.

use super::{
    EVERYTHING, NO_TOTALS, USUAL, bad, config_of, ends_with, is_counted, reports, run_source,
    simulated,
};
use cache_core::Counts;
use din_trace::{MAX_LIMIT, TraceFault, Why};
use expected_counts::{by_class, first_misses};
use sim_run::{OpenGate, RunFault};
use stage_core::Totals;
use std::alloc::Global;
use std::test::Fail;

/// The totals of a write and two reads, the second of which evicts the written block.
fn one_written_back() -> Totals {
    let all = by_class!(read: 2, write: 1);
    let d = Counts {
        written_back: 1,
        ..first_misses!(all, all, 3)
    };
    Totals {
        d,
        u: first_misses!(by_class!(read: 3, write: 1), by_class!(read: 3), 3),
        ..NO_TOTALS
    }
}

#[test]
fn a_source_is_handed_back_at_its_end(rt: HostRuntime) {
    let (mut source, ended) = run_source(&rt, rt.alloc(), b"1 0\n0 8\n0 10\n");
    assert_eq!(rt; ended, Ok(one_written_back()));
    assert_eq!(rt; source.next(), Ok(None));
}

#[test]
fn a_run_reports_what_the_network_counts(rt: HostRuntime) {
    is_counted(&rt, rt.alloc(), b"1 0\n0 8\n0 10\n", &one_written_back());
}

#[test]
fn a_source_is_handed_back_with_its_fault(rt: HostRuntime) {
    let fault = TraceFault::Bad {
        line: 2,
        why: Why::Label,
    };
    let (mut source, ended) = run_source(&rt, rt.alloc(), b"2 0\n9 0\n2 4\n");
    assert_eq!(rt; ended, Err(RunFault::Trace(fault)));
    assert_eq!(rt; source.next(), Err(fault));
}

/// Ten thousand reads that go through 64 bytes again and again, in steps of four.
fn rounds(alloc: Global) -> Result<Vec<u8>, Fail> {
    let mut trace = Vec::new(alloc);
    for number in 0..10_000u32 {
        let address = number % 16 * 4;
        let line = format!(in alloc; "0 {address:x}\n")?;
        trace.extend_from_slice(line.as_bytes())?;
    }
    Ok(trace)
}

#[test]
fn many_records_go_through_rings_of_one_place(rt: HostRuntime) -> Result<(), Fail> {
    let d = Counts {
        compulsory: by_class!(read: 16),
        capacity: by_class!(read: 9984),
        ..first_misses!(by_class!(read: 10_000), by_class!(read: 10_000), 10_000)
    };
    let u = Counts {
        compulsory: by_class!(read: 8),
        capacity: by_class!(read: 4992),
        ..first_misses!(by_class!(read: 10_000), by_class!(read: 5000), 5000)
    };
    let totals = Totals { d, u, ..NO_TOTALS };
    let narrow = config_of(&rt, USUAL, 1);
    let trace = rounds(rt.alloc())?;
    reports(&rt, rt.alloc(), &narrow, &EVERYTHING, &trace, &totals);
    Ok(())
}

/// A thousand fetches, a faulty line, and fifteen thousand more fetches.
fn late_fault(alloc: Global) -> Result<Vec<u8>, Fail> {
    let mut trace = Vec::new(alloc);
    for number in 1..=16_001u32 {
        let line: &[u8] = if number == 1001 { b"9 0\n" } else { b"2 0\n" };
        trace.extend_from_slice(line)?;
    }
    Ok(trace)
}

#[test]
fn a_late_fault_is_answered_and_what_follows_is_not_read(rt: HostRuntime) -> Result<(), Fail> {
    let narrow = config_of(&rt, USUAL, 1);
    let trace = late_fault(rt.alloc())?;
    let fault = Err(bad(1001, Why::Label));
    ends_with(
        &rt,
        rt.alloc(),
        &narrow,
        &EVERYTHING,
        trace.as_slice(),
        MAX_LIMIT,
        fault,
    );
    let mut rest = trace.as_slice();
    let ended = simulated(
        &rt,
        rt.alloc(),
        &narrow,
        &EVERYTHING,
        &mut rest,
        MAX_LIMIT,
        &OpenGate,
        Vec::new(rt.alloc()),
    );
    assert_eq!(rt; ended.err(), fault.err());
    // The faulty line ends after 4,004 bytes, and a reader is asked for at most 16 KiB at a time.
    assert!(rt; trace.len().saturating_sub(rest.len()) <= 4_004 + 16_384);
    Ok(())
}
