//! Failing allocations. Each test passes if there is enough memory. If an allocation is refused, it
//! checks the state after that, and then fails with the name of the refusal and nothing else.

use super::devices::{Awaiting, to_take};
use super::{bad, run_in_threads, run_plainly, run_source};
use din_trace::{ByteReader, DinRecord, Label, Source, Why};
use sim_run::{OpenGate, RunFault};
use std::alloc::Global;
use std::process::Abort;
use std::test::Fail;

/// The report of two writes and a flush, which writes both blocks back.
static TWO_FLUSHED: &str = "\
l1-icache                Total      Instrn        Read       Write        Misc
Demand Fetches               0           0           0           0           0
Demand Misses                0           0           0           0           0
Miss Rate               0.0000      0.0000      0.0000      0.0000      0.0000
Compulsory                   0           0           0           0           0
Capacity                     0           0           0           0           0
Conflict                     0           0           0           0           0
Blocks Fetched               0
Written Back                 0
Writes Sent On               0
Flushes                      1

l1-dcache                Total      Instrn        Read       Write        Misc
Demand Fetches               2           0           0           2           0
Demand Misses                2           0           0           2           0
Miss Rate               1.0000      0.0000      0.0000      1.0000      0.0000
Compulsory                   2           0           0           2           0
Capacity                     0           0           0           0           0
Conflict                     0           0           0           0           0
Blocks Fetched               2
Written Back                 2
Writes Sent On               0
Flushes                      1

l2-ucache                Total      Instrn        Read       Write        Misc
Demand Fetches               4           0           2           2           0
Demand Misses                2           0           2           0           0
Miss Rate               0.5000      0.0000      1.0000      0.0000      0.0000
Compulsory                   2           0           2           0           0
Capacity                     0           0           0           0           0
Conflict                     0           0           0           0           0
Blocks Fetched               2
Written Back                 2
Writes Sent On               0
Flushes                      1
";

/// If the run failed, the fault has to be one of these, and nothing may be written. Otherwise the
/// whole report has to be written.
fn is_whole_or_refused(
    rt: &impl Abort,
    output: &Awaiting,
    fault: Option<RunFault>,
    refusals: &[RunFault],
) {
    if let Some(fault) = fault {
        assert!(rt; refusals.contains(&fault));
        assert!(rt; output.rest == TWO_FLUSHED.as_bytes());
        assert_eq!(rt; output.flushes, 0);
    } else {
        assert!(rt; output.rest.is_empty());
        assert_eq!(rt; output.flushes, 1);
    }
}

#[test]
fn a_run_writes_its_report_or_nothing(rt: HostRuntime) -> Result<(), Fail> {
    let mut output = to_take(TWO_FLUSHED.as_bytes(), 65_536);
    let ended = run_plainly(&rt, rt.alloc(), b"1 8\n1 0\n4 0\n".as_slice(), &mut output);
    is_whole_or_refused(&rt, &output, ended.err(), &[RunFault::Memory]);
    Ok(ended?)
}

/// The start of a thread does not say why it failed.
static REFUSALS: [RunFault; 2] = [RunFault::Memory, RunFault::Threads];

#[test]
fn a_run_in_threads_writes_its_report_or_nothing(rt: HostRuntime) -> Result<(), Fail> {
    let mut output = to_take(TWO_FLUSHED.as_bytes(), 65_536);
    let trace: &[u8] = b"1 8\n1 0\n4 0\n";
    let ended = run_in_threads(&rt, rt.alloc(), trace, &OpenGate, &mut output);
    is_whole_or_refused(&rt, &output, ended.err(), &REFUSALS);
    assert_eq!(rt; ended?.u.written_back, 2);
    Ok(())
}

fn event(label: Label, addr: u64) -> DinRecord {
    DinRecord { label, addr }
}

/// The records that are left of a source have to be the last ones of the trace.
fn leaves_the_last<R: ByteReader>(
    rt: &impl Abort,
    alloc: Global,
    source: &mut Source<R>,
) -> Result<(), Fail> {
    let left = source.rest(alloc);
    assert!(rt; left.is_ok());
    let left = left?;
    let all = [
        event(Label::Write, 8),
        event(Label::Write, 0),
        event(Label::Flush, 0),
    ];
    assert!(rt; all.as_slice().ends_with(&left));
    Ok(())
}

#[test]
fn a_run_leaves_its_source_at_the_end_or_further_on(rt: HostRuntime) -> Result<(), Fail> {
    let (mut source, ended) = run_source(&rt, rt.alloc(), b"1 8\n1 0\n4 0\n");
    if let Err(fault) = ended {
        assert!(rt; REFUSALS.contains(&fault));
        leaves_the_last(&rt, rt.alloc(), &mut source)?;
    }
    ended?;
    assert!(rt; source.next() == Ok(None));
    Ok(())
}

#[test]
fn a_fault_behind_records_is_answered_or_memory_is_wanted(rt: HostRuntime) -> Result<(), Fail> {
    let mut output = to_take(TWO_FLUSHED.as_bytes(), 65_536);
    let trace: &[u8] = b"1 8\n1 0\n4 0\n9 0\n";
    let ended = run_plainly(&rt, rt.alloc(), trace, &mut output);
    let faults = [bad(4, Why::Label), RunFault::Memory];
    assert!(rt; ended.is_err());
    is_whole_or_refused(&rt, &output, ended.err(), &faults);
    if ended == Err(RunFault::Memory) {
        ended?;
    }
    Ok(())
}
