//! Compares runs with given counts: a run has to answer these and write their report, and the
//! network has to give the same counts.

use super::{EVERYTHING, MOST, config, run};
use din_trace::{DinRecord, FromRead, FromWrite, MAX_LIMIT, Source};
use sim_run::write_report;
use stage_core::{Config, Selection, Totals, drive};
use std::alloc::Global;
use std::process::Abort;
use std::sync::Wait;
use std::thread::Threads;

fn records_of(rt: &impl Abort, alloc: Global, trace: &[u8]) -> Vec<DinRecord> {
    let mut source = Source::new(FromRead::new(trace), MAX_LIMIT);
    source.rest(alloc).expect(rt, "a trace without a fault")
}

/// The totals that the network gives, whichever step is chosen next.
fn driven(
    rt: &impl Abort,
    alloc: Global,
    config: &Config,
    selection: &Selection,
    records: &[DinRecord],
) -> Totals {
    assert!(rt; records.len() as u64 <= MAX_LIMIT && selection.skip <= MOST);
    assert!(rt; selection.max <= MOST && selection.every <= MOST);
    let choices = [3, 0, 1, 2, 1];
    let driven = drive(alloc, config, selection, records, &choices);
    driven.expect(rt, "memory").0
}

/// The report of these totals.
pub(super) fn reported(rt: &impl Abort, alloc: Global, totals: &Totals) -> Vec<u8> {
    let mut text = Vec::new(alloc);
    write_report(totals, &mut FromWrite::new(&mut text)).expect(rt, "a report");
    text
}

/// A run over a trace has to succeed, and to write this text. Answers its totals.
pub(super) fn writes_text<H: Threads + Wait + Abort + Sync>(
    rt: &H,
    alloc: Global,
    config: &Config,
    selection: &Selection,
    trace: &[u8],
    text: &[u8],
) -> Totals {
    let mut written = Vec::new(alloc);
    let ended = run(rt, alloc, config, selection, trace, MAX_LIMIT, &mut written);
    let totals = ended.expect(rt, "a run without a fault");
    assert!(rt; written.as_slice() == text);
    totals
}

/// A run over a trace has to succeed, with exactly these totals and their report, and the network
/// has to give the same totals.
pub(super) fn reports<H: Threads + Wait + Abort + Sync>(
    rt: &H,
    alloc: Global,
    config: &Config,
    selection: &Selection,
    trace: &[u8],
    totals: &Totals,
) {
    let text = reported(rt, alloc, totals);
    let counted = writes_text(rt, alloc, config, selection, trace, &text);
    assert_eq!(rt; counted, *totals);
    let records = records_of(rt, alloc, trace);
    assert_eq!(rt; driven(rt, alloc, config, selection, &records), *totals);
}

/// The same with the usual caches and the whole trace.
pub(super) fn is_counted<H: Threads + Wait + Abort + Sync>(
    rt: &H,
    alloc: Global,
    trace: &[u8],
    totals: &Totals,
) {
    reports(rt, alloc, &config(rt), &EVERYTHING, trace, totals);
}
