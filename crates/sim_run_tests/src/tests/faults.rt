//! Runs that end without a report: faulty lines, limits, readers that fail.

use super::{EVERYTHING, bad, ends, fault_of_both};
use din_trace::{MAX_LIMIT, TraceFault, Why};
use sim_run::RunFault;
use std::alloc::Global;
use std::io;
use std::io::Read;
use std::process::Abort;
use std::sync::Wait;
use std::thread::Threads;

/// Traces, each with the number of its faulty line and the fault.
static FAULTY: [(&[u8], u64, Why); 10] = [
    (b"0 0\n\n5 0\n", 3, Why::Label),
    (b"0 10000000000000000\n", 1, Why::Range),
    (b"0 10000000000000000g\n", 1, Why::Range),
    (b"2 0\n0 12g\n", 2, Why::Tail),
    (b"0 100000000g\n", 1, Why::Tail),
    (b"4\n9 0\n", 1, Why::Gap),
    (b"12 0\n", 1, Why::Gap),
    (b"0", 1, Why::Gap),
    (b"0 0x\n", 1, Why::Address),
    (b"0 ", 1, Why::Address),
];

#[test]
fn nothing_is_written_for_a_faulty_trace(rt: HostRuntime) {
    for (trace, line, why) in FAULTY {
        let fault = Err(bad(line, why));
        ends(&rt, rt.alloc(), &EVERYTHING, trace, MAX_LIMIT, fault);
    }
}

#[test]
fn a_trace_past_its_limit_is_judged_up_to_there(rt: HostRuntime) {
    let too_long = RunFault::Trace(TraceFault::TooLong);
    let rows: [(&[u8], u64, Result<(), RunFault>); 5] = [
        (b"2 0\n2 4\n2 8\n", 8, Err(too_long)),
        (b"9 0\n2 0\n2 4\n2 8\n", 8, Err(bad(1, Why::Label))),
        (b"2 0\n2 4\n", 8, Ok(())),
        (b"2 0\n9 0\n", 8, Err(bad(2, Why::Label))),
        (b"2 0\n9 0\n", 7, Err(too_long)),
    ];
    for (trace, limit, expected) in rows {
        ends(&rt, rt.alloc(), &EVERYTHING, trace, limit, expected);
    }
}

/// A reader that gives some bytes, and fails after them.
#[derive(Drop)]
struct Broken<'a> {
    bytes: &'a [u8],
}

impl Read for Broken<'_> {
    fn read(&mut self, buffer: &mut [u8]) -> io::Result<usize> {
        if self.bytes.is_empty() {
            return Err(io::Error::from(io::ErrorKind::Other));
        }
        self.bytes.read(buffer)
    }
}

/// Both runs over a reader that fails after these bytes have to fail like this, and to write no
/// byte.
fn breaks<H: Threads + Wait + Abort + Sync>(rt: &H, alloc: Global, bytes: &[u8], fault: RunFault) {
    let mut written = Vec::new(alloc);
    let mut other = Vec::new(alloc);
    let readers = (Broken { bytes }, Broken { bytes });
    let ended = fault_of_both(rt, alloc, readers, (&mut written, &mut other));
    assert_eq!(rt; ended, Some(fault));
    assert!(rt; written.is_empty() && other.is_empty());
}

#[test]
fn whole_lines_are_judged_before_a_failed_read(rt: HostRuntime) {
    let failed = RunFault::Trace(TraceFault::Read);
    let rows: [(&[u8], RunFault); 3] = [
        (b"2 0\n9 0\n", bad(2, Why::Label)),
        (b"2 0\n9", failed),
        (b"", failed),
    ];
    for (bytes, fault) in rows {
        breaks(&rt, rt.alloc(), bytes, fault);
    }
}

#[test]
fn a_read_may_fail_behind_each_byte(rt: HostRuntime) {
    let text = b"1 0\n0 8\n0 10\n";
    for length in 0..=text.len() {
        let failed = RunFault::Trace(TraceFault::Read);
        breaks(&rt, rt.alloc(), &text[..length], failed);
    }
}
