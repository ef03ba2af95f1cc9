//! Writers that fail, and when a writer is flushed.

use super::layout::ONE_WRITE_BACK;
use super::{NO_TOTALS, bad, fault_of_both};
use din_trace::{FromWrite, Why};
use expected_counts::NO_COUNTS;
use sim_run::{RunFault, write_block, write_report};
use std::alloc::Global;
use std::io;
use std::io::Write;
use std::process::Abort;
use std::sync::Wait;
use std::test::Fail;
use std::thread::Threads;

/// A writer that takes `room` bytes and then fails, or fails when it is flushed. It counts its
/// flushes, and the bytes that it had taken at the last one.
#[derive(Drop)]
struct Narrow {
    room: usize,
    can_flush: bool,
    taken: usize,
    flushes: u8,
    taken_at_flush: usize,
}

fn with_room(room: usize, can_flush: bool) -> Narrow {
    Narrow {
        room,
        can_flush,
        taken: 0,
        flushes: 0,
        taken_at_flush: 0,
    }
}

impl Narrow {
    /// How many bytes it took, how often it was flushed, and how many bytes it had taken then.
    fn told(&self) -> (usize, u8, usize) {
        (self.taken, self.flushes, self.taken_at_flush)
    }
}

impl Write for Narrow {
    fn write(&mut self, bytes: &[u8]) -> io::Result<usize> {
        if self.room == 0 && !bytes.is_empty() {
            return Err(io::Error::from(io::ErrorKind::Other));
        }
        let count = bytes.len().min(self.room);
        self.room -= count;
        self.taken = self.taken.saturating_add(count);
        Ok(count)
    }

    fn flush(&mut self) -> io::Result<()> {
        self.flushes = self.flushes.saturating_add(1);
        self.taken_at_flush = self.taken;
        if self.can_flush {
            Ok(())
        } else {
            Err(io::Error::from(io::ErrorKind::Other))
        }
    }
}

/// The fault of both runs over a trace, each with a writer like this one. The faults and the
/// writers have to agree.
fn fault_of<H: Threads + Wait + Abort + Sync>(
    rt: &H,
    alloc: Global,
    trace: &[u8],
    writer: &mut Narrow,
) -> Option<RunFault> {
    let mut other = with_room(writer.room, writer.can_flush);
    let fault = fault_of_both(rt, alloc, (trace, trace), (&mut other, &mut *writer));
    assert_eq!(rt; other.told(), writer.told());
    fault
}

/// Both runs over a trace have to fail with `Write`. Returns what the writer on one thread noted.
fn fails<H: Threads + Wait + Abort + Sync>(
    rt: &H,
    alloc: Global,
    trace: &[u8],
    room: usize,
    can_flush: bool,
) -> (usize, u8, usize) {
    let mut writer = with_room(room, can_flush);
    let fault = fault_of(rt, alloc, trace, &mut writer);
    assert_eq!(rt; fault, Some(RunFault::Write));
    writer.told()
}

/// The trace of `ONE_WRITE_BACK`.
static TRACE: &[u8] = b"1 0\n0 8\n0 10\n";

#[test]
fn a_writer_may_fail_behind_each_byte(rt: HostRuntime) {
    for room in 0..ONE_WRITE_BACK.len() {
        let told = fails(&rt, rt.alloc(), TRACE, room, true);
        assert_eq!(rt; (told.0, told.1), (room, 0));
    }
}

#[test]
fn a_writer_may_fail_at_once(rt: HostRuntime) {
    fails(&rt, rt.alloc(), b"", 0, true);
    fails(&rt, rt.alloc(), b"2 0\n", 0, true);
}

#[test]
fn a_writer_may_fail_at_its_flush(rt: HostRuntime) {
    fails(&rt, rt.alloc(), TRACE, ONE_WRITE_BACK.len(), false);
}

#[test]
fn a_report_is_flushed_once_at_its_end(rt: HostRuntime) {
    let length = ONE_WRITE_BACK.len();
    let mut writer = with_room(length, true);
    assert_eq!(rt; fault_of(&rt, rt.alloc(), TRACE, &mut writer), None);
    assert_eq!(rt; writer.told(), (length, 1, length));
}

#[test]
fn totals_are_flushed_and_a_block_is_not(rt: HostRuntime) -> Result<(), Fail> {
    let mut writer = with_room(10_000, true);
    write_block("l1-icache", &NO_COUNTS, &mut FromWrite::new(&mut writer))?;
    assert!(rt; writer.taken > 0);
    assert_eq!(rt; writer.flushes, 0);
    write_report(&NO_TOTALS, &mut FromWrite::new(&mut writer))?;
    assert_eq!(rt; writer.flushes, 1);
    assert_eq!(rt; writer.taken_at_flush, writer.taken);
    Ok(())
}

#[test]
fn a_faulty_trace_leaves_the_writer_alone(rt: HostRuntime) {
    let mut writer = with_room(10_000, true);
    let fault = fault_of(&rt, rt.alloc(), b"5 0\n", &mut writer);
    assert_eq!(rt; fault, Some(bad(1, Why::Label)));
    assert_eq!(rt; writer.told(), (0, 0, 0));
}
