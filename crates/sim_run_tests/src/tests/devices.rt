//! Readers and writers that take few bytes at a time.

use super::fault_of_both;
use super::layout::ONE_WRITE_BACK;
use sim_run::RunFault;
use std::alloc::Global;
use std::io;
use std::io::{Read, Write};
use std::process::Abort;
use std::sync::Wait;
use std::thread::Threads;

/// Gives a text in pieces of at most one size.
#[derive(Drop)]
struct Pieces<'a> {
    rest: &'a [u8],
    size: usize,
}

impl Read for Pieces<'_> {
    fn read(&mut self, buffer: &mut [u8]) -> io::Result<usize> {
        let count = buffer.len().min(self.rest.len()).min(self.size);
        let (front, back) = self.rest.split_at(count);
        buffer[..count].copy_from_slice(front);
        self.rest = back;
        Ok(count)
    }
}

/// A writer that takes exactly one text, at most `most` bytes at a time, and allocates nothing.
#[derive(Drop)]
pub struct Awaiting<'a> {
    pub rest: &'a [u8],
    pub flushes: u8,
    most: usize,
}

pub fn to_take(text: &[u8], most: usize) -> Awaiting<'_> {
    Awaiting {
        rest: text,
        flushes: 0,
        most,
    }
}

impl Write for Awaiting<'_> {
    fn write(&mut self, bytes: &[u8]) -> io::Result<usize> {
        let count = bytes.len().min(self.most);
        if !self.rest.starts_with(&bytes[..count]) {
            return Err(io::Error::from(io::ErrorKind::Other));
        }
        self.rest = &self.rest[count..];
        Ok(count)
    }

    fn flush(&mut self) -> io::Result<()> {
        self.flushes = self.flushes.saturating_add(1);
        Ok(())
    }
}

/// The fault of both runs over a trace in pieces, each with a writer like this one. The faults and
/// the writers have to agree.
fn fault_of<H: Threads + Wait + Abort + Sync>(
    rt: &H,
    alloc: Global,
    size: usize,
    writer: &mut Awaiting,
) -> Option<RunFault> {
    let rest = b"1 0\n0 8\n0 10\n";
    let mut other = to_take(writer.rest, writer.most);
    let readers = (Pieces { rest, size }, Pieces { rest, size });
    let fault = fault_of_both(rt, alloc, readers, (&mut other, &mut *writer));
    assert!(rt; other.rest == writer.rest);
    assert_eq!(rt; other.flushes, writer.flushes);
    fault
}

/// Both runs have to write the whole report and flush it once.
fn is_written<H: Threads + Wait + Abort + Sync>(rt: &H, alloc: Global, size: usize, most: usize) {
    let mut writer = to_take(ONE_WRITE_BACK.as_bytes(), most);
    assert_eq!(rt; fault_of(rt, alloc, size, &mut writer), None);
    assert!(rt; writer.rest.is_empty());
    assert_eq!(rt; writer.flushes, 1);
}

#[test]
fn a_report_is_the_same_however_bytes_are_cut(rt: HostRuntime) {
    for size in [1, 2, 3, 5, 65_536] {
        for most in [1, 7, 65_536] {
            is_written(&rt, rt.alloc(), size, most);
        }
    }
}

#[test]
fn a_writer_that_takes_nothing_has_failed(rt: HostRuntime) {
    let mut writer = to_take(ONE_WRITE_BACK.as_bytes(), 0);
    let fault = fault_of(&rt, rt.alloc(), 65_536, &mut writer);
    assert_eq!(rt; fault, Some(RunFault::Write));
    assert_eq!(rt; writer.flushes, 0);
}
