//! Runs that fail because of their trace.

ghost use Rattle.std.specs.Prelude.{◌≤◌};

use super::grids::{CONFLICT, EVERYTHING, grid};
use din_trace::{FromRead, FromWrite, MAX_LIMIT, TraceFault, Why};
use grid_run::{GridFault, simulate_grid};
use std::alloc::Global;
use std::io::{self, Read};
use std::process::Abort;
use std::test::Fail;
use std::thread::Threads;

/// A reader that gives some bytes, and then ends or fails.
#[derive(Drop)]
struct Given<'a> {
    bytes: &'a [u8],
    fails: bool,
}

impl Read for Given<'_> {
    fn read(&mut self, buffer: &mut [u8]) -> io::Result<usize> {
        if self.bytes.is_empty() && self.fails {
            return Err(io::Error::from(io::ErrorKind::Other));
        }
        self.bytes.read(buffer)
    }
}

/// A grid over these bytes, behind which the reader ends or fails, has to end with this fault and
/// to write no byte, on one thread and on two.
fn ends<H: Threads + Abort + Sync>(
    rt: &H,
    alloc: Global,
    bytes: &[u8],
    fails: bool,
    limit: u64,
    fault: TraceFault,
) -> Result<(), Fail>
    requires { limit ≤ MAX_LIMIT }
{
    let grid = grid(alloc, &EVERYTHING, &EVERYTHING)?;
    for threads in [1, 2] {
        let mut written = Vec::new(alloc);
        let mut writer = FromWrite::new(&mut written);
        let reader = FromRead::new(Given { bytes, fails });
        let ended = simulate_grid(rt, alloc, &grid, reader, limit, threads, &mut writer);
        assert_eq!(rt; ended, Err(GridFault::Trace(fault)));
        assert!(rt; written.is_empty());
    }
    Ok(())
}

fn bad(line: u64, why: Why) -> TraceFault {
    TraceFault::Bad { line, why }
}

#[test]
fn nothing_is_written_for_a_faulty_trace(rt: HostRuntime) -> Result<(), Fail> {
    let rows: [(&[u8], TraceFault); 2] = [
        (b"0 0\n0 8\n0 1g\n", bad(3, Why::Tail)),
        (b"x 0\n0 8\n0 10\n", bad(1, Why::Label)),
    ];
    for (bytes, fault) in rows {
        ends(&rt, rt.alloc(), bytes, false, MAX_LIMIT, fault)?;
    }
    Ok(())
}

#[test]
fn whole_lines_are_judged_before_a_failed_read(rt: HostRuntime) -> Result<(), Fail> {
    let rows: [(&[u8], TraceFault); 3] = [
        (b"0 0\n9 0\n", bad(2, Why::Label)),
        (b"0 0\n9", TraceFault::Read),
        (b"", TraceFault::Read),
    ];
    for (bytes, fault) in rows {
        ends(&rt, rt.alloc(), bytes, true, MAX_LIMIT, fault)?;
    }
    Ok(())
}

/// The trace has 16 bytes.
#[test]
fn a_trace_past_its_limit_is_too_long(rt: HostRuntime) -> Result<(), Fail> {
    ends(&rt, rt.alloc(), CONFLICT, false, 15, TraceFault::TooLong)
}
