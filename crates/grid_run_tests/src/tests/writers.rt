//! Writers that fail, and that the table is flushed.

use super::grids::{CONFLICT, EVERYTHING, grid, run, table_len};
use super::narrow::with_room;
use grid_run::GridFault;
use std::alloc::Global;
use std::process::Abort;
use std::test::Fail;
use std::thread::Threads;

/// How the grid over the trace of a conflict ends at a writer with this room, how many bytes the
/// writer took, and how often it was flushed.
pub(super) fn ended_at<H: Threads + Sync>(
    rt: &H,
    alloc: Global,
    room: usize,
    can_flush: bool,
) -> Result<(Result<(), GridFault>, usize, u8), Fail> {
    let mut writer = with_room(room, can_flush);
    let grid = grid(alloc, &EVERYTHING, &EVERYTHING)?;
    let ended = run(rt, alloc, &grid, 2, CONFLICT, &mut writer);
    Ok((ended, writer.taken, writer.flushes))
}

#[test]
fn a_writer_may_fail_behind_each_byte(rt: HostRuntime) -> Result<(), Fail> {
    for room in 0..table_len() {
        let ended = ended_at(&rt, rt.alloc(), room, true)?;
        assert_eq!(rt; ended, (Err(GridFault::Write), room, 0));
    }
    Ok(())
}

#[test]
fn a_writer_may_fail_at_its_flush(rt: HostRuntime) -> Result<(), Fail> {
    let ended = ended_at(&rt, rt.alloc(), table_len(), false)?;
    assert_eq!(rt; ended, (Err(GridFault::Write), table_len(), 1));
    Ok(())
}

#[test]
fn a_table_is_flushed_once(rt: HostRuntime) -> Result<(), Fail> {
    let ended = ended_at(&rt, rt.alloc(), 10_000, true)?;
    assert_eq!(rt; ended, (Ok(()), table_len(), 1));
    Ok(())
}
