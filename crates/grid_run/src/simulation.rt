//! A grid, from the bytes of a trace to the bytes of its table.

ghost use Rattle.std.specs.Prelude.{◌≡◌, ◌≢◌, ℕ, List, Some, None, ◌≤◌, OnOk, OnErr, IfErr, map};
ghost use Rattle.std.specs.Prelude.{IsOkUnless};
ghost use Rattle.std.specs.List.{All, flat_map};
ghost use Rattle.std.specs.Io.KnownBytes.{Appends};
ghost use Rattle.din_trace.specs.Device.{once_more};
ghost use Rattle.din_trace.specs.Line.{ADDRESS_MAX};
ghost use Rattle.din_trace.specs.Text.{fault};
ghost use Rattle.din_trace.specs.Faults.{GaveAll, IsFaultOf};
ghost use Rattle.din_trace.specs.declared.record.DinRecord.{DinRecord};
ghost use Rattle.grid_run.specs.Grids.{HasBoundedRows, row_line, table, table_of};
ghost use Rattle.grid_run.specs.Rows.{HavePlaces, RowHasPlace};
ghost use Rattle.grid_run.specs.Workers.{WorkerHasServed, worker_task};

use crate::crew::Crew;
use crate::fault::GridFault;
use crate::grid::{Columns, Grid, Row, Setup};
use crate::plan::{Place, plan_for};
use crate::run::serve_trace;
use crate::table::{write_counted, write_heads, write_refused};
use crate::worker::Worker;
use din_trace::{ByteReader, ByteWriter, DeviceFailed, MAX_LIMIT, Source, TraceFault};
use std::alloc::Global;
use std::thread::Threads;

/// Writes the line of a row, which has these caches if it was not refused.
fn write_row<W: ByteWriter>(
    columns: Columns,
    row: &Row,
    place: &Option<Place>,
    workers: &[Worker],
    writer: &mut W,
) -> Result<(), DeviceFailed>
    requires { RowHasPlace (map worker_task workers.now) row.now.setup place.now }
    ensures line { (rs : List DinRecord) → All (WorkerHasServed rs) workers.now → OnOk result
        (Appends (W.contents writer.old) (W.contents writer.new) (row_line columns rs row.now)) }
    ensures sound { OnOk result (W.failures writer.new ≡ W.failures writer.old) }
    ensures failed { OnErr result (W.failures writer.new ≡ once_more (W.failures writer.old)) }
{
    match &row.setup {
        Setup::Refused(fault) => write_refused(columns, &row.words, fault.as_str(), writer),
        Setup::Simulated(_, _) => match place {
            Some(place) => {
                let figures = workers[place.lane].figures(place);
                write_counted(columns, &row.words, &figures, writer)
            }
            None => unreachable!(),
        },
    }
}

/// Writes the lines of all rows.
fn write_rows<W: ByteWriter>(
    columns: Columns,
    rows: &[Row],
    places: &[Option<Place>],
    workers: &[Worker],
    writer: &mut W,
) -> Result<(), DeviceFailed>
    requires { HavePlaces (map worker_task workers.now) rows.now places.now }
    ensures lines { (rs : List DinRecord) → All (WorkerHasServed rs) workers.now → OnOk result
        (Appends (W.contents writer.old) (W.contents writer.new)
        (flat_map (row_line columns rs) rows.now)) }
    ensures sound { OnOk result (W.failures writer.new ≡ W.failures writer.old) }
    ensures failed { OnErr result (W.failures writer.new ≡ once_more (W.failures writer.old)) }
{
    for (index, row) in rows.iter().enumerate() {
        write_row(columns, row, &places[index], workers, writer)?;
    }
    Ok(())
}

/// Writes the lines of a table and flushes the writer.
fn write_lines<W: ByteWriter>(
    grid: &Grid,
    places: &Vec<Option<Place>>,
    workers: &Vec<Worker>,
    writer: &mut W,
) -> Result<(), DeviceFailed>
    requires { HavePlaces (map worker_task workers.now.items) grid.now.rows.items
        places.now.items }
    ensures table { (rs : List DinRecord) → All (WorkerHasServed rs) workers.now.items → OnOk result
        (Appends (W.contents writer.old) (W.contents writer.new) (table grid.now rs)) }
    ensures sound { OnOk result (W.failures writer.new ≡ W.failures writer.old) }
    ensures failed { OnErr result (W.failures writer.new ≡ once_more (W.failures writer.old)) }
{
    write_heads(grid.columns, &grid.names, writer)?;
    write_rows(grid.columns, &grid.rows, places, workers, writer)?;
    writer.flush()
}

/// Writes the table and flushes the writer, with the fault of a grid.
fn write_table<W: ByteWriter>(
    grid: &Grid,
    places: &Vec<Option<Place>>,
    workers: &Vec<Worker>,
    writer: &mut W,
) -> Result<(), GridFault>
    requires { HavePlaces (map worker_task workers.now.items) grid.now.rows.items
        places.now.items }
    ensures table { (rs : List DinRecord) → All (WorkerHasServed rs) workers.now.items → OnOk result
        (Appends (W.contents writer.old) (W.contents writer.new) (table grid.now rs)) }
    ensures sound { OnOk result (W.failures writer.new ≡ W.failures writer.old) }
    ensures failed { OnErr result (W.failures writer.new ≡ once_more (W.failures writer.old)) }
    ensures fault { IsOkUnless result GridFault.Write }
{
    write_lines(grid, places, workers, writer).or(Err(GridFault::Write))
}

/// Reads a trace of at most `limit` bytes once, simulates what each row selects of it in the caches
/// of that row, writes the table and flushes the writer. At any time, memory holds one buffer of
/// the trace's bytes, two batches of its records, a bounded number of requests that wait for second
/// levels, and what the caches know of its blocks. Each number of a selection is at most 2^40. The
/// rings of the configurations are not used. At most `threads` threads simulate at once, this one
/// among them; 0 counts as 1. Unless there is only one, another one reads. The table does not
/// depend on how many there are.
pub fn simulate_grid<T: Threads + Sync, R: ByteReader + Drop + Send, W: ByteWriter>(
    rt: &T,
    alloc: Global,
    grid: &Grid,
    reader: R,
    limit: u64,
    threads: usize,
    writer: &mut W,
) -> Result<(), GridFault>
    requires limit { limit ≤ MAX_LIMIT }
    requires bounded { HasBoundedRows grid.now }
    // If the bytes of the reader are known, `Ok` means that the text has no fault, and that its
    // table was written.
    ensures table { (text : List ℕ) → R.remaining reader ≡ Some text → OnOk result
        ((fault ADDRESS_MAX text limit ≡ None)
        × Appends (W.contents writer.old) (W.contents writer.new)
        (table_of grid.now text)) }
    // For any reader, the same holds for a text that it gave, without a failure, up to its end.
    ensures whole { OnOk result ((text : List ℕ) × GaveAll R.remaining R.failures reader text
        × (fault ADDRESS_MAX text limit ≡ None)
        × Appends (W.contents writer.old) (W.contents writer.new) (table_of grid.now text)) }
    ensures trace { (text : List ℕ) → R.remaining reader ≡ Some text
        → (why : TraceFault) → result ≡ Err (GridFault.Trace why)
        → IsFaultOf R.remaining R.failures reader text limit why }
    ensures memory { result ≢ Err (GridFault.Trace TraceFault.Memory) }
    ensures sound { OnOk result (W.failures writer.new ≡ W.failures writer.old) }
    ensures write { result ≡ Err GridFault.Write
        → W.failures writer.new ≡ once_more (W.failures writer.old) }
    ensures unwritten { IfErr result (λ why. why ≢ GridFault.Write → writer.new ≡ writer.old) }
{
    let Ok(plan) = plan_for(alloc, &grid.rows, threads) else {
        return Err(GridFault::Memory);
    };
    let Ok(mut crew) = Crew::new(alloc, &plan.lanes, threads) else {
        return Err(GridFault::Memory);
    };
    let mut source = Source::new(reader, limit);
    serve_trace(rt, alloc, &mut source, &mut crew)?;
    write_table(grid, &plan.places, &crew.workers, writer)
}
