//! The table of a grid, from the bytes of a trace.

ghost use Rattle.std.specs.Prelude.{◌≡◌, ◌≢◌, ◌≤◌, ℕ, List, [], Some, None, Result, Err};
ghost use Rattle.std.specs.Prelude.{OnOk, IfOk, IfErr};
ghost use Rattle.std.specs.List.{All};
ghost use Rattle.std.specs.Io.Buffered.{writer_contents};
ghost use Rattle.std.specs.Io.KnownBytes.{Appends};
ghost use Rattle.din_trace.specs.Device.{once_more, held_bytes, behind_bytes, waiting_bytes};
ghost use Rattle.din_trace.specs.Device.{write_failures};
ghost use Rattle.din_trace.specs.Line.{ADDRESS_MAX};
ghost use Rattle.din_trace.specs.Text.{fault};
ghost use Rattle.din_trace.specs.Faults.{GaveAll, IsFaultOf};
ghost use Rattle.grid_options.specs.declared.grid.ParsedGrid.{ParsedGrid};
ghost use Rattle.grid_run.specs.Grids.{table_of};
ghost use Rattle.grid_run.specs.declared.grid.Grid.{Grid};
ghost use Rattle.dinero_grid.specs.AskedRows.{IsBoundedPoint, IsGridFor, has_refused};

use crate::asked::{grid_for, has_refused};
use din_trace::{ByteReader, FromWrite, MAX_LIMIT, TraceFault};
use grid_options::ParsedGrid;
use grid_run::{GridFault, simulate_grid};
use std::alloc::Global;
use std::io::{BufWriter, Write};
use std::thread;
use std::thread::Threads;

/// How many threads work if the command line leaves it to the machine, and the machine doesn't say
/// how many it has.
const THREADS: usize = 4;

/// How many threads work: as many as are asked for, or if that is 0, one for each core that the
/// program may use.
fn threads_for<T: Threads>(rt: &T, asked: usize) -> usize
    ensures given { asked ≢ 0 → result ≡ asked }
    ensures some { 1 ≤ result }
{
    if asked != 0 {
        return asked;
    }
    match thread::available_parallelism(rt) {
        Ok(count) => count.get(),
        Err(_) => THREADS,
    }
}

/// Reads a trace of at most 2^40 bytes once, and writes the table of the grid that is asked for,
/// which then has left the buffer. Answers whether some configuration was refused.
pub fn table<T: Threads + Sync, R: ByteReader + Drop + Send, W: Write + Drop>(
    rt: &T,
    alloc: Global,
    asked: ParsedGrid,
    reader: R,
    output: &mut FromWrite<BufWriter<W>>,
) -> Result<bool, GridFault>
    requires { All IsBoundedPoint asked.points.items }
    ensures table { (text : List ℕ) → R.remaining reader ≡ Some text → OnOk result
        ((fault ADDRESS_MAX text MAX_LIMIT ≡ None)
        × ((grid : Grid) × IsGridFor asked grid
        × Appends (held_bytes (writer_contents W.contents) output.old)
        (behind_bytes W.contents output.new) (table_of grid text))) }
    ensures whole { OnOk result ((text : List ℕ) × GaveAll R.remaining R.failures reader text
        × (fault ADDRESS_MAX text MAX_LIMIT ≡ None)
        × ((grid : Grid) × IsGridFor asked grid
        × Appends (held_bytes (writer_contents W.contents) output.old)
        (behind_bytes W.contents output.new) (table_of grid text))) }
    ensures emptied { OnOk result (waiting_bytes output.new ≡ []) }
    ensures refused { IfOk result (λ some. some ≡ has_refused asked.points.items) }
    ensures trace { (text : List ℕ) → R.remaining reader ≡ Some text
        → (why : TraceFault) → result ≡ Err (GridFault.Trace why)
        → IsFaultOf R.remaining R.failures reader text MAX_LIMIT why }
    ensures memory { result ≢ Err (GridFault.Trace TraceFault.Memory) }
    ensures sound { OnOk result (write_failures output.new ≡ write_failures output.old) }
    ensures write { result ≡ Err GridFault.Write
        → write_failures output.new ≡ once_more (write_failures output.old) }
    ensures unwritten { IfErr result (λ why. why ≢ GridFault.Write → output.new ≡ output.old) }
{
    let some_refused = has_refused(&asked.points);
    let threads = threads_for(rt, asked.threads);
    let Ok(grid) = grid_for(alloc, asked) else {
        return Err(GridFault::Memory);
    };
    simulate_grid(rt, alloc, &grid, reader, MAX_LIMIT, threads, output)?;
    // `simulate_grid` flushes its writer too, but what it promises of any writer says nothing of a
    // buffer. So this flush finds the buffer empty, and promises that it is.
    match output.flush_buffer() {
        Ok(()) => Ok(some_refused),
        Err(_) => Err(GridFault::Write),
    }
}
