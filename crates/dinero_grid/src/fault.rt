//! The faults of the program, with the line that is printed and the exit status of each.

ghost use Rattle.std.specs.Prelude.{◌≡◌};
ghost use Rattle.din_trace.specs.Device.{Writes};
ghost use Rattle.dinero_grid.specs.GridFaultText.{asks_for_help, fault_line, grid_words_status};
ghost use Rattle.dinero_grid.specs.GridFaultText.{message_of, run_fault_text, status_of};

use din_trace::{ByteWriter, DeviceFailed};
use dinero_options::{WordsFault, put_trace, trace_status, words_status};
use grid_options::{GridWordsFault, put_grid_words};
use grid_run::GridFault;
use thiserror::Error;

/// Why the program ends without a table. [`fault_text`] gives the line that is printed.
#[derive(Clone, Copy, Debug, PartialEq, Eq, Error)]
pub enum Fault {
    #[error("the grid has no table")]
    Run(GridFault),
    #[error("the command line gives no grid")]
    Words(GridWordsFault),
}

/// The exit status for a refused command line.
fn grid_words_status(fault: GridWordsFault) -> u8
    ensures { result ≡ grid_words_status fault }
{
    match fault {
        GridWordsFault::Words(fault) => words_status(fault),
        GridWordsFault::Threads => 2,
        GridWordsFault::TooMany => 2,
    }
}

/// The exit status for a fault: 0 if help was asked for, 1 for a faulty or too long trace, 2 for a
/// refused command line, 3 if an allocation failed or the trace has more blocks than can be
/// numbered, 4 if reading the trace or writing the table failed.
pub fn status(fault: &Fault) -> u8
    ensures { result ≡ status_of fault.now }
{
    match fault {
        Fault::Run(GridFault::Trace(fault)) => trace_status(*fault),
        Fault::Run(GridFault::Memory) => 3,
        Fault::Run(GridFault::Write) => 4,
        Fault::Words(fault) => grid_words_status(*fault),
    }
}

/// Writes the text of a run's fault.
fn put_run<W: ByteWriter>(fault: GridFault, writer: &mut W) -> Result<(), DeviceFailed>
    ensures { Writes W.contents W.failures writer.old writer.new result (run_fault_text fault) }
{
    match fault {
        GridFault::Trace(fault) => put_trace(fault, writer),
        GridFault::Memory => writer.put(b"out of memory"),
        GridFault::Write => writer.put(b"table write failed"),
    }
}

/// Writes the text of a fault.
fn put_fault<W: ByteWriter>(fault: &Fault, writer: &mut W) -> Result<(), DeviceFailed>
    ensures { Writes W.contents W.failures writer.old writer.new result (message_of fault.now) }
{
    match fault {
        Fault::Run(fault) => put_run(*fault, writer),
        Fault::Words(fault) => put_grid_words(*fault, writer),
    }
}

/// Whether help was asked for.
fn is_help(fault: &Fault) -> bool
    ensures { result ≡ asks_for_help fault.now }
{
    matches!(fault, Fault::Words(GridWordsFault::Words(WordsFault::Help)))
}

/// Writes the line of a fault. For help, this writes nothing.
pub fn fault_text<W: ByteWriter>(fault: &Fault, writer: &mut W) -> Result<(), DeviceFailed>
    ensures { Writes W.contents W.failures writer.old writer.new result (fault_line fault.now) }
{
    if is_help(fault) {
        return Ok(());
    }
    writer.put(b"dinero_grid: ")?;
    put_fault(fault, writer)?;
    writer.put(b"\n")
}
