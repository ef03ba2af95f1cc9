//! The faults of the program, with the line that is printed and the exit status of each.

ghost use Rattle.std.specs.Prelude.{◌≡◌};
ghost use Rattle.din_trace.specs.Device.{Writes};
ghost use Rattle.dinero_pipe.specs.FaultText.{asks_for_help, fault_line, message_of};
ghost use Rattle.dinero_pipe.specs.FaultText.{run_fault_text, status_of};

use din_trace::{ByteWriter, DeviceFailed};
use dinero_options::{WordsFault, put_trace, put_words, trace_status, words_status};
use sim_run::RunFault;
use thiserror::Error;

/// Why the program ends without a report. [`fault_text`] gives the line that is printed.
#[derive(Clone, Copy, Debug, PartialEq, Eq, Error)]
pub enum Fault {
    #[error("the run failed")]
    Run(RunFault),
    #[error("the command line gives no run")]
    Words(WordsFault),
}

/// The exit status for a fault: 0 if help was asked for, 1 for a faulty or too long trace, 2 for a
/// refused command line, 3 if an allocation or the start of a thread failed or a thread was cut
/// off, 4 if reading the trace or writing the report failed.
pub fn status(fault: &Fault) -> u8
    ensures { result ≡ status_of fault.now }
{
    match fault {
        Fault::Run(RunFault::Trace(fault)) => trace_status(*fault),
        Fault::Run(RunFault::Memory | RunFault::Threads | RunFault::Cut) => 3,
        Fault::Run(RunFault::Write) => 4,
        Fault::Words(fault) => words_status(*fault),
    }
}

/// Writes the text of a run's fault.
fn put_run<W: ByteWriter>(fault: RunFault, writer: &mut W) -> Result<(), DeviceFailed>
    ensures { Writes W.contents W.failures writer.old writer.new result (run_fault_text fault) }
{
    match fault {
        RunFault::Trace(fault) => put_trace(fault, writer),
        RunFault::Memory => writer.put(b"out of memory"),
        RunFault::Threads => writer.put(b"no thread"),
        RunFault::Cut => writer.put(b"pipeline cut"),
        RunFault::Write => writer.put(b"report write failed"),
    }
}

/// Writes the text of a fault.
fn put_fault<W: ByteWriter>(fault: &Fault, writer: &mut W) -> Result<(), DeviceFailed>
    ensures { Writes W.contents W.failures writer.old writer.new result (message_of fault.now) }
{
    match fault {
        Fault::Run(fault) => put_run(*fault, writer),
        Fault::Words(fault) => put_words(*fault, writer),
    }
}

/// Whether help was asked for.
fn is_help(fault: &Fault) -> bool
    ensures { result ≡ asks_for_help fault.now }
{
    matches!(fault, Fault::Words(WordsFault::Help))
}

/// Writes the line of a fault. For help, this writes nothing.
pub fn fault_text<W: ByteWriter>(fault: &Fault, writer: &mut W) -> Result<(), DeviceFailed>
    ensures { Writes W.contents W.failures writer.old writer.new result (fault_line fault.now) }
{
    if is_help(fault) {
        return Ok(());
    }
    writer.put(b"dinero_pipe: ")?;
    put_fault(fault, writer)?;
    writer.put(b"\n")
}
