//! What is said of a trace that is refused.

ghost use Rattle.std.specs.Prelude.{◌≡◌};
ghost use Rattle.din_trace.specs.Device.{Writes};
ghost use Rattle.dinero_options.specs.TraceRefusals.{trace_fault_text, trace_status, why_word};

use din_trace::{ByteWriter, DeviceFailed, TraceFault, Why};
use itoa::Buffer;

/// The word for why a line is faulty.
fn why_text(why: Why) -> &'static str
    ensures { result.now ≡ why_word why }
{
    match why {
        Why::Label => "label",
        Why::Gap => "gap",
        Why::Address => "address",
        Why::Range => "range",
        Why::Tail => "tail",
    }
}

/// Writes what is wrong with a trace, without the program's name.
pub fn put_trace<W: ByteWriter>(fault: TraceFault, writer: &mut W) -> Result<(), DeviceFailed>
    ensures { Writes W.contents W.failures writer.old writer.new result (trace_fault_text fault) }
{
    match fault {
        TraceFault::Bad { line, why } => {
            let mut digits = Buffer::new();
            writer.put(b"line ")?;
            writer.put(digits.format(line).as_bytes())?;
            writer.put(b": ")?;
            writer.put(why_text(why).as_bytes())
        }
        TraceFault::TooLong => writer.put(b"trace too long"),
        TraceFault::Read => writer.put(b"trace read failed"),
        TraceFault::Memory => writer.put(b"out of memory"),
    }
}

/// The exit status for a fault of the trace: 1 for a faulty or too long trace, 3 if an allocation
/// failed, 4 if reading failed.
pub fn trace_status(fault: TraceFault) -> u8
    ensures { result ≡ trace_status fault }
{
    match fault {
        TraceFault::Bad { .. } | TraceFault::TooLong => 1,
        TraceFault::Read => 4,
        TraceFault::Memory => 3,
    }
}
