//! Why a grid gives no table.

ghost use Rattle.std.specs.Prelude.{◌≡◌};
ghost use Rattle.grid_run.specs.Faults.{grid_fault_of};

use din_trace::TraceFault;

/// Why a grid gave no table. Except for `Write`, nothing was written.
#[derive(Clone, Copy, Debug, PartialEq, Eq)]
pub enum GridFault {
    /// The trace is faulty, too long or could not be read. Never holds `TraceFault::Memory`.
    Trace(TraceFault),
    /// An allocation failed, or the trace has more blocks than can be numbered: some 2^31 of one
    /// size or more, or some 2^32 of all block sizes of the grid together.
    Memory,
    /// The writer failed. It is not known how much of the table was written.
    Write,
}

/// The fault of a grid whose source has this fault. `TraceFault::Memory` becomes
/// `GridFault::Memory`.
pub(crate) fn fault_of_source(fault: TraceFault) -> GridFault
    ensures { result ≡ grid_fault_of fault }
{
    match fault {
        TraceFault::Memory => GridFault::Memory,
        _ => GridFault::Trace(fault),
    }
}
