//! Why a run gives no report.

ghost use Rattle.std.specs.Prelude.{◌≡◌, ◌⊎◌, ◌≤◌, Some, IfSome, option_map};
ghost use Rattle.run_threads.specs.Faults.{source_fault, fault_of_stop, rank};
ghost use Rattle.din_trace.specs.declared.fault.TraceFault.{TraceFault};

use din_trace::TraceFault;

/// Why a run gave no report. Except for `Write`, nothing was written.
#[derive(Clone, Copy, Debug, PartialEq, Eq)]
pub enum RunFault {
    /// The trace is faulty, too long or could not be read. Never holds `TraceFault::Memory`.
    Trace(TraceFault),
    /// An allocation failed.
    Memory,
    /// A thread could not be started.
    Threads,
    /// A thread was cut off: the other end of one of its rings was dropped, or more messages came
    /// than a run can have. Also if a message was left in a ring after the joins.
    Cut,
    /// The writer failed. It is not known how much of the report was written.
    Write,
}

/// Why a thread stopped before its end.
#[derive(Clone, Copy, Debug, PartialEq, Eq)]
pub enum Stop {
    /// An allocation failed.
    Memory,
    /// The other end of a ring was dropped, or more messages came than a run can have.
    Cut,
}

/// A thread could not be started. The values that were to be moved into it were dropped.
#[derive(Clone, Copy, Debug, PartialEq, Eq)]
pub struct NoThread;

/// The fault of a run whose source has this fault. `TraceFault::Memory` becomes `RunFault::Memory`.
pub fn fault_of_source(fault: TraceFault) -> RunFault
    ensures { result ≡ source_fault fault }
{
    match fault {
        TraceFault::Memory => RunFault::Memory,
        _ => RunFault::Trace(fault),
    }
}

/// The fault of a run if a thread stopped for this reason.
fn fault_of_stop(stop: Stop) -> RunFault
    ensures { result ≡ fault_of_stop stop }
{
    match stop {
        Stop::Memory => RunFault::Memory,
        Stop::Cut => RunFault::Cut,
    }
}

/// The rank of a fault. Of several faults, the one of lowest rank is answered.
fn rank(fault: RunFault) -> u8
    ensures { result ≡ rank fault }
{
    match fault {
        RunFault::Trace(_) => 0,
        RunFault::Memory => 1,
        RunFault::Threads => 2,
        RunFault::Cut => 3,
        RunFault::Write => 4,
    }
}

/// The fault of lower rank: the given one, or that of a thread that stopped.
fn graver(fault: RunFault, end: Option<Stop>) -> RunFault
    ensures one { (result ≡ fault) ⊎ (option_map fault_of_stop end ≡ Some result) }
    ensures fault { rank result ≤ rank fault }
    ensures source { (f : TraceFault) → fault ≡ source_fault f → result ≡ fault }
    ensures end { IfSome end (λ stop. rank result ≤ rank (fault_of_stop stop)) }
{
    let Some(stop) = end else {
        return fault;
    };
    let other = fault_of_stop(stop);
    if rank(other) < rank(fault) {
        other
    } else {
        fault
    }
}

/// The fault of a failed run, over all four threads: the fault of lowest rank among the one of the
/// splitter and those of the threads that stopped before their end.
pub fn gravest(
    splitter: RunFault,
    i: Option<Stop>,
    d: Option<Stop>,
    merge: Option<Stop>,
) -> RunFault
    ensures one { (result ≡ splitter) ⊎ ((option_map fault_of_stop i ≡ Some result)
        ⊎ ((option_map fault_of_stop d ≡ Some result)
        ⊎ (option_map fault_of_stop merge ≡ Some result))) }
    ensures splitter { rank result ≤ rank splitter }
    // A fault of the source goes before all others, or is the same.
    ensures source { (f : TraceFault) → splitter ≡ source_fault f → result ≡ splitter }
    ensures i { IfSome i (λ stop. rank result ≤ rank (fault_of_stop stop)) }
    ensures d { IfSome d (λ stop. rank result ≤ rank (fault_of_stop stop)) }
    ensures merge { IfSome merge (λ stop. rank result ≤ rank (fault_of_stop stop)) }
{
    graver(graver(graver(splitter, i), d), merge)
}
