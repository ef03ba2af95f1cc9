//! Whole runs of the simulator: from the bytes of a trace to the bytes of its report.
//!
//! [`simulate`] reads a trace record by record and simulates the selected records in the four
//! threads of run_threads, while the trace is read. [`run_pipeline`] does the same without writing
//! a report, and [`simulate_plain`] does it on one thread. [`write_report`] writes the report of
//! given totals, and [`write_block`] the block of one cache.
//!
//! The modules: `simulation` and `plain` are the two runs. `report` calls the crate that writes the
//! report.
//!
//! Proved for every reader whose bytes are known, every lawful configuration and every selection of
//! numbers up to 2^40: if a run succeeds, the text has no fault. Each ring has the capacity of the
//! configuration and has carried exactly its stream, each message once and in order, and all of it
//! was received. The second level got its requests in the order of the trace. The bytes written are
//! exactly the report (`specs/Report` of cache_report) of the counts that the definitions give for
//! all that is selected of the trace. If a run fails because of the trace, the fault is that of the
//! text or of its reader. If a run fails, nothing was written, unless the writer failed. Nothing is
//! claimed of a run that does not end.
//!
//! Only tested: that the writer is flushed after the report, and what run_threads leaves to tests.
#![tactic(auto)]

mod plain;
mod report;
mod simulation;

pub use plain::simulate_plain;
pub use report::{write_block, write_report};
pub use run_threads::{Gate, OpenGate, Rings, RunFault, Settled, Who, run_pipeline};
pub use simulation::simulate;
