//! The four threads of a run, which take a trace through the machines of stage_core.
//!
//! [`run_pipeline`] reads a trace record by record and simulates the selected records. The splitter
//! runs in the caller's thread, each first-level stage in its own, and the merge with the second
//! level in the fourth. They share only five rings, each with the bells that wake its ends.
//!
//! The bodies of the threads wait for one another only in the functions of `waits`: a body has no
//! runtime with which an end of a ring could wait. Each of them that a thread can call requires
//! that the thread may wait there and has found nothing to do. By a law of stage_core, threads that
//! wait only like this never all wait for one another. When the splitter has ended, the caller's
//! thread waits at the joins, too.
//!
//! The modules: `ends` has the rings, and which end each thread owns. `gate` lets tests hold
//! threads. `split`, `stage_thread` and `merge_thread` are the bodies of the threads, and `feed` is
//! what the first of them reads. `pipeline` starts the threads and collects their results, `gap`
//! keeps their machines apart in memory, and `joins` joins them. `fault` has the faults of a run,
//! and which of several is answered.
//!
//! What programs need of this, sim_run passes on; `fault_of_source` is for its run on one thread.
//! All else that is public here is for the tests of single threads, and of runs that are given up.
//!
//! Proved for every lawful configuration, every selection of numbers up to 2^40, and whatever the
//! reader does: if a run succeeds, the source was read to its end without a fault. Each ring has
//! the capacity of the configuration and has carried exactly its stream, each message once and in
//! order, and all of it was received. The second level got its requests in the order of the trace.
//! The counts are those that the definitions give for the records that were read. Nothing is
//! claimed of a run that does not end.
//!
//! Only tested: that the threads run at the same time and while the trace is read, and that a lost
//! peer or a missing thread is reported only if there is one.
#![tactic(auto)]

mod ends;
mod fault;
mod feed;
mod gap;
mod gate;
mod joins;
mod merge_thread;
mod pipeline;
mod split;
mod stage_thread;
mod waits;

pub use ends::{MergeEnds, Rings, SplitterEnds, StageEnds, ends_of};
pub use fault::{NoThread, RunFault, Stop, fault_of_source, gravest};
pub use gate::{Gate, OpenGate, Who};
pub use joins::{why_stopped, wind_up};
pub use merge_thread::run_merge;
pub use pipeline::{Machines, Settled, prepare, run_in, run_pipeline};
pub use stage_thread::{StageHandle, StagePromise, StageResult, run_stage, start_stage};
pub use waits::BodyRuntime;
