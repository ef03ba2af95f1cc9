//! Many configurations over one reading of a trace, and the table of what they count.
//!
//! [`simulate_grid`] reads a trace record by record, and serves what each row of a [`Grid`] selects
//! in the caches of that row. Then it writes a line for each row. [`write_heads`],
//! [`write_counted`] and [`write_refused`] write the lines of a table from given figures.
//!
//! The rows are divided into portions, one for each thread (`sharing`). A `lane` has the rows of
//! one portion that have one selection; what these have in common is done once. In it, a `picker`
//! makes events of the records. The first-level caches of a side that have one block size and one
//! policy are a `family`, which an engine of grid_core serves (`front`, `fronts`, `fetches`), and
//! what these send waits in queues (`queue`, `queues`, `senders`, `parts`), with the number of
//! its block (`numbered`): these are the `first_levels`.
//! Behind each queue are second levels (`second`, `back`), which take it over and serve what waits.
//! Their caches (`second_caches`) are a family too, or `twins`: LRU caches of one geometry, each
//! behind first-level caches of its own, which stamped_cache serves; `backs` says which second
//! levels share a queue. One thread serves the second levels of a `bank`, so that different threads
//! can serve the `banks` of a lane. `beside` does both at once. `requests` has what an event asks
//! of each cache.
//!
//! `plan` finds the place of each row: its lane, and a `seat` among the caches of each kind, which
//! a `shelf` lists. A lane is the work of a `worker`; `crew` gives records to all workers in
//! batches, on as many threads as are asked for. `run` reads the trace, and `simulation` is the
//! whole run. `numbers` and `table` write, and `lists` adds to a list.
//!
//! Proved for every reader whose bytes are known: if a run succeeds, the text has no fault, and the
//! bytes written are exactly the table whose every line is what the definitions give for its
//! configuration and its selection over the whole trace (`specs/Grids`, `specs/Table`). If a run
//! fails because of the trace, the fault is that of the text or of its reader. If a run fails,
//! nothing was written, unless the writer failed.
//!
//! Only tested: that the writer is flushed after the table.
#![tactic(auto)]

mod back;
mod backs;
mod bank;
mod banks;
mod beside;
mod crew;
mod family;
mod fault;
mod fetches;
mod figures;
mod first_levels;
mod front;
mod fronts;
mod grid;
mod lane;
mod lists;
mod numbered;
mod numbers;
mod parts;
mod picker;
mod plan;
mod queue;
mod queues;
mod requests;
mod run;
mod seat;
mod second;
mod second_caches;
mod senders;
mod sharing;
mod shelf;
mod simulation;
mod table;
mod twins;
mod worker;

pub use fault::GridFault;
pub use figures::{Figures, ShadowMisses};
pub use grid::{Columns, Grid, Row, Setup};
pub use simulation::simulate_grid;
pub use table::{write_counted, write_heads, write_refused};
