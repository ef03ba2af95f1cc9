//! The report of a run, byte for byte.
//!
//! [`write_report`] writes the report of given totals, and [`write_block`] the block of one cache.
//! Neither allocates. The layout follows that of Dinero IV, but is not the same.
//!
//! Proved: what is written is exactly the text of the definitions (`specs/Report`). If the writer
//! fails, the call answers that, and only then.
//!
//! Only tested: that the writer is flushed after the report.
#![tactic(auto)]

mod report;

pub use report::{write_block, write_report};
