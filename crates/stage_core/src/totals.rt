//! The counts of a run.

use cache_core::Counts;

/// The counts of the three caches.
#[derive(Clone, Copy, Debug, Default, PartialEq, Eq)]
pub struct Totals {
    /// The instruction cache.
    pub i: Counts,
    /// The data cache.
    pub d: Counts,
    /// The unified second level.
    pub u: Counts,
}
