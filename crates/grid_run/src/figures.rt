//! What is known of a configuration once the trace is read.

use cache_core::PerClass;
use stage_core::Totals;

/// How often the shadows of the three caches missed, by class: the fully associative misses.
#[derive(Clone, Copy, Debug, Default, PartialEq, Eq)]
pub struct ShadowMisses {
    /// Of the instruction cache.
    pub i: PerClass,
    /// Of the data cache.
    pub d: PerClass,
    /// Of the unified second level.
    pub u: PerClass,
}

/// The counts of a configuration's caches, and how often their shadows missed.
#[derive(Clone, Copy, Debug, Default, PartialEq, Eq)]
pub struct Figures {
    /// The counts.
    pub totals: Totals,
    /// The fully associative misses.
    pub shadows: ShadowMisses,
}
