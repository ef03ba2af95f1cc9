//! The error of a failed allocation.

/// An allocation failed, in this call or an earlier one.
#[derive(Clone, Copy, Debug, PartialEq, Eq)]
pub struct NoMemory;

impl From<cache_core::NoMemory> for NoMemory {
    fn from(_refusal: cache_core::NoMemory) -> NoMemory {
        NoMemory
    }
}
