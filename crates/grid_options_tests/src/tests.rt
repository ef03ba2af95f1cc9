//! Tests of grids, of the options of its own, of refusals and of failing allocations.

mod grids;
mod memory;
mod own;
mod refusals;
