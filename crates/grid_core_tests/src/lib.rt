//! Tests of grid_core, of marked_list, of shared_list and of stamped_cache by their public calls.
//! They are a crate of their own, so that the libraries are proved without them, and a test without
//! the libraries' proofs.
#![tactic(auto)]

#[cfg(test)]
mod of_marked_list;
#[cfg(test)]
mod of_shared_list;
#[cfg(test)]
mod of_stamped_cache;
#[cfg(test)]
mod tests;
