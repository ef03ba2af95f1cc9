//! Tests of grid_options and of dinero_options by their public calls. They are a crate of their
//! own, so that the libraries are proved without them, and a test without the libraries' proofs.
#![tactic(auto)]

#[cfg(test)]
mod of_dinero_options;
#[cfg(test)]
mod tests;
