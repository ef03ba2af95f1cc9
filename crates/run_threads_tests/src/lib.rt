//! Tests of run_threads: threads whose peers are gone, runs that are given up, many short runs.
//! They are a crate of their own, so that the library is proved without them, and a test without
//! the library's proofs.
#![tactic(auto)]

#[cfg(test)]
mod tests;
