//! Tests of the words, the values and failing allocations.

mod memory;
mod values;
mod words;

use std::fmt::Debug;
use std::process::Abort;

/// What came has to be what is wanted, in this case.
fn same<T: PartialEq + Debug>(rt: &impl Abort, came: &T, wanted: &T, case: &str) {
    assert_eq!(rt; came, wanted, "at {case}");
}
