//! Traces with the records or the fault that they must give, however their bytes come.

mod at_hand;
mod devices;
mod fakes;
mod lines;
mod memory;
mod sources;
mod texts;

use std::fmt::Debug;
use std::process::Abort;

/// What came has to be what is wanted, in this place of this case.
fn same<T: PartialEq + Debug>(rt: &impl Abort, came: &T, wanted: &T, case: &str, place: usize) {
    assert_eq!(rt; came, wanted, "place {place} of {case:?}");
}
