//! Tests of the fault lines.

mod faults;
