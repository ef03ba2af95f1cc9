//! Failing allocations. The test passes if there is enough memory. If an allocation is refused, it
//! fails with the name of the refusal and nothing else.

use super::ends::{Call, Ends, receiver_answers};
use super::{ONE, hands_back};
use std::process::Abort;
use std::sync::Wait;
use std::test::Fail;
use std::time::Clock;

/// Without its sender the receiver gets nothing.
fn gets_nothing<R: Wait + Clock + Abort>(rt: &R, ends: Ends) {
    let (tx, mut rx) = ends.apart();
    drop(tx);
    receiver_answers(rt, &mut rx, &[(Call::Receive, None)]);
}

#[test]
fn a_ring_is_made_whole_or_not_at_all(rt: HostRuntime) -> Result<(), Fail> {
    for capacity in [1, 3, 64] {
        let mut both = Ends::new(rt.alloc(), capacity)?;
        both.answers(&rt, &ONE);
        if capacity == 3 {
            gets_nothing(&rt, both);
        } else {
            hands_back(&rt, both);
        }
    }
    Ok(())
}
