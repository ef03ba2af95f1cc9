//! Failing allocations. The test passes if there is enough memory. If an allocation is refused, it
//! checks that the block that was used last still is, and then fails with the name of the refusal
//! and nothing else.

use super::{expect_by, expect_use};
use shared_list::SharedList;
use std::alloc::AllocError;
use std::process::Abort;
use std::test::Fail;

/// Two users use a block that both did not. If an allocation fails, the block before it, which both
/// used last, has to be near.
fn used(rt: &impl Abort, list: &mut SharedList, number: usize) -> Result<(), AllocError> {
    assert!(rt; list.users() == 3);
    let answer = list.begin(number);
    if answer.is_err() {
        if number > 0 {
            expect_use(rt, list, (number - 1, None, Some(true), Some(true)));
        }
    }
    answer?;
    expect_by(rt, list, 1, number, Some(false));
    expect_by(rt, list, 2, number, Some(false));
    Ok(())
}

/// Uses blocks of rising numbers, up to the first refusal.
fn fills(rt: &impl Abort, list: &mut SharedList) -> Result<(), AllocError> {
    for number in 0..300usize {
        used(rt, list, number)?;
    }
    Ok(())
}

#[test]
fn a_refused_use_leaves_the_lists_as_they_were(rt: HostRuntime) -> Result<(), Fail> {
    let mut list = SharedList::new(rt.alloc(), 3, 100)?;
    Ok(fills(&rt, &mut list)?)
}
