//! Failing allocations. The test passes if there is enough memory. If an allocation is refused, it
//! checks that the block that was used last still is, and then fails with the name of the refusal
//! and nothing else.

use super::same;
use marked_list::Marked;
use std::alloc::AllocError;
use std::process::Abort;
use std::test::Fail;

/// Uses a block, which has to have this level. If an allocation fails, a use of the block that was
/// used last before has to have level 0.
fn used(
    rt: &impl Abort,
    marked: &mut Marked,
    latest: Option<usize>,
    number: usize,
    level: usize,
) -> Result<(), AllocError> {
    let answer = marked.touch(number);
    if answer.is_err() {
        if let Some(latest) = latest {
            same(rt, &marked.touch(latest), &Ok(0), 0, latest);
        }
    }
    same(rt, &answer?, &level, 0, number);
    Ok(())
}

/// Uses blocks of rising numbers and some of them again, up to the first refusal.
fn fills(rt: &impl Abort, marked: &mut Marked) -> Result<(), AllocError> {
    used(rt, marked, None, 0, 3)?;
    for number in 1..300usize {
        let before = number - 1;
        used(rt, marked, Some(before), number, 3)?;
        used(rt, marked, Some(number), before, 1)?;
        used(rt, marked, Some(before), number, 1)?;
    }
    marked.clear();
    used(rt, marked, None, 299, 3)?;
    used(rt, marked, Some(299), 400, 3)?;
    used(rt, marked, Some(400), 299, 1)
}

#[test]
fn blocks_are_used_or_the_list_is_as_it_was(rt: HostRuntime) -> Result<(), Fail> {
    let mut marked = Marked::new(rt.alloc(), &[1, 2, 100])?;
    Ok(fills(&rt, &mut marked)?)
}
