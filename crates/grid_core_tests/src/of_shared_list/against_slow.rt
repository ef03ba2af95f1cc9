//! Pseudo-random uses by three users, of one log and of a plain, slow list for each.

ghost use Rattle.std.specs.Prelude.{◌<◌};

use super::{expect_by, of_three};
use crate::of_marked_list::against_slow::{block_of, next_random};
use crate::of_marked_list::slow::Slow;
use shared_list::SharedList;
use std::alloc::Global;
use std::process::Abort;

/// What a user has to be told of a block, if it uses it: it does so three times of four.
fn told(rt: &impl Abort, slow: &mut Slow, state: &mut u64, number: usize) -> Option<bool> {
    if next_random(state) % 4 == 0 {
        return None;
    }
    Some(slow.touch(rt, number) == 0)
}

/// How often blocks are used, how many there are (few and many), and once in about how many uses
/// the lists are cleared.
type Uses = (u64, (usize, usize), usize);

/// One use of a block.
fn use_once(
    rt: &impl Abort,
    list: &mut SharedList,
    slow: &mut (Slow, Slow, Slow),
    state: &mut u64,
    number: usize,
) {
    assert!(rt; list.users() == 3);
    let Ok(()) = list.begin(number) else {
        panic!(rt; "block {number} is refused");
    };
    let one = told(rt, &mut slow.0, state, number);
    expect_by(rt, list, 0, number, one);
    let two = told(rt, &mut slow.1, state, number);
    expect_by(rt, list, 1, number, two);
    let three = told(rt, &mut slow.2, state, number);
    expect_by(rt, list, 2, number, three);
}

/// Uses the same blocks in all lists, and clears all now and then. What users are told has to
/// agree.
fn use_alike(
    rt: &impl Abort,
    list: &mut SharedList,
    slow: &mut (Slow, Slow, Slow),
    (uses, blocks, period): Uses,
) {
    let mut state = uses;
    for _ in 0..uses {
        let number = block_of(&mut state, blocks.0, blocks.1);
        use_once(rt, list, slow, &mut state, number);
        if next_random(&mut state).checked_rem(period) == Some(0) {
            list.clear();
            slow.0.clear();
            slow.1.clear();
            slow.2.clear();
        }
    }
}

/// Uses blocks in new lists in that way.
fn is_alike(rt: &impl Abort, alloc: Global, size: usize, uses: Uses)
    requires { 0 < size }
{
    let sizes = [size];
    let mut list = of_three(rt, alloc, size);
    let mut slow = (
        Slow::new(rt, alloc, &sizes),
        Slow::new(rt, alloc, &sizes),
        Slow::new(rt, alloc, &sizes),
    );
    use_alike(rt, &mut list, &mut slow, uses);
}

#[test]
fn lists_agree_with_slow_lists(rt: HostRuntime) {
    is_alike(&rt, rt.alloc(), 1, (3_000, (2, 5), 100));
    is_alike(&rt, rt.alloc(), 3, (3_000, (5, 12), 300));
    is_alike(&rt, rt.alloc(), 16, (20_000, (24, 60), 30_000));
}

#[test]
fn clears_at_any_moment_agree_with_slow_lists(rt: HostRuntime) {
    for period in [1, 2, 10usize] {
        is_alike(&rt, rt.alloc(), 2, (1_000, (3, 9), period));
    }
}
