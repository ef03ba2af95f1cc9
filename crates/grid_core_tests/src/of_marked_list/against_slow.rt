//! Pseudo-random uses, by a list with marks and by the plain, slow list.

ghost use Rattle.std.specs.Prelude.{◌<◌};
ghost use Rattle.std.specs.List.{All};

use super::same;
use super::slow::Slow;
use marked_list::Marked;
use std::alloc::Global;
use std::process::Abort;

/// The next pseudo-random number, by a linear congruence with Knuth's constants.
pub(crate) fn next_random(state: &mut u64) -> usize {
    *state = state
        .wrapping_mul(6_364_136_223_846_793_005)
        .wrapping_add(1_442_695_040_888_963_407);
    (*state >> 33) as usize
}

/// A block: often one of few, now and then one of many.
pub(crate) fn block_of(state: &mut u64, few: usize, many: usize) -> usize {
    let blocks = if next_random(state) % 4 == 0 {
        many
    } else {
        few
    };
    let number = next_random(state);
    number.checked_rem(blocks).unwrap_or(0)
}

/// How often blocks are used, how many there are (few and many), and once in about how many uses
/// the list is cleared.
type Uses = (u64, (usize, usize), usize);

/// Uses the same blocks in both lists, and clears both now and then. The levels have to agree.
fn use_alike(rt: &impl Abort, marked: &mut Marked, slow: &mut Slow, (uses, blocks, period): Uses) {
    let mut state = uses;
    for place in 0..uses {
        let number = block_of(&mut state, blocks.0, blocks.1);
        let level = slow.touch(rt, number);
        same(rt, &marked.touch(number), &Ok(level), place, number);
        if next_random(&mut state).checked_rem(period) == Some(0) {
            marked.clear();
            slow.clear();
        }
    }
}

/// Uses blocks in two new lists of these sizes in that way.
fn is_alike(rt: &impl Abort, alloc: Global, sizes: &[usize], uses: Uses)
    requires { All (λ size. 0 < size) sizes.now }
{
    let mut marked = Marked::new(alloc, sizes).expect(rt, "memory");
    let mut slow = Slow::new(rt, alloc, sizes);
    use_alike(rt, &mut marked, &mut slow, uses);
}

#[test]
fn rising_sizes_agree_with_the_slow_list(rt: HostRuntime) {
    let eight = [1, 2, 3, 4, 5, 6, 7, 8];
    is_alike(&rt, rt.alloc(), &[1], (10_000, (2, 5), 100));
    is_alike(&rt, rt.alloc(), &eight, (20_000, (5, 12), 300));
    is_alike(
        &rt,
        rt.alloc(),
        &[1, 4, 16, 32, 128],
        (20_000, (24, 200), 5_000),
    );
}

#[test]
fn sizes_in_any_order_agree_with_the_slow_list(rt: HostRuntime) {
    is_alike(
        &rt,
        rt.alloc(),
        &[16, 4, 4, 64, 1],
        (10_000, (24, 100), 3_000),
    );
    is_alike(&rt, rt.alloc(), &[8, 8, 8], (10_000, (9, 30), 1_000));
    is_alike(&rt, rt.alloc(), &[5, 4, 3, 2, 1], (10_000, (4, 9), 1_000));
}

#[test]
fn sizes_of_more_than_all_blocks_agree_with_the_slow_list(rt: HostRuntime) {
    is_alike(
        &rt,
        rt.alloc(),
        &[2, 1_000, 1_000_000],
        (10_000, (3, 60), 6_000),
    );
}

#[test]
fn clears_at_any_moment_agree_with_the_slow_list(rt: HostRuntime) {
    for period in [1, 2, 3, 10usize] {
        is_alike(&rt, rt.alloc(), &[1, 2, 4], (2_000, (3, 9), period));
    }
}
