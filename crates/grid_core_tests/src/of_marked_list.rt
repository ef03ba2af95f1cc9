//! Levels that were worked out by hand, and pseudo-random uses beside a plain, slow list.

ghost use Rattle.std.specs.Prelude.{◌<◌};
ghost use Rattle.std.specs.List.{All};

use marked_list::Marked;
use std::alloc::{AllocError, Global};
use std::fmt::Debug;
use std::process::Abort;

pub(crate) mod against_slow;
mod memory;
pub(crate) mod slow;

/// What came has to be what is wanted, at this use of this block.
fn same<T: PartialEq + Debug>(rt: &impl Abort, came: &T, wanted: &T, place: u64, block: usize) {
    assert_eq!(rt; came, wanted, "use {place}, of block {block}");
}

/// Uses blocks, which have to have these levels.
fn expect(rt: &impl Abort, marked: &mut Marked, uses: &[(usize, usize)]) {
    let mut place = 0u64;
    for (number, level) in uses {
        same(rt, &marked.touch(*number), &Ok(*level), place, *number);
        place = place.wrapping_add(1);
    }
}

/// Uses blocks of a new list of these sizes, which have to have these levels. The list is cleared
/// after each part.
fn expect_new(rt: &impl Abort, alloc: Global, sizes: &[usize], parts: &[&[(usize, usize)]])
    requires { All (λ size. 0 < size) sizes.now }
{
    let mut marked = Marked::new(alloc, sizes).expect(rt, "memory");
    for uses in parts {
        expect(rt, &mut marked, *uses);
        marked.clear();
    }
}

/// Blocks with their levels, in parts.
type Parts = &'static [&'static [(usize, usize)]];

#[test]
fn levels_are_those_worked_out_by_hand(rt: HostRuntime) {
    static USES: Parts = &[&[
        (3, 3),
        (3, 0),
        (5, 3),
        (3, 1),
        (7, 3),
        (9, 3),
        (5, 2),
        (2, 3),
        (4, 3),
        (6, 3),
        (3, 3),
        (6, 1),
    ]];
    expect_new(&rt, rt.alloc(), &[1, 2, 4], USES);
}

#[test]
fn a_used_block_is_known_even_after_a_clear(rt: HostRuntime) {
    let mut marked = Marked::new(rt.alloc(), &[1, 2]).expect(&rt, "memory");
    assert!(&rt; !marked.knows(70));
    same(&rt, &marked.touch(70), &Ok(2), 0, 70);
    assert!(&rt; marked.knows(70) && !marked.knows(6) && !marked.knows(71));
    marked.clear();
    assert!(&rt; marked.knows(70) && !marked.knows(6) && !marked.knows(71));
}

#[test]
fn a_size_of_one_has_the_latest_block(rt: HostRuntime) {
    static USES: Parts = &[&[(0, 1), (0, 0), (1, 1), (0, 1), (0, 0)]];
    expect_new(&rt, rt.alloc(), &[1], USES);
}

#[test]
fn no_size_has_level_zero(rt: HostRuntime) {
    static USES: Parts = &[&[(4, 0), (4, 0), (9, 0)]];
    expect_new(&rt, rt.alloc(), &[], USES);
}

#[test]
fn the_first_size_that_has_the_block_counts(rt: HostRuntime) {
    static USES: Parts = &[&[(8, 4), (8, 0), (9, 4), (8, 0), (7, 4), (9, 3), (9, 0)]];
    expect_new(&rt, rt.alloc(), &[2, 1, 2, 3], USES);
}

#[test]
fn a_cleared_list_has_no_block(rt: HostRuntime) {
    static USES: Parts = &[
        &[],
        &[(5, 2), (6, 2), (5, 1)],
        &[],
        &[(5, 2), (6, 2), (7, 2), (6, 1), (5, 2)],
    ];
    expect_new(&rt, rt.alloc(), &[1, 2], USES);
}

/// Uses two blocks, and then one of a number that is refused, which changes nothing.
fn refuses(rt: &impl Abort, marked: &mut Marked) {
    static BEFORE: [(usize, usize); 2] = [(5, 2), (6, 2)];
    static AFTER: [(usize, usize); 2] = [(5, 1), (5, 0)];
    expect(rt, marked, &BEFORE);
    assert!(rt; marked.touch(u32::MAX as usize).is_err());
    assert!(rt; marked.touch(usize::MAX).is_err());
    expect(rt, marked, &AFTER);
}

#[test]
fn a_number_of_u32_max_or_more_is_refused(rt: HostRuntime) {
    let mut marked = Marked::new(rt.alloc(), &[1, 2]).expect(&rt, "memory");
    refuses(&rt, &mut marked);
}
