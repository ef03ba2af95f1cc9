//! Lists of three users that were worked out by hand, and pseudo-random uses beside plain, slow
//! lists.

ghost use Rattle.std.specs.Prelude.{◌≡◌, ◌<◌};
ghost use Rattle.shared_list.specs.Shared.{IsBegun, users_of};

use shared_list::{SharedList, Users};
use std::alloc::Global;
use std::process::Abort;

mod against_slow;
mod memory;

/// A new list of three users, who are told of so many blocks.
fn of_three(rt: &impl Abort, alloc: Global, size: usize) -> SharedList
    requires { 0 < size }
{
    SharedList::new(alloc, 3, size).expect(rt, "memory")
}

/// The user uses the block that was begun, or does not. Where it does, it is told this.
fn expect_by(rt: &impl Abort, list: &mut SharedList, user: usize, number: usize, near: Option<bool>)
    requires user { user < users_of list.old }
    requires begun { IsBegun list.old number }
    ensures begun { IsBegun list.new number }
    ensures users { users_of list.new ≡ users_of list.old }
{
    if let Some(near) = near {
        let told = list.touch(user, number);
        assert_eq!(rt; told, near, "user {user}, block {number}");
    }
}

/// A use of a block, and what each of the three users is told, if it uses the block.
type Use = (usize, Option<bool>, Option<bool>, Option<bool>);

/// Each of the three users has to be told this of a use.
fn expect_use(rt: &impl Abort, list: &mut SharedList, (number, one, two, three): Use) {
    assert!(rt; list.users() == 3);
    let Ok(()) = list.begin(number) else {
        panic!(rt; "block {number} is refused");
    };
    expect_by(rt, list, 0, number, one);
    expect_by(rt, list, 1, number, two);
    expect_by(rt, list, 2, number, three);
}

/// The same for each of these uses.
fn expect(rt: &impl Abort, list: &mut SharedList, uses: &[Use]) {
    for one in uses {
        expect_use(rt, list, *one);
    }
}

const NO: Option<bool> = Some(false);

const YES: Option<bool> = Some(true);

#[test]
fn uses_are_those_worked_out_by_hand(rt: HostRuntime) {
    static USES: [Use; 7] = [
        (7, NO, None, NO),
        (8, NO, None, None),
        (7, YES, NO, YES),
        (9, NO, None, None),
        (8, NO, None, NO),
        (7, NO, YES, YES),
        (7, YES, YES, YES),
    ];
    let mut list = of_three(&rt, rt.alloc(), 2);
    expect(&rt, &mut list, &USES);
}

#[test]
fn a_size_of_one_has_the_latest_block(rt: HostRuntime) {
    static USES: [Use; 4] = [
        (0, NO, NO, None),
        (1, NO, None, NO),
        (0, NO, YES, NO),
        (1, NO, NO, NO),
    ];
    let mut list = of_three(&rt, rt.alloc(), 1);
    expect(&rt, &mut list, &USES);
}

/// Uses two blocks, and clears the lists.
fn known_and_cleared(rt: &impl Abort, list: &mut SharedList) {
    static BEFORE: [Use; 2] = [(70, NO, None, NO), (6, None, NO, NO)];
    static AFTER: [Use; 2] = [(70, NO, NO, NO), (6, NO, NO, NO)];
    expect(rt, list, &BEFORE);
    list.clear();
    assert!(rt; list.users() == 3);
    assert!(rt; list.knows(0, 70) && !list.knows(1, 70) && list.knows(2, 70));
    assert!(rt; !list.knows(0, 6) && list.knows(1, 6) && list.knows(2, 6));
    assert!(rt; !list.knows(0, 71) && !list.knows(1, 5));
    expect(rt, list, &AFTER);
}

#[test]
fn a_used_block_is_known_even_after_a_clear(rt: HostRuntime) {
    let mut list = of_three(&rt, rt.alloc(), 2);
    known_and_cleared(&rt, &mut list);
}

/// Uses three blocks, of which each user has another oldest one.
fn oldest_by_each(rt: &impl Abort, list: &mut SharedList) {
    static USES: [Use; 5] = [
        (4, NO, NO, NO),
        (5, NO, NO, NO),
        (6, NO, NO, NO),
        (4, None, YES, YES),
        (5, None, None, YES),
    ];
    expect(rt, list, &USES);
    assert!(rt; list.users() == 3);
    assert!(rt; list.oldest(0, &[6, 5, 4]) == 2 && list.oldest(0, &[5, 6]) == 0);
    assert!(rt; list.oldest(1, &[6, 5, 4]) == 1 && list.oldest(1, &[4, 6]) == 1);
    assert!(rt; list.oldest(2, &[6, 5, 4]) == 0 && list.oldest(2, &[5, 4]) == 1);
}

#[test]
fn each_user_has_an_oldest_block_of_its_own(rt: HostRuntime) {
    let mut list = of_three(&rt, rt.alloc(), 100);
    oldest_by_each(&rt, &mut list);
}

/// Uses a block, and then begins one of a number that is refused, which changes nothing.
fn refuses(rt: &impl Abort, list: &mut SharedList) {
    static BEFORE: [Use; 2] = [(5, NO, NO, None), (6, NO, None, None)];
    static AFTER: [Use; 1] = [(5, YES, YES, NO)];
    expect(rt, list, &BEFORE);
    assert!(rt; list.begin(u32::MAX as usize).is_err());
    assert!(rt; list.begin(usize::MAX).is_err());
    expect(rt, list, &AFTER);
}

#[test]
fn a_number_of_u32_max_or_more_is_refused(rt: HostRuntime) {
    let mut list = of_three(&rt, rt.alloc(), 2);
    refuses(&rt, &mut list);
}

#[test]
fn some_users_are_those_that_were_put_in(rt: HostRuntime) {
    let users = Users::below(3).without(1).with(31);
    assert!(&rt; users.has(0) && !users.has(1) && users.has(2) && !users.has(3) && users.has(31));
    let few = users.common(Users::below(2)).union(Users::one(5));
    assert!(&rt; few.has(0) && !few.has(2) && few.has(5) && !few.has(31));
    assert!(&rt; few.first() == Some(0) && !few.is_empty());
    assert!(&rt; Users::below(0).is_empty() && Users::below(32).has(31));
}
