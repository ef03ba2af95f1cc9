//! Two threads, one of which uses `post`, `publish`, `offer`, `try_recv` and `pause` itself.

use super::answer;
use super::ends::{Call, LONG, Step, receiver_answers, sender_answers};
use pipe_rings::{Bell, Rx, SenderGone, Tx, ring, ring_from};
use std::alloc::Global;
use std::process::Abort;
use std::sync::Wait;
use std::test::Fail;
use std::thread;
use std::thread::Threads;
use std::time::Clock;

/// Is more to be published before the outbox has room (if `all`, before it is empty)?
fn has_to_publish(tx: &mut Tx<u64>, all: bool) -> bool {
    !tx.is_cut() && (all || !tx.has_room()) && tx.posted() > 0
}

fn publish_or_pause<R: Wait>(rt: &R, tx: &mut Tx<u64>) {
    if tx.publish() == 0 {
        tx.pause(rt);
    }
}

/// Publishes until the outbox has room (if `all`, until it is empty), or the receiver is gone.
fn make_room<R: Wait>(rt: &R, tx: &mut Tx<u64>, all: bool) {
    for _ in rt.forever() {
        if !has_to_publish(tx, all) {
            return;
        }
        publish_or_pause(rt, tx);
    }
}

/// Posts a number, if the outbox has room. Publishes each seventh and what is before it.
fn post_next(tx: &mut Tx<u64>, number: u64) -> bool {
    let has_room = tx.has_room();
    if has_room {
        tx.post(number);
    }
    if number % 7 == 0 {
        tx.publish();
    }
    has_room
}

/// Posts the numbers below `count`, and publishes after every seventh and at the end. Returns how
/// many were posted.
fn post_below<R: Wait>(rt: &R, mut tx: Tx<u64>, count: u64) -> u64 {
    let mut posted = 0u64;
    for number in 0..count {
        make_room(rt, &mut tx, false);
        if post_next(&mut tx, number) {
            posted = posted.saturating_add(1);
        }
    }
    make_room(rt, &mut tx, true);
    posted
}

/// What a look finds that does not wait: a number, or `Some(None)` if the sender is gone.
pub(super) fn look(rx: &mut Rx<u64>) -> Option<Option<u64>> {
    let number = rx.try_recv();
    if number.is_some() {
        Some(number)
    } else if rx.is_cut() {
        // A number may have been published between these two looks.
        Some(rx.try_recv())
    } else {
        None
    }
}

/// The next item, or `None` if the sender is gone.
fn next<R: Wait>(rt: &R, rx: &mut Rx<u64>) -> Option<u64> {
    for _ in rt.forever() {
        if let Some(found) = look(rx) {
            return found;
        }
        rx.pause(rt);
    }
    unreachable!()
}

/// Receives `count` numbers. Returns how many came in order, and what came last.
fn receive_below<R: Wait>(rt: &R, mut rx: Rx<u64>, count: u64) -> (u64, Option<u64>) {
    let mut received = 0u64;
    for number in 0..count {
        if next(rt, &mut rx) == Some(number) {
            received = received.saturating_add(1);
        }
    }
    (received, next(rt, &mut rx))
}

#[test]
fn all_that_is_posted_arrives_in_order(rt: HostRuntime) -> Result<(), Fail> {
    for capacity in [1, 2, 64] {
        let (tx, rx) = ring(rt.alloc(), capacity)?;
        let rt = &rt;
        let (posted, received) = thread::join(
            rt,
            move || post_below(rt, tx, 20_000),
            move || receive_below(rt, rx, 20_000),
        );
        assert_eq!(rt; posted, 20_000, "capacity {capacity}");
        assert_eq!(rt; received, (20_000, None), "capacity {capacity}");
    }
    Ok(())
}

/// Three numbers are posted to a ring of capacity one, and then a fourth is sent.
static POSTED_AND_SENT: [Step; 2] = [(Call::Post(0, 3), Some(3)), (Call::Send(3), None)];

#[test]
fn a_send_waits_until_all_that_was_posted_is_published(rt: HostRuntime) -> Result<(), Fail> {
    let (tx, rx) = ring(rt.alloc(), 1)?;
    let rt = &rt;
    let ((), received) = thread::join(
        rt,
        move || {
            let mut tx = tx;
            sender_answers(rt, &mut tx, &POSTED_AND_SENT);
        },
        move || receive_below(rt, rx, 4),
    );
    assert_eq!(rt; received, (4, None));
    Ok(())
}

/// A number is published after a long time, and the sender is dropped after a second one.
static PUBLISHED_LATE: [Step; 4] = [
    (LONG, None),
    (Call::Post(7, 8), Some(1)),
    (Call::Publish, Some(1)),
    (LONG, None),
];

static SEVEN_AND_THE_END: [Step; 2] = [(Call::Receive, Some(7)), (Call::Receive, None)];

#[test]
fn a_receiver_that_sleeps_sees_what_is_published_and_the_end(rt: HostRuntime) -> Result<(), Fail> {
    answer(
        &rt,
        ring(rt.alloc(), 2)?,
        &PUBLISHED_LATE,
        &SEVEN_AND_THE_END,
    );
    Ok(())
}

/// Offers a number to a receiver that sleeps, publishes, and waits for the answer, ten times.
fn offer_and_publish<R: Wait + Clock + Abort>(rt: &R, mut tx: Tx<u64>, mut rx: Rx<u64>) {
    for number in 0..10u64 {
        let offer = [
            (LONG, None),
            (Call::Post(number, number.saturating_add(1)), Some(1)),
            (Call::Offer, Some(1)),
            (Call::Publish, Some(0)),
        ];
        sender_answers(rt, &mut tx, &offer);
        receiver_answers(rt, &mut rx, &[(Call::Receive, Some(number))]);
    }
}

fn send_one_back<R: Wait>(rt: &R, rx: &mut Rx<u64>, tx: &mut Tx<u64>) -> bool {
    match rx.recv(rt) {
        Ok(number) => tx.send(rt, number).is_ok(),
        Err(SenderGone) => false,
    }
}

/// Sends back what it receives, so many times. Returns how many were sent.
pub(super) fn send_back<R: Wait>(rt: &R, mut rx: Rx<u64>, mut tx: Tx<u64>, times: u64) -> u64 {
    let mut sent = 0u64;
    for _ in 0..times {
        if send_one_back(rt, &mut rx, &mut tx) {
            sent = sent.saturating_add(1);
        }
    }
    sent
}

#[test]
fn a_receiver_that_sleeps_is_woken_for_what_was_offered(rt: HostRuntime) -> Result<(), Fail> {
    let (there, from_there) = ring(rt.alloc(), 4)?;
    let (back, from_back) = ring(rt.alloc(), 4)?;
    let rt = &rt;
    let ((), sent) = thread::join(
        rt,
        move || offer_and_publish(rt, there, from_back),
        move || send_back(rt, from_there, back, 10),
    );
    assert_eq!(rt; sent, 10);
    Ok(())
}

/// Two numbers are offered to a receiver that sleeps, of which the ring takes one.
static OFFERED_ONE_TOO_MANY: [Step; 3] = [
    (LONG, None),
    (Call::Post(0, 2), Some(2)),
    (Call::Offer, Some(1)),
];

/// So many numbers are offered to a receiver that sleeps that it has to be woken.
static OFFERED_MANY: [Step; 3] = [
    (LONG, None),
    (Call::Post(0, 512), Some(512)),
    (Call::Offer, Some(512)),
];

/// Offers numbers, publishes nothing, and waits for the answer to the first of them.
fn is_answered<H: Threads + Wait + Clock + Abort + Sync>(
    rt: &H,
    alloc: Global,
    (there, from_there): (Tx<u64>, Rx<u64>),
    offered: &'static [Step],
) -> Result<(), Fail> {
    let (back, from_back) = ring(alloc, 1)?;
    let ((), sent) = thread::join(
        rt,
        move || {
            let (mut tx, mut rx) = (there, from_back);
            sender_answers(rt, &mut tx, offered);
            receiver_answers(rt, &mut rx, &[(Call::Receive, Some(0))]);
        },
        move || send_back(rt, from_there, back, 1),
    );
    assert_eq!(rt; sent, 1);
    Ok(())
}

#[test]
fn an_offer_that_leaves_a_number_wakes_the_receiver(rt: HostRuntime) -> Result<(), Fail> {
    let ends = ring(rt.alloc(), 1)?;
    is_answered(&rt, rt.alloc(), ends, &OFFERED_ONE_TOO_MANY)
}

#[test]
fn an_offer_of_many_numbers_wakes_the_receiver(rt: HostRuntime) -> Result<(), Fail> {
    let ends = ring(rt.alloc(), 1_024)?;
    is_answered(&rt, rt.alloc(), ends, &OFFERED_MANY)
}

/// A ring of capacity one is filled, and then one more number is sent.
static ONE_TOO_MANY: [Step; 2] = [(Call::Send(1), None), (Call::Send(2), Some(2))];

#[test]
fn a_sender_that_sleeps_sees_that_the_receiver_is_gone(rt: HostRuntime) -> Result<(), Fail> {
    answer(&rt, ring(rt.alloc(), 1)?, &ONE_TOO_MANY, &[(LONG, None)]);
    Ok(())
}

/// Sends each number through the first ring and then through the second. The receiver sleeps each
/// time.
fn send_in_turn<R: Wait + Clock + Abort>(rt: &R, mut first: Tx<u64>, mut second: Tx<u64>) {
    for number in 0..3 {
        let late = [(LONG, None), (Call::Send(number), None)];
        sender_answers(rt, &mut first, &late);
        sender_answers(rt, &mut second, &late);
    }
}

/// Receives each number from the first ring and then from the second.
fn receive_in_turn<R: Wait + Clock + Abort>(rt: &R, mut first: Rx<u64>, mut second: Rx<u64>) {
    for number in 0..3 {
        let next = [(Call::Receive, Some(number))];
        receiver_answers(rt, &mut first, &next);
        receiver_answers(rt, &mut second, &next);
    }
}

#[test]
fn a_receiver_with_two_bells_is_woken_at_each_ring(rt: HostRuntime) -> Result<(), Fail> {
    let sender = Bell::new(rt.alloc())?;
    let receiver = Bell::new(rt.alloc())?;
    let beside = receiver.beside(rt.alloc())?;
    let (to_first, first) = ring_from(rt.alloc(), 1, 1, &sender, &receiver)?;
    let (to_second, second) = ring_from(rt.alloc(), 1, 1, &sender, &beside)?;
    let rt = &rt;
    thread::join(
        rt,
        move || send_in_turn(rt, to_first, to_second),
        move || receive_in_turn(rt, first, second),
    );
    Ok(())
}
