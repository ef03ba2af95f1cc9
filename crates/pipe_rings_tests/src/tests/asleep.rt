//! Senders and receivers that sleep without a limit, and what wakes them.

use super::answer;
use super::ends::{Call, LONG, Step, sender_answers};
use super::neighbours::{look, send_back};
use pipe_rings::{Bell, Rx, Tx, ring, ring_from};
use std::process::Abort;
use std::sync::Wait;
use std::test::Fail;
use std::thread;
use std::time::Clock;

static FOUR: [Step; 4] = [
    (Call::Send(0), None),
    (Call::Send(1), None),
    (Call::Send(2), None),
    (Call::Send(3), None),
];

/// Each number is received a long time after the sender fell asleep at the full ring.
static FOUR_LATE: [Step; 8] = [
    (LONG, None),
    (Call::Receive, Some(0)),
    (LONG, None),
    (Call::Receive, Some(1)),
    (LONG, None),
    (Call::Receive, Some(2)),
    (LONG, None),
    (Call::Receive, Some(3)),
];

#[test]
fn a_sender_that_sleeps_at_a_full_ring_is_woken_by_a_receiver(rt: HostRuntime) -> Result<(), Fail> {
    answer(&rt, ring(rt.alloc(), 1)?, &FOUR, &FOUR_LATE);
    Ok(())
}

/// Waits for an answer through the pauses of a sender alone.
fn pause_for<R: Wait>(rt: &R, tx: &mut Tx<u64>, rx: &mut Rx<u64>) -> Option<u64> {
    for _ in rt.forever() {
        if let Some(answer) = look(rx) {
            return answer;
        }
        tx.pause(rt);
    }
    unreachable!()
}

static OFFER: [Step; 3] = [
    (LONG, None),
    (Call::Post(7, 8), Some(1)),
    (Call::Offer, Some(1)),
];

/// Offers a number, and then waits for an answer through the pauses of the same end alone. Only a
/// pause tells the receiver, which sleeps, of what was offered.
fn offer_and_pause<R: Wait + Clock + Abort>(
    rt: &R,
    mut tx: Tx<u64>,
    mut rx: Rx<u64>,
) -> Option<u64> {
    sender_answers(rt, &mut tx, &OFFER);
    pause_for(rt, &mut tx, &mut rx)
}

#[test]
fn a_sender_that_pauses_after_an_offer_wakes_the_receiver(rt: HostRuntime) -> Result<(), Fail> {
    let bell = Bell::new(rt.alloc())?;
    let other = Bell::new(rt.alloc())?;
    let (there, from_there) = ring_from(rt.alloc(), 4, 4, &bell, &other)?;
    let (back, from_back) = ring_from(rt.alloc(), 4, 4, &other, &bell)?;
    let rt = &rt;
    let ends = thread::join(
        rt,
        move || offer_and_pause(rt, there, from_back),
        move || send_back(rt, from_there, back, 1),
    );
    assert_eq!(rt; ends, (Some(7), 1));
    Ok(())
}
