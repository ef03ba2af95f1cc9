//! One and two threads at a ring.

mod asleep;
mod ends;
mod memory;
mod neighbours;
mod outbox;

use ends::{Call, Ends, Step, receiver_answers, sender_answers};
use pipe_rings::{Rx, SenderGone, Tx, ring};
use std::process::Abort;
use std::sync::Wait;
use std::test::Fail;
use std::thread::{self, Threads};
use std::time::Clock;

/// A number goes through, and nothing is left on its way.
static ONE: [Step; 4] = [
    (Call::Send(7), None),
    (Call::Settle, Some(1)),
    (Call::Receive, Some(7)),
    (Call::Settle, Some(0)),
];

/// Without its receiver the sender gets back what it sends.
fn hands_back<R: Wait + Clock + Abort>(rt: &R, ends: Ends) {
    let (mut tx, rx) = ends.apart();
    drop(rx);
    sender_answers(rt, &mut tx, &[(Call::Send(8), Some(8))]);
}

#[test]
fn one_place(rt: HostRuntime) -> Result<(), Fail> {
    let mut ends = Ends::new(rt.alloc(), 1)?;
    ends.answers(&rt, &ONE);
    hands_back(&rt, ends);
    Ok(())
}

static ONE_AND_TWO: [Step; 2] = [(Call::Send(1), None), (Call::Send(2), None)];

static BOTH_AND_THE_END: [Step; 3] = [
    (Call::Receive, Some(1)),
    (Call::Receive, Some(2)),
    (Call::Receive, None),
];

#[test]
fn what_was_sent_is_received_though_the_sender_is_gone(rt: HostRuntime) -> Result<(), Fail> {
    let (mut tx, mut rx) = Ends::new(rt.alloc(), 2)?.apart();
    sender_answers(&rt, &mut tx, &ONE_AND_TWO);
    drop(tx);
    receiver_answers(&rt, &mut rx, &BOTH_AND_THE_END);
    Ok(())
}

/// Sends the numbers below `count`. Returns how many were sent.
fn send_below<R: Wait>(rt: &R, mut tx: Tx<u64>, count: u64) -> u64 {
    let mut sent = 0u64;
    for number in 0..count {
        if tx.send(rt, number).is_ok() {
            sent = sent.saturating_add(1);
        }
    }
    sent
}

/// Receives `count` numbers. Returns how many came in order, and what came last.
fn receive_below<R: Wait>(rt: &R, mut rx: Rx<u64>, count: u64) -> (u64, Result<u64, SenderGone>) {
    let mut received = 0u64;
    for number in 0..count {
        if rx.recv(rt) == Ok(number) {
            received = received.saturating_add(1);
        }
    }
    (received, rx.recv(rt))
}

#[test]
fn two_threads_carry_all_items_in_order(rt: HostRuntime) -> Result<(), Fail> {
    for capacity in [1, 2, 64] {
        let (tx, rx) = ring(rt.alloc(), capacity)?;
        let rt = &rt;
        let (sent, received) = thread::join(
            rt,
            move || send_below(rt, tx, 10_000),
            move || receive_below(rt, rx, 10_000),
        );
        assert_eq!(rt; sent, 10_000, "capacity {capacity}");
        assert_eq!(rt; received, (10_000, Err(SenderGone)), "capacity {capacity}");
    }
    Ok(())
}

/// Each end has to give these answers, one in a thread of its own and the other beside it. An end
/// is dropped after its last call.
fn answer<R: Threads + Wait + Clock + Abort + Sync>(
    rt: &R,
    (tx, rx): (Tx<u64>, Rx<u64>),
    sends: &[Step],
    receives: &[Step],
) {
    thread::join(
        rt,
        move || {
            let mut tx = tx;
            sender_answers(rt, &mut tx, sends);
        },
        move || {
            let mut rx = rx;
            receiver_answers(rt, &mut rx, receives);
        },
    );
}

static LATE: [Step; 4] = [
    (Call::Rest(50), None),
    (Call::Receive, Some(1)),
    (Call::Receive, Some(2)),
    (Call::Receive, None),
];

#[test]
fn an_end_sleeps_until_the_other_one_goes_on(rt: HostRuntime) -> Result<(), Fail> {
    answer(&rt, ring(rt.alloc(), 1)?, &ONE_AND_TWO, &LATE);
    Ok(())
}
