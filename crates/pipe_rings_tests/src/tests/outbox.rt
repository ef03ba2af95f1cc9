//! Posting, publishing and receiving with both ends in one thread: the order of the items, and
//! where they are.

use super::ends::{Call, Ends, Step, receiver_answers, sender_answers};
use std::test::Fail;

/// Posts 100 numbers and publishes: this many have to fit into the ring, and this many to be left.
#[test]
fn as_much_is_published_as_the_ring_has_room_for(rt: HostRuntime) -> Result<(), Fail> {
    for (capacity, published, left) in [(1, 1, 99), (2, 2, 98), (64, 64, 36)] {
        let calls = [
            (Call::Post(0, 100), Some(100)),
            (Call::Posted, Some(100)),
            (Call::TryReceive, None),
            (Call::Publish, Some(published)),
            (Call::Posted, Some(left)),
            (Call::Publish, Some(0)),
            (Call::Carry, Some(100)),
            (Call::Posted, Some(0)),
        ];
        Ends::new(rt.alloc(), capacity)?.answers(&rt, &calls);
    }
    Ok(())
}

/// Posts 100 numbers and offers them: as with `publish`, what fits goes into the ring.
#[test]
fn as_much_is_offered_as_the_ring_has_room_for(rt: HostRuntime) -> Result<(), Fail> {
    for (capacity, offered, left) in [(1, 1, 99), (64, 64, 36), (128, 100, 0)] {
        let calls = [
            (Call::Post(0, 100), Some(100)),
            (Call::Offer, Some(offered)),
            (Call::Posted, Some(left)),
            (Call::Offer, Some(0)),
            (Call::ReceiveFrom(0), Some(offered)),
        ];
        Ends::new(rt.alloc(), capacity)?.answers(&rt, &calls);
    }
    Ok(())
}

/// The outbox has room for 512 numbers, and for as many again once they are published.
static FILLED_TWICE: [Step; 9] = [
    (Call::Post(0, 511), Some(511)),
    (Call::HasRoom, Some(1)),
    (Call::Carry, Some(511)),
    (Call::Post(0, 600), Some(512)),
    (Call::HasRoom, Some(0)),
    (Call::Posted, Some(512)),
    (Call::Carry, Some(512)),
    (Call::Posted, Some(0)),
    (Call::HasRoom, Some(1)),
];

#[test]
fn an_outbox_holds_512_items(rt: HostRuntime) -> Result<(), Fail> {
    for capacity in [1, 2, 64] {
        Ends::new(rt.alloc(), capacity)?.answers(&rt, &FILLED_TWICE);
    }
    Ok(())
}

/// An outbox has the capacity that was asked for, but at least 1 and at most 512.
#[test]
fn an_outbox_has_room_for_as_many_items_as_asked_for(rt: HostRuntime) -> Result<(), Fail> {
    for (outbox, room) in [(0, 1), (1, 1), (2, 2), (512, 512), (600, 512)] {
        let calls = [
            (Call::Post(0, 600), Some(room)),
            (Call::HasRoom, Some(0)),
            (Call::Carry, Some(room)),
            (Call::HasRoom, Some(1)),
        ];
        Ends::with_outbox(rt.alloc(), outbox)?.answers(&rt, &calls);
    }
    Ok(())
}

static LEFT_IN_THE_RING: [Step; 5] = [
    (Call::Post(0, 3), Some(3)),
    (Call::Settle, Some(3)),
    (Call::Publish, Some(2)),
    (Call::Receive, Some(0)),
    (Call::Settle, Some(2)),
];

#[test]
fn what_is_in_the_outbox_and_in_the_ring_is_on_its_way(rt: HostRuntime) -> Result<(), Fail> {
    Ends::new(rt.alloc(), 2)?.answers(&rt, &LEFT_IN_THE_RING);
    Ok(())
}

static LEFT_IN_THE_BATCH: [Step; 8] = [
    (Call::Post(0, 3), Some(3)),
    (Call::Publish, Some(3)),
    (Call::Post(3, 4), Some(1)),
    // The first item comes without a batch, and the second one is the first item of a batch.
    (Call::TryReceive, Some(0)),
    (Call::TryReceive, Some(1)),
    // The ring is empty: one item is in the batch, and one is in the outbox.
    (Call::Settle, Some(2)),
    (Call::TryReceive, Some(2)),
    (Call::Settle, Some(1)),
];

#[test]
fn what_is_in_the_batch_is_on_its_way(rt: HostRuntime) -> Result<(), Fail> {
    Ends::new(rt.alloc(), 4)?.answers(&rt, &LEFT_IN_THE_BATCH);
    Ok(())
}

static SENT_BEHIND: [Step; 8] = [
    (Call::Post(0, 2), Some(2)),
    (Call::Send(2), None),
    (Call::Posted, Some(0)),
    (Call::Post(0, 1), Some(1)),
    (Call::ReceiveFrom(0), Some(3)),
    (Call::Publish, Some(1)),
    (Call::TryReceive, Some(0)),
    (Call::TryReceive, None),
];

#[test]
fn what_is_sent_comes_behind_what_was_posted(rt: HostRuntime) -> Result<(), Fail> {
    Ends::new(rt.alloc(), 4)?.answers(&rt, &SENT_BEHIND);
    Ok(())
}

/// Three numbers are posted to a ring of capacity two, and published.
static ONE_UNPUBLISHED: [Step; 2] = [(Call::Post(0, 3), Some(3)), (Call::Publish, Some(2))];

/// If the sender is gone, what it published comes, and nothing after that.
static THE_REST: [Step; 5] = [
    (Call::IsCut, Some(1)),
    (Call::Receive, Some(0)),
    (Call::Receive, Some(1)),
    (Call::Receive, None),
    (Call::TryReceive, None),
];

#[test]
fn what_was_published_is_received_though_the_sender_is_gone(rt: HostRuntime) -> Result<(), Fail> {
    let (mut tx, mut rx) = Ends::new(rt.alloc(), 2)?.apart();
    receiver_answers(&rt, &mut rx, &[(Call::IsCut, Some(0))]);
    sender_answers(&rt, &mut tx, &ONE_UNPUBLISHED);
    drop(tx);
    receiver_answers(&rt, &mut rx, &THE_REST);
    Ok(())
}

static ONE_POSTED: [Step; 2] = [(Call::Post(0, 1), Some(1)), (Call::IsCut, Some(0))];

/// If the receiver is gone, posted items stay in the outbox, and an item that is sent comes back.
static HANDED_BACK: [Step; 3] = [
    (Call::IsCut, Some(1)),
    (Call::Send(8), Some(8)),
    (Call::Posted, Some(1)),
];

#[test]
fn a_sender_sees_that_the_receiver_is_gone(rt: HostRuntime) -> Result<(), Fail> {
    let (mut tx, rx) = Ends::new(rt.alloc(), 2)?.apart();
    sender_answers(&rt, &mut tx, &ONE_POSTED);
    drop(rx);
    sender_answers(&rt, &mut tx, &HANDED_BACK);
    Ok(())
}
