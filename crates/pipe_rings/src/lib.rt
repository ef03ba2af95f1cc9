//! Carries items from one thread to another through a ring: a queue of fixed capacity.
//!
//! [`ring`] makes the two ends. [`Tx`] sends, and waits if the ring is full. [`Rx`] receives, and
//! waits if the ring is empty. Once both ends are in one thread again, [`settle`] counts the items
//! that were sent and not received. The ring itself is that of the crate `rtrb`: one producer, one
//! consumer, no lock.
//!
//! Items can be moved in bulk. A sender may post items into an outbox, which never waits, and
//! publish them together. A receiver takes several items out of the ring at once. A thread that
//! waits sleeps until the other end wakes it by its [`Bell`]. A thread that waits at several rings
//! makes them with [`ring_from`]. The modules: `tx` and `rx` are the ends, and `gone` is what they
//! answer if the other end was dropped. `patience` is how they wait, `bell` how they wake one
//! another, and `yields` what they learn of one another's yields.
//!
//! Proved: a successful call appends its item to the list of sent or received items, and nothing
//! else changes these lists. Posted items count as sent, so publishing does not change the list. A
//! successful `send` leaves none in the outbox. An item that is handed back was not sent. The sent
//! items are the received ones, followed by as many items as `settle` counts. A ring and an outbox
//! have the capacity that was asked for, and keep it.
//!
//! Only tested: that `send` and `recv` report a lost peer only if it was dropped, that a sleeping
//! end is woken, and that the allocations for a ring succeed.
#![tactic(auto)]

mod bell;
mod gone;
mod memory;
mod patience;
mod rx;
mod tx;
mod yields;

ghost use Rattle.std.specs.Prelude.{◌≡◌, ◌≤◌, [], IfOk};
ghost use Rattle.pipe_rings.specs.Rings.{sent, received, capacity_of, outbox_of, outbox_for};
ghost use Rattle.pipe_rings.specs.Rings.{AreEnds, SameTx, SameRx, IsBehindBy, IsAnnounced};
ghost use Rattle.pipe_rings.specs.Rings.{HasRoom, posted, unannounced_of};

pub use bell::Bell;
pub use gone::{Gone, SenderGone};
pub use memory::NoMemory;
use rtrb::RingBuffer;
pub use rx::Rx;
use std::alloc::Global;
pub use tx::{MOST_UNANNOUNCED, OUTBOX, Tx};

/// Makes a ring with room for `capacity` items, and returns its two ends. The outbox has room for
/// [`OUTBOX`] items. All memory of the ring is allocated here.
pub fn ring<T: Copy>(alloc: Global, capacity: usize) -> Result<(Tx<T>, Rx<T>), NoMemory>
    requires { (1 ≤ capacity) × (capacity ≤ 65536) }
    ensures one { IfOk result (λ r. AreEnds r.0 r.1) }
    ensures capacity { IfOk result (λ r. capacity_of r.0 ≡ capacity) }
    ensures outbox { IfOk result (λ r. outbox_of r.0 ≡ OUTBOX) }
    ensures room { IfOk result (λ r. HasRoom r.0) }
    ensures new { IfOk result (λ r. (sent r.0 ≡ []) × (received r.1 ≡ [])) }
    ensures announced { IfOk result (λ r. IsAnnounced r.0) }
{
    ring_from(
        alloc,
        capacity,
        OUTBOX,
        &Bell::new(alloc)?,
        &Bell::new(alloc)?,
    )
}

/// Like [`ring`], with an outbox that has room for `outbox` items; a number below 1 acts as 1, and
/// one above [`OUTBOX`] as [`OUTBOX`]. `sender` and `receiver` are bells of the two threads. A
/// thread that waits at several rings at the same time has one bell for all of them, and each of
/// its neighbours rings it. For rings at which it waits at other times, it has more bells: see
/// [`Bell::beside`].
#[tactic(auto, unfolding(crate::specs::Rings::sent, crate::specs::Rings::received))]
pub fn ring_from<T: Copy>(
    alloc: Global,
    capacity: usize,
    outbox: usize,
    sender: &Bell,
    receiver: &Bell,
) -> Result<(Tx<T>, Rx<T>), NoMemory>
    requires { (1 ≤ capacity) × (capacity ≤ 65536) }
    ensures one { IfOk result (λ r. AreEnds r.0 r.1) }
    ensures capacity { IfOk result (λ r. capacity_of r.0 ≡ capacity) }
    ensures outbox { IfOk result (λ r. outbox_of r.0 ≡ outbox_for outbox) }
    ensures room { IfOk result (λ r. HasRoom r.0) }
    ensures new { IfOk result (λ r. (sent r.0 ≡ []) × (received r.1 ≡ [])) }
    ensures announced { IfOk result (λ r. IsAnnounced r.0) }
{
    let Ok((producer, consumer)) = RingBuffer::new(alloc, capacity) else {
        return Err(NoMemory);
    };
    let tx = Tx::new(alloc, producer, outbox, sender.share()?, receiver.share()?)?;
    let rx = Rx::new(alloc, consumer, receiver.share()?, sender.share()?)?;
    Ok((tx, rx))
}

/// How many items were sent and not yet received, those in the outbox and the batch included.
#[tactic(auto, unfolding(crate::specs::Rings::sent, crate::specs::Rings::received, crate::specs::Rings::posted, crate::specs::Rings::HasRoom))]
pub fn settle<T: Copy>(tx: &mut Tx<T>, rx: &mut Rx<T>) -> usize
    requires { AreEnds tx.old rx.old }
    ensures sender { SameTx tx.old tx.new × (sent tx.new ≡ sent tx.old) }
    ensures receiver { SameRx rx.old rx.new × (received rx.new ≡ received rx.old) }
    ensures outbox { (posted tx.new ≡ posted tx.old) × (HasRoom tx.old → HasRoom tx.new) }
    ensures counted { unannounced_of tx.new ≡ unannounced_of tx.old }
    ensures left { IsBehindBy result (sent tx.new) (received rx.new) }
{
    rx.end.slots_beside(&mut tx.end) + rx.left + tx.posted()
}
