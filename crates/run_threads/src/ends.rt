//! The rings of a run, and the ends that each thread owns.

ghost use Rattle.std.specs.Prelude.{◌≡◌, ◌≤◌, ◌<◌, IfOk, IsTrue};
ghost use Rattle.pipe_rings.specs.Rings.{sent, received, AreEnds, SameTx, SameRx, outbox_for};
ghost use Rattle.run_threads.specs.Ends.{AllReceived, ArePaired, AreUnused, HaveCapacity};
ghost use Rattle.run_threads.specs.Ends.{HaveOutboxes, SameRings};

use pipe_rings::{Bell, NoMemory, Rx, Tx, ring_from, settle};
use stage_core::{FromStage, Routed, ToStage, Turn};
use std::alloc::Global;

/// How many events, or messages, a thread posts from one offer to the next.
pub(crate) const BETWEEN_OFFERS: usize = 32;

/// The ends of the splitter: the order of turns to the merge, and a ring to each stage.
#[derive(Drop)]
pub struct SplitterEnds {
    pub order: Tx<Turn>,
    pub to_i: Tx<ToStage>,
    pub to_d: Tx<ToStage>,
}

impl SplitterEnds {
    ghost use Rattle.std.specs.Prelude.{◌↔◌};
    ghost use Rattle.run_threads.specs.Ends.{HaveRoom, SameSplitterEnds, SentSame};
    ghost use Rattle.run_threads.specs.Threads.{Sends};
    ghost use Rattle.run_threads.specs.Waits.{AllAnnounced, LookedEverywhere, held};

    /// Whether there is room to post the messages of one more event.
    #[inline]
    pub(crate) fn have_room(&self) -> bool
        ensures { IsTrue result ↔ HaveRoom self.now }
    {
        self.order.has_room() && self.to_i.has_room() && self.to_d.has_room()
    }

    /// Posts the messages of one event, or those of the end.
    #[inline]
    pub(crate) fn post(&mut self, routed: Routed)
        requires { HaveRoom self.old }
        ensures rings { SameSplitterEnds self.old self.new }
        ensures sent { Sends self.old routed self.new }
    {
        self.order.post(routed.turn);
        if let Some(message) = routed.i {
            self.to_i.post(message);
        }
        if let Some(message) = routed.d {
            self.to_d.post(message);
        }
    }

    /// Publishes posted messages, as many as fit into each of the three rings. Answers whether any
    /// was published. The stages come first: the merge can do nothing without their answers.
    pub(crate) fn publish(&mut self) -> bool
        ensures rings { SameSplitterEnds self.old self.new }
        ensures sent { SentSame self.old self.new }
        ensures looked { LookedEverywhere self.new }
        ensures fewer { held self.new ≤ held self.old }
        ensures moved { IsTrue result ↔ held self.new < held self.old }
        ensures emptied { held self.new ≡ 0 → HaveRoom self.new }
        ensures announced { AllAnnounced self.new }
    {
        let to_i = self.to_i.publish();
        let to_d = self.to_d.publish();
        let order = self.order.publish();
        to_i > 0 || to_d > 0 || order > 0
    }

    /// Offers posted messages, as many as fit into each of the three rings.
    pub(crate) fn offer(&mut self)
        ensures rings { SameSplitterEnds self.old self.new }
        ensures sent { SentSame self.old self.new }
        ensures looked { LookedEverywhere self.new }
    {
        self.to_i.offer();
        self.to_d.offer();
        self.order.offer();
    }

    /// Whether all posted messages are published.
    pub(crate) fn are_published(&self) -> bool
        ensures { IsTrue result ↔ (held self.now ≡ 0) }
    {
        self.order.posted() == 0 && self.to_i.posted() == 0 && self.to_d.posted() == 0
    }

    /// Whether one of the receivers is gone.
    pub(crate) fn are_cut(&mut self) -> bool
        ensures rings { SameSplitterEnds self.old self.new }
        ensures sent { SentSame self.old self.new }
        ensures held { held self.new ≡ held self.old }
    {
        self.order.is_cut() || self.to_i.is_cut() || self.to_d.is_cut()
    }
}

/// The two ends of a first-level stage.
#[derive(Drop)]
pub struct StageEnds {
    pub from_splitter: Rx<ToStage>,
    pub to_merge: Tx<FromStage>,
}

/// The ends of the merge: the order of turns from the splitter, and a ring from each stage.
#[derive(Drop)]
pub struct MergeEnds {
    pub order: Rx<Turn>,
    pub from_i: Rx<FromStage>,
    pub from_d: Rx<FromStage>,
}

/// Both ends of all five rings of a run. The contracts say what each ring has carried.
#[derive(Drop)]
pub struct Rings {
    pub(crate) splitter: SplitterEnds,
    pub(crate) i: StageEnds,
    pub(crate) d: StageEnds,
    pub(crate) merge: MergeEnds,
}

/// The ends of the splitter, of the two stages and of the merge.
pub fn ends_of(rings: Rings) -> (SplitterEnds, StageEnds, StageEnds, MergeEnds)
    ensures { result ≡ (rings.splitter, rings.i, rings.d, rings.merge) }
{
    let Rings {
        splitter,
        i,
        d,
        merge,
    } = rings;
    (splitter, i, d, merge)
}

/// Whether every message that was sent on a ring was received.
fn is_settled<T: Copy>(tx: &mut Tx<T>, rx: &mut Rx<T>) -> bool
    requires { AreEnds tx.old rx.old }
    ensures sender { SameTx tx.old tx.new × (sent tx.new ≡ sent tx.old) }
    ensures receiver { SameRx rx.old rx.new × (received rx.new ≡ received rx.old) }
    ensures all { IsTrue result → received rx.new ≡ sent tx.new }
    ensures only { received rx.new ≡ sent tx.new → IsTrue result }
{
    settle(tx, rx) == 0
}

impl Rings {
    /// Makes five rings, each with room for `capacity` messages. Each sender has an outbox with
    /// room for `outbox` messages, but for at least 1 and at most 512.
    pub(crate) fn new(alloc: Global, capacity: usize, outbox: usize) -> Result<Rings, NoMemory>
        requires { (0 < capacity) × (capacity ≤ 65536) }
        ensures paired { IfOk result (λ rings. ArePaired rings) }
        ensures unused { IfOk result (λ rings. AreUnused rings) }
        ensures capacity { IfOk result (λ rings. HaveCapacity capacity rings) }
        ensures outboxes { IfOk result (λ rings. HaveOutboxes (outbox_for outbox) rings) }
    {
        let splitter = Bell::new(alloc)?;
        let i = Bell::new(alloc)?;
        let d = Bell::new(alloc)?;
        let merge = Bell::new(alloc)?;
        let (order_tx, order_rx) = ring_from(alloc, capacity, outbox, &splitter, &merge)?;
        let (to_i_tx, to_i_rx) = ring_from(alloc, capacity, outbox, &splitter, &i)?;
        let (to_d_tx, to_d_rx) = ring_from(alloc, capacity, outbox, &splitter, &d)?;
        let (i, d) = (i.beside(alloc)?, d.beside(alloc)?);
        let merge = merge.beside(alloc)?;
        let (from_i_tx, from_i_rx) = ring_from(alloc, capacity, outbox, &i, &merge)?;
        let merge = merge.beside(alloc)?;
        let (from_d_tx, from_d_rx) = ring_from(alloc, capacity, outbox, &d, &merge)?;
        Ok(Rings {
            splitter: SplitterEnds {
                order: order_tx,
                to_i: to_i_tx,
                to_d: to_d_tx,
            },
            i: StageEnds {
                from_splitter: to_i_rx,
                to_merge: from_i_tx,
            },
            d: StageEnds {
                from_splitter: to_d_rx,
                to_merge: from_d_tx,
            },
            merge: MergeEnds {
                order: order_rx,
                from_i: from_i_rx,
                from_d: from_d_rx,
            },
        })
    }

    /// Whether every message that was sent was received.
    pub(crate) fn are_settled(&mut self) -> bool
        requires { ArePaired self.old }
        ensures same { SameRings self.old self.new }
        ensures all { IsTrue result → AllReceived self.new }
        ensures only { AllReceived self.new → IsTrue result }
    {
        let order = is_settled(&mut self.splitter.order, &mut self.merge.order);
        let to_i = is_settled(&mut self.splitter.to_i, &mut self.i.from_splitter);
        let to_d = is_settled(&mut self.splitter.to_d, &mut self.d.from_splitter);
        let from_i = is_settled(&mut self.i.to_merge, &mut self.merge.from_i);
        let from_d = is_settled(&mut self.d.to_merge, &mut self.merge.from_d);
        order && to_i && to_d && from_i && from_d
    }
}
