//! The sending end of a ring, with its outbox.

ghost use Rattle.std.specs.Prelude.{◌≡◌, ◌≤◌, length, vec_capacity};
ghost use Rattle.rtrb.specs.Ring as ring;

use crate::bell::Bell;
use crate::gone::Gone;
use crate::memory::NoMemory;
use crate::patience::Patience;
use rtrb::Producer;
use std::alloc::Global;
use std::sync::Wait;

/// The greatest capacity of an outbox, in items.
pub const OUTBOX: usize = 512;

/// How many items a sender offers at most before it wakes a sleeping receiver.
pub const MOST_UNANNOUNCED: usize = 512;

/// The sending end of a ring. It can move to another thread.
pub struct Tx<T: Copy> {
    pub(crate) end: Producer<T>,
    /// The items from `first` on were posted and are not yet in the ring.
    pub(crate) outbox: Vec<T>,
    pub(crate) first: usize,
    /// The capacity of the outbox, in items.
    pub(crate) room: usize,
    /// How many items were moved into the ring since this end last rang the receiver's bell.
    pub(crate) unannounced: usize,
    pub(crate) patience: Patience,
    /// The bell that wakes this end, and the one that wakes the other end.
    pub(crate) own: Bell,
    pub(crate) peer: Bell,
    ghost bounds: { (first ≤ length outbox.items) × (length outbox.items ≤ room) },
    ghost some_room: { (1 ≤ room) × (room ≤ 512) },
    ghost reserved: { room ≤ vec_capacity outbox },
}

#[tactic(auto, unfolding(crate::specs::Rings::sent, crate::specs::Rings::posted, crate::specs::Rings::HasRoom, crate::specs::Rings::LookedForRoom))]
impl<T: Copy> Tx<T> {
    ghost use Rattle.std.specs.Prelude.{◌≡◌, ◌<◌, [], ◌∷◌, ◌++◌, ◌↔◌, OnOk, OnErr, IfErr, IsTrue};
    ghost use Rattle.std.specs.Prelude.{length, ◌≤◌, ◌+◌, ◌-◌, ◌^◌, min, IfOk, false};
    ghost use Rattle.pipe_rings.specs.Rings.{sent, posted, SameTx, HasRoom, LookedForRoom};
    ghost use Rattle.pipe_rings.specs.Rings.{IsAnnounced, unannounced_of, outbox_for};

    /// The sending end of a new ring, with an outbox for `outbox` items, but for at least 1 and at
    /// most `OUTBOX`. It sleeps at the bell `own`, and rings the bell `peer`.
    pub(crate) fn new(
        alloc: Global,
        end: Producer<T>,
        outbox: usize,
        own: Bell,
        peer: Bell,
    ) -> Result<Tx<T>, NoMemory>
        requires { ring.sent end ≡ [] }
        ensures end { IfOk result (λ tx. tx.end ≡ end) }
        ensures room { IfOk result (λ tx. (tx.room ≡ outbox_for outbox) × HasRoom tx) }
        ensures sent { IfOk result (λ tx. sent tx ≡ []) }
        ensures announced { IfOk result IsAnnounced }
    {
        let room = outbox.clamp(1, OUTBOX);
        let Ok(outbox) = Vec::with_capacity(alloc, room) else {
            return Err(NoMemory);
        };
        Ok(Tx {
            end,
            outbox,
            first: 0,
            room,
            unannounced: 0,
            patience: Patience::new(),
            own,
            peer,
        })
    }

    /// Sends the item after all posted items, and waits until the ring has room for them. If the
    /// receiver is gone, the item comes back, even if the ring has room. Some posted items may have
    /// been published by then.
    pub fn send<R: Wait>(&mut self, rt: &R, item: T) -> Result<(), Gone<T>>
        ensures ring { SameTx self.old self.new }
        ensures ok { OnOk result (sent self.new ≡ sent self.old ++ item ∷ []) }
        ensures published { OnOk result (posted self.new ≡ []) }
        ensures room { OnOk result (HasRoom self.new) }
        ensures announced { OnOk result (IsAnnounced self.new) }
        ensures gone { IfErr result (λ g. (g.item ≡ item) × (sent self.new ≡ sent self.old)) }
        ensures left { OnErr result (length (posted self.new) ≤ length (posted self.old)) }
        ensures kept { OnErr result (HasRoom self.old → HasRoom self.new) }
    {
        for _ in rt.forever() {
            if self.is_cut() {
                return Err(Gone { item });
            }
            if self.push(item) {
                return Ok(());
            }
            self.pause(rt);
        }
        unreachable!()
    }

    /// Whether the outbox has room for another item.
    #[inline]
    pub fn has_room(&self) -> bool
        ensures { IsTrue result ↔ HasRoom self.now }
    {
        self.outbox.len() < self.room
    }

    /// How many items were posted and are not yet published.
    #[inline]
    pub fn posted(&self) -> usize
        ensures { result ≡ length (posted self.now) }
    {
        self.outbox.len() - self.first
    }

    /// Puts the item into the outbox. It counts as sent, but goes into the ring later.
    #[inline]
    pub fn post(&mut self, item: T)
        requires { HasRoom self.old }
        ensures ring { SameTx self.old self.new }
        ensures sent { sent self.new ≡ sent self.old ++ item ∷ [] }
        ensures posted { posted self.new ≡ posted self.old ++ item ∷ [] }
        ensures counted { unannounced_of self.new ≡ unannounced_of self.old }
    {
        self.outbox.push_reserved(item);
    }

    /// Moves posted items into the ring, as many as fit, and returns how many. Wakes a sleeping
    /// receiver, also for what was only offered before. Never waits.
    pub fn publish(&mut self) -> usize
        ensures ring { SameTx self.old self.new }
        ensures sent { sent self.new ≡ sent self.old }
        ensures posted { length (posted self.old) ≡ result + length (posted self.new) }
        ensures looked { LookedForRoom self.new }
        ensures room { HasRoom self.old → HasRoom self.new }
        ensures emptied { length (posted self.new) ≡ 0 → HasRoom self.new }
        ensures announced { IsAnnounced self.new }
    {
        let count = self.offer();
        self.announce();
        count
    }

    /// Like [`publish`](Tx::publish), but wakes a sleeping receiver only if items are left in the
    /// outbox, or if many went into the ring since its bell was last rung. So a receiver that wakes
    /// finds more to do. Before a sender waits for something else, it calls `publish`.
    pub fn offer(&mut self) -> usize
        ensures ring { SameTx self.old self.new }
        ensures sent { sent self.new ≡ sent self.old }
        ensures posted { length (posted self.old) ≡ result + length (posted self.new) }
        ensures looked { LookedForRoom self.new }
        ensures room { HasRoom self.old → HasRoom self.new }
        ensures emptied { length (posted self.new) ≡ 0 → HasRoom self.new }
        // All is announced if items are left in the outbox, or if many were to be announced.
        ensures told { 0 < length (posted self.new) → IsAnnounced self.new }
        ensures many { MOST_UNANNOUNCED ≤ unannounced_of self.old + result → IsAnnounced self.new }
        // If not, what went into the ring is counted until it is announced.
        ensures counted { length (posted self.new) ≡ 0
            → unannounced_of self.old + result < MOST_UNANNOUNCED
            → unannounced_of self.new ≡ unannounced_of self.old + result }
    {
        let count = self.move_posted();
        if count > 0 {
            self.found(count);
        }
        if self.unannounced >= MOST_UNANNOUNCED || self.posted() > 0 {
            self.announce();
        }
        count
    }

    /// Moves the oldest posted items into the ring, all in one call of the ring.
    fn move_posted(&mut self) -> usize
        ensures ring { SameTx self.old self.new }
        ensures sent { sent self.new ≡ sent self.old }
        ensures posted { length (posted self.old) ≡ result + length (posted self.new) }
        ensures looked { LookedForRoom self.new }
        ensures room { HasRoom self.old → HasRoom self.new }
        ensures emptied { length (posted self.new) ≡ 0 → HasRoom self.new }
        ensures uncounted { self.new.unannounced ≡ self.old.unannounced }
    {
        let (moved, left) = self.end.push_partial_slice(&self.outbox[self.first..]);
        let count = moved.len();
        if left.is_empty() {
            self.outbox.clear();
            self.first = 0;
        } else {
            self.first += count;
        }
        count
    }

    /// Whether the receiver was dropped.
    pub fn is_cut(&mut self) -> bool
        ensures ring { SameTx self.old self.new }
        ensures sent { sent self.new ≡ sent self.old }
        ensures posted { posted self.new ≡ posted self.old }
        ensures room { HasRoom self.old → HasRoom self.new }
        ensures counted { unannounced_of self.new ≡ unannounced_of self.old }
    {
        self.end.is_abandoned()
    }

    /// Waits between two looks at the ring: for a short time at first, and asleep after several
    /// looks that found nothing. Before that it wakes the receiver for what was offered.
    pub fn pause<R: Wait>(&mut self, rt: &R)
        ensures ring { SameTx self.old self.new }
        ensures sent { sent self.new ≡ sent self.old }
        ensures posted { posted self.new ≡ posted self.old }
        ensures room { HasRoom self.old → HasRoom self.new }
        ensures announced { IsAnnounced self.new }
    {
        self.announce();
        self.patience.wait(rt, &self.own, &self.peer);
    }

    /// Notes that the ring had room for so many items.
    fn found(&mut self, count: usize)
        ensures ring { SameTx self.old self.new }
        ensures sent { sent self.new ≡ sent self.old }
        ensures posted { posted self.new ≡ posted self.old }
        ensures looked { LookedForRoom self.old → LookedForRoom self.new }
        ensures room { HasRoom self.old → HasRoom self.new }
        ensures counted { self.new.unannounced ≡ min (self.old.unannounced + count) (2 ^ 64 - 1) }
    {
        self.patience.renew();
        self.unannounced = self.unannounced.saturating_add(count);
    }

    /// Wakes the receiver if it sleeps and has not been woken for all items in the ring.
    fn announce(&mut self)
        ensures ring { SameTx self.old self.new }
        ensures sent { sent self.new ≡ sent self.old }
        ensures posted { posted self.new ≡ posted self.old }
        ensures looked { LookedForRoom self.old → LookedForRoom self.new }
        ensures room { HasRoom self.old → HasRoom self.new }
        ensures announced { IsAnnounced self.new }
    {
        if self.unannounced > 0 {
            self.unannounced = 0;
            self.peer.ring();
        }
    }

    /// Moves the item into the ring past the empty outbox, if there is room for it.
    fn push_past(&mut self, item: T) -> bool
        requires empty { length self.old.outbox.items ≡ 0 }
        ensures ring { SameTx self.old self.new }
        ensures pushed { IsTrue result → sent self.new ≡ sent self.old ++ item ∷ [] }
        ensures published { (posted self.new ≡ []) × HasRoom self.new }
        ensures full { result ≡ false → (sent self.new ≡ sent self.old)
            × (self.new.unannounced ≡ self.old.unannounced) }
        ensures counted { IsTrue result → 0 < self.new.unannounced }
    {
        let pushed = self.end.push(item).is_ok();
        if pushed {
            self.found(1);
        }
        pushed
    }

    /// Publishes the posted items, and then sends the item if there is room for it.
    fn push(&mut self, item: T) -> bool
        ensures ring { SameTx self.old self.new }
        ensures pushed { IsTrue result → sent self.new ≡ sent self.old ++ item ∷ [] }
        ensures published { IsTrue result → (posted self.new ≡ []) × HasRoom self.new }
        ensures full { result ≡ false → sent self.new ≡ sent self.old }
        ensures left { length (posted self.new) ≤ length (posted self.old) }
        ensures room { HasRoom self.old → HasRoom self.new }
        ensures announced { IsAnnounced self.new }
    {
        self.publish();
        let pushed = self.outbox.is_empty() && self.push_past(item);
        if pushed {
            self.announce();
        }
        pushed
    }
}

impl<T: Copy> Drop for Tx<T> {
    fn drop(self) {
        let Tx {
            end,
            outbox: _,
            first: _,
            room: _,
            unannounced: _,
            patience: _,
            own: _,
            peer,
        } = self;
        drop(end);
        peer.ring();
    }
}
