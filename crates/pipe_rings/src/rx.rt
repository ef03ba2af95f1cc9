//! The receiving end of a ring. It takes items out of the ring in batches.

ghost use Rattle.std.specs.Prelude.{◌≡◌, ◌-◌, ◌≤◌, length, take, drop};
ghost use Rattle.rtrb.specs.Ring as ring;

use crate::bell::Bell;
use crate::gone::SenderGone;
use crate::memory::NoMemory;
use crate::patience::Patience;
use rtrb::Consumer;
use std::alloc::Global;
use std::sync::Wait;

/// How many items a receiver takes out of the ring at once, at most.
pub(crate) const BATCH: usize = 64;

/// The receiving end of a ring. It can move to another thread.
pub struct Rx<T: Copy> {
    pub(crate) end: Consumer<T>,
    /// The items that came out of the ring last. There are `count` of them, and the last `left` are
    /// not received yet.
    pub(crate) batch: Vec<T>,
    pub(crate) count: usize,
    pub(crate) left: usize,
    pub(crate) patience: Patience,
    /// The bell that wakes this end, and the one that wakes the other end.
    pub(crate) own: Bell,
    pub(crate) peer: Bell,
    ghost bounds: { (left ≤ count) × (count ≤ length batch.items)
        × (left ≤ length (ring.received end)) },
    ghost at_most: { length batch.items ≤ 64 },
    ghost kept: { take left (drop (count - left) batch.items)
        ≡ drop (length (ring.received end) - left) (ring.received end) },
}

#[tactic(auto, unfolding(crate::specs::Rings::received, crate::specs::Rings::LookedForItem))]
impl<T: Copy> Rx<T> {
    ghost use Rattle.std.specs.Prelude.{◌≡◌, ◌<◌, [], ◌∷◌, ◌++◌, IfOk, IfSome, OnErr, IsNone};
    ghost use Rattle.pipe_rings.specs.Rings.{received, SameRx, LookedForItem};

    /// The receiving end of a new ring. It sleeps at the bell `own`, and rings the bell `peer`.
    pub(crate) fn new(
        alloc: Global,
        end: Consumer<T>,
        own: Bell,
        peer: Bell,
    ) -> Result<Rx<T>, NoMemory>
        requires { ring.received end ≡ [] }
        ensures end { IfOk result (λ rx. rx.end ≡ end) }
        ensures received { IfOk result (λ rx. received rx ≡ []) }
    {
        let Ok(batch) = Vec::with_capacity(alloc, BATCH) else {
            return Err(NoMemory);
        };
        Ok(Rx {
            end,
            batch,
            count: 0,
            left: 0,
            patience: Patience::new(),
            own,
            peer,
        })
    }

    /// Receives the next item. Waits until there is one, or until the sender is gone.
    #[inline]
    pub fn recv<R: Wait>(&mut self, rt: &R) -> Result<T, SenderGone>
        ensures ring { SameRx self.old self.new }
        ensures ok { IfOk result (λ item. received self.new ≡ received self.old ++ item ∷ []) }
        ensures gone { OnErr result (received self.new ≡ received self.old) }
        ensures looked { OnErr result (LookedForItem self.new) }
    {
        match self.try_recv() {
            Some(item) => Ok(item),
            None => self.wait_and_recv(rt),
        }
    }

    #[cold]
    fn wait_and_recv<R: Wait>(&mut self, rt: &R) -> Result<T, SenderGone>
        ensures ring { SameRx self.old self.new }
        ensures ok { IfOk result (λ item. received self.new ≡ received self.old ++ item ∷ []) }
        ensures gone { OnErr result (received self.new ≡ received self.old) }
        ensures looked { OnErr result (LookedForItem self.new) }
    {
        for _ in rt.forever() {
            if let Some(item) = self.try_recv() {
                return Ok(item);
            }
            if self.is_cut() {
                // An item may have been published between these two looks.
                return self.try_recv().ok_or(SenderGone);
            }
            self.pause(rt);
        }
        unreachable!()
    }

    /// Receives the next item, if there is one in the batch or the ring. Never waits.
    #[inline]
    pub fn try_recv(&mut self) -> Option<T>
        ensures ring { SameRx self.old self.new }
        ensures some { IfSome result (λ item. received self.new ≡ received self.old ++ item ∷ []) }
        ensures none { IsNone result → received self.new ≡ received self.old }
        ensures looked { IsNone result → LookedForItem self.new }
    {
        if self.left > 0 {
            return Some(self.next_left());
        }
        self.look()
    }

    /// Receives the first item of the ring, if there is one.
    #[inline(never)]
    fn look(&mut self) -> Option<T>
        requires { self.old.left ≡ 0 }
        ensures ring { SameRx self.old self.new }
        ensures some { IfSome result (λ item. received self.new ≡ received self.old ++ item ∷ []) }
        ensures none { IsNone result → received self.new ≡ received self.old }
        ensures looked { IsNone result → LookedForItem self.new }
    {
        if self.batch.is_empty() {
            return self.first();
        }
        self.refill();
        if self.left == 0 {
            return None;
        }
        Some(self.next_left())
    }

    /// Whether the sender was dropped. The items that it published can still be received.
    pub fn is_cut(&mut self) -> bool
        ensures ring { SameRx self.old self.new }
        ensures same { received self.new ≡ received self.old }
    {
        self.end.is_abandoned()
    }

    /// Waits between two looks at the ring: for a short time at first, and asleep after several
    /// looks that found nothing.
    pub fn pause<R: Wait>(&mut self, rt: &R)
        ensures ring { SameRx self.old self.new }
        ensures same { received self.new ≡ received self.old }
    {
        self.patience.wait(rt, &self.own, &self.peer);
    }

    /// Receives the next item of the batch.
    #[inline(always)]
    fn next_left(&mut self) -> T
        requires { 0 < self.old.left }
        ensures ring { SameRx self.old self.new }
        ensures item { received self.new ≡ received self.old ++ result ∷ [] }
    {
        let item = self.batch[self.count - self.left];
        self.left -= 1;
        item
    }

    /// Receives the first item ever, and fills the batch with it: only now is there an item to fill
    /// it with.
    fn first(&mut self) -> Option<T>
        requires { self.old.left ≡ 0 }
        ensures ring { SameRx self.old self.new }
        ensures some { IfSome result (λ item. received self.new ≡ received self.old ++ item ∷ []) }
        ensures none { IsNone result → received self.new ≡ received self.old }
        ensures looked { IsNone result → LookedForItem self.new }
    {
        let Ok(item) = self.end.pop() else {
            return None;
        };
        self.count = 0;
        self.found();
        // The memory was allocated when the ring was made, so this cannot fail.
        let _ = self.batch.resize(BATCH, item);
        Some(item)
    }

    /// Notes that an item was found, and wakes the sender: the ring has free places again.
    fn found(&mut self)
        ensures ring { SameRx self.old self.new }
        ensures same { received self.new ≡ received self.old }
        ensures left { self.new.left ≡ self.old.left }
        ensures batch { (self.new.batch ≡ self.old.batch) × (self.new.count ≡ self.old.count) }
        ensures end { self.new.end ≡ self.old.end }
    {
        self.patience.renew();
        self.peer.ring();
    }

    /// Takes as many items out of the ring as the batch has room for.
    fn refill(&mut self)
        requires { self.old.left ≡ 0 }
        ensures ring { SameRx self.old self.new }
        ensures same { received self.new ≡ received self.old }
        ensures looked { 0 < length self.old.batch.items → self.new.left ≡ 0
            → LookedForItem self.new }
    {
        self.count = self.end.pop_partial_slice(&mut self.batch);
        self.left = self.count;
        if self.count > 0 {
            self.found();
        }
    }
}

impl<T: Copy> Drop for Rx<T> {
    fn drop(self) {
        let Rx {
            end,
            batch: _,
            count: _,
            left: _,
            patience: _,
            own: _,
            peer,
        } = self;
        drop(end);
        peer.ring();
    }
}
