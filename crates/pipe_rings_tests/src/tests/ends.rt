//! Calls of the ends of a ring, as values. A test is a table of calls with their answers, so each
//! call of the library is proved here alone, and not in every test again.

ghost use Rattle.std.specs.Prelude.{◌≤◌};
ghost use Rattle.pipe_rings.specs.Rings.{AreEnds};

use pipe_rings::{Bell, NoMemory, Rx, Tx, ring, ring_from, settle};
use std::alloc::Global;
use std::process::Abort;
use std::sync::Wait;
use std::thread;
use std::time::{Clock, Duration};

/// A call of an end, or several of one kind.
#[derive(Clone, Copy)]
pub(super) enum Call {
    /// Sleeps for so many milliseconds.
    Rest(u64),
    /// Posts the numbers from the first one to below the second one, as far as there is room.
    /// Answers how many.
    Post(u64, u64),
    /// How many numbers were posted and are not yet published.
    Posted,
    /// Whether the outbox has room: 1 or 0.
    HasRoom,
    /// Publishes, or offers, and answers how many numbers went into the ring.
    Publish,
    Offer,
    /// Sends this number. Answers the number that was handed back, if one was.
    Send(u64),
    /// The next number, and waits for it or not. Answers `None` if there is none.
    Receive,
    TryReceive,
    /// Receives numbers from this one on, as long as they come in order. Answers the first one that
    /// did not come.
    ReceiveFrom(u64),
    /// The same from 0 on, and publishes in turns.
    Carry,
    /// How many numbers were sent and not received.
    Settle,
    /// Whether the other end was dropped: 1 or 0.
    IsCut,
}

/// A call and its answer.
pub(super) type Step = (Call, Option<u64>);

/// A pause after which a thread that waits at a ring has fallen asleep, and its sleep has no limit
/// any more.
pub(super) const LONG: Call = Call::Rest(250);

fn rest<R: Clock>(rt: &R, millis: u64) -> Option<u64> {
    thread::sleep(rt, Duration::from_millis(millis));
    None
}

fn sent<R: Wait>(rt: &R, tx: &mut Tx<u64>, number: u64) -> Option<u64> {
    match tx.send(rt, number) {
        Ok(()) => None,
        Err(gone) => Some(gone.item),
    }
}

fn post(tx: &mut Tx<u64>, number: u64) -> bool {
    let has_room = tx.has_room();
    if has_room {
        tx.post(number);
    }
    has_room
}

fn post_all(tx: &mut Tx<u64>, first: u64, end: u64) -> u64 {
    let mut posted = 0u64;
    for number in first..end {
        if post(tx, number) {
            posted = posted.saturating_add(1);
        }
    }
    posted
}

/// What a sender answers. It makes no call of a receiver.
pub(super) fn of_sender<R: Wait + Clock>(rt: &R, tx: &mut Tx<u64>, call: &Call) -> Option<u64> {
    match call {
        Call::Rest(millis) => rest(rt, *millis),
        Call::Post(first, end) => Some(post_all(tx, *first, *end)),
        Call::Posted => Some(tx.posted() as u64),
        Call::HasRoom => Some(u64::from(tx.has_room())),
        Call::Publish => Some(tx.publish() as u64),
        Call::Offer => Some(tx.offer() as u64),
        Call::Send(number) => sent(rt, tx, *number),
        Call::IsCut => Some(u64::from(tx.is_cut())),
        _ => None,
    }
}

/// What a receiver answers. It makes no call of a sender.
pub(super) fn of_receiver<R: Wait + Clock>(rt: &R, rx: &mut Rx<u64>, call: &Call) -> Option<u64> {
    match call {
        Call::Rest(millis) => rest(rt, *millis),
        Call::Receive => rx.recv(rt).ok(),
        Call::TryReceive => rx.try_recv(),
        Call::IsCut => Some(u64::from(rx.is_cut())),
        _ => None,
    }
}

/// A sender has to give these answers, one after another.
pub(super) fn sender_answers<R: Wait + Clock + Abort>(rt: &R, tx: &mut Tx<u64>, steps: &[Step]) {
    for (index, (call, wanted)) in steps.iter().enumerate() {
        assert_eq!(rt; of_sender(rt, tx, call), *wanted, "call {index}");
    }
}

/// A receiver has to give these answers, one after another.
pub(super) fn receiver_answers<R: Wait + Clock + Abort>(rt: &R, rx: &mut Rx<u64>, steps: &[Step]) {
    for (index, (call, wanted)) in steps.iter().enumerate() {
        assert_eq!(rt; of_receiver(rt, rx, call), *wanted, "call {index}");
    }
}

/// Both ends of one ring, in one thread.
#[derive(Drop)]
pub(super) struct Ends {
    tx: Tx<u64>,
    rx: Rx<u64>,
    ghost pair: { AreEnds tx rx },
}

impl Ends {
    pub(super) fn new(alloc: Global, capacity: usize) -> Result<Ends, NoMemory>
        requires { (1 ≤ capacity) × (capacity ≤ 65536) }
    {
        let (tx, rx) = ring(alloc, capacity)?;
        Ok(Ends { tx, rx })
    }

    /// A ring for four numbers, with an outbox for so many.
    pub(super) fn with_outbox(alloc: Global, outbox: usize) -> Result<Ends, NoMemory> {
        let sender = Bell::new(alloc)?;
        let receiver = Bell::new(alloc)?;
        let (tx, rx) = ring_from(alloc, 4, outbox, &sender, &receiver)?;
        Ok(Ends { tx, rx })
    }

    /// The two ends, each by itself.
    pub(super) fn apart(self) -> (Tx<u64>, Rx<u64>) {
        let Ends { tx, rx } = self;
        (tx, rx)
    }

    fn post(&mut self, number: u64) -> bool {
        let has_room = self.tx.has_room();
        if has_room {
            self.tx.post(number);
        }
        has_room
    }

    fn post_all(&mut self, first: u64, end: u64) -> u64 {
        let mut posted = 0u64;
        for number in first..end {
            if self.post(number) {
                posted = posted.saturating_add(1);
            }
        }
        posted
    }

    fn try_receive(&mut self) -> Option<u64> {
        self.rx.try_recv()
    }

    fn receive_from(&mut self, first: u64) -> u64 {
        for number in first..1_000 {
            if self.try_receive() != Some(number) {
                return number;
            }
        }
        1_000
    }

    fn publish(&mut self) -> usize {
        self.tx.publish()
    }

    fn carry(&mut self) -> u64 {
        let mut next = 0;
        for _ in 0..600u32 {
            self.publish();
            next = self.receive_from(next);
        }
        next
    }

    fn send<R: Wait>(&mut self, rt: &R, number: u64) -> Option<u64> {
        match self.tx.send(rt, number) {
            Ok(()) => None,
            Err(gone) => Some(gone.item),
        }
    }

    fn answer<R: Wait>(&mut self, rt: &R, call: &Call) -> Option<u64> {
        match call {
            Call::Post(first, end) => Some(self.post_all(*first, *end)),
            Call::Posted => Some(self.tx.posted() as u64),
            Call::HasRoom => Some(u64::from(self.tx.has_room())),
            Call::Publish => Some(self.publish() as u64),
            Call::Offer => Some(self.tx.offer() as u64),
            Call::Send(number) => self.send(rt, *number),
            Call::Receive => self.rx.recv(rt).ok(),
            Call::TryReceive => self.try_receive(),
            Call::ReceiveFrom(first) => Some(self.receive_from(*first)),
            Call::Carry => Some(self.carry()),
            Call::Settle => Some(settle(&mut self.tx, &mut self.rx) as u64),
            Call::Rest(_) | Call::IsCut => None,
        }
    }

    /// The ends have to give these answers, one after another.
    pub(super) fn answers<R: Wait + Abort>(&mut self, rt: &R, steps: &[Step]) {
        for (index, (call, wanted)) in steps.iter().enumerate() {
            assert_eq!(rt; self.answer(rt, call), *wanted, "call {index}");
        }
    }
}
