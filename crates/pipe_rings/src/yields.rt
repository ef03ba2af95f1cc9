//! What the neighbours of a thread have learned about its yields: whether the time of a yield goes
//! to another thread of the run, or to a stranger.
//!
//! A yield lets another thread have the core. If all that want the core are threads of this run, it
//! soon comes back, and yields are the cheapest way to wait. But if another program wants it, each
//! yield gives that program a whole time slice of some milliseconds. A thread has no clock, so it
//! can't see how long its own yield took. Its neighbours can: a sleep can end by itself after half
//! a millisecond. If a neighbour sleeps so long while the thread is in one and the same yield, that
//! yield was long. If too many are, the thread does not yield for a while. To watch costs a sleep,
//! so a thread whose yields have long been short is watched less and less often.

use std::sync::atomic::{AtomicU64, Ordering};
use std::thread;

/// How many sleeps a ban lasts, the first time. Each ban lasts four times as long as the last.
const FIRST_BAN: u64 = 2_048;

/// How many sleeps a ban lasts at most.
const LONGEST_BAN: u64 = 65_536;

/// The credit of a thread's yields at the start, and after a ban.
const FIRST_CREDIT: u64 = 3;

/// The credit from which on the yields are watched less often.
const TRUSTED: u64 = 10;

/// The greatest credit.
const MOST_CREDIT: u64 = 16;

/// What a long yield takes from the credit, which is cut to [`TRUSTED`] first. A neighbour that saw
/// the thread yield, and was woken in time, adds one.
const PRICE: u64 = 3;

/// Whether a thread may yield, and whether it yields just now. Its neighbours change this without
/// regard to one another, and now and then a change is lost; no count or answer rests on it.
#[derive(Drop)]
pub(crate) struct Yields {
    /// Odd while the thread is in a yield. Each yield adds two.
    mark: AtomicU64,
    /// How often the thread is still to sleep before it may yield.
    banned: AtomicU64,
    /// How often that will be if its yields are banned again.
    next: AtomicU64,
    credit: AtomicU64,
}

impl Yields {
    /// Yields are allowed, and watched often.
    pub(crate) fn new() -> Yields {
        Yields {
            mark: AtomicU64::new(0),
            banned: AtomicU64::new(0),
            next: AtomicU64::new(FIRST_BAN),
            credit: AtomicU64::new(FIRST_CREDIT),
        }
    }

    /// Yields once. The thread itself calls this, and no other thread does.
    pub(crate) fn yield_once(&self) {
        let mark = self.mark.load(Ordering::Relaxed);
        self.mark.store(mark.wrapping_add(1), Ordering::Relaxed);
        thread::yield_now();
        self.mark.store(mark.wrapping_add(2), Ordering::Relaxed);
    }

    /// A number that is odd while the thread is in a yield, and another one for each yield.
    pub(crate) fn mark(&self) -> u64 {
        self.mark.load(Ordering::Relaxed)
    }

    /// Whether the thread may yield.
    pub(crate) fn are_allowed(&self) -> bool {
        self.banned.load(Ordering::Relaxed) == 0
    }

    /// Whether a neighbour watches in its wait with this number: in one wait of four, and once the
    /// yields are trusted, half as often with each further credit, down to one wait of 256.
    pub(crate) fn are_watched(&self, wait: u32) -> bool {
        let credit = self.credit.load(Ordering::Relaxed).min(MOST_CREDIT);
        let interval = 4u64 << credit.saturating_sub(TRUSTED);
        u64::from(wait) & interval.wrapping_sub(1) == 0
    }

    /// Notes that the thread slept. A ban lasts for so many sleeps.
    pub(crate) fn slept(&self) {
        let banned = self.banned.load(Ordering::Relaxed);
        if banned > 0 {
            self.banned.store(banned - 1, Ordering::Relaxed);
        }
    }

    /// Notes that a neighbour slept while the thread yielded, and was woken in time.
    pub(crate) fn were_short(&self) {
        let credit = self.credit.load(Ordering::Relaxed);
        if credit < MOST_CREDIT {
            self.credit.store(credit + 1, Ordering::Relaxed);
        } else {
            self.next.store(FIRST_BAN, Ordering::Relaxed);
        }
    }

    /// Notes that a neighbour saw a long yield.
    pub(crate) fn was_long(&self) {
        let credit = self.credit.load(Ordering::Relaxed).min(TRUSTED);
        if credit > PRICE {
            self.credit.store(credit - PRICE, Ordering::Relaxed);
        } else {
            self.ban();
        }
    }

    /// The thread does not yield for a while, and the next ban will be longer.
    fn ban(&self) {
        let next = self.next.load(Ordering::Relaxed);
        self.banned.store(next, Ordering::Relaxed);
        self.next
            .store(next.saturating_mul(4).min(LONGEST_BAN), Ordering::Relaxed);
        self.credit.store(FIRST_CREDIT, Ordering::Relaxed);
    }
}
