//! How a thread waits at its end of a ring: it looks again for a while, then yields for a while,
//! and then sleeps.

use crate::bell::{Bell, Slept};
use crate::yields::Yields;
use std::sync::Wait;
use std::sync::atomic::{AtomicU64, Ordering};

/// How many atomic additions a thread makes between two looks while it neither yields nor sleeps.
const STEPS: u32 = 16;

/// How often a thread looks before it sleeps, at most.
const MOST_LOOKS: u32 = 256;

/// How often a thread looks before it yields, at most.
const MOST_LOOKS_BEFORE_YIELDS: u32 = 16;

/// How often a thread yields before it sleeps.
const MOST_YIELDS: u32 = 2_048;

/// A thread may look only once before each sleep. After so many such sleeps in a row it tries the
/// most looks again, at first.
const FIRST_TRIAL: u32 = 8;

/// The same number at most. Each trial that fails doubles it.
const LAST_TRIAL: u32 = 1_024;

/// How many microseconds the first sleep of a wait lasts at most. The next one may last twice as
/// long, and so on.
const FIRST_NAP: u64 = 500;

/// The longest sleep with a limit, in microseconds. The sleeps after it have none.
const LAST_NAP: u64 = 64_000;

/// How a thread waits, and what it has learned about that.
#[derive(Drop)]
pub(crate) struct Patience {
    /// How often the thread has looked in this wait without success.
    turn: u32,
    /// How often it looks in this wait, and how often it then yields, before it sleeps.
    looks_now: u32,
    yields_now: u32,
    /// The mark of the other end's yields when this wait began, and how long this thread sleeps the
    /// next time at most.
    mark: u64,
    nap: Option<u64>,
    /// How often it looks before it sleeps, as learned.
    looks: u32,
    /// How often in a row the thread slept after a single look, and at which number it tries the
    /// most looks again.
    sleeps: u32,
    trial: u32,
    /// How many waits there were.
    waits: u32,
}

impl Patience {
    /// No look yet.
    pub(crate) fn new() -> Patience {
        Patience {
            turn: 0,
            looks_now: 1,
            yields_now: 0,
            mark: 0,
            nap: None,
            looks: 1,
            sleeps: 0,
            trial: FIRST_TRIAL,
            waits: 0,
        }
    }

    /// Notes a successful look, and learns from it how often to look the next time.
    pub(crate) fn renew(&mut self) {
        if self.turn == 0 {
            return;
        }
        if self.turn <= self.looks_now {
            self.stayed_awake();
        } else if self.turn <= self.looks_now.saturating_add(self.yields_now) {
            self.looks = (self.looks / 2).max(1);
        } else {
            self.slept();
        }
        self.turn = 0;
    }

    /// The looks were enough: the thread looks twice as often the next time.
    fn stayed_awake(&mut self) {
        self.looks = self.looks.saturating_mul(2).min(MOST_LOOKS);
        self.sleeps = 0;
        self.trial = FIRST_TRIAL;
    }

    /// The thread had to sleep: it looks half as often the next time. To wake a thread can take
    /// longer than a single look. So if all threads slept after one look, none would ever find
    /// anything while awake. Now and then such a thread tries the most looks.
    fn slept(&mut self) {
        self.looks = (self.looks / 2).max(1);
        if self.looks == 1 {
            self.sleeps = self.sleeps.saturating_add(1);
        }
        if self.sleeps >= self.trial {
            self.sleeps = 0;
            self.trial = self.trial.saturating_mul(2).min(LAST_TRIAL);
            self.looks = MOST_LOOKS;
        }
    }

    /// Waits between two looks: awake the first times, then in a yield, and then asleep. `own` is
    /// the bell of this thread, and `peer` that of the thread at the other end.
    pub(crate) fn wait<R: Wait>(&mut self, rt: &R, own: &Bell, peer: &Bell) {
        if self.turn == 0 {
            self.plan(own.yields(), peer.yields());
        }
        if self.turn < self.looks_now {
            // No other thread uses this word, so the additions disturb no other core.
            let word = AtomicU64::new(0);
            for _ in 0..STEPS {
                word.fetch_add(1, Ordering::Relaxed);
            }
        } else if self.turn < self.looks_now.saturating_add(self.yields_now) {
            own.yields().yield_once();
        } else {
            self.rest(rt, own, peer);
        }
        self.turn = self.turn.saturating_add(1);
    }

    /// Chooses what to do in the wait that begins. Now and then the thread sleeps where it could
    /// yield, to watch the other end.
    fn plan(&mut self, own: &Yields, peer: &Yields) {
        self.waits = self.waits.wrapping_add(1);
        self.looks_now = self.looks;
        self.yields_now = 0;
        self.nap = Some(FIRST_NAP);
        self.mark = peer.mark();
        if own.are_allowed() {
            self.looks_now = self.looks.min(MOST_LOOKS_BEFORE_YIELDS);
            if !peer.are_watched(self.waits) {
                self.yields_now = MOST_YIELDS;
            }
        }
    }

    /// Sleeps, longer from one time to the next. The first time tells whether the other end yields
    /// for long.
    fn rest<R: Wait>(&mut self, rt: &R, own: &Bell, peer: &Bell) {
        let slept = own.sleep(rt, self.nap);
        if self.nap == Some(FIRST_NAP) {
            self.judge(slept, peer.yields());
        }
        match slept {
            Slept::NotYet => own.yields().slept(),
            Slept::Rung => {}
            Slept::Out => {
                self.nap = match self.nap {
                    Some(nap) if nap < LAST_NAP => Some(nap * 2),
                    _ => None,
                };
            }
        }
    }

    /// Notes what the first sleep of a wait says of the yields of the other end. They were short if
    /// some ended or began and this thread was woken in time, and long if a single one lasted.
    fn judge(&self, slept: Slept, peer: &Yields) {
        let same = peer.mark() == self.mark;
        match slept {
            Slept::Rung if !same => peer.were_short(),
            Slept::Out if same && self.mark % 2 == 1 => peer.was_long(),
            _ => {}
        }
    }
}
