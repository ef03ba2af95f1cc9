//! How one thread wakes another that sleeps at its end of a ring.

use crate::memory::NoMemory;
use crate::yields::Yields;
use std::alloc::Global;
use std::sync::atomic::{AtomicU64, Ordering};
use std::sync::{Arc, Wait};
use std::time::Duration;

/// The thread is awake.
const AWAKE: u64 = 0;

/// The thread sleeps, or looks for the last time before it sleeps.
const ASLEEP: u64 = 1;

/// What became of a sleep.
#[derive(Clone, Copy, PartialEq, Eq)]
pub(crate) enum Slept {
    /// The thread is only marked as asleep, and is to look once more.
    NotYet,
    /// The bell was rung.
    Rung,
    /// The sleep ended by itself.
    Out,
}

/// Wakes one thread. That thread sleeps until its bell is rung, and the threads at the other ends
/// of its rings ring it. All ends at which one thread waits at the same time share one bell.
#[derive(Drop)]
pub struct Bell {
    word: Arc<AtomicU64, Global>,
    yields: Arc<Yields, Global>,
}

impl Bell {
    /// The bell of a thread that is awake.
    pub fn new(alloc: Global) -> Result<Bell, NoMemory> {
        let Ok(yields) = Arc::new(alloc, Yields::new()) else {
            return Err(NoMemory);
        };
        Bell::with(alloc, yields)
    }

    /// Another bell of the same thread, for ends at which it waits at other times.
    pub fn beside(&self, alloc: Global) -> Result<Bell, NoMemory> {
        let Ok(yields) = Arc::try_clone(&self.yields) else {
            return Err(NoMemory);
        };
        Bell::with(alloc, yields)
    }

    fn with(alloc: Global, yields: Arc<Yields, Global>) -> Result<Bell, NoMemory> {
        match Arc::new(alloc, AtomicU64::new(AWAKE)) {
            Ok(word) => Ok(Bell { word, yields }),
            Err(_) => Err(NoMemory),
        }
    }

    /// Another handle of the same bell. This allocates nothing.
    pub(crate) fn share(&self) -> Result<Bell, NoMemory> {
        match (Arc::try_clone(&self.word), Arc::try_clone(&self.yields)) {
            (Ok(word), Ok(yields)) => Ok(Bell { word, yields }),
            _ => Err(NoMemory),
        }
    }

    /// Wakes the thread, if it sleeps.
    #[inline]
    pub(crate) fn ring(&self) {
        if self.word.load(Ordering::SeqCst) == ASLEEP {
            self.wake();
        }
    }

    #[cold]
    fn wake(&self) {
        self.word.store(AWAKE, Ordering::SeqCst);
        self.word.wake_one();
    }

    /// What is known of the thread's yields.
    pub(crate) fn yields(&self) -> &Yields {
        &self.yields
    }

    /// Sleeps until the bell is rung, and at most for so many microseconds, if any are given. The
    /// first call only marks the thread as asleep, and the caller then looks once more. So what the
    /// other end did before it could see the mark is not missed.
    pub(crate) fn sleep<R: Wait>(&self, rt: &R, at_most: Option<u64>) -> Slept {
        if self.word.load(Ordering::SeqCst) != ASLEEP {
            self.word.store(ASLEEP, Ordering::SeqCst);
            return Slept::NotYet;
        }
        match at_most {
            Some(micros) => {
                let limit = Duration::from_micros(micros);
                self.word.park_timeout(rt, ASLEEP as u32, limit);
            }
            None => self.word.park(rt, ASLEEP as u32),
        }
        if self.word.load(Ordering::SeqCst) == ASLEEP {
            Slept::Out
        } else {
            Slept::Rung
        }
    }
}
