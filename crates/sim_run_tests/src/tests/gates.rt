//! Runs whose gates show that the stages run at the same time, and which messages pass. A gate
//! gives up after many looks and notes it, so that each test ends.

use super::{EVERYTHING, config, run_in_threads, simulated};
use din_trace::MAX_LIMIT;
use expected_counts::{by_class, first_misses};
use sim_run::{Gate, Who};
use stage_core::{Selection, Totals};
use std::alloc::Global;
use std::process::Abort;
use std::sync::Wait;
use std::sync::atomic::{AtomicU64, Ordering};
use std::thread::{self, Threads};

/// How often a wait looks again before it gives up.
const TURNS: u32 = 100_000_000;

/// Whether something came, and whether a wait for it was given up.
#[derive(Drop)]
pub(super) struct Sign {
    came: AtomicU64,
    missed: AtomicU64,
}

impl Sign {
    pub(super) fn new() -> Sign {
        Sign {
            came: AtomicU64::new(0),
            missed: AtomicU64::new(0),
        }
    }

    pub(super) fn show(&self) {
        self.came.store(1, Ordering::SeqCst);
    }

    pub(super) fn wait(&self) {
        for _ in 0..TURNS {
            if self.came.load(Ordering::SeqCst) == 1 {
                return;
            }
            thread::yield_now();
        }
        self.missed.store(1, Ordering::SeqCst);
    }

    pub(super) fn was_missed(&self) -> bool {
        self.missed.load(Ordering::SeqCst) == 1
    }
}

/// Holds one arrival until another has come.
#[derive(Drop)]
struct Hold {
    held: (Who, u64),
    awaited: (Who, u64),
    sign: Sign,
}

impl Gate for Hold {
    fn arrive<H: Wait>(&self, _rt: &H, who: Who, nth: u64) {
        if who == self.awaited.0 && nth == self.awaited.1 {
            self.sign.show();
        }
        if who == self.held.0 && nth == self.held.1 {
            self.sign.wait();
        }
    }
}

/// The totals of a fetch and a read of one block.
fn a_fetch_and_a_read() -> Totals {
    let fetches = by_class!(instr: 1, read: 1);
    Totals {
        i: first_misses!(by_class!(instr: 1), by_class!(instr: 1), 1),
        d: first_misses!(by_class!(read: 1), by_class!(read: 1), 1),
        u: first_misses!(fetches, by_class!(instr: 1), 1),
    }
}

/// Runs over a fetch and a read of one block, with one arrival held until another one comes.
fn run_held<H: Threads + Wait + Abort + Sync>(
    rt: &H,
    alloc: Global,
    held: (Who, u64),
    awaited: (Who, u64),
) {
    let gate = Hold {
        held,
        awaited,
        sign: Sign::new(),
    };
    let trace = b"2 0\n0 0\n".as_slice();
    let ended = run_in_threads(rt, alloc, trace, &gate, Vec::new(alloc));
    assert_eq!(rt; ended, Ok(a_fetch_and_a_read()));
    assert!(rt; !gate.sign.was_missed());
}

#[test]
fn i_may_wait_for_d(rt: HostRuntime) {
    run_held(&rt, rt.alloc(), (Who::I, 1), (Who::D, 1));
}

#[test]
fn d_may_wait_for_i(rt: HostRuntime) {
    run_held(&rt, rt.alloc(), (Who::D, 1), (Who::I, 1));
}

#[test]
fn the_splitter_may_wait_for_the_merge(rt: HostRuntime) {
    run_held(&rt, rt.alloc(), (Who::Splitter, 2), (Who::Merge, 1));
}

/// Implements only `arrive`. It holds D's second message until the merge has every message that
/// comes before the answer to it, and notes if that answer reaches the merge while it is held.
#[derive(Drop)]
struct Between {
    sign: Sign,
    passed: AtomicU64,
    early: AtomicU64,
}

impl Gate for Between {
    fn arrive<H: Wait>(&self, _rt: &H, who: Who, nth: u64) {
        match (who, nth) {
            (Who::Merge, 4) => self.sign.show(),
            (Who::Merge, 5) => {
                if self.passed.load(Ordering::SeqCst) == 0 {
                    self.early.store(1, Ordering::SeqCst);
                }
            }
            (Who::D, 2) => {
                self.sign.wait();
                self.passed.store(1, Ordering::SeqCst);
            }
            _ => {}
        }
    }
}

#[test]
fn a_gate_of_arrive_alone_sees_a_message_before_it_is_handled(rt: HostRuntime) {
    let gate = Between {
        sign: Sign::new(),
        passed: AtomicU64::new(0),
        early: AtomicU64::new(0),
    };
    // The merge receives a turn, a part, the end of the parts, a turn, and then the end of the
    // second read's parts.
    let trace = b"0 0\n0 0\n".as_slice();
    let ended = run_in_threads(&rt, rt.alloc(), trace, &gate, Vec::new(rt.alloc()));
    let data = ended.map(|totals| totals.d);
    let wanted = first_misses!(by_class!(read: 2), by_class!(read: 1), 1);
    assert_eq!(rt; data, Ok(wanted));
    assert!(rt; !gate.sign.was_missed());
    assert_eq!(rt; gate.early.load(Ordering::SeqCst), 0);
}

/// How often the gate of the first record yields before it goes on.
const A_WHILE: u32 = 20_000;

/// Holds the splitter at its first record for a while, and notes whether another thread passes a
/// gate meanwhile.
#[derive(Drop)]
struct First {
    others: AtomicU64,
    early: AtomicU64,
}

impl Gate for First {
    fn arrive<H: Wait>(&self, _rt: &H, who: Who, nth: u64) {
        if who != Who::Splitter {
            self.others.fetch_add(1, Ordering::SeqCst);
        } else if nth == 1 {
            for _ in 0..A_WHILE {
                thread::yield_now();
            }
            let others = self.others.load(Ordering::SeqCst);
            self.early.store(others, Ordering::SeqCst);
        }
    }
}

#[test]
fn a_record_passes_its_gate_before_it_is_sent(rt: HostRuntime) {
    let gate = First {
        others: AtomicU64::new(0),
        early: AtomicU64::new(0),
    };
    let trace = b"2 0\n0 0\n".as_slice();
    let ended = run_in_threads(&rt, rt.alloc(), trace, &gate, Vec::new(rt.alloc()));
    assert_eq!(rt; ended, Ok(a_fetch_and_a_read()));
    assert_eq!(rt; gate.early.load(Ordering::SeqCst), 0);
}

/// Counts the arrivals of each of the four threads, and notes one with a wrong number.
#[derive(Drop)]
struct Counting {
    splitter: AtomicU64,
    i: AtomicU64,
    d: AtomicU64,
    merge: AtomicU64,
    misnumbered: AtomicU64,
}

impl Counting {
    fn new() -> Counting {
        Counting {
            splitter: AtomicU64::new(0),
            i: AtomicU64::new(0),
            d: AtomicU64::new(0),
            merge: AtomicU64::new(0),
            misnumbered: AtomicU64::new(0),
        }
    }

    fn counter(&self, who: Who) -> &AtomicU64 {
        match who {
            Who::Splitter => &self.splitter,
            Who::I => &self.i,
            Who::D => &self.d,
            Who::Merge => &self.merge,
        }
    }

    fn arrivals(&self) -> [u64; 4] {
        [Who::Splitter, Who::I, Who::D, Who::Merge].map(|who| self
            .counter(who)
            .load(Ordering::SeqCst))
    }
}

impl Gate for Counting {
    fn arrive<H: Wait>(&self, _rt: &H, who: Who, nth: u64) {
        let before = self.counter(who).fetch_add(1, Ordering::SeqCst);
        if nth != before.wrapping_add(1) {
            self.misnumbered.store(1, Ordering::SeqCst);
        }
    }
}

/// How many records and messages pass the gates, if `skip` references are left out.
fn arrivals_of<H: Threads + Wait + Abort + Sync>(rt: &H, alloc: Global, skip: u64) -> [u64; 4] {
    let gate = Counting::new();
    let selection = Selection { skip, ..EVERYTHING };
    let trace = b"1 8\n1 0\n4 0\n".as_slice();
    let writer = Vec::new(alloc);
    let config = config(rt);
    let ended = simulated(
        rt, alloc, &config, &selection, trace, MAX_LIMIT, &gate, writer,
    );
    assert_eq!(rt; ended.err(), None);
    assert_eq!(rt; gate.misnumbered.load(Ordering::SeqCst), 0);
    gate.arrivals()
}

#[test]
fn each_message_passes_its_gate_once(rt: HostRuntime) {
    // The merge receives three turns and Finish. I receives a flush and Finish, D two references, a
    // flush and Finish. I answers with two messages, D with nine.
    assert_eq!(rt; arrivals_of(&rt, rt.alloc(), 0), [3, 2, 4, 4 + 2 + 9]);
    // Records that are not selected pass the splitter's gate, but give no message.
    assert_eq!(rt; arrivals_of(&rt, rt.alloc(), 5), [3, 1, 1, 1 + 1 + 1]);
}
