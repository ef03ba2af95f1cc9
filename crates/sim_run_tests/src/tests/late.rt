//! Runs whose readers give the rest of a trace late: what they gave before has to be served while
//! they wait.

ghost use Rattle.std.specs.Prelude.{true};

use super::gates::Sign;
use super::run_in_threads;
use expected_counts::{by_class, first_misses};
use sim_run::{Gate, Who};
use std::alloc::Global;
use std::io::{self, Read};
use std::process::Abort;
use std::sync::Wait;
use std::sync::atomic::{AtomicU64, Ordering};
use std::thread::{self, Threads};
use std::time::{Clock, Duration};

/// A gate that shows a sign when the awaited message comes. It holds no thread; `is_open` is
/// what it answers.
#[derive(Drop)]
struct Notes {
    awaited: (Who, u64),
    is_open: bool,
    sign: Sign,
}

impl Gate for Notes {
    ghost open = { λ gate. gate.is_open };

    fn arrive<H: Wait>(&self, _rt: &H, who: Who, nth: u64) {
        if who == self.awaited.0 && nth == self.awaited.1 {
            self.sign.show();
        }
    }

    fn is_open(&self) -> bool {
        self.is_open
    }
}

/// Gives some bytes, then waits for a sign, then gives others, then ends.
#[derive(Drop)]
struct Late<'a> {
    first: &'a [u8],
    then: &'a [u8],
    sign: &'a Sign,
    calls: u8,
}

impl Read for Late<'_> {
    fn read(&mut self, buffer: &mut [u8]) -> io::Result<usize> {
        let mut given: &[u8] = match self.calls {
            0 => self.first,
            1 => {
                self.sign.wait();
                self.then
            }
            _ => b"",
        };
        self.calls = self.calls.saturating_add(1);
        given.read(buffer)
    }
}

/// Runs over two fetches. The second one is given only after this message has come.
fn run_late<H: Threads + Wait + Abort + Sync>(
    rt: &H,
    alloc: Global,
    first: &[u8],
    then: &[u8],
    awaited: (Who, u64),
    is_open: bool,
) {
    let gate = Notes {
        awaited,
        is_open,
        sign: Sign::new(),
    };
    let reader = Late {
        first,
        then,
        sign: &gate.sign,
        calls: 0,
    };
    let ended = run_in_threads(rt, alloc, reader, &gate, Vec::new(alloc));
    let instructions = ended.map(|totals| totals.i);
    let wanted = first_misses!(by_class!(instr: 2), by_class!(instr: 2), 2);
    assert_eq!(rt; instructions, Ok(wanted));
    assert!(rt; !gate.sign.was_missed());
}

#[test]
fn the_stages_run_while_the_trace_is_read(rt: HostRuntime) {
    run_late(&rt, rt.alloc(), b"2 0\n", b"2 4\n", (Who::I, 1), false);
}

/// For a fetch that misses, the merge receives a turn, a part and the end of the parts.
static FETCHED: (Who, u64) = (Who::Merge, 3);

#[test]
fn all_that_was_read_is_merged_while_the_reader_waits(rt: HostRuntime) {
    run_late(&rt, rt.alloc(), b"2 0\n", b"2 4\n", FETCHED, true);
}

#[test]
fn all_before_blank_lines_is_merged_while_the_reader_waits(rt: HostRuntime) {
    run_late(&rt, rt.alloc(), b"2 0\n  \n\t\n", b"2 4\n", FETCHED, true);
}

#[test]
fn all_before_half_a_line_is_merged_while_the_reader_waits(rt: HostRuntime) {
    run_late(&rt, rt.alloc(), b"2 0\n \n2 ", b"4\n", FETCHED, true);
}

/// A gate that holds no thread, and keeps how many messages have come to the merge.
#[derive(Drop)]
struct Merged {
    messages: AtomicU64,
    missed: AtomicU64,
}

impl Merged {
    fn new() -> Merged {
        Merged {
            messages: AtomicU64::new(0),
            missed: AtomicU64::new(0),
        }
    }

    /// Waits until so many have come. It gives up after many looks, and notes it.
    fn wait_for(&self, messages: u64) {
        for _ in 0..10_000_000u32 {
            if self.messages.load(Ordering::SeqCst) >= messages {
                return;
            }
            thread::yield_now();
        }
        self.missed.store(1, Ordering::SeqCst);
    }

    fn was_missed(&self) -> bool {
        self.missed.load(Ordering::SeqCst) == 1
    }
}

impl Gate for Merged {
    ghost open = { λ _. true };

    fn arrive<H: Wait>(&self, _rt: &H, who: Who, nth: u64) {
        if who == Who::Merge {
            self.messages.store(nth, Ordering::SeqCst);
        }
    }

    fn is_open(&self) -> bool {
        true
    }
}

/// Gives a line at each call, once all that came before it is merged, and after a pause in which
/// all threads fall asleep without a time limit.
#[derive(Drop)]
struct Pausing<'a, C> {
    rt: &'a C,
    lines: &'a [&'a [u8]],
    given: usize,
    merged: &'a Merged,
}

impl<C: Clock> Read for Pausing<'_, C> {
    fn read(&mut self, buffer: &mut [u8]) -> io::Result<usize> {
        // For each of these lines the merge receives a turn, a part and the end of the parts.
        self.merged.wait_for((self.given as u64).saturating_mul(3));
        let Some(line) = self.lines.get(self.given) else {
            return Ok(0);
        };
        thread::sleep(self.rt, Duration::from_millis(200));
        self.given = self.given.saturating_add(1);
        let mut given: &[u8] = line;
        given.read(buffer)
    }
}

/// Fetches and reads of blocks that were never accessed.
static MISSES: [&[u8]; 6] = [
    b"2 0\n", b"0 10\n", b"2 20\n", b"2 30\n", b"0 40\n", b"0 50\n",
];

#[test]
fn threads_that_sleep_without_a_limit_are_woken(rt: HostRuntime) {
    let merged = Merged::new();
    let reader = Pausing {
        rt: &rt,
        lines: &MISSES,
        given: 0,
        merged: &merged,
    };
    let ended = run_in_threads(&rt, rt.alloc(), reader, &merged, Vec::new(rt.alloc()));
    let instructions = ended.map(|totals| totals.i);
    let wanted = first_misses!(by_class!(instr: 3), by_class!(instr: 3), 3);
    assert_eq!(rt; instructions, Ok(wanted));
    assert!(rt; !merged.was_missed());
}
