//! Passes messages through one ring, from one thread to another, for five capacities of the ring.
//!
//! Arguments: the number of messages, of which small rings pass only a share; then `time` to print
//! the messages per second too, or `wait` to send one message per second, so that the receiver
//! waits.
#![tactic(auto)]

use anyhow::{Context, bail};
use pipe_rings::{Rx, SenderGone, Tx, ring};
use std::env;
use std::sync::Wait;
use std::thread::{self, Threads};
use std::time::{Clock, Duration, Instant};

/// A message as long as the longest one between two stages.
#[derive(Clone, Copy)]
struct Message {
    place: u64,
    rest: [u64; 4],
}

/// Each capacity, and by how much the number of messages is divided for it.
const RINGS: [(usize, u64); 5] = [(1, 64), (16, 4), (64, 1), (1_024, 1), (65_536, 1)];

/// Sends this many messages, numbered from 0, with a pause after each if `nap` is given.
fn send_all<R: Wait + Clock>(rt: &R, mut tx: Tx<Message>, messages: u64, nap: Option<Duration>) {
    for place in 0..messages {
        let rest = [place; 4];
        if tx.send(rt, Message { place, rest }).is_err() {
            return;
        }
        if let Some(nap) = nap {
            thread::sleep(rt, nap);
        }
    }
}

/// Receives at most this many messages, until the sender is gone. Returns how many came, and the
/// sum of their numbers modulo `2^64`.
fn receive_all<R: Wait>(rt: &R, mut rx: Rx<Message>, messages: u64) -> (u64, u64) {
    let mut sum = 0u64;
    for count in 0..messages {
        match rx.recv(rt) {
            Ok(message) => sum = sum.wrapping_add(message.place),
            Err(SenderGone) => return (count, sum),
        }
    }
    (messages, sum)
}

/// Sends all messages in one thread and receives them in another.
fn pass_all<R: Threads + Wait + Clock + Sync>(
    rt: &R,
    (tx, rx): (Tx<Message>, Rx<Message>),
    messages: u64,
    nap: Option<Duration>,
) -> (u64, u64) {
    let (_, received) = thread::join(
        rt,
        move || send_all(rt, tx, messages, nap),
        move || receive_all(rt, rx, messages),
    );
    received
}

fn main(rt: HostRuntime) -> anyhow::Result<()> {
    let mut words = env::args(&rt)?;
    let _program = words.next();
    let messages = words.next().context("how many messages?")?;
    let messages: u64 = messages.parse()?;
    let what = words.next();
    let what = what.as_deref();
    let nap = (what == Some("wait")).then_some(Duration::from_secs(1));
    for (capacity, share) in RINGS {
        let Ok(ends) = ring(rt.alloc(), capacity) else {
            bail!("no memory");
        };
        let start = Instant::now(&rt)?;
        let (count, sum) = pass_all(&rt, ends, messages / share, nap);
        let nanos = start.elapsed(&rt)?.as_nanos();
        println!(rt; "capacity {capacity}: {count} messages, numbers add up to {sum}")?;
        if what == Some("time") && nanos > 0 {
            let speed = u128::from(count) * 1_000_000_000 / nanos;
            println!(rt; "capacity {capacity}: {speed} messages a second")?;
        }
    }
    Ok(())
}
