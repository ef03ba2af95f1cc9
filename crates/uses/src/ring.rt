//! A use of pipe_rings.

use pipe_rings::{NoMemory, Rx, Tx, ring};
use std::alloc::Global;
use std::sync::Wait;
use std::thread::{self, Threads};

/// The ends of a ring with room for two numbers.
pub fn two_ends(alloc: Global) -> Result<(Tx<u64>, Rx<u64>), NoMemory> {
    ring(alloc, 2)
}

/// Sends 1 to 10 from one thread, and adds up what another one receives until the sender is gone.
pub fn pass<R: Threads + Wait + Sync>(rt: &R, (tx, rx): (Tx<u64>, Rx<u64>)) -> u64 {
    let send = move || {
        let mut tx = tx;
        for number in 1..11 {
            if tx.send(rt, number).is_err() {
                return;
            }
        }
    };
    let receive = move || {
        let mut rx = rx;
        let mut sum = 0u64;
        for _ in rt.forever() {
            let Ok(number) = rx.recv(rt) else {
                break;
            };
            sum = sum.wrapping_add(number);
        }
        sum
    };
    thread::join(rt, send, receive).1
}
