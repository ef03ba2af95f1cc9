//! Lets a caller hold the threads of a run, for tests.

ghost use Rattle.std.specs.Prelude.{◌≡◌, Bool, true, false, IsTrue};

use std::sync::Wait;

/// One of the four threads of a run.
#[derive(Clone, Copy, Debug, PartialEq, Eq)]
pub enum Who {
    /// The splitter, in the caller's thread.
    Splitter,
    /// The stage of the instruction cache.
    I,
    /// The stage of the data cache.
    D,
    /// The merge, with the second level in its thread.
    Merge,
}

/// A gate that each of the four threads passes before it handles a message that it received, or a
/// record that it read. Each thread numbers these from 1.
pub trait Gate: Sync {
    // Whether the gate never holds a thread.
    ghost open: { Self → Bool } = { λ _. false };

    /// Called by the thread `who` before its message or record number `nth`. Returns when the
    /// thread may go on.
    fn arrive<H: Wait>(&self, rt: &H, who: Who, nth: u64);

    /// Whether the gate never holds a thread. Before any other gate, a thread publishes all
    /// messages that it has sent.
    fn is_open(&self) -> bool
        ensures { IsTrue result → Self.open self.now ≡ true }
    {
        false
    }
}

/// A gate that never holds a thread.
#[derive(Clone, Copy, Debug)]
pub struct OpenGate;

impl Gate for OpenGate {
    ghost open = { λ _. true };

    fn arrive<H: Wait>(&self, _rt: &H, _who: Who, _nth: u64) {}

    fn is_open(&self) -> bool {
        true
    }
}
