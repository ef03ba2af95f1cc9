//! How a cache replaces and writes.

ghost use Rattle.std.specs.Prelude.{◌≡◌, ◌||◌, not};

/// Which block of a full set a new block replaces.
#[derive(Clone, Copy, Debug, PartialEq, Eq)]
pub enum Repl {
    /// The block that was used longest ago.
    Lru,
    /// The block that was loaded longest ago.
    Fifo,
}

/// How a cache replaces and writes.
#[derive(Clone, Copy, Debug, PartialEq, Eq)]
pub struct Policy {
    /// The replacement.
    pub repl: Repl,
    /// Write back: a write that uses its block makes it dirty. If false, each write is sent on
    /// (write through).
    pub wback: bool,
    /// Write allocation: a write that misses loads its block. If false, it is only sent on.
    pub walloc: bool,
}

/// Whether an access loads its block if it misses.
pub(crate) fn may_load(write: bool, policy: Policy) -> bool
    ensures { result ≡ (not write || policy.walloc) }
{
    !write || policy.walloc
}
