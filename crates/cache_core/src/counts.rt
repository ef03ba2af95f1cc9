//! The counts of one cache.

ghost use Rattle.std.specs.Prelude.{◌≡◌, ◌<◌, ◌-◌, ◌^◌};
ghost use Rattle.cache_core.specs.Counts.{total_of};
ghost use Rattle.cache_core.specs.Counting.{with_one, with_kind, IsWithin};

use crate::access::{Access, Class, MissKind, Outcome};

/// A count for each class of access.
#[derive(Clone, Copy, Debug, Default, PartialEq, Eq)]
pub struct PerClass {
    /// Instruction fetches.
    pub instr: u64,
    /// Data reads.
    pub read: u64,
    /// Data writes.
    pub write: u64,
    /// Other data references.
    pub misc: u64,
}

/// All counts of one cache.
#[derive(Clone, Copy, Debug, Default, PartialEq, Eq)]
pub struct Counts {
    /// All accesses, hits and misses: what Dinero IV calls demand fetches.
    pub fetches: PerClass,
    /// The accesses that missed. The next three counts divide them by kind.
    pub misses: PerClass,
    pub compulsory: PerClass,
    pub capacity: PerClass,
    pub conflict: PerClass,
    /// The blocks that were loaded.
    pub loaded: u64,
    /// The dirty blocks that were written back, those that a flush writes included.
    pub written_back: u64,
    /// The writes that were sent on to the next level.
    pub sent_on: u64,
    /// The flushes.
    pub flushes: u64,
}

impl PerClass {
    /// The sum of the four counts.
    pub fn total(&self) -> u128
        ensures sum { result ≡ total_of self.now }
        ensures small { result < 2 ^ 66 }
    {
        u128::from(self.instr)
            + u128::from(self.read)
            + u128::from(self.write)
            + u128::from(self.misc)
    }

    /// Adds one in the class of the access, if `counted`.
    pub fn count(&mut self, access: Access, counted: bool)
        requires { IsWithin self.old (2 ^ 64 - 2) }
        ensures { self.new ≡ with_one access counted self.old }
    {
        if counted {
            match access.class {
                Class::Instr => self.instr += 1,
                Class::Read => self.read += 1,
                Class::Write => self.write += 1,
                Class::Misc => self.misc += 1,
            }
        }
    }
}

/// Counts the miss by its kind. A hit has no kind, and is not counted here.
fn count_kind(counts: &mut Counts, access: Access, kind: Option<MissKind>)
    requires compulsory { IsWithin counts.old.compulsory (2 ^ 44) }
    requires capacity { IsWithin counts.old.capacity (2 ^ 44) }
    requires conflict { IsWithin counts.old.conflict (2 ^ 44) }
    ensures { counts.new ≡ with_kind access kind counts.old }
{
    match kind {
        None => {}
        Some(MissKind::Compulsory) => counts.compulsory.count(access, true),
        Some(MissKind::Capacity) => counts.capacity.count(access, true),
        Some(MissKind::Conflict) => counts.conflict.count(access, true),
    }
}

impl Counts {
    ghost use Rattle.std.specs.Prelude.{◌≡◌, ◌<◌, ◌^◌, ◌+◌};
    ghost use Rattle.cache_core.specs.Counting.{with_access, with_flush, AreWithin};

    /// Adds an access, which had this outcome.
    pub fn add_access(&mut self, access: Access, outcome: Outcome)
        requires { AreWithin self.old (2 ^ 44) }
        ensures { self.new ≡ with_access access outcome self.old }
    {
        self.fetches.count(access, true);
        self.misses.count(access, !outcome.hit);
        count_kind(self, access, outcome.kind);
        self.loaded += outcome.fetch as u64;
        self.written_back += outcome.back.is_some() as u64;
        self.sent_on += outcome.through as u64;
    }

    /// Adds a flush, which wrote so many blocks back.
    pub fn add_flush(&mut self, written: u64)
        requires room { self.old.written_back + written < 2 ^ 64 }
        requires flushes { self.old.flushes < 2 ^ 44 }
        ensures { self.new ≡ with_flush written self.old }
    {
        self.written_back += written;
        self.flushes += 1;
    }
}
