//! An access to a cache, and its outcome.

ghost use Rattle.std.specs.Prelude.{◌≡◌};
ghost use Rattle.cache_core.specs.History.{is_write};

/// What an access is for.
#[derive(Clone, Copy, Debug, PartialEq, Eq)]
pub enum Class {
    /// An instruction fetch.
    Instr,
    /// A data read.
    Read,
    /// A data write.
    Write,
    /// Another data reference, which acts as a read.
    Misc,
}

/// One access. It touches only the block that holds its address.
#[derive(Clone, Copy, Debug, PartialEq, Eq)]
pub struct Access {
    /// What the access is for.
    pub class: Class,
    /// The address of a byte.
    pub addr: u64,
}

impl Access {
    /// Whether it is a data write.
    pub fn writes(self) -> bool
        ensures { result ≡ is_write self }
    {
        match self.class {
            Class::Write => true,
            _ => false,
        }
    }
}

/// Why an access missed: Hill's three kinds of miss.
#[derive(Clone, Copy, Debug, PartialEq, Eq)]
pub enum MissKind {
    /// Its block was never accessed before. A flush does not change that.
    Compulsory,
    /// Not compulsory, and a fully associative LRU cache of the same size misses too.
    Capacity,
    /// Not compulsory, and that fully associative cache hits.
    Conflict,
}

/// What one access did. The parts `back`, `fetch` and `through` go to the next level, in this
/// order.
#[derive(Clone, Copy, Debug, PartialEq, Eq)]
pub struct Outcome {
    /// Whether the block was in the cache.
    pub hit: bool,
    /// Why it missed; `None` for a hit.
    pub kind: Option<MissKind>,
    /// The address of the first byte of the dirty block that is evicted and written back, if any.
    pub back: Option<u64>,
    /// Whether the block of the access is fetched from the next level, and so loaded.
    pub fetch: bool,
    /// Whether the access is a write that is sent on to the next level, with its own address: each
    /// write under write through, and without write allocation each write that misses.
    pub through: bool,
}

impl Outcome {
    ghost use Rattle.std.specs.Prelude.{◌≡◌, true};
    ghost use Rattle.cache_core.specs.Parts.{SendsNothing};

    /// Whether nothing goes to the next level.
    pub fn sends_nothing(self) -> bool
        ensures sends { result ≡ true → SendsNothing self }
        ensures every { SendsNothing self → result ≡ true }
    {
        self.back.is_none() && !self.fetch && !self.through
    }
}

/// What the sets of a cache answer to one access.
#[derive(Clone, Copy, Debug, PartialEq, Eq)]
pub struct Served {
    /// Whether the block was in its set.
    pub hit: bool,
    /// The address of the first byte of the dirty block that is evicted, if any.
    pub back: Option<u64>,
}
