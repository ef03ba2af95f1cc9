//! The messages between the machines.

use cache_core::Class;

/// One of the two first-level caches: I for instructions, D for data.
#[derive(Clone, Copy, Debug, PartialEq, Eq)]
pub enum Side {
    /// The instruction cache.
    I,
    /// The data cache.
    D,
}

/// A request of a first-level cache to the second level.
#[derive(Clone, Copy, Debug, PartialEq, Eq)]
pub enum What {
    /// The write-back of the block with this first byte.
    Back(u64),
    /// The fetch of the block with this first byte, as an access of this class.
    Fetch(Class, u64),
    /// The write sent on to this address.
    Through(u64),
    /// A flush of the second level.
    FlushAll,
}

/// A message from the splitter to a first-level stage. A place is the number of an event, from 1.
#[derive(Clone, Copy, Debug, PartialEq, Eq)]
pub enum ToStage {
    /// An access of this class to this address.
    Ref { place: u64, class: Class, addr: u64 },
    /// A flush of the cache.
    Flush { place: u64 },
    /// The last message.
    Finish,
}

/// A message from a first-level stage to the merge. The parts of an event are numbered from 1, and
/// then `Done` has their number.
#[derive(Clone, Copy, Debug, PartialEq, Eq)]
pub enum FromStage {
    /// A request to the second level: part number `part` of the event.
    Part { place: u64, part: u32, what: What },
    /// The end of the answer to an event, which had `parts` parts.
    Done { place: u64, parts: u32 },
    /// The last message.
    Finish,
}

/// A message from the splitter to the merge: which sides answer the next event. If both do, I comes
/// before D. `Finish` is the last turn.
#[derive(Clone, Copy, Debug, PartialEq, Eq)]
pub enum Turn {
    /// Only I answers.
    I,
    /// Only D answers.
    D,
    /// I answers, and then D.
    Both,
    /// No event follows.
    Finish,
}

/// From which ring the merge takes the next message.
#[derive(Clone, Copy, Debug, PartialEq, Eq)]
pub enum Want {
    /// The ring with the turns.
    Order,
    /// The ring from I.
    I,
    /// The ring from D.
    D,
    /// None: the merge is at its end.
    Nothing,
}

/// The messages of one event, or those of the end: to the merge, to I and to D. They are sent in
/// this order, each through a ring of its own.
#[derive(Clone, Copy, Debug, PartialEq, Eq)]
pub struct Routed {
    /// The merge's: whose answer it takes next.
    pub turn: Turn,
    /// That of the instruction cache's stage, if there is one.
    pub i: Option<ToStage>,
    /// That of the data cache's stage, if there is one.
    pub d: Option<ToStage>,
}
