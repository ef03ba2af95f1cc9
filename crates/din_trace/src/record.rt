//! The records of a trace.

/// What a record asks for.
#[derive(Clone, Copy, Debug, PartialEq, Eq)]
pub enum Label {
    /// Digit 0: a data read.
    Read,
    /// Digit 1: a data write.
    Write,
    /// Digit 2: an instruction fetch.
    Instr,
    /// Digit 3: a miscellaneous reference, which acts as a data read.
    Misc,
    /// Digit 4: a flush of the caches.
    Flush,
}

/// One record of a trace: what a line holds.
#[derive(Clone, Copy, Debug, PartialEq, Eq)]
pub struct DinRecord {
    /// What it asks for.
    pub label: Label,
    /// The address of the byte that a reference touches. A flush has one too, without effect.
    pub addr: u64,
}
