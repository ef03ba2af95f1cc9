//! Why a trace is refused.

/// What is wrong with a line.
#[derive(Clone, Copy, Debug, PartialEq, Eq)]
pub enum Why {
    /// Its first byte after the leading blanks is not a digit 0 to 4.
    Label,
    /// No blank follows the label.
    Gap,
    /// No hexadecimal digit follows the gap, or the `0x` or `0X` after it.
    Address,
    /// The address is above `2^64 - 1`.
    Range,
    /// The digits of the address are followed by a byte that is not a blank.
    Tail,
}

/// Why a trace is refused. If several lines are faulty, this is the fault of the first.
#[derive(Clone, Copy, Debug, PartialEq, Eq)]
pub enum TraceFault {
    /// A line is faulty. Lines are numbered from 1, and blank lines count.
    Bad { line: u64, why: Why },
    /// The trace has more bytes than the limit.
    TooLong,
    /// The reader failed.
    Read,
    /// An allocation failed.
    Memory,
}
