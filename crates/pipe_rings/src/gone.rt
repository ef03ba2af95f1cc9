//! What an end of a ring answers if the other end was dropped.

/// The receiver was dropped. The item that was not sent comes back.
#[derive(Debug, Clone, Copy, PartialEq, Eq)]
pub struct Gone<T> {
    /// The item that was not sent.
    pub item: T,
}

/// The sender was dropped, and all items that it published were received.
#[derive(Debug, Clone, Copy, PartialEq, Eq)]
pub struct SenderGone;
