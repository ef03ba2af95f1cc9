//! A writer with little room.

use std::io;
use std::io::Write;

/// A writer that takes `room` bytes and then fails, or fails when it is flushed. It counts its
/// flushes.
#[derive(Drop)]
pub(super) struct Narrow {
    pub room: usize,
    pub can_flush: bool,
    pub taken: usize,
    pub flushes: u8,
}

pub(super) fn with_room(room: usize, can_flush: bool) -> Narrow {
    Narrow {
        room,
        can_flush,
        taken: 0,
        flushes: 0,
    }
}

impl Write for Narrow {
    fn write(&mut self, bytes: &[u8]) -> io::Result<usize> {
        if self.room == 0 && !bytes.is_empty() {
            return Err(io::Error::from(io::ErrorKind::Other));
        }
        let count = bytes.len().min(self.room);
        self.room -= count;
        self.taken = self.taken.saturating_add(count);
        Ok(count)
    }

    fn flush(&mut self) -> io::Result<()> {
        self.flushes = self.flushes.saturating_add(1);
        if self.can_flush {
            Ok(())
        } else {
            Err(io::Error::from(io::ErrorKind::Other))
        }
    }
}
