//! Readers and writers that give pieces, stop or fail.

use din_trace::FromRead;
use std::io;
use std::io::{Error, ErrorKind, Read, Write};

/// Sizes of pieces: 1, 2, 3 and 5 bytes, so that every part of a line is cut, and all at once.
pub const SIZES: [usize; 5] = [1, 2, 3, 5, WHOLE];

/// The size of pieces that have all at once.
pub const WHOLE: usize = 65536;

/// How a reader stops: it ends, or fails with an error of a kind.
pub type Stop = Option<ErrorKind>;

pub const END: Stop = None;

pub const FAIL: Stop = Some(ErrorKind::Other);

pub const INTERRUPTED: Stop = Some(ErrorKind::Interrupted);

/// Gives a text in pieces of one size, and then stops. If it is asked again, it gives more in the
/// same way, and at last it stops at every call.
#[derive(Drop)]
pub struct Pieces<'a> {
    pub text: &'a [u8],
    pub more: &'a [u8],
    pub size: usize,
    pub stop: Stop,
}

impl Read for Pieces<'_> {
    fn read(&mut self, buffer: &mut [u8]) -> io::Result<usize> {
        let count = buffer.len().min(self.text.len()).min(self.size);
        if count == 0 {
            self.text = self.more;
            self.more = b"";
            return match self.stop {
                None => Ok(0),
                Some(kind) => Err(Error::from(kind)),
            };
        }
        let (front, back) = self.text.split_at(count);
        buffer[..count].copy_from_slice(front);
        self.text = back;
        Ok(count)
    }
}

/// A reader that gives the text in pieces, stops, and would give more if it were asked again.
pub fn in_pieces<'a>(
    text: &'a [u8],
    more: &'a [u8],
    size: usize,
    stop: Stop,
) -> FromRead<Pieces<'a>> {
    FromRead::new(Pieces {
        text,
        more,
        size,
        stop,
    })
}

/// Fails the first `failing` calls, and then takes at most 3 bytes at a time.
#[derive(Drop)]
pub struct Tape {
    pub failing: u64,
    pub taken: u64,
    pub flushes: u64,
    /// How many bytes it had taken when it was last flushed.
    pub flushed: u64,
}

impl Tape {
    fn try_once(&mut self) -> io::Result<()> {
        match self.failing.checked_sub(1) {
            None => Ok(()),
            Some(left) => {
                self.failing = left;
                Err(Error::from(ErrorKind::Other))
            }
        }
    }
}

impl Write for Tape {
    fn write(&mut self, buffer: &[u8]) -> io::Result<usize> {
        self.try_once()?;
        let count = buffer.len().min(3);
        self.taken = self.taken.saturating_add(count as u64);
        Ok(count)
    }

    fn flush(&mut self) -> io::Result<()> {
        self.try_once()?;
        self.flushes = self.flushes.saturating_add(1);
        self.flushed = self.taken;
        Ok(())
    }
}
