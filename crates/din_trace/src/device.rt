//! Readers and writers of bytes.

ghost use Rattle.std.specs.Prelude.{◌≡◌, ℕ, Option, List, [], None, OnOk};
ghost use Rattle.std.specs.Io.Buffered.{writer_contents};
ghost use Rattle.std.specs.Io.KnownBytes.{Keeps};
ghost use Rattle.din_trace.specs.Device.{once_more, Reads, Writes, unread_bytes, read_failures};
ghost use Rattle.din_trace.specs.Device.{held_bytes, write_failures, waiting_bytes, behind_bytes};

use std::io::{BufWriter, Read, Write};

/// A call of a reader or writer failed.
#[derive(Clone, Copy, Debug, PartialEq, Eq)]
pub struct DeviceFailed;

/// Counts one more failure.
fn counted(failures: &mut u64) -> DeviceFailed
    ensures { failures.new ≡ once_more failures.old }
{
    *failures = failures.wrapping_add(1);
    DeviceFailed
}

/// A reader of bytes, like `std::io::Read`, that also counts its failures for the contracts.
pub trait ByteReader {
    /// The bytes that it will give, where they are known.
    ghost remaining: { Self → Option (List ℕ) } = { λ _. None };

    /// How many times it has failed, counted in 64 bits.
    ghost failures: { Self → ℕ };

    /// Puts the next bytes at the start of the buffer and returns how many. For a buffer that is
    /// not empty, 0 means the end. An implementation has to prove that it returns at most the
    /// buffer's length.
    fn fill(&mut self, buffer: &mut [u8]) -> Result<usize, DeviceFailed>
        ensures { Reads remaining failures self.old self.new result buffer.new };
}

/// A reader that is lent is one, too: its owner has what it leaves.
impl<R: ByteReader> ByteReader for &mut R {
    ghost remaining = { λ lent. R.remaining lent.now };

    ghost failures = { λ lent. R.failures lent.now };

    fn fill(&mut self, buffer: &mut [u8]) -> Result<usize, DeviceFailed> {
        ByteReader::fill(&mut **self, buffer)
    }
}

/// A `ByteReader` made from a reader of std. Any error of std's reader is `DeviceFailed`.
#[derive(Debug, Drop)]
pub struct FromRead<R> {
    inner: R,
    failures: u64,
}

#[tactic(auto, unfolding(crate::specs::Device::unread_bytes, crate::specs::Device::read_failures))]
impl<R: Read> FromRead<R> {
    /// Wraps this reader, with no failure counted yet.
    pub fn new(inner: R) -> FromRead<R>
        ensures remaining { ⟦<FromRead<R> as ByteReader>⟧.remaining result ≡ R.remaining inner }
        ensures failures { ⟦<FromRead<R> as ByteReader>⟧.failures result ≡ 0 }
    {
        FromRead { inner, failures: 0 }
    }
}

#[tactic(auto, unfolding(crate::specs::Device::unread_bytes, crate::specs::Device::read_failures))]
impl<R: Read> ByteReader for FromRead<R> {
    ghost remaining = { unread_bytes R.remaining };

    ghost failures = { read_failures };

    fn fill(&mut self, buffer: &mut [u8]) -> Result<usize, DeviceFailed> {
        match self.inner.read(buffer) {
            Ok(count) => Ok(count),
            Err(_) => Err(counted(&mut self.failures)),
        }
    }
}

/// A writer of bytes, like `std::io::Write`, that also counts its failures for the contracts.
pub trait ByteWriter {
    /// The bytes that it holds, those written so far included, where they are known.
    ghost contents: { Self → Option (List ℕ) } = { λ _. None };

    /// How many times it has failed, counted in 64 bits.
    ghost failures: { Self → ℕ };

    /// Appends the bytes. After a failure it is not known how many of them were written.
    fn put(&mut self, bytes: &[u8]) -> Result<(), DeviceFailed>
        ensures { Writes contents failures self.old self.new result bytes.now };

    /// Passes on all bytes that it has buffered.
    fn flush(&mut self) -> Result<(), DeviceFailed>
        ensures { Writes contents failures self.old self.new result [] };
}

/// A `ByteWriter` made from a writer of std. Any error of std's writer is `DeviceFailed`.
#[derive(Debug, Drop)]
pub struct FromWrite<W> {
    inner: W,
    failures: u64,
}

#[tactic(auto, unfolding(crate::specs::Device::held_bytes, crate::specs::Device::write_failures))]
impl<W: Write> FromWrite<W> {
    /// Wraps this writer, with no failure counted yet.
    pub fn new(inner: W) -> FromWrite<W>
        ensures contents { ⟦<FromWrite<W> as ByteWriter>⟧.contents result ≡ W.contents inner }
        ensures failures { ⟦<FromWrite<W> as ByteWriter>⟧.failures result ≡ 0 }
    {
        FromWrite { inner, failures: 0 }
    }
}

#[tactic(auto, unfolding(crate::specs::Device::held_bytes, crate::specs::Device::write_failures))]
impl<W: Write> ByteWriter for FromWrite<W> {
    ghost contents = { held_bytes W.contents };

    ghost failures = { write_failures };

    fn put(&mut self, bytes: &[u8]) -> Result<(), DeviceFailed> {
        match self.inner.write_all(bytes) {
            Ok(()) => Ok(()),
            Err(_) => Err(counted(&mut self.failures)),
        }
    }

    fn flush(&mut self) -> Result<(), DeviceFailed> {
        match self.inner.flush() {
            Ok(()) => Ok(()),
            Err(_) => Err(counted(&mut self.failures)),
        }
    }
}

#[tactic(auto, unfolding(crate::specs::Device::held_bytes, crate::specs::Device::write_failures, crate::specs::Device::waiting_bytes, crate::specs::Device::behind_bytes))]
impl<W: Write + Drop> FromWrite<BufWriter<W>> {
    /// As `flush`, which promises the same of any writer, and so nothing of a buffer. If this one
    /// does not fail, the buffer is empty after it, and the writer behind it has all bytes.
    pub fn flush_buffer(&mut self) -> Result<(), DeviceFailed>
        ensures told { Writes (held_bytes (writer_contents W.contents)) write_failures
            self.old self.new result [] }
        ensures emptied { OnOk result (waiting_bytes self.new ≡ []) }
        ensures passed { OnOk result (Keeps (held_bytes (writer_contents W.contents) self.old)
            (behind_bytes W.contents self.new)) }
    {
        let Ok(()) = self.inner.flush() else {
            return Err(counted(&mut self.failures));
        };
        Ok(())
    }
}
