//! The buffer of a source.

ghost use Rattle.std.specs.Prelude.{◌≡◌, ◌<◌, ◌≤◌, take, length, IfOk, OnOk, OnErr};
ghost use Rattle.std.specs.Io.KnownBytes.{Consumes, Keeps, IsAtEnd};
ghost use Rattle.din_trace.specs.Device.{once_more};
ghost use Rattle.din_trace.specs.declared.buffer.TheConstants.{ROOM};

use crate::device::{ByteReader, DeviceFailed};
use std::fmt;
use std::fmt::{Debug, Formatter, Write};

/// The size of the buffer in bytes.
pub const ROOM: usize = 16 * 1024;

/// The bytes that one call of a reader gave.
#[derive(Drop)]
pub struct Buffer {
    pub bytes: [u8; ROOM],
}

impl Buffer {
    /// Asks the reader for at most `room` bytes, and puts them at the start of the buffer.
    pub fn fill<R: ByteReader>(
        &mut self,
        reader: &mut R,
        room: usize,
    ) -> Result<usize, DeviceFailed>
        requires some { 0 < room }
        requires fits { room ≤ ROOM }
        ensures bound { IfOk result (λ count. count ≤ room) }
        ensures size { length self.new.bytes ≡ ROOM }
        ensures bytes { IfOk result (λ count. Consumes
            (R.remaining reader.old) (R.remaining reader.new) (take count self.new.bytes)) }
        ensures end { IfOk result (λ count. count ≡ 0 → IsAtEnd (R.remaining reader.new)) }
        ensures ok { OnOk result (R.failures reader.new ≡ R.failures reader.old) }
        ensures err { OnErr result ((R.failures reader.new ≡ once_more (R.failures reader.old))
            × Keeps (R.remaining reader.old) (R.remaining reader.new)) }
    {
        reader.fill(&mut self.bytes[..room])
    }
}

/// Leaves out the bytes.
impl Debug for Buffer {
    fn fmt<W: Write>(&self, f: &mut Formatter<W>) -> fmt::Result {
        f.debug_struct("Buffer").finish_non_exhaustive()
    }
}
