//! A trace in memory.

ghost use Rattle.std.specs.Prelude.{◌≡◌, ◌≢◌, ◌≤◌, [], false, None, Some, IfOk, IfErr};
ghost use Rattle.din_trace.specs.Line.{ADDRESS_MAX};
ghost use Rattle.din_trace.specs.Text.{records, fault, text_left};

use crate::device::{ByteReader, DeviceFailed};
use crate::fault::TraceFault;
use crate::line_reader::MAX_LIMIT;
use crate::record::DinRecord;
use crate::source::Source;
use std::alloc::Global;

/// A reader of bytes in memory, which never fails.
#[derive(Drop)]
struct Text<'a> {
    rest: &'a [u8],
}

impl ByteReader for Text<'_> {
    ghost remaining = { λ text. Some text.rest.now };

    ghost failures = { λ _. 0 };

    fn fill(&mut self, buffer: &mut [u8]) -> Result<usize, DeviceFailed> {
        let count = buffer.len().min(self.rest.len());
        let (front, back) = self.rest.split_at(count);
        buffer[..count].copy_from_slice(front);
        self.rest = back;
        Ok(count)
    }
}

/// The records of a text, or its fault. A text of more than `limit` bytes is faulty. If an
/// allocation fails, the answer is `TraceFault::Memory`, which a text without a record before its
/// end or its fault never gets.
pub fn read_all(alloc: Global, text: &[u8], limit: u64) -> Result<Vec<DinRecord>, TraceFault>
    requires { limit ≤ MAX_LIMIT }
    ensures ok { IfOk result (λ found. (fault ADDRESS_MAX text.now limit ≡ None)
        × (found.items ≡ records ADDRESS_MAX text.now)) }
    ensures err { IfErr result (λ met. met ≢ TraceFault.Memory
        → fault ADDRESS_MAX text.now limit ≡ Some met) }
    ensures memory { IfErr result (λ met. met ≡ TraceFault.Memory
        → (text_left ADDRESS_MAX 1 text.now limit false).records ≢ []) }
{
    let mut source = Source::new(Text { rest: text }, limit);
    source.rest(alloc)
}
