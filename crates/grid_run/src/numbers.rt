//! The words of a line, each with the tab after it.

ghost use Rattle.std.specs.Prelude.{◌<◌, ◌^◌, decimal};
ghost use Rattle.din_trace.specs.Device.{Writes};
ghost use Rattle.cache_core.specs.Counts.{total_of};
ghost use Rattle.grid_run.specs.declared.grid.Columns.TheVariants.{Full};
ghost use Rattle.grid_run.specs.Table.{counted, millionths_text, miss_rate, six_digits, tabbed};
ghost use Rattle.grid_run.specs.Table.{tabbed_words};

use crate::grid::Columns;
use cache_core::PerClass;
use din_trace::{ByteWriter, DeviceFailed};
use itoa::{Buffer, Integer};

/// Zeros for a number that is filled up to six digits.
static ZEROS: [u8; 6] = [b'0'; 6];

/// Writes a word.
pub(crate) fn put_word<W: ByteWriter>(writer: &mut W, text: &[u8]) -> Result<(), DeviceFailed>
    ensures { Writes W.contents W.failures writer.old writer.new result (tabbed text.now) }
{
    writer.put(text)?;
    writer.put(b"\t")
}

/// Writes a number in decimal.
fn put_number<W: ByteWriter>(writer: &mut W, number: u128) -> Result<(), DeviceFailed>
    ensures { Writes W.contents W.failures writer.old writer.new result (tabbed (decimal number)) }
{
    let mut digits = Buffer::new();
    put_word(writer, digits.format(number).as_bytes())
}

/// Writes a count.
pub(crate) fn put_count<W: ByteWriter>(writer: &mut W, count: u64) -> Result<(), DeviceFailed>
    ensures { Writes W.contents W.failures writer.old writer.new result (tabbed (decimal count)) }
{
    put_number(writer, count as u128)
}

/// Writes a count over all classes.
fn put_total<W: ByteWriter>(writer: &mut W, counts: &PerClass) -> Result<(), DeviceFailed>
    ensures { Writes W.contents W.failures writer.old writer.new result
        (tabbed (decimal (total_of counts.now))) }
{
    put_number(writer, counts.total())
}

/// Writes a count over all classes, and that of each class.
fn put_classes<W: ByteWriter>(writer: &mut W, counts: &PerClass) -> Result<(), DeviceFailed>
    ensures { Writes W.contents W.failures writer.old writer.new result
        (tabbed_words (counted Full counts.now)) }
{
    put_total(writer, counts)?;
    put_count(writer, counts.instr)?;
    put_count(writer, counts.read)?;
    put_count(writer, counts.write)?;
    put_count(writer, counts.misc)
}

/// Writes a count over all classes, and in a full table that of each class.
pub(crate) fn put_counted<W: ByteWriter>(
    writer: &mut W,
    columns: Columns,
    counts: &PerClass,
) -> Result<(), DeviceFailed>
    ensures { Writes W.contents W.failures writer.old writer.new result
        (tabbed_words (counted columns counts.now)) }
{
    match columns {
        Columns::Plain => put_total(writer, counts),
        Columns::Full => put_classes(writer, counts),
    }
}

/// Writes a number below 1000000 with six digits.
fn put_six_digits<W: ByteWriter>(writer: &mut W, number: u128) -> Result<(), DeviceFailed>
    requires { number < 1000000 }
    ensures { Writes W.contents W.failures writer.old writer.new result
        (tabbed (six_digits number)) }
{
    let mut digits = Buffer::new();
    let text = digits.format(number).as_bytes();
    writer.put(&ZEROS[..6usize.saturating_sub(text.len())])?;
    put_word(writer, text)
}

/// Writes a rate, which is given in millionths.
fn put_millionths<W: ByteWriter>(writer: &mut W, rate: u128) -> Result<(), DeviceFailed>
    ensures { Writes W.contents W.failures writer.old writer.new result
        (tabbed (millionths_text rate)) }
{
    let mut digits = Buffer::new();
    writer.put(digits.format(rate / 1_000_000).as_bytes())?;
    writer.put(b".")?;
    put_six_digits(writer, rate % 1_000_000)
}

/// Writes the rate `misses / fetches`, or 0.000000 if there were no fetches.
fn put_rate<W: ByteWriter>(writer: &mut W, misses: u128, fetches: u128) -> Result<(), DeviceFailed>
    requires { misses < 2 ^ 66 }
    ensures { Writes W.contents W.failures writer.old writer.new result
        (tabbed (miss_rate misses fetches)) }
{
    let rate = if fetches == 0 {
        0
    } else {
        misses * 1_000_000 / fetches
    };
    put_millionths(writer, rate)
}

/// Writes the miss rate over all classes.
pub(crate) fn put_miss_rate<W: ByteWriter>(
    writer: &mut W,
    misses: &PerClass,
    fetches: &PerClass,
) -> Result<(), DeviceFailed>
    ensures { Writes W.contents W.failures writer.old writer.new result
        (tabbed (miss_rate (total_of misses.now) (total_of fetches.now))) }
{
    put_rate(writer, misses.total(), fetches.total())
}
