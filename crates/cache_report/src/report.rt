//! The report, piece by piece.

ghost use Rattle.std.specs.Prelude.{◌<◌, ◌≤◌, ◌^◌, ◌∷◌, [], replicate, decimal};
ghost use Rattle.std.specs.Prelude.{codes};
ghost use Rattle.std.specs.List.{concat};
ghost use Rattle.din_trace.specs.Device.{Writes};
ghost use Rattle.cache_report.specs.Report.{block, class_line, column, count_line};
ghost use Rattle.cache_report.specs.Report.{five_rates, four_digits, heads, line, name_field, rate};
ghost use Rattle.cache_report.specs.Report.{rate_text, report};

use cache_core::{Counts, PerClass};
use din_trace::{ByteWriter, DeviceFailed};
use itoa::{Buffer, Integer};
use stage_core::Totals;

/// The most spaces that a field can need.
static SPACES: [u8; 18] = [b' '; 18];

/// The most zeros that four decimals can need.
static ZEROS: [u8; 4] = [b'0'; 4];

/// Writes this many spaces.
fn put_spaces<W: ByteWriter>(writer: &mut W, count: usize) -> Result<(), DeviceFailed>
    requires { count ≤ 18 }
    ensures { Writes W.contents W.failures writer.old writer.new result (replicate count 32) }
{
    writer.put(&SPACES[..count])
}

/// Writes a name, filled on the right to 18 characters.
fn put_name<W: ByteWriter>(writer: &mut W, name: &str) -> Result<(), DeviceFailed>
    ensures { Writes W.contents W.failures writer.old writer.new result (name_field name.now) }
{
    writer.put(name.as_bytes())?;
    put_spaces(writer, 18usize.saturating_sub(name.len()))
}

/// Writes a column, filled on the left to 12 characters.
fn put_column<W: ByteWriter>(writer: &mut W, text: &[u8]) -> Result<(), DeviceFailed>
    ensures { Writes W.contents W.failures writer.old writer.new result (column text.now) }
{
    put_spaces(writer, 12usize.saturating_sub(text.len()))?;
    writer.put(text)
}

/// Writes a column with a number in decimal.
fn put_number<W: ByteWriter>(writer: &mut W, number: u128) -> Result<(), DeviceFailed>
    ensures { Writes W.contents W.failures writer.old writer.new result (column (decimal number)) }
{
    let mut digits = Buffer::new();
    put_column(writer, digits.format(number).as_bytes())
}

/// Writes a number below 10000 with four digits.
fn put_four_digits<W: ByteWriter>(writer: &mut W, number: u128) -> Result<(), DeviceFailed>
    requires { number < 10000 }
    ensures { Writes W.contents W.failures writer.old writer.new result (four_digits number) }
{
    let mut digits = Buffer::new();
    let text = digits.format(number).as_bytes();
    writer.put(&ZEROS[..4usize.saturating_sub(text.len())])?;
    writer.put(text)
}

/// Writes a column with a rate, which is given in ten-thousandths.
fn put_ten_thousandths<W: ByteWriter>(writer: &mut W, rate: u128) -> Result<(), DeviceFailed>
    ensures { Writes W.contents W.failures writer.old writer.new result (column (rate_text rate)) }
{
    let mut digits = Buffer::new();
    let whole = digits.format(rate / 10_000).as_bytes();
    put_spaces(writer, 7usize.saturating_sub(whole.len()))?;
    writer.put(whole)?;
    writer.put(b".")?;
    put_four_digits(writer, rate % 10_000)
}

/// Writes a column with the rate `misses / fetches`, or 0.0000 if there were no fetches.
fn put_rate<W: ByteWriter>(writer: &mut W, misses: u128, fetches: u128) -> Result<(), DeviceFailed>
    requires { misses < 2 ^ 66 }
    ensures { Writes W.contents W.failures writer.old writer.new result
        (column (rate misses fetches)) }
{
    let rate = if fetches == 0 {
        0
    } else {
        misses * 10_000 / fetches
    };
    put_ten_thousandths(writer, rate)
}

/// Writes the first line of a block.
fn put_heads<W: ByteWriter>(writer: &mut W, name: &str) -> Result<(), DeviceFailed>
    ensures { Writes W.contents W.failures writer.old writer.new result (line name.now heads) }
{
    put_name(writer, name)?;
    put_column(writer, b"Total")?;
    put_column(writer, b"Instrn")?;
    put_column(writer, b"Read")?;
    put_column(writer, b"Write")?;
    put_column(writer, b"Misc")?;
    writer.put(b"\n")
}

/// Writes a line of counts by class.
fn put_classes<W: ByteWriter>(
    writer: &mut W,
    name: &str,
    counts: &PerClass,
) -> Result<(), DeviceFailed>
    ensures { Writes W.contents W.failures writer.old writer.new result
        (class_line name.now counts.now) }
{
    put_name(writer, name)?;
    put_number(writer, counts.total())?;
    put_number(writer, counts.instr as u128)?;
    put_number(writer, counts.read as u128)?;
    put_number(writer, counts.write as u128)?;
    put_number(writer, counts.misc as u128)?;
    writer.put(b"\n")
}

/// Writes the line of miss rates.
fn put_rates<W: ByteWriter>(
    writer: &mut W,
    misses: &PerClass,
    fetches: &PerClass,
) -> Result<(), DeviceFailed>
    ensures { Writes W.contents W.failures writer.old writer.new result
        (line (codes "Miss Rate") (five_rates misses.now fetches.now)) }
{
    put_name(writer, "Miss Rate")?;
    put_rate(writer, misses.total(), fetches.total())?;
    put_rate(writer, misses.instr as u128, fetches.instr as u128)?;
    put_rate(writer, misses.read as u128, fetches.read as u128)?;
    put_rate(writer, misses.write as u128, fetches.write as u128)?;
    put_rate(writer, misses.misc as u128, fetches.misc as u128)?;
    writer.put(b"\n")
}

/// Writes a line of one count.
fn put_count<W: ByteWriter>(writer: &mut W, name: &str, count: u64) -> Result<(), DeviceFailed>
    ensures { Writes W.contents W.failures writer.old writer.new result
        (count_line name.now count) }
{
    put_name(writer, name)?;
    put_number(writer, count as u128)?;
    writer.put(b"\n")
}

/// Writes the lines of a block that have a column for each class.
fn put_by_class<W: ByteWriter>(
    writer: &mut W,
    name: &str,
    counts: &Counts,
) -> Result<(), DeviceFailed>
    ensures { Writes W.contents W.failures writer.old writer.new result (concat (
        line name.now heads
        ∷ class_line (codes "Demand Fetches") counts.now.fetches
        ∷ class_line (codes "Demand Misses") counts.now.misses
        ∷ line (codes "Miss Rate") (five_rates counts.now.misses counts.now.fetches)
        ∷ class_line (codes "Compulsory") counts.now.compulsory
        ∷ class_line (codes "Capacity") counts.now.capacity
        ∷ class_line (codes "Conflict") counts.now.conflict
        ∷ [])) }
{
    put_heads(writer, name)?;
    put_classes(writer, "Demand Fetches", &counts.fetches)?;
    put_classes(writer, "Demand Misses", &counts.misses)?;
    put_rates(writer, &counts.misses, &counts.fetches)?;
    put_classes(writer, "Compulsory", &counts.compulsory)?;
    put_classes(writer, "Capacity", &counts.capacity)?;
    put_classes(writer, "Conflict", &counts.conflict)
}

/// Writes the lines of a block that have one count.
fn put_single<W: ByteWriter>(writer: &mut W, counts: &Counts) -> Result<(), DeviceFailed>
    ensures { Writes W.contents W.failures writer.old writer.new result (concat (
        count_line (codes "Blocks Fetched") counts.now.loaded
        ∷ count_line (codes "Written Back") counts.now.written_back
        ∷ count_line (codes "Writes Sent On") counts.now.sent_on
        ∷ count_line (codes "Flushes") counts.now.flushes
        ∷ [])) }
{
    put_count(writer, "Blocks Fetched", counts.loaded)?;
    put_count(writer, "Written Back", counts.written_back)?;
    put_count(writer, "Writes Sent On", counts.sent_on)?;
    put_count(writer, "Flushes", counts.flushes)
}

/// Writes the block of one cache, of eleven lines. Its name is `l1-icache`, `l1-dcache` or
/// `l2-ucache`. Does not flush the writer. After an error it is not known how much of the block was
/// written.
pub fn write_block<W: ByteWriter>(
    name: &str,
    counts: &Counts,
    writer: &mut W,
) -> Result<(), DeviceFailed>
    ensures { Writes W.contents W.failures writer.old writer.new result
        (block name.now counts.now) }
{
    put_by_class(writer, name, counts)?;
    put_single(writer, counts)
}

/// Writes an empty line and then a block.
fn put_next_block<W: ByteWriter>(
    writer: &mut W,
    name: &str,
    counts: &Counts,
) -> Result<(), DeviceFailed>
    ensures { Writes W.contents W.failures writer.old writer.new result
        (10 ∷ block name.now counts.now) }
{
    writer.put(b"\n")?;
    write_block(name, counts, writer)
}

/// Writes the whole report: the blocks of the instruction cache, the data cache and the second
/// level, separated by empty lines. Then flushes the writer. After an error it is not known how
/// much of the report was written.
pub fn write_report<W: ByteWriter>(totals: &Totals, writer: &mut W) -> Result<(), DeviceFailed>
    ensures { Writes W.contents W.failures writer.old writer.new result (report totals.now) }
{
    write_block("l1-icache", &totals.i, writer)?;
    put_next_block(writer, "l1-dcache", &totals.d)?;
    put_next_block(writer, "l2-ucache", &totals.u)?;
    writer.flush()
}
