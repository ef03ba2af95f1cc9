//! The lines of a table.

ghost use Rattle.std.specs.Prelude.{◌++◌, codes, map, string_bytes};
ghost use Rattle.din_trace.specs.Device.{Writes};
ghost use Rattle.grid_run.specs.Table.{cache_heads, columns_of, counted_line, counted_heads};
ghost use Rattle.grid_run.specs.Table.{figure_columns, head_line, heads_of, no_columns, no_figures};
ghost use Rattle.grid_run.specs.Table.{refused_line, tabbed, tabbed_words};
ghost use Rattle.grid_run.specs.declared.grid.Columns.TheVariants.{Full};

use crate::figures::Figures;
use crate::grid::Columns;
use crate::numbers::{put_count, put_counted, put_miss_rate, put_word};
use cache_core::{Counts, PerClass};
use din_trace::{ByteWriter, DeviceFailed};

/// Writes the given words.
fn put_words<W: ByteWriter>(writer: &mut W, words: &[String]) -> Result<(), DeviceFailed>
    ensures { Writes W.contents W.failures writer.old writer.new result
        (tabbed_words (map string_bytes words.now)) }
{
    for word in words {
        put_word(writer, word.as_bytes())?;
    }
    Ok(())
}

/// Writes the head of one column, which is told in two parts.
fn put_head<W: ByteWriter>(writer: &mut W, front: &str, rest: &str) -> Result<(), DeviceFailed>
    ensures { Writes W.contents W.failures writer.old writer.new result
        (tabbed (front.now ++ rest.now)) }
{
    writer.put(front.as_bytes())?;
    put_word(writer, rest.as_bytes())
}

/// Writes the head of the column of one class: the name of a cache, what the column has, and the
/// class.
fn put_class_head<W: ByteWriter>(
    writer: &mut W,
    cache: &str,
    name: &str,
    class: &str,
) -> Result<(), DeviceFailed>
    ensures { Writes W.contents W.failures writer.old writer.new result
        (tabbed ((cache.now ++ name.now) ++ class.now)) }
{
    writer.put(cache.as_bytes())?;
    put_head(writer, name, class)
}

/// Writes the head of a count, and those of its classes.
fn put_class_heads<W: ByteWriter>(
    writer: &mut W,
    cache: &str,
    name: &str,
) -> Result<(), DeviceFailed>
    ensures { Writes W.contents W.failures writer.old writer.new result
        (tabbed_words (counted_heads Full (cache.now ++ name.now))) }
{
    put_head(writer, cache, name)?;
    put_class_head(writer, cache, name, "-instr")?;
    put_class_head(writer, cache, name, "-read")?;
    put_class_head(writer, cache, name, "-write")?;
    put_class_head(writer, cache, name, "-misc")
}

/// Writes the head of a count, and in a full table those of its classes.
fn put_counted_heads<W: ByteWriter>(
    writer: &mut W,
    columns: Columns,
    cache: &str,
    name: &str,
) -> Result<(), DeviceFailed>
    ensures { Writes W.contents W.failures writer.old writer.new result
        (tabbed_words (counted_heads columns (cache.now ++ name.now))) }
{
    match columns {
        Columns::Plain => put_head(writer, cache, name),
        Columns::Full => put_class_heads(writer, cache, name),
    }
}

/// Writes the heads of a cache's columns.
fn put_heads<W: ByteWriter>(
    writer: &mut W,
    columns: Columns,
    cache: &str,
) -> Result<(), DeviceFailed>
    ensures { Writes W.contents W.failures writer.old writer.new result
        (tabbed_words (heads_of columns cache.now)) }
{
    put_counted_heads(writer, columns, cache, "-fetches")?;
    put_counted_heads(writer, columns, cache, "-misses")?;
    put_head(writer, cache, "-miss-rate")?;
    put_counted_heads(writer, columns, cache, "-compulsory")?;
    put_counted_heads(writer, columns, cache, "-capacity")?;
    put_counted_heads(writer, columns, cache, "-conflict")?;
    put_counted_heads(writer, columns, cache, "-fully-associative-misses")?;
    put_head(writer, cache, "-blocks-fetched")?;
    put_head(writer, cache, "-written-back")?;
    put_head(writer, cache, "-writes-sent-on")?;
    put_head(writer, cache, "-flushes")
}

/// Writes the heads of the columns of all three caches.
fn put_all_heads<W: ByteWriter>(writer: &mut W, columns: Columns) -> Result<(), DeviceFailed>
    ensures { Writes W.contents W.failures writer.old writer.new result
        (tabbed_words (cache_heads columns)) }
{
    put_heads(writer, columns, "l1-icache")?;
    put_heads(writer, columns, "l1-dcache")?;
    put_heads(writer, columns, "l2-ucache")
}

/// Writes the columns of one cache.
fn put_columns<W: ByteWriter>(
    writer: &mut W,
    columns: Columns,
    counts: &Counts,
    shadow: &PerClass,
) -> Result<(), DeviceFailed>
    ensures { Writes W.contents W.failures writer.old writer.new result
        (tabbed_words (columns_of columns counts.now shadow.now)) }
{
    put_counted(writer, columns, &counts.fetches)?;
    put_counted(writer, columns, &counts.misses)?;
    put_miss_rate(writer, &counts.misses, &counts.fetches)?;
    put_counted(writer, columns, &counts.compulsory)?;
    put_counted(writer, columns, &counts.capacity)?;
    put_counted(writer, columns, &counts.conflict)?;
    put_counted(writer, columns, shadow)?;
    put_count(writer, counts.loaded)?;
    put_count(writer, counts.written_back)?;
    put_count(writer, counts.sent_on)?;
    put_count(writer, counts.flushes)
}

/// Writes the columns of all three caches.
fn put_figures<W: ByteWriter>(
    writer: &mut W,
    columns: Columns,
    figures: &Figures,
) -> Result<(), DeviceFailed>
    ensures { Writes W.contents W.failures writer.old writer.new result
        (tabbed_words (figure_columns columns figures.now)) }
{
    put_columns(writer, columns, &figures.totals.i, &figures.shadows.i)?;
    put_columns(writer, columns, &figures.totals.d, &figures.shadows.d)?;
    put_columns(writer, columns, &figures.totals.u, &figures.shadows.u)
}

/// Writes hyphens in place of the columns of one cache in a full table.
fn put_no_classes<W: ByteWriter>(writer: &mut W) -> Result<(), DeviceFailed>
    ensures { Writes W.contents W.failures writer.old writer.new result
        (tabbed_words (no_columns Full)) }
{
    writer.put(b"-\t-\t-\t-\t-\t-\t-\t-\t-\t-\t-\t-\t-\t-\t-\t-\t-\t-\t-\t-\t")?;
    writer.put(b"-\t-\t-\t-\t-\t-\t-\t-\t-\t-\t-\t-\t-\t-\t-\t")
}

/// Writes hyphens in place of the columns of one cache.
fn put_no_columns<W: ByteWriter>(writer: &mut W, columns: Columns) -> Result<(), DeviceFailed>
    ensures { Writes W.contents W.failures writer.old writer.new result
        (tabbed_words (no_columns columns)) }
{
    match columns {
        Columns::Plain => writer.put(b"-\t-\t-\t-\t-\t-\t-\t-\t-\t-\t-\t"),
        Columns::Full => put_no_classes(writer),
    }
}

/// Writes hyphens in place of the columns of all three caches.
fn put_no_figures<W: ByteWriter>(writer: &mut W, columns: Columns) -> Result<(), DeviceFailed>
    ensures { Writes W.contents W.failures writer.old writer.new result
        (tabbed_words (no_figures columns)) }
{
    put_no_columns(writer, columns)?;
    put_no_columns(writer, columns)?;
    put_no_columns(writer, columns)
}

/// Writes the last word of a line, and the end of the line.
fn put_last<W: ByteWriter>(writer: &mut W, word: &str) -> Result<(), DeviceFailed>
    ensures { Writes W.contents W.failures writer.old writer.new result
        (word.now ++ codes "\n") }
{
    writer.put(word.as_bytes())?;
    writer.put(b"\n")
}

/// Writes the first line of a table, for options of these names. Does not flush the writer. After
/// an error it is not known how much of the line was written.
pub fn write_heads<W: ByteWriter>(
    columns: Columns,
    names: &[String],
    writer: &mut W,
) -> Result<(), DeviceFailed>
    ensures { Writes W.contents W.failures writer.old writer.new result
        (head_line columns (map string_bytes names.now)) }
{
    put_words(writer, names)?;
    put_all_heads(writer, columns)?;
    put_last(writer, "fault")
}

/// Writes the line of a configuration that was simulated: its words, as they were given, its
/// figures, and a hyphen as the fault. Does not flush the writer. After an error it is not known
/// how much of the line was written.
pub fn write_counted<W: ByteWriter>(
    columns: Columns,
    words: &[String],
    figures: &Figures,
    writer: &mut W,
) -> Result<(), DeviceFailed>
    ensures { Writes W.contents W.failures writer.old writer.new result
        (counted_line columns (map string_bytes words.now) figures.now) }
{
    put_words(writer, words)?;
    put_figures(writer, columns, figures)?;
    put_last(writer, "-")
}

/// Writes the line of a configuration that was refused: its words, hyphens in place of figures, and
/// the text of its fault. Does not flush the writer. After an error it is not known how much of the
/// line was written.
pub fn write_refused<W: ByteWriter>(
    columns: Columns,
    words: &[String],
    fault: &str,
    writer: &mut W,
) -> Result<(), DeviceFailed>
    ensures { Writes W.contents W.failures writer.old writer.new result
        (refused_line columns (map string_bytes words.now) fault.now) }
{
    put_words(writer, words)?;
    put_no_figures(writer, columns)?;
    put_last(writer, fault)
}
