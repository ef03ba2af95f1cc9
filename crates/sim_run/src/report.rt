//! The report, with the faults of a run.

ghost use Rattle.std.specs.Prelude.{IsOkUnless};
ghost use Rattle.din_trace.specs.Device.{Writes};
ghost use Rattle.cache_report.specs.Report.{block, report};

use cache_core::Counts;
use din_trace::ByteWriter;
use run_threads::RunFault;
use stage_core::Totals;

/// Writes the block of one cache, whose name is `l1-icache`, `l1-dcache` or `l2-ucache`. Does not
/// flush the writer. After an error it is not known how much of the block was written.
pub fn write_block<W: ByteWriter>(
    name: &str,
    counts: &Counts,
    writer: &mut W,
) -> Result<(), RunFault>
    ensures written { Writes W.contents W.failures writer.old writer.new result
        (block name.now counts.now) }
    ensures fault { IsOkUnless result RunFault.Write }
{
    cache_report::write_block(name, counts, writer).or(Err(RunFault::Write))
}

/// Writes the whole report: the blocks of the instruction cache, the data cache and the second
/// level, separated by empty lines. Then flushes the writer. After an error it is not known how
/// much of the report was written.
pub fn write_report<W: ByteWriter>(totals: &Totals, writer: &mut W) -> Result<(), RunFault>
    ensures written { Writes W.contents W.failures writer.old writer.new result
        (report totals.now) }
    ensures fault { IsOkUnless result RunFault.Write }
{
    cache_report::write_report(totals, writer).or(Err(RunFault::Write))
}
