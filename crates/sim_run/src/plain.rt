//! The run on one thread, from the bytes of a trace to the bytes of its report.

ghost use Rattle.std.specs.Prelude.{◌≡◌, ◌≢◌, ℕ, List, Some, None, ◌≤◌, OnOk, IfErr};
ghost use Rattle.std.specs.Io.KnownBytes.{Appends};
ghost use Rattle.din_trace.specs.Device.{once_more};
ghost use Rattle.din_trace.specs.Line.{ADDRESS_MAX};
ghost use Rattle.din_trace.specs.Text.{fault};
ghost use Rattle.din_trace.specs.Faults.{GaveAll, IsFaultOf};
ghost use Rattle.stage_core.specs.Events.{IsBounded};
ghost use Rattle.sim_run.specs.TraceReport.{report_of};

use crate::report::write_report;
use din_trace::{ByteReader, ByteWriter, MAX_LIMIT, Source, TraceFault};
use run_threads::{RunFault, fault_of_source};
use stage_core::{Config, Selection, run_plain};
use std::alloc::Global;

/// Reads a trace of at most `limit` bytes to its end, simulates the selected records one by one,
/// writes the report and flushes the writer. All records of the trace are kept in memory. Each
/// number of the selection is at most 2^40.
pub fn simulate_plain<R: ByteReader + Drop, W: ByteWriter>(
    alloc: Global,
    config: &Config,
    selection: &Selection,
    reader: R,
    limit: u64,
    writer: &mut W,
) -> Result<(), RunFault>
    requires limit { limit ≤ MAX_LIMIT }
    requires bounded { IsBounded selection.now }
    // If the bytes of the reader are known, `Ok` means that the text has no fault, and that its
    // report was written.
    ensures report { (text : List ℕ) → R.remaining reader ≡ Some text → OnOk result
        ((fault ADDRESS_MAX text limit ≡ None)
        × Appends (W.contents writer.old) (W.contents writer.new)
        (report_of config.now selection.now text)) }
    // For any reader, the same holds for a text that it gave, without a failure, up to its end.
    ensures whole { OnOk result ((text : List ℕ) × GaveAll R.remaining R.failures reader text
        × (fault ADDRESS_MAX text limit ≡ None)
        × Appends (W.contents writer.old) (W.contents writer.new)
        (report_of config.now selection.now text)) }
    ensures trace { (text : List ℕ) → R.remaining reader ≡ Some text
        → (why : TraceFault) → result ≡ Err (RunFault.Trace why)
        → IsFaultOf R.remaining R.failures reader text limit why }
    ensures memory { result ≢ Err (RunFault.Trace TraceFault.Memory) }
    ensures alone { (result ≢ Err RunFault.Threads) × (result ≢ Err RunFault.Cut) }
    ensures sound { OnOk result (W.failures writer.new ≡ W.failures writer.old) }
    ensures write { result ≡ Err RunFault.Write
        → W.failures writer.new ≡ once_more (W.failures writer.old) }
    ensures unwritten { IfErr result (λ why. why ≢ RunFault.Write → writer.new ≡ writer.old) }
{
    let mut source = Source::new(reader, limit);
    let records = match source.rest(alloc) {
        Ok(records) => records,
        Err(fault) => return Err(fault_of_source(fault)),
    };
    let Ok(totals) = run_plain(alloc, config, selection, &records) else {
        return Err(RunFault::Memory);
    };
    write_report(&totals, writer)
}
