//! The run in four threads, from the bytes of a trace to the bytes of its report.

ghost use Rattle.std.specs.Prelude.{◌≡◌, ◌≢◌, ℕ, List, Some, None, ◌≤◌, OnOk, IfOk, IfErr};
ghost use Rattle.std.specs.Io.KnownBytes.{Appends};
ghost use Rattle.din_trace.specs.Device.{once_more};
ghost use Rattle.din_trace.specs.Line.{ADDRESS_MAX};
ghost use Rattle.din_trace.specs.Text.{fault, records};
ghost use Rattle.din_trace.specs.Faults.{GaveAll, IsFaultOf};
ghost use Rattle.stage_core.specs.Config.{hierarchy_of, ring_of};
ghost use Rattle.stage_core.specs.Events.{IsBounded, events};
ghost use Rattle.cache_report.specs.Report.{report};
ghost use Rattle.run_threads.specs.Runs.{HasRun};
ghost use Rattle.sim_run.specs.TraceReport.{report_of};

use crate::report::write_report;
use din_trace::{ByteReader, ByteWriter, MAX_LIMIT, Source, TraceFault};
use run_threads::{Gate, RunFault, Settled, run_pipeline};
use stage_core::{Config, Selection};
use std::alloc::Global;
use std::sync::Wait;
use std::thread::Threads;

/// Reads a trace of at most `limit` bytes, simulates the selected records in four threads while the
/// trace is read, writes the report and flushes the writer. At any time, memory holds one buffer of
/// the trace's bytes, and the messages on their way. Each number of the selection is at most 2^40.
///
/// The answer `Ok` holds what was counted, and what the rings have carried: all threads have ended,
/// and each message that was sent was received, once and in order.
pub fn simulate<H: Threads + Wait + Sync, R: ByteReader + Drop, G: Gate, W: ByteWriter>(
    rt: &H,
    alloc: Global,
    config: &Config,
    selection: &Selection,
    reader: R,
    limit: u64,
    gate: &G,
    writer: &mut W,
) -> Result<Settled, RunFault>
    requires limit { limit ≤ MAX_LIMIT }
    requires bounded { IsBounded selection.now }
    // If the bytes of the reader are known, `Ok` means that the text has no fault, and that its
    // report was written.
    ensures headline { (text : List ℕ) → R.remaining reader ≡ Some text → OnOk result
        ((fault ADDRESS_MAX text limit ≡ None)
        × Appends (W.contents writer.old) (W.contents writer.new)
        (report_of config.now selection.now text)) }
    // What the threads did for it: exactly the selected events of the text were simulated, with the
    // counts that the definitions give for them.
    ensures run { (text : List ℕ) → R.remaining reader ≡ Some text → IfOk result (λ settled.
        (fault ADDRESS_MAX text limit ≡ None)
        × HasRun (ring_of config.now) (hierarchy_of config.now)
        (events selection.now (records ADDRESS_MAX text)) settled) }
    // For any reader, the same holds for a text that it gave, without a failure, up to its end.
    ensures whole { IfOk result (λ settled. (text : List ℕ)
        × GaveAll R.remaining R.failures reader text × (fault ADDRESS_MAX text limit ≡ None)
        × HasRun (ring_of config.now) (hierarchy_of config.now)
        (events selection.now (records ADDRESS_MAX text)) settled) }
    // The report of these counts was written.
    ensures report { IfOk result (λ settled.
        Appends (W.contents writer.old) (W.contents writer.new) (report settled.totals)) }
    ensures trace { (text : List ℕ) → R.remaining reader ≡ Some text
        → (why : TraceFault) → result ≡ Err (RunFault.Trace why)
        → IsFaultOf R.remaining R.failures reader text limit why }
    ensures memory { result ≢ Err (RunFault.Trace TraceFault.Memory) }
    ensures sound { OnOk result (W.failures writer.new ≡ W.failures writer.old) }
    ensures write { result ≡ Err RunFault.Write
        → W.failures writer.new ≡ once_more (W.failures writer.old) }
    ensures unwritten { IfErr result (λ why. why ≢ RunFault.Write → writer.new ≡ writer.old) }
{
    let source = Source::new(reader, limit);
    let (_source, ended) = run_pipeline(rt, alloc, config, selection, source, gate);
    let settled = ended?;
    write_report(&settled.totals, writer)?;
    Ok(settled)
}
