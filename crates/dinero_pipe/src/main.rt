//! The command line of the simulator: reads a din trace from standard input, and writes the report
//! of two levels of cache to standard output.
//!
//! The library dinero_options reads the words. `fault` has the line and the exit status of each
//! fault.
//!
//! Proved: `run` writes the report that the definitions give for the text of its reader and the
//! words after the program's name, or says why not; the line and the status of a fault are those of
//! `specs/FaultText`. Only tested: that `main` passes the right words and streams.
#![tactic(auto)]

mod fault;
#[cfg(test)]
mod tests;

ghost use Rattle.std.specs.Prelude.{◌≡◌, ◌≢◌, ℕ, List, [], Some, None, Result, Err, OnOk, OnErr};
ghost use Rattle.std.specs.Prelude.{IfOk, IfErr, map, string_bytes};
ghost use Rattle.std.specs.Io.Buffered.{writer_contents};
ghost use Rattle.std.specs.Io.KnownBytes.{Appends};
ghost use Rattle.din_trace.specs.Device.{Writes, once_more, held_bytes, behind_bytes};
ghost use Rattle.din_trace.specs.Device.{waiting_bytes, write_failures};
ghost use Rattle.din_trace.specs.Line.{ADDRESS_MAX};
ghost use Rattle.din_trace.specs.Text.{fault};
ghost use Rattle.din_trace.specs.Faults.{GaveAll, IsFaultOf};
ghost use Rattle.stage_core.specs.Events.{IsBounded};
ghost use Rattle.sim_run.specs.TraceReport.{report_of};
ghost use Rattle.dinero_options.specs.Answer.{AnswersWords};
ghost use Rattle.dinero_pipe.specs.FaultText.{fault_line, status_after};
ghost use Rattle.dinero_pipe.specs.Runs.{AreAccepted, HasReport};

use crate::fault::{Fault, fault_text, status};
use din_trace::{ByteReader, ByteWriter, DeviceFailed, FromRead, FromWrite, MAX_LIMIT, TraceFault};
use dinero_options::{NoMemory, WordsFault, help_text, parse_words, unreadable_arguments_fault};
use sim_run::{OpenGate, RunFault, simulate};
use stage_core::{Config, Selection};
use std::alloc::Global;
use std::env;
use std::io::{BufWriter, Write};
use std::process::ExitCode;
use std::sync::Wait;
use std::thread::Threads;

/// Simulates the trace that the reader gives, of at most 2^40 bytes, and writes its report, which
/// then has left the buffer.
fn report<H: Threads + Wait + Sync, R: ByteReader + Drop, W: Write + Drop>(
    rt: &H,
    alloc: Global,
    config: &Config,
    selection: &Selection,
    reader: R,
    output: &mut FromWrite<BufWriter<W>>,
) -> Result<(), RunFault>
    requires { IsBounded selection.now }
    ensures report { (text : List ℕ) → R.remaining reader ≡ Some text → OnOk result
        ((fault ADDRESS_MAX text MAX_LIMIT ≡ None)
        × Appends (held_bytes (writer_contents W.contents) output.old)
        (behind_bytes W.contents output.new) (report_of config.now selection.now text)) }
    ensures whole { OnOk result ((text : List ℕ) × GaveAll R.remaining R.failures reader text
        × (fault ADDRESS_MAX text MAX_LIMIT ≡ None)
        × Appends (held_bytes (writer_contents W.contents) output.old)
        (behind_bytes W.contents output.new) (report_of config.now selection.now text)) }
    ensures emptied { OnOk result (waiting_bytes output.new ≡ []) }
    ensures trace { (text : List ℕ) → R.remaining reader ≡ Some text
        → (why : TraceFault) → result ≡ Err (RunFault.Trace why)
        → IsFaultOf R.remaining R.failures reader text MAX_LIMIT why }
    ensures memory { result ≢ Err (RunFault.Trace TraceFault.Memory) }
    ensures sound { OnOk result (write_failures output.new ≡ write_failures output.old) }
    ensures write { result ≡ Err RunFault.Write
        → write_failures output.new ≡ once_more (write_failures output.old) }
    ensures unwritten { IfErr result (λ why. why ≢ RunFault.Write → output.new ≡ output.old) }
{
    let _settled = simulate(
        rt, alloc, config, selection, reader, MAX_LIMIT, &OpenGate, output,
    )?;
    // `simulate` flushes its writer too, but what it promises of any writer says nothing of a
    // buffer. So this flush finds the buffer empty, and promises that it is.
    match output.flush_buffer() {
        Ok(()) => Ok(()),
        Err(_) => Err(RunFault::Write),
    }
}

/// Simulates the trace that the reader gives in the caches that the words after the program's name
/// ask for, and writes its report, which then has left the buffer. If the words are refused,
/// nothing is read.
fn run<H: Threads + Wait + Sync, R: ByteReader, W: Write + Drop>(
    rt: &H,
    alloc: Global,
    words: &[String],
    input: &mut R,
    output: &mut FromWrite<BufWriter<W>>,
) -> Result<(), Fault>
    ensures report { (text : List ℕ) → R.remaining input.old ≡ Some text → OnOk result
        ((fault ADDRESS_MAX text MAX_LIMIT ≡ None) × HasReport (map string_bytes words.now) text
        (held_bytes (writer_contents W.contents) output.old)
        (behind_bytes W.contents output.new)) }
    ensures whole { OnOk result ((text : List ℕ) × GaveAll R.remaining R.failures input.old text
        × (fault ADDRESS_MAX text MAX_LIMIT ≡ None) × HasReport (map string_bytes words.now) text
        (held_bytes (writer_contents W.contents) output.old)
        (behind_bytes W.contents output.new)) }
    ensures emptied { OnOk result (waiting_bytes output.new ≡ []) }
    ensures words { (why : WordsFault) → result ≡ Err (Fault.Words why)
        → AnswersWords (map string_bytes words.now) (Err why) }
    ensures unread { (why : WordsFault) → result ≡ Err (Fault.Words why)
        → input.new ≡ input.old }
    ensures accepted { (why : RunFault) → result ≡ Err (Fault.Run why)
        → AreAccepted (map string_bytes words.now) }
    ensures trace { (text : List ℕ) → R.remaining input.old ≡ Some text
        → (why : TraceFault) → result ≡ Err (Fault.Run (RunFault.Trace why))
        → IsFaultOf R.remaining R.failures input.old text MAX_LIMIT why }
    ensures memory { result ≢ Err (Fault.Run (RunFault.Trace TraceFault.Memory)) }
    ensures sound { OnOk result (write_failures output.new ≡ write_failures output.old) }
    ensures write { result ≡ Err (Fault.Run RunFault.Write)
        → write_failures output.new ≡ once_more (write_failures output.old) }
    ensures unwritten { IfErr result (λ why. why ≢ Fault.Run RunFault.Write
        → output.new ≡ output.old) }
{
    let (config, selection) = match parse_words(alloc, words) {
        Ok(asked) => asked,
        Err(fault) => return Err(Fault::Words(fault)),
    };
    match report(rt, alloc, &config, &selection, input, output) {
        Ok(()) => Ok(()),
        Err(fault) => Err(Fault::Run(fault)),
    }
}

/// Writes the help, if there was memory for its text.
fn write_help<W: ByteWriter>(help: Result<String, NoMemory>, output: &mut W) -> Result<(), Fault>
    ensures text { IfOk help (λ text. Writes W.contents W.failures output.old output.new result
        (string_bytes text)) }
    ensures fault { OnOk help (IfErr result (λ why. why ≡ Fault.Run RunFault.Write)) }
    ensures memory { OnErr help ((result ≡ Err (Fault.Words WordsFault.Memory))
        × (output.new ≡ output.old)) }
{
    let Ok(text) = help else {
        return Err(Fault::Words(WordsFault::Memory));
    };
    match output.put(text.as_bytes()) {
        Ok(()) => Ok(()),
        Err(_) => Err(Fault::Run(RunFault::Write)),
    }
}

/// The words after the program's name.
fn words_of(rt: &HostRuntime) -> Result<Vec<String>, Fault> {
    let mut arguments = match env::args(rt) {
        Ok(arguments) => arguments,
        Err(error) => return Err(Fault::Words(unreadable_arguments_fault(error.kind()))),
    };
    let _program = arguments.next();
    let Ok(words) = arguments.collect::<Vec<String>>(rt.alloc()) else {
        return Err(Fault::Words(WordsFault::Memory));
    };
    Ok(words)
}

/// Returns the exit status of a run that has ended. If it failed, this writes the line of its
/// fault. If the line cannot be written, the status is the same.
fn conclude<W: ByteWriter>(ended: Result<(), Fault>, errors: &mut W) -> u8
    ensures status { result ≡ status_after ended }
    ensures line { IfErr ended (λ fault. (told : Result Unit DeviceFailed)
        × Writes W.contents W.failures errors.old errors.new told (fault_line fault)) }
    ensures silent { OnOk ended (errors.new ≡ errors.old) }
{
    match ended {
        Ok(()) => 0,
        Err(fault) => {
            let _ = fault_text(&fault, errors);
            status(&fault)
        }
    }
}

fn main(rt: HostRuntime) -> ExitCode {
    let alloc = rt.alloc();
    let ran = match (words_of(&rt), BufWriter::new(alloc, rt.stdout())) {
        (Ok(words), Ok(buffer)) => {
            let mut input = FromRead::new(rt.stdin());
            let mut output = FromWrite::new(buffer);
            run(&rt, alloc, words.as_slice(), &mut input, &mut output)
        }
        (Err(fault), _) => Err(fault),
        (Ok(_), Err(_)) => Err(Fault::Run(RunFault::Memory)),
    };
    let ended = match ran {
        Err(Fault::Words(WordsFault::Help)) => {
            write_help(help_text(alloc), &mut FromWrite::new(rt.stdout()))
        }
        ran => ran,
    };
    ExitCode::from(conclude(ended, &mut FromWrite::new(rt.stderr())))
}
