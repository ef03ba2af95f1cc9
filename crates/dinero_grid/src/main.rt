//! The command line of a simulator of many configurations at once: reads a din trace from standard
//! input once, and writes a table with a line for each configuration to standard output.
//!
//! The library grid_options reads the words, and grid_run reads the trace and writes the table.
//! `asked` makes the rows of the table from the points that the words ask for, `table` the table
//! from these and the trace. `fault` has the line and the exit status of each fault.
//!
//! Proved: `run` writes the table that the definitions give for the text of its reader and the
//! words after the program's name, or says why not; the line and the status of a fault are those of
//! `specs/GridFaultText`. Before that line, `explain` writes at most one, and only if clap refuses
//! the words. Only tested: that `main` passes the right words and streams, and that the line of
//! `explain` names the refused option or word.
#![tactic(auto)]

mod asked;
mod fault;
mod table;

ghost use Rattle.std.specs.Prelude.{◌≡◌, ◌≢◌, ◌⊎◌, ℕ, List, [], Some, None, Result, Err};
ghost use Rattle.std.specs.Prelude.{OnOk, OnErr, IfOk, IfErr, false, map, string_bytes};
ghost use Rattle.std.specs.Io.Buffered.{writer_contents};
ghost use Rattle.din_trace.specs.Device.{Writes, once_more, held_bytes, behind_bytes};
ghost use Rattle.din_trace.specs.Device.{waiting_bytes, write_failures};
ghost use Rattle.din_trace.specs.Line.{ADDRESS_MAX};
ghost use Rattle.din_trace.specs.Text.{fault};
ghost use Rattle.din_trace.specs.Faults.{GaveAll, IsFaultOf};
ghost use Rattle.grid_options.specs.Grid.{AnswersGridWords};
ghost use Rattle.grid_options.specs.Refusals.{IsUnexplained};
ghost use Rattle.dinero_grid.specs.GridFaultText.{Explains, explanation, fault_line, status_after};
ghost use Rattle.dinero_grid.specs.GridRuns.{AreAccepted, HasTable};

use crate::fault::{Fault, fault_text, status};
use crate::table::table;
use din_trace::{ByteReader, ByteWriter, DeviceFailed, FromRead, FromWrite, MAX_LIMIT, TraceFault};
use dinero_options::{NoMemory, WordsFault, unreadable_arguments_fault};
use grid_options::{GridWordsFault, grid_help_text, grid_refusal_text, parse_grid_words};
use grid_run::GridFault;
use std::alloc::{AllocError, Global};
use std::env;
use std::io::{BufWriter, Write};
use std::process::ExitCode;
use std::thread::Threads;

/// Reads the trace that the reader gives once, and writes the table of the grid that the words
/// after the program's name ask for, which then has left the buffer. Answers whether some
/// configuration was refused. If the words are refused, nothing is read.
fn run<T: Threads + Sync, R: ByteReader + Send, W: Write + Drop>(
    rt: &T,
    alloc: Global,
    words: &[String],
    input: &mut R,
    output: &mut FromWrite<BufWriter<W>>,
) -> Result<bool, Fault>
    ensures table { (text : List ℕ) → R.remaining input.old ≡ Some text → IfOk result (λ some.
        (fault ADDRESS_MAX text MAX_LIMIT ≡ None) × HasTable (map string_bytes words.now) text some
        (held_bytes (writer_contents W.contents) output.old)
        (behind_bytes W.contents output.new)) }
    ensures whole { IfOk result (λ some. (text : List ℕ)
        × GaveAll R.remaining R.failures input.old text
        × (fault ADDRESS_MAX text MAX_LIMIT ≡ None)
        × HasTable (map string_bytes words.now) text some
        (held_bytes (writer_contents W.contents) output.old)
        (behind_bytes W.contents output.new)) }
    ensures emptied { OnOk result (waiting_bytes output.new ≡ []) }
    ensures words { (why : GridWordsFault) → result ≡ Err (Fault.Words why)
        → AnswersGridWords (map string_bytes words.now) (Err why) }
    ensures unread { (why : GridWordsFault) → result ≡ Err (Fault.Words why)
        → input.new ≡ input.old }
    ensures accepted { (why : GridFault) → result ≡ Err (Fault.Run why)
        → AreAccepted (map string_bytes words.now) }
    ensures trace { (text : List ℕ) → R.remaining input.old ≡ Some text
        → (why : TraceFault) → result ≡ Err (Fault.Run (GridFault.Trace why))
        → IsFaultOf R.remaining R.failures input.old text MAX_LIMIT why }
    ensures memory { result ≢ Err (Fault.Run (GridFault.Trace TraceFault.Memory)) }
    ensures sound { OnOk result (write_failures output.new ≡ write_failures output.old) }
    ensures write { result ≡ Err (Fault.Run GridFault.Write)
        → write_failures output.new ≡ once_more (write_failures output.old) }
    ensures unwritten { IfErr result (λ why. why ≢ Fault.Run GridFault.Write
        → output.new ≡ output.old) }
{
    let asked = match parse_grid_words(alloc, words) {
        Ok(asked) => asked,
        Err(fault) => return Err(Fault::Words(fault)),
    };
    match table(rt, alloc, asked, input, output) {
        Ok(some_refused) => Ok(some_refused),
        Err(fault) => Err(Fault::Run(fault)),
    }
}

/// Writes the help, if there was memory for its text.
fn write_help<W: ByteWriter>(help: Result<String, NoMemory>, output: &mut W) -> Result<bool, Fault>
    ensures well { IfOk result (λ some_refused. some_refused ≡ false) }
    ensures text { IfOk help (λ text. Writes W.contents W.failures output.old output.new result
        (string_bytes text)) }
    ensures fault { OnOk help (IfErr result (λ why. why ≡ Fault.Run GridFault.Write)) }
    ensures memory { OnErr help
        ((result ≡ Err (Fault.Words (GridWordsFault.Words WordsFault.Memory)))
        × (output.new ≡ output.old)) }
{
    let Ok(text) = help else {
        return Err(Fault::Words(GridWordsFault::Words(WordsFault::Memory)));
    };
    match output.put(text.as_bytes()) {
        Ok(()) => Ok(false),
        Err(_) => Err(Fault::Run(GridFault::Write)),
    }
}

/// The line of what clap says of words that it refuses.
fn explanation(alloc: Global, said: &str) -> Result<String, AllocError>
    ensures { IfOk result (λ line. string_bytes line ≡ explanation said.now) }
{
    let mut line = String::from_str(alloc, "dinero_grid: ")?;
    line.push_str(said)?;
    line.push('\n')?;
    Ok(line)
}

/// If the run has ended because clap refuses the words, this writes what it says of them, in one
/// line. If that line cannot be made or written, only that of the fault is written, by `conclude`.
fn explain<W: ByteWriter>(
    alloc: Global,
    words: &[String],
    ended: &Result<bool, Fault>,
    errors: &mut W,
) -> Result<(), NoMemory>
    ensures silent { ended.now ≢ Err (Fault.Words (GridWordsFault.Words WordsFault.Words))
        → errors.new ≡ errors.old }
    ensures line { (errors.new ≡ errors.old)
        ⊎ Explains W.contents W.failures errors.old errors.new }
    ensures told { ended.now ≡ Err (Fault.Words (GridWordsFault.Words WordsFault.Words))
        → OnOk result (IsUnexplained (map string_bytes words.now)
        ⊎ Explains W.contents W.failures errors.old errors.new) }
    ensures memory { OnErr result (errors.new ≡ errors.old) }
{
    if !matches!(
        ended,
        Err(Fault::Words(GridWordsFault::Words(WordsFault::Words)))
    ) {
        return Ok(());
    }
    let Some(said) = grid_refusal_text(alloc, words)? else {
        return Ok(());
    };
    let Ok(line) = explanation(alloc, said.as_str()) else {
        return Err(NoMemory);
    };
    let _ = errors.put(line.as_bytes());
    Ok(())
}

/// The words after the program's name.
fn words_of(rt: &HostRuntime) -> Result<Vec<String>, Fault> {
    let mut arguments = match env::args(rt) {
        Ok(arguments) => arguments,
        Err(error) => {
            let fault = unreadable_arguments_fault(error.kind());
            return Err(Fault::Words(GridWordsFault::Words(fault)));
        }
    };
    let _program = arguments.next();
    let Ok(words) = arguments.collect::<Vec<String>>(rt.alloc()) else {
        return Err(Fault::Words(GridWordsFault::Words(WordsFault::Memory)));
    };
    Ok(words)
}

/// The exit status of a run that has written its table, in which some configuration was refused.
const SOME_REFUSED: u8 = 5;

/// Returns the exit status of a run that has ended, in which some configuration may have been
/// refused. If the run failed, this writes the line of its fault. If the line cannot be written,
/// the status is the same.
fn conclude<W: ByteWriter>(ended: Result<bool, Fault>, errors: &mut W) -> u8
    ensures status { result ≡ status_after ended }
    ensures line { IfErr ended (λ fault. (told : Result Unit DeviceFailed)
        × Writes W.contents W.failures errors.old errors.new told (fault_line fault)) }
    ensures silent { OnOk ended (errors.new ≡ errors.old) }
{
    match ended {
        Ok(false) => 0,
        Ok(true) => SOME_REFUSED,
        Err(fault) => {
            let _ = fault_text(&fault, errors);
            status(&fault)
        }
    }
}

fn main(rt: HostRuntime) -> ExitCode {
    let mut errors = FromWrite::new(rt.stderr());
    let alloc = rt.alloc();
    let ran = match (words_of(&rt), BufWriter::new(alloc, rt.stdout())) {
        (Ok(words), Ok(buffer)) => {
            let mut input = FromRead::new(rt.stdin());
            let mut output = FromWrite::new(buffer);
            let ran = run(&rt, alloc, words.as_slice(), &mut input, &mut output);
            let _ = explain(alloc, words.as_slice(), &ran, &mut errors);
            ran
        }
        (Err(fault), _) => Err(fault),
        (Ok(_), Err(_)) => Err(Fault::Run(GridFault::Memory)),
    };
    let ended = match ran {
        Err(Fault::Words(GridWordsFault::Words(WordsFault::Help))) => {
            write_help(grid_help_text(alloc), &mut FromWrite::new(rt.stdout()))
        }
        ran => ran,
    };
    ExitCode::from(conclude(ended, &mut errors))
}
