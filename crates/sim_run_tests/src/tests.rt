//! Runs over traces in memory. The expected counts were worked out by hand, and so were the texts
//! of `layout`; the other texts are those of the report of the expected counts.

mod devices;
mod faults;
mod gates;
mod late;
mod layout;
mod levels;
mod many;
mod memory;
mod pipelines;
mod rates;
mod reported;
mod runs;
mod writers;

use cache_core::{Policy, Repl};
use din_trace::{FromRead, FromWrite, MAX_LIMIT, Source, TraceFault, Why};
use expected_counts::NO_COUNTS;
use reported::{is_counted, reported, reports, writes_text};
use sim_run::{Gate, OpenGate, RunFault, Settled, run_pipeline, simulate, simulate_plain};
use stage_core::{CacheSpec, Config, Selection, Totals};
use std::alloc::Global;
use std::io::{Read, Write};
use std::process::Abort;
use std::sync::Wait;
use std::thread::Threads;

static EVERYTHING: Selection = Selection {
    skip: 0,
    max: 0,
    every: 0,
};

/// Nothing counted in all three caches.
const NO_TOTALS: Totals = Totals {
    i: NO_COUNTS,
    d: NO_COUNTS,
    u: NO_COUNTS,
};

/// LRU, write back, write allocation: the policy of most caches here.
static USUAL: Policy = Policy {
    repl: Repl::Lru,
    wback: true,
    walloc: true,
};

fn spec(size: u64, bsize: u64, assoc: u64, policy: Policy) -> CacheSpec {
    CacheSpec {
        size,
        bsize,
        assoc,
        policy,
    }
}

/// An instruction cache of 16 bytes, a data cache of 16 bytes in two ways with this policy, and a
/// second level of 32 bytes. Each ring holds `ring` messages.
fn config_of(rt: &impl Abort, data: Policy, ring: u64) -> Config {
    let i = spec(16, 4, 1, USUAL);
    let d = spec(16, 4, 2, data);
    let u = spec(32, 8, 2, USUAL);
    Config::new(i, d, u, ring).expect(rt, "a lawful configuration")
}

fn config_with(rt: &impl Abort, data: Policy) -> Config {
    config_of(rt, data, 2)
}

fn config(rt: &impl Abort) -> Config {
    config_with(rt, USUAL)
}

/// The greatest number that a selection may have.
const MOST: u64 = 1_099_511_627_776;

/// The counts of a run in threads. Its rings are dropped. What a test calls promises nothing, so
/// that the calls of the library are proved once, and not in every test.
fn simulated<H: Threads + Wait + Abort + Sync, R: Read + Drop, G: Gate, W: Write + Drop>(
    rt: &H,
    alloc: Global,
    config: &Config,
    selection: &Selection,
    reader: R,
    limit: u64,
    gate: &G,
    writer: W,
) -> Result<Totals, RunFault> {
    assert!(rt; limit <= MAX_LIMIT && selection.skip <= MOST);
    assert!(rt; selection.max <= MOST && selection.every <= MOST);
    let reader = FromRead::new(reader);
    let writer = &mut FromWrite::new(writer);
    let Settled { totals, rings } = simulate(
        rt, alloc, config, selection, reader, limit, gate, writer,
    )?;
    drop(rings);
    Ok(totals)
}

/// The result of a run on one thread.
fn simulated_plainly<R: Read + Drop, W: Write + Drop>(
    rt: &impl Abort,
    alloc: Global,
    config: &Config,
    selection: &Selection,
    reader: R,
    limit: u64,
    writer: W,
) -> Result<(), RunFault> {
    assert!(rt; limit <= MAX_LIMIT && selection.skip <= MOST);
    assert!(rt; selection.max <= MOST && selection.every <= MOST);
    let reader = FromRead::new(reader);
    let writer = &mut FromWrite::new(writer);
    simulate_plain(alloc, config, selection, reader, limit, writer)
}

/// The result of a run in threads with the usual caches over the whole trace of this reader.
fn run_in_threads<H: Threads + Wait + Abort + Sync, R: Read + Drop, G: Gate, W: Write + Drop>(
    rt: &H,
    alloc: Global,
    reader: R,
    gate: &G,
    writer: W,
) -> Result<Totals, RunFault> {
    let config = config(rt);
    simulated(
        rt,
        alloc,
        &config,
        &EVERYTHING,
        reader,
        MAX_LIMIT,
        gate,
        writer,
    )
}

/// The result of the same run on one thread.
fn run_plainly<R: Read + Drop, W: Write + Drop>(
    rt: &impl Abort,
    alloc: Global,
    reader: R,
    writer: W,
) -> Result<(), RunFault> {
    simulated_plainly(
        rt,
        alloc,
        &config(rt),
        &EVERYTHING,
        reader,
        MAX_LIMIT,
        writer,
    )
}

/// The fault of both runs, each over a reader and a writer of its own. The faults have to agree.
fn fault_of_both<H: Threads + Wait + Abort + Sync, R: Read + Drop, W: Write + Drop>(
    rt: &H,
    alloc: Global,
    readers: (R, R),
    writers: (W, W),
) -> Option<RunFault> {
    let ended = run_in_threads(rt, alloc, readers.0, &OpenGate, writers.0);
    let plain = run_plainly(rt, alloc, readers.1, writers.1);
    assert_eq!(rt; ended.err(), plain.err());
    plain.err()
}

/// The result of a run over a trace, and the bytes that it wrote. It runs on one thread and in
/// threads, which have to have the same fault, if any, and write the same bytes. The threads answer
/// the totals.
fn run<H: Threads + Wait + Abort + Sync>(
    rt: &H,
    alloc: Global,
    config: &Config,
    selection: &Selection,
    trace: &[u8],
    limit: u64,
    written: &mut Vec<u8>,
) -> Result<Totals, RunFault> {
    let plain = simulated_plainly(rt, alloc, config, selection, trace, limit, &mut *written);
    let mut other = Vec::new(alloc);
    let ended = simulated(
        rt, alloc, config, selection, trace, limit, &OpenGate, &mut other,
    );
    assert_eq!(rt; ended.err(), plain.err());
    assert_eq!(rt; other.as_slice(), written.as_slice());
    ended
}

/// A run over a trace has to have this result, and to write something only if it succeeds.
fn ends_with<H: Threads + Wait + Abort + Sync>(
    rt: &H,
    alloc: Global,
    config: &Config,
    selection: &Selection,
    trace: &[u8],
    limit: u64,
    expected: Result<(), RunFault>,
) {
    let mut written = Vec::new(alloc);
    let ended = run(rt, alloc, config, selection, trace, limit, &mut written);
    assert_eq!(rt; ended.err(), expected.err());
    assert_eq!(rt; written.is_empty(), expected.is_err());
}

/// The same with the usual caches.
fn ends<H: Threads + Wait + Abort + Sync>(
    rt: &H,
    alloc: Global,
    selection: &Selection,
    trace: &[u8],
    limit: u64,
    expected: Result<(), RunFault>,
) {
    ends_with(rt, alloc, &config(rt), selection, trace, limit, expected);
}

/// The source of a trace after a run of the pipeline, and the result of that run.
fn run_source<'a, H: Threads + Wait + Abort + Sync>(
    rt: &H,
    alloc: Global,
    trace: &'a [u8],
) -> (Source<FromRead<&'a [u8]>>, Result<Totals, RunFault>) {
    let config = config(rt);
    let source = Source::new(FromRead::new(trace), MAX_LIMIT);
    let (source, ended) = run_pipeline(rt, alloc, &config, &EVERYTHING, source, &OpenGate);
    (source, ended.map(|settled| settled.totals))
}

fn bad(line: u64, why: Why) -> RunFault {
    RunFault::Trace(TraceFault::Bad { line, why })
}
