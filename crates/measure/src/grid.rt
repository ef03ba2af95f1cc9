//! Serves the data references of a trace in a grid of caches at once, and prints what each cache
//! counted.
//!
//! It measures an engine of grid_core. The caches write back and allocate at writes. Words: `grid`,
//! the trace, the block size, then the sizes in bytes, joined by commas, and the numbers of ways.

use crate::POLICY;
use anyhow::{Context, bail};
use cache_core::{Access, Class, Geometry, MAX_EVENTS};
use din_trace::{DinRecord, FromRead, Label, MAX_LIMIT, Source};
use grid_core::{Engine, share_block_size};
use std::alloc::Global;
use std::env::Args;
use std::fs::File;
use std::io::{BufWriter, Write};

/// The numbers of the next word, which commas join.
fn numbers(alloc: Global, words: &mut Args) -> anyhow::Result<Vec<u64>> {
    let word = words.next().context("numbers are missing")?;
    let mut numbers = Vec::new(alloc);
    for part in word.split(',') {
        numbers.push(part.parse()?)?;
    }
    Ok(numbers)
}

/// The geometries of all sizes by all numbers of ways. What has no lawful geometry is left out.
fn grid(alloc: Global, bsize: u64, sizes: &[u64], ways: &[u64]) -> anyhow::Result<Vec<Geometry>> {
    let mut geometries = Vec::new(alloc);
    for size in sizes {
        for assoc in ways {
            if let Ok(geometry) = Geometry::new(*size, bsize, *assoc) {
                geometries.push(geometry)?;
            }
        }
    }
    Ok(geometries)
}

/// The class of a data reference; the others do not concern a data cache.
fn class_of(label: Label) -> Option<Class> {
    match label {
        Label::Read => Some(Class::Read),
        Label::Write => Some(Class::Write),
        Label::Misc => Some(Class::Misc),
        Label::Instr | Label::Flush => None,
    }
}

/// Serves one record of a trace.
fn serve(engine: &mut Engine, record: DinRecord) -> anyhow::Result<()> {
    if engine.served() >= MAX_EVENTS {
        bail!("more references than an engine serves");
    }
    let served = match class_of(record.label) {
        Some(class) => engine.access(Access {
            class,
            addr: record.addr,
        }),
        None if record.label == Label::Flush => engine.flush_unlisted(),
        None => Ok(()),
    };
    if served.is_err() {
        bail!("no memory");
    }
    Ok(())
}

/// Serves all records of a trace.
fn serve_all(engine: &mut Engine, trace: FromRead<File>) -> anyhow::Result<()> {
    let mut source = Source::new(trace, MAX_LIMIT);
    for _ in 0..u64::MAX {
        match source.next() {
            Ok(Some(record)) => serve(engine, record)?,
            Ok(None) => return Ok(()),
            Err(fault) => bail!("{fault:?}"),
        }
    }
    Ok(())
}

/// Prints a line for each cache.
fn report(rt: &HostRuntime, geometries: &[Geometry], engine: &Engine) -> anyhow::Result<()> {
    let mut writer = BufWriter::new(rt.alloc(), rt.stdout())?;
    for (index, geometry) in geometries.iter().enumerate() {
        if index < engine.cells() {
            let counts = engine.counts(index);
            let far = engine.shadow_misses(index);
            writeln!(
                writer,
                "{} blocks in {} sets: {} fetches, {} misses, {} compulsory, {} capacity, \
                 {} conflict, {} loaded, {} written back, {} fully associative",
                geometry.blocks(),
                geometry.sets(),
                counts.fetches.total(),
                counts.misses.total(),
                counts.compulsory.total(),
                counts.capacity.total(),
                counts.conflict.total(),
                counts.loaded,
                counts.written_back,
                far.total()
            )?;
        }
    }
    writer.flush()?;
    Ok(())
}

/// The geometries that the next three words ask for.
fn asked_for(alloc: Global, words: &mut Args) -> anyhow::Result<Vec<Geometry>> {
    let bsize = crate::number(words)?;
    let sizes = numbers(alloc, words)?;
    let ways = numbers(alloc, words)?;
    grid(alloc, bsize, &sizes, &ways)
}

/// An engine of these geometries.
fn engine_of(alloc: Global, geometries: &[Geometry]) -> anyhow::Result<Engine> {
    let Some(first) = geometries.first().copied() else {
        bail!("no lawful geometry");
    };
    if !share_block_size(geometries, first) {
        bail!("several block sizes");
    }
    match Engine::new(alloc, geometries, first, POLICY) {
        Ok(engine) => Ok(engine),
        Err(_) => bail!("no memory"),
    }
}

/// Serves the trace that the next word names.
pub fn measure(rt: &HostRuntime, words: &mut Args) -> anyhow::Result<()> {
    let trace = crate::trace(rt, words)?;
    let geometries = asked_for(rt.alloc(), words)?;
    let mut engine = engine_of(rt.alloc(), &geometries)?;
    serve_all(&mut engine, trace)?;
    report(rt, &geometries, &engine)
}
