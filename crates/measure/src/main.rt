//! Measures what one thread does: reading alone, one cache, a whole run, a grid of caches.
//!
//! Arguments: what is measured, and its own words; then what is measured next, and so on. Each file
//! beside this one says which words it takes. A trace is named by its file.
#![tactic(auto)]

mod cache;
mod grid;
mod read;
mod run;

use anyhow::{Context, bail};
use cache_core::{Policy, Repl};
use din_trace::FromRead;
use std::env::{self, Args};
use std::fs::{self, File};

/// The policy of all caches.
const POLICY: Policy = Policy {
    repl: Repl::Lru,
    wback: true,
    walloc: true,
};

/// The next word, as a number.
fn number(words: &mut Args) -> anyhow::Result<u64> {
    let word = words.next().context("a number is missing")?;
    Ok(word.parse()?)
}

/// A reader of the trace that the next word names.
fn trace(rt: &HostRuntime, words: &mut Args) -> anyhow::Result<FromRead<File>> {
    let name = words.next().context("which trace?")?;
    Ok(FromRead::new(fs::open(rt, name)?))
}

/// Measures what the word names.
fn measure(rt: &HostRuntime, what: &str, words: &mut Args) -> anyhow::Result<()> {
    match what {
        "read" => read::measure(rt, words),
        "cache" => cache::measure(rt, words, false),
        "cache-times" => cache::measure(rt, words, true),
        "run" => run::measure(rt, words),
        "grid" => grid::measure(rt, words),
        _ => bail!("{what} is not measured"),
    }
}

fn main(rt: HostRuntime) -> anyhow::Result<()> {
    let mut words = env::args(&rt)?;
    let _program = words.next();
    for _ in 0..u64::MAX {
        let Some(what) = words.next() else {
            return Ok(());
        };
        measure(&rt, &what, &mut words)?;
    }
    Ok(())
}
