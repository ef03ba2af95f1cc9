//! The options that the program has of its own, behind those that it shares.

ghost use Rattle.std.specs.Prelude.{◌≡◌, false};
ghost use Rattle.clap.specs.Words.{found_of, rows_of, rule_of};
ghost use Rattle.grid_options.specs.Own.{full_rule, is_full, threads_of, threads_rule};
ghost use Rattle.grid_options.specs.Own.{threads_value};

use clap::{Arg, ArgAction, ArgMatches};
use dinero_options::read_count;
use std::alloc::Global;

/// The most threads that may be asked for.
const MOST_THREADS: u64 = 1024;

/// The option for the number of threads as clap knows it.
pub(crate) fn threads_argument<'a>(alloc: Global) -> Arg<'a>
    ensures rule { rule_of result ≡ threads_rule }
    ensures local { result.global ≡ false }
{
    Arg::new(alloc, "threads")
        .long("threads")
        .value_name("COUNT")
        .help("Threads that work: 1 to 1024, 0 for one on each core that it may use")
        .help_heading("Threads")
        .default_value("0")
}

/// Reads a number of threads.
fn read_threads(text: &str) -> Option<usize>
    ensures { result ≡ threads_value text.now }
{
    let count = read_count(text)?;
    if count <= MOST_THREADS {
        Some(count as usize)
    } else {
        None
    }
}

/// The number of threads in clap's matches, or `None` if its text cannot be read.
pub(crate) fn threads_in(matches: &ArgMatches) -> Option<usize>
    ensures { result ≡ threads_of (rows_of (found_of matches.now)) }
{
    match matches.get_str("threads") {
        Some(text) => read_threads(text),
        None => read_threads(""),
    }
}

/// The flag for a full table as clap knows it.
pub(crate) fn full_argument<'a>(alloc: Global) -> Arg<'a>
    ensures rule { rule_of result ≡ full_rule }
    ensures local { result.global ≡ false }
{
    Arg::new(alloc, "full")
        .long("full")
        .help("A column for each option, and after each count those of the classes")
        .help_heading("Table")
        .action(ArgAction::SetTrue)
}

/// Whether clap's matches ask for a full table.
pub(crate) fn full_in(matches: &ArgMatches) -> bool
    ensures { result ≡ is_full (rows_of (found_of matches.now)) }
{
    match matches.get_str("full") {
        Some(text) => text == "true",
        None => false,
    }
}
