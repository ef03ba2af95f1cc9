//! Words, and the configuration or the fault that they give.

use super::same;
use cache_core::{Geometry, GeometryFault, Policy, Repl};
use dinero_options::{Opt, WordsFault, parse_words};
use stage_core::{CacheName, Config, ConfigFault, Selection};
use std::alloc::Global;
use std::process::Abort;

/// An instruction cache of 16 bytes, a data cache of 16 bytes in two ways, and a second level of 32
/// bytes in two ways.
static WORKED: &str = "--l1-isize 16 --l1-ibsize 4 --l1-dsize 16 --l1-dbsize 4 --l1-dassoc 2
    --l2-usize 32 --l2-ubsize 8 --l2-uassoc 2 --ring 2";

fn is_worked(name: &str) -> bool {
    WORKED.split_whitespace().any(|word| word == name)
}

/// The value that `changes` has for this option, if any.
fn changed<'a>(changes: &'a str, name: &str) -> Option<&'a str> {
    let mut is_named = false;
    for word in changes.split_whitespace() {
        if is_named {
            return Some(word);
        }
        is_named = word == name && name.starts_with("--");
    }
    None
}

/// What words ask for, or why they are refused.
pub type Answer = Result<(Config, Selection), WordsFault>;

/// Adds a word, unless an allocation fails.
fn push(words: &mut Vec<String>, alloc: Global, word: &str) -> Result<(), WordsFault> {
    let Ok(word) = String::from_str(alloc, word) else {
        return Err(WordsFault::Memory);
    };
    match words.push(word) {
        Ok(()) => Ok(()),
        Err(_) => Err(WordsFault::Memory),
    }
}

/// Adds the worked words, where each option in `changes` gets a new value.
fn push_worked(words: &mut Vec<String>, alloc: Global, changes: &str) -> Result<(), WordsFault> {
    let mut value = None;
    for word in WORKED.split_whitespace() {
        push(words, alloc, value.unwrap_or(word))?;
        value = changed(changes, word);
    }
    Ok(())
}

/// Adds the options in `changes` that are not among the worked ones, with their values.
fn push_new(words: &mut Vec<String>, alloc: Global, changes: &str) -> Result<(), WordsFault> {
    let mut is_new = false;
    for word in changes.split_whitespace() {
        if word.starts_with("--") {
            is_new = !is_worked(word);
        }
        if is_new {
            push(words, alloc, word)?;
        }
    }
    Ok(())
}

fn parse(alloc: Global, words: &[String]) -> Answer {
    parse_words(alloc, words)
}

/// The answer to the worked words with these changes: each option in them gets a new value, or is
/// added at the end.
pub fn parsed(alloc: Global, changes: &str) -> Answer {
    let mut words = Vec::new(alloc);
    push_worked(&mut words, alloc, changes)?;
    push_new(&mut words, alloc, changes)?;
    parse(alloc, words.as_slice())
}

/// The answer to just these words.
pub fn parsed_line(alloc: Global, line: &str) -> Answer {
    let mut words = Vec::new(alloc);
    for word in line.split_whitespace() {
        push(&mut words, alloc, word)?;
    }
    parse(alloc, words.as_slice())
}

/// The worked words with changes, and why they are refused, if they are.
type Row = (&'static str, Option<WordsFault>);

fn expect_refusals(rt: &impl Abort, alloc: Global, rows: &[Row]) {
    for (changes, want) in rows {
        same(rt, &parsed(alloc, *changes).err(), want, *changes);
    }
}

const LRU: Policy = Policy {
    repl: Repl::Lru,
    wback: true,
    walloc: true,
};

fn is_cache(cache: (Geometry, Policy), blocks: u64, bsize: u64, sets: u64, policy: Policy) -> bool {
    cache.0.blocks() == blocks
        && cache.0.bsize() == bsize
        && cache.0.sets() == sets
        && cache.1 == policy
}

/// Are these the caches and the ring of the worked words, and is the whole trace selected?
pub fn worked_caches(config: &Config, selection: Selection) -> bool {
    let everything = Selection {
        skip: 0,
        max: 0,
        every: 0,
    };
    is_cache(config.i(), 4, 4, 4, LRU)
        && is_cache(config.d(), 4, 4, 2, LRU)
        && is_cache(config.u(), 4, 8, 2, LRU)
        && config.ring() == 2
        && selection == everything
}

/// The caches with each of these options, and the selection.
fn is_chosen(config: &Config, selection: Selection) -> bool {
    let fifo = Policy {
        repl: Repl::Fifo,
        ..LRU
    };
    let through = Policy {
        wback: false,
        ..LRU
    };
    let around = Policy {
        walloc: false,
        ..LRU
    };
    let wanted = Selection {
        skip: 5,
        max: 6,
        every: 7,
    };
    is_cache(config.i(), 4, 4, 4, fifo)
        && is_cache(config.d(), 4, 4, 2, through)
        && is_cache(config.u(), 128, 8, 64, around)
        && selection == wanted
}

#[test]
fn reads_each_choice_and_the_selection(rt: HostRuntime) -> Result<(), WordsFault> {
    static CHANGES: &str = "--l1-irepl f --l1-dwback n --l2-uwalloc n --l2-usize 1k
        --skipcount 5 --maxcount 6 --flushcount 7";
    let (config, selection) = parsed(rt.alloc(), CHANGES)?;
    assert!(rt; is_chosen(&config, selection));
    Ok(())
}

#[test]
fn refuses_the_first_bad_option_before_an_unlawful_cache(rt: HostRuntime) {
    static ROWS: [Row; 4] = [
        ("--l1-irepl r", Some(WordsFault::Choice(Opt::L1Irepl))),
        ("--ring two", Some(WordsFault::Number(Opt::Ring))),
        (
            "--ring two --l1-irepl r",
            Some(WordsFault::Choice(Opt::L1Irepl)),
        ),
        (
            "--ring two --l1-isize 24",
            Some(WordsFault::Number(Opt::Ring)),
        ),
    ];
    expect_refusals(&rt, rt.alloc(), &ROWS);
}

#[test]
fn refuses_the_first_rule_that_the_caches_break(rt: HostRuntime) {
    const SIZE: ConfigFault = ConfigFault::Geometry(CacheName::I, GeometryFault::SizeNotPower);
    const WAYS: ConfigFault = ConfigFault::Geometry(CacheName::I, GeometryFault::AssocTooLarge);
    const BLOCK: ConfigFault = ConfigFault::Geometry(CacheName::U, GeometryFault::BlockRange);
    static ROWS: [Row; 8] = [
        ("--l1-isize 24 --ring 2", Some(WordsFault::Config(SIZE))),
        (
            "--l1-isize 16 --l1-ibsize 16",
            Some(WordsFault::Config(ConfigFault::BlockOrder)),
        ),
        (
            "--l1-isize 16 --ring 0",
            Some(WordsFault::Config(ConfigFault::Ring)),
        ),
        (
            "--l1-isize 16 --ring 65537",
            Some(WordsFault::Config(ConfigFault::Ring)),
        ),
        ("--l1-iassoc 8 --ring 2", Some(WordsFault::Config(WAYS))),
        ("--l1-iassoc 8 --ring 0", Some(WordsFault::Config(WAYS))),
        ("--l2-ubsize 2 --ring 0", Some(WordsFault::Config(BLOCK))),
        ("--ring 65536", None),
    ];
    expect_refusals(&rt, rt.alloc(), &ROWS);
}

#[test]
fn takes_a_selection_of_twelve_digits_and_not_of_thirteen(rt: HostRuntime) {
    static ROWS: [Row; 2] = [
        ("--maxcount 999999999999", None),
        (
            "--maxcount 1099511627776",
            Some(WordsFault::Number(Opt::Maxcount)),
        ),
    ];
    expect_refusals(&rt, rt.alloc(), &ROWS);
}

/// Whole lines of words, and why they are refused.
static LINES: [(&str, WordsFault); 3] = [
    (
        "--l1-ibsize 4 --l1-dsize 16 --l1-dbsize 4 --l2-usize 32 --l2-ubsize 8",
        WordsFault::Words,
    ),
    ("", WordsFault::Words),
    ("--help", WordsFault::Help),
];

#[test]
fn leaves_unknown_missing_and_repeated_options_to_clap(rt: HostRuntime) {
    static ROWS: [Row; 2] = [
        ("--l3-usize 16", Some(WordsFault::Words)),
        ("--maxcount 1 --maxcount 2", Some(WordsFault::Words)),
    ];
    expect_refusals(&rt, rt.alloc(), &ROWS);
    for (line, want) in &LINES {
        same(
            &rt,
            &parsed_line(rt.alloc(), *line).err(),
            &Some(*want),
            *line,
        );
    }
}

/// Each option is named in the help.
pub fn names_each_option(text: &str) -> bool {
    for option in Opt::ALL {
        if !text.contains(option.name()) {
            return false;
        }
    }
    true
}
