//! The settings that texts ask for, one text for each option.

ghost use Rattle.std.specs.Prelude.{◌≡◌, ◌<◌, ◌^◌, map};
ghost use Rattle.stage_core.specs.Events.{IsBounded};
ghost use Rattle.dinero_options.specs.Answer.{cache_at, choice_at, count_at};
ghost use Rattle.dinero_options.specs.Answer.{replacement_at, selection_at, settings_at, size_at};
ghost use Rattle.dinero_options.specs.Answer.{text_at, write_choices};

use crate::opt::{CacheOptions, Opt};
use crate::texts::listed_text;
use crate::values::{read_choice, read_count, read_replacement, read_size};
use cache_core::{Policy, Repl};
use stage_core::{CacheSpec, Selection};

/// All settings that the words ask for. The caches and the rings may still break a rule.
#[derive(Clone, Copy, Debug, PartialEq, Eq)]
pub struct Settings {
    /// The instruction cache.
    pub i: CacheSpec,
    /// The data cache.
    pub d: CacheSpec,
    /// The second-level cache.
    pub u: CacheSpec,
    /// The capacity of each ring, in messages.
    pub ring: u64,
    /// Which part of the trace.
    pub selection: Selection,
}

/// The size that an option sets, in bytes; 0 if its text cannot be read.
fn size_in(texts: &[&str], option: Opt) -> u64
    ensures { result ≡ size_at (text_at (map (λ t. t.now) texts.now)) option }
{
    read_size(listed_text(texts, option)).unwrap_or(0)
}

/// The count that an option sets; 0 if its text cannot be read.
fn count_in(texts: &[&str], option: Opt) -> u64
    ensures value { result ≡ count_at (text_at (map (λ t. t.now) texts.now)) option }
    ensures bound { result < 10 ^ 12 }
{
    match read_count(listed_text(texts, option)) {
        Some(count) => count,
        None => 0,
    }
}

/// The replacement that an option sets; LRU if its text cannot be read.
fn replacement_in(texts: &[&str], option: Opt) -> Repl
    ensures { result ≡ replacement_at (text_at (map (λ t. t.now) texts.now)) option }
{
    read_replacement(listed_text(texts, option)).unwrap_or(Repl::Lru)
}

/// The choice that an option sets; false if its text cannot be read.
fn choice_in(texts: &[&str], option: Opt) -> bool
    ensures { result ≡ choice_at (text_at (map (λ t. t.now) texts.now)) option }
{
    read_choice(listed_text(texts, option)).unwrap_or(false)
}

/// Write back and write allocation. Both are true for a cache without options for them, which gets
/// no write.
fn write_choices_in(texts: &[&str], write: Option<(Opt, Opt)>) -> (bool, bool)
    ensures { result ≡ write_choices (text_at (map (λ t. t.now) texts.now)) write }
{
    match write {
        None => (true, true),
        Some(pair) => (choice_in(texts, pair.0), choice_in(texts, pair.1)),
    }
}

/// The cache that the texts of its options ask for.
fn cache_in(texts: &[&str], options: CacheOptions) -> CacheSpec
    ensures { result ≡ cache_at (text_at (map (λ t. t.now) texts.now)) options }
{
    let write = write_choices_in(texts, options.write);
    CacheSpec {
        size: size_in(texts, options.size),
        bsize: size_in(texts, options.bsize),
        assoc: count_in(texts, options.assoc),
        policy: Policy {
            repl: replacement_in(texts, options.repl),
            wback: write.0,
            walloc: write.1,
        },
    }
}

/// Which part of the trace the texts ask for.
fn selection_in(texts: &[&str]) -> Selection
    ensures value { result ≡ selection_at (text_at (map (λ t. t.now) texts.now)) }
    ensures bound { IsBounded result }
{
    Selection {
        skip: count_in(texts, Opt::Skipcount),
        max: count_in(texts, Opt::Maxcount),
        every: count_in(texts, Opt::Flushcount),
    }
}

/// The settings that a list of texts asks for, which has a text for each option in their order. A
/// text that cannot be read sets what the definitions name; [`can_read`](crate::can_read) tells
/// whether there is one.
pub fn settings_in(texts: &[&str]) -> Settings
    ensures value { result ≡ settings_at (text_at (map (λ t. t.now) texts.now)) }
    ensures bound { IsBounded result.selection }
{
    Settings {
        i: cache_in(texts, CacheOptions::INSTRUCTION),
        d: cache_in(texts, CacheOptions::DATA),
        u: cache_in(texts, CacheOptions::SECOND_LEVEL),
        ring: count_in(texts, Opt::Ring),
        selection: selection_in(texts),
    }
}
