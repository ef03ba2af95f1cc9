//! From the words after the program's name to a configuration and a selection.

ghost use Rattle.std.specs.Prelude.{◌≡◌, IfErr, IfOk, map, string_bytes, true};
ghost use Rattle.clap.specs.Words.{app_of, found_of, is_simple_and_free, rows_of};
ghost use Rattle.stage_core.specs.Events.{IsBounded};
ghost use Rattle.dinero_options.specs.Answer.{AcceptsWords, AnswersWords, Follows, RefusesWords};
ghost use Rattle.dinero_options.specs.Answer.{if_readable, refusal_by_kind, settings_at, text_at};
ghost use Rattle.dinero_options.specs.Options.{options};

use crate::command::command;
use crate::fault::WordsFault;
use crate::settings::{Settings, settings_in};
use crate::texts::{first_unreadable, matched_texts, unreadable_fault};
use clap::error::ErrorKind;
use clap::{ArgMatches, Command};
use stage_core::{Config, Selection};
use std::alloc::Global;

/// The fault if clap refuses the words for this reason.
fn refusal(kind: ErrorKind) -> WordsFault
    ensures { result ≡ refusal_by_kind kind }
{
    match kind {
        ErrorKind::DisplayHelp => WordsFault::Help,
        ErrorKind::OutOfMemory => WordsFault::Memory,
        _ => WordsFault::Words,
    }
}

/// What clap finds in the words, or why they are refused.
pub fn take_words<'a>(
    command: Command<'a>,
    words: &'a [String],
) -> Result<ArgMatches<'a>, WordsFault>
    requires { is_simple_and_free (app_of command) ≡ true }
    ensures ok { IfOk result (λ m.
        AcceptsWords (app_of command.entry) (map string_bytes words.now) (rows_of (found_of m))) }
    ensures err { IfErr result (λ f.
        RefusesWords (app_of command.entry) (map string_bytes words.now) f) }
{
    match command.try_get_matches_from(words) {
        Ok(matches) => Ok(matches),
        Err(error) => Err(refusal(error.kind())),
    }
}

/// The settings that texts ask for, one text for each option in their order, up to the first that
/// cannot be read.
fn read_settings(texts: &[&str]) -> Result<Settings, WordsFault>
    ensures value { let by = text_at (map (λ t. t.now) texts.now) in
        result ≡ if_readable by options (settings_at by) }
    ensures bound { IfOk result (λ s. IsBounded s.selection) }
{
    match first_unreadable(texts) {
        Some(option) => Err(unreadable_fault(option)),
        None => Ok(settings_in(texts)),
    }
}

/// The configuration and the selection that texts ask for.
fn answer(texts: &[&str]) -> Result<(Config, Selection), WordsFault>
    ensures value { let by = text_at (map (λ t. t.now) texts.now) in
        Follows (if_readable by options (settings_at by)) result }
    ensures bound { IfOk result (λ p. IsBounded p.1) }
{
    let settings = read_settings(texts)?;
    let config = Config::new(settings.i, settings.d, settings.u, settings.ring).map_err(
        WordsFault::Config,
    )?;
    Ok((config, settings.selection))
}

/// Reads the words after the program's name. Each number of the selection is at most 2^40. If an
/// allocation fails, `Memory` may be the answer instead of any other.
pub fn parse_words(alloc: Global, words: &[String]) -> Result<(Config, Selection), WordsFault>
    ensures answer { AnswersWords (map string_bytes words.now) result }
    ensures bound { IfOk result (λ p. IsBounded p.1) }
{
    let Ok(command) = command(alloc) else {
        return Err(WordsFault::Memory);
    };
    let matches = take_words(command, words)?;
    let Ok(texts) = matched_texts(alloc, &matches) else {
        return Err(WordsFault::Memory);
    };
    answer(texts.as_slice())
}
