//! The texts of the options, and which of them can be read.

ghost use Rattle.std.specs.Prelude.{◌≡◌, IfOk, map};
ghost use Rattle.clap.specs.Words.{found_of, rows_of};
ghost use Rattle.dinero_options.specs.Answer.{first_unreadable, reads_as, refusal_by_option};
ghost use Rattle.dinero_options.specs.Answer.{text_at, text_of};
ghost use Rattle.dinero_options.specs.Options.{kind_of_option, options};

use crate::fault::WordsFault;
use crate::opt::{Kind, Opt};
use crate::values::{read_choice, read_count, read_replacement, read_size};
use clap::ArgMatches;
use std::alloc::{AllocError, Global};

/// The text of an option in clap's matches: the one that was given, or its default.
pub fn matched_text<'a>(matches: &ArgMatches<'a>, option: Opt) -> &'a str
    ensures { result.now ≡ text_of (rows_of (found_of matches.now)) option }
{
    match matches.get_str(option.id()) {
        Some(text) => text,
        None => "",
    }
}

/// The texts of all options in clap's matches, in the order of the options.
pub(crate) fn matched_texts<'a>(
    alloc: Global,
    matches: &ArgMatches<'a>,
) -> Result<Vec<&'a str>, AllocError>
    ensures { IfOk result (λ texts. map (λ t. t.now) texts.items
        ≡ map (text_of (rows_of (found_of matches.now))) options) }
{
    let mut texts = Vec::new(alloc);
    for option in Opt::ALL {
        texts.push(matched_text(matches, option))?;
    }
    Ok(texts)
}

/// The text of an option in a list of texts, one for each option in their order. It is empty past
/// the end of the list.
pub fn listed_text<'a>(texts: &[&'a str], option: Opt) -> &'a str
    ensures { result.now ≡ text_at (map (λ t. t.now) texts.now) option }
{
    match texts.get(option.place()) {
        Some(text) => *text,
        None => "",
    }
}

/// Whether the text can be read as a value of the option.
pub fn can_read(option: Opt, text: &str) -> bool
    ensures { result ≡ reads_as (kind_of_option option) text.now }
{
    match option.kind() {
        Kind::Size => read_size(text).is_some(),
        Kind::Count | Kind::References => read_count(text).is_some(),
        Kind::Replacement => read_replacement(text).is_some(),
        Kind::Choice => read_choice(text).is_some(),
    }
}

/// The fault of an option whose text cannot be read.
pub fn unreadable_fault(option: Opt) -> WordsFault
    ensures { result ≡ refusal_by_option option }
{
    match option.kind() {
        Kind::Size | Kind::Count | Kind::References => WordsFault::Number(option),
        Kind::Replacement | Kind::Choice => WordsFault::Choice(option),
    }
}

/// The first option whose text cannot be read, of a list with a text for each option in their
/// order.
pub(crate) fn first_unreadable(texts: &[&str]) -> Option<Opt>
    ensures { result ≡ first_unreadable (text_at (map (λ t. t.now) texts.now)) options }
{
    for option in Opt::ALL {
        if !can_read(option, listed_text(texts, option)) {
            return Some(option);
        }
    }
    None
}
