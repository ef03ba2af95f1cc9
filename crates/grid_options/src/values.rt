//! The values of each option.

ghost use Rattle.std.specs.Prelude.{◌≡◌, ◌∷◌, ◌++◌, [], IfOk, OnOk, if◌then◌else◌, length, map};
ghost use Rattle.std.specs.Prelude.{nat_lt};
ghost use Rattle.std.specs.List.{list_all};
ghost use Rattle.clap.specs.Words.{found_of, rows_of};
ghost use Rattle.dinero_options.specs.Answer.{reads_as};
ghost use Rattle.dinero_options.specs.Options.{kind_of_option, options};
ghost use Rattle.grid_options.specs.Grid.{first_unreadable, grid_text, pieces, shown, values_of};
ghost use Rattle.grid_options.specs.Grid.{varied};

use crate::options::{SHARED, is_ring, takes_list};
use clap::ArgMatches;
use dinero_options::{Opt, can_read, matched_text};
use std::alloc::{AllocError, Global};

/// The text of an option in clap's matches; of the rings, their default.
fn grid_text<'a>(matches: &ArgMatches<'a>, option: Opt) -> &'a str
    ensures { result.now ≡ grid_text (rows_of (found_of matches.now)) option }
{
    if is_ring(option) {
        option.default().unwrap_or("")
    } else {
        matched_text(matches, option)
    }
}

/// The pieces of a text between its commas.
fn pieces<'a>(alloc: Global, text: &'a str) -> Result<Vec<&'a str>, AllocError>
    ensures { IfOk result (λ v. map (λ t. t.now) v.items ≡ pieces text.now) }
{
    text.split(',').collect(alloc)
}

/// A list of the text alone.
fn alone<'a>(alloc: Global, text: &'a str) -> Result<Vec<&'a str>, AllocError>
    ensures { IfOk result (λ v. map (λ t. t.now) v.items ≡ text.now ∷ []) }
{
    let mut values = Vec::new(alloc);
    values.push(text)?;
    Ok(values)
}

/// The values of an option: one for each piece of its text, if it may be a list.
pub(crate) fn values_in<'a>(
    alloc: Global,
    matches: &ArgMatches<'a>,
    option: Opt,
) -> Result<Vec<&'a str>, AllocError>
    ensures { IfOk result (λ v. map (λ t. t.now) v.items
        ≡ values_of (rows_of (found_of matches.now)) option) }
{
    let text = grid_text(matches, option);
    if takes_list(option) {
        pieces(alloc, text)
    } else {
        alone(alloc, text)
    }
}

/// Whether each of these values of an option can be read.
fn can_read_all(option: Opt, values: &[&str]) -> bool
    ensures { result ≡ list_all (reads_as (kind_of_option option)) (map (λ t. t.now) values.now) }
{
    values.iter().all(|value| can_read(option, *value))
}

/// The first option one of whose values cannot be read.
pub(crate) fn first_unreadable(
    alloc: Global,
    matches: &ArgMatches,
) -> Result<Option<Opt>, AllocError>
    ensures { IfOk result (λ first. first ≡ first_unreadable (rows_of (found_of matches.now))) }
{
    for option in Opt::ALL {
        let values = values_in(alloc, matches, option)?;
        if !can_read_all(option, values.as_slice()) {
            return Ok(Some(option));
        }
    }
    Ok(None)
}

/// Adds the option if it has two or more values.
fn add_varied(varied: &mut Vec<Opt>, option: Opt, values: &[&str]) -> Result<(), AllocError>
    ensures { OnOk result (varied.new.items ≡ varied.old.items
        ++ (if nat_lt 1 (length values.now) then option ∷ [] else [])) }
{
    if values.len() > 1 {
        varied.push(option)?;
    }
    Ok(())
}

/// The options with two or more values, in their order.
fn varied(alloc: Global, matches: &ArgMatches) -> Result<Vec<Opt>, AllocError>
    ensures { IfOk result (λ v. v.items ≡ varied (rows_of (found_of matches.now))) }
{
    let mut varied = Vec::new(alloc);
    for option in Opt::ALL {
        let values = values_in(alloc, matches, option)?;
        add_varied(&mut varied, option, values.as_slice())?;
    }
    Ok(varied)
}

/// The options that the points have words for: in a full table all that `dinero_pipe` has too, or
/// else those that vary.
pub(crate) fn shown(alloc: Global, matches: &ArgMatches, full: bool) -> Result<Vec<Opt>, AllocError>
    ensures { IfOk result (λ v. v.items ≡ shown full (rows_of (found_of matches.now))) }
{
    if full {
        Vec::from_slice(alloc, &SHARED)
    } else {
        varied(alloc, matches)
    }
}
