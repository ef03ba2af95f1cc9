//! From the words after the program's name to a grid.

ghost use Rattle.std.specs.Prelude.{◌≡◌, ◌⊎◌, All, Err, IfOk, Some, map, string_bytes};
ghost use Rattle.clap.specs.Words.{found_of, rows_of};
ghost use Rattle.stage_core.specs.Events.{IsBounded};
ghost use Rattle.grid_options.specs.Grid.{AnswersGrid, AnswersGridWords, IsGridOf, memory};
ghost use Rattle.grid_options.specs.Points.{texts_of_points};
ghost use Rattle.grid_options.specs.Grid.{points_of};
ghost use Rattle.grid_options.specs.Own.{threads_of};

use crate::command::grid_command;
use crate::fault::{GridWordsFault, MEMORY};
use crate::grid::{ParsedGrid, names_of, read_points};
use crate::own::{full_in, threads_in};
use crate::product::points_in;
use crate::values::{first_unreadable, shown};
use clap::ArgMatches;
use dinero_options::{take_words, unreadable_fault};
use std::alloc::{AllocError, Global};

/// The grid of these points.
fn grid_of(
    alloc: Global,
    matches: &ArgMatches,
    points: &[Vec<&str>],
    threads: usize,
) -> Result<ParsedGrid, AllocError>
    requires points { texts_of_points points.now
        ≡ points_of (rows_of (found_of matches.now)) }
    requires threads { Some threads ≡ threads_of (rows_of (found_of matches.now)) }
    ensures { IfOk result (λ grid. IsGridOf (rows_of (found_of matches.now)) grid) }
{
    let full = full_in(matches);
    let shown = shown(alloc, matches, full)?;
    let names = names_of(alloc, shown.as_slice())?;
    let points = read_points(alloc, full, shown.as_slice(), points)?;
    Ok(ParsedGrid {
        names,
        points,
        threads,
        full,
    })
}

/// The grid that clap's matches ask for.
fn answer(alloc: Global, matches: &ArgMatches) -> Result<ParsedGrid, GridWordsFault>
    ensures { (result ≡ Err memory) ⊎ AnswersGrid (rows_of (found_of matches.now)) result }
{
    let Ok(first) = first_unreadable(alloc, matches) else {
        return Err(MEMORY);
    };
    if let Some(option) = first {
        return Err(GridWordsFault::Words(unreadable_fault(option)));
    }
    let Some(threads) = threads_in(matches) else {
        return Err(GridWordsFault::Threads);
    };
    let points = points_in(alloc, matches)?;
    grid_of(alloc, matches, points.as_slice(), threads).or(Err(MEMORY))
}

/// Reads the words after the program's name. Each number of a selection is at most 2^40. If an
/// allocation fails, `Words(Memory)` may be the answer instead of any other.
pub fn parse_grid_words(alloc: Global, words: &[String]) -> Result<ParsedGrid, GridWordsFault>
    ensures answer { AnswersGridWords (map string_bytes words.now) result }
    ensures bound { IfOk result (λ g. All (λ p. IsBounded p.selection) g.points.items) }
{
    let Ok(command) = grid_command(alloc) else {
        return Err(MEMORY);
    };
    match take_words(command, words) {
        Ok(matches) => answer(alloc, &matches),
        Err(fault) => Err(GridWordsFault::Words(fault)),
    }
}
