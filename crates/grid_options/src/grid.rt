//! A grid: its points, each with what it asks for.

ghost use Rattle.std.specs.Prelude.{◌≡◌, IfOk, map, string_bytes};
ghost use Rattle.std.specs.List.{AllZip};
ghost use Rattle.dinero_options.specs.Answer.{settings_at, text_at};
ghost use Rattle.dinero_options.specs.Options.{id_of};
ghost use Rattle.grid_options.specs.Grid.{IsConfigured, IsPoint, words_of};
ghost use Rattle.grid_options.specs.Points.{texts_of_points};
ghost use Rattle.grid_options.specs.Written.{written};

use crate::written::written;
use dinero_options::{Opt, Settings, listed_text, settings_in};
use stage_core::{Config, ConfigFault, Selection};
use std::alloc::{AllocError, Global};

/// A point of a grid.
#[derive(Debug, Drop)]
pub struct GridPoint {
    /// The values of the options that are named, as they were given; in a full table numbers in
    /// decimal digits, of sizes their bytes, and letters.
    pub words: Vec<String>,
    /// Which references are simulated.
    pub selection: Selection,
    /// The configuration, or the first rule that it breaks.
    pub config: Result<Config, ConfigFault>,
}

/// A grid: the options that its table names, and every choice of one value for each option. The
/// value of the last option that varies changes from point to point.
#[derive(Debug, Drop)]
pub struct ParsedGrid {
    /// The names of the options that have two or more values, without the two hyphens in front; in
    /// a full table those of all options but `--threads` and `--full`.
    pub names: Vec<String>,
    /// The points.
    pub points: Vec<GridPoint>,
    /// How many threads simulate, at most 1,024; 0 for one on each core that it may use.
    pub threads: usize,
    /// Whether the table is full: all options but `--threads` and `--full` have columns, and counts
    /// those of their classes.
    pub full: bool,
}

/// The names of these options.
pub(crate) fn names_of(alloc: Global, shown: &[Opt]) -> Result<Vec<String>, AllocError>
    ensures { IfOk result (λ names. map string_bytes names.items ≡ map id_of shown.now) }
{
    let mut names = Vec::new(alloc);
    for option in shown {
        names.push(String::from_str(alloc, option.id())?)?;
    }
    Ok(names)
}

/// The texts of these options.
fn shown_texts(alloc: Global, shown: &[Opt], texts: &[&str]) -> Result<Vec<String>, AllocError>
    ensures { IfOk result (λ words. map string_bytes words.items
        ≡ map (text_at (map (λ t. t.now) texts.now)) shown.now) }
{
    let mut words = Vec::new(alloc);
    for option in shown {
        words.push(String::from_str(alloc, listed_text(texts, *option))?)?;
    }
    Ok(words)
}

/// What these options are set to.
fn shown_values(alloc: Global, shown: &[Opt], settings: Settings) -> Result<Vec<String>, AllocError>
    ensures { IfOk result (λ words. map string_bytes words.items
        ≡ map (written settings) shown.now) }
{
    let mut words = Vec::new(alloc);
    for option in shown {
        words.push(written(alloc, settings, *option)?)?;
    }
    Ok(words)
}

/// The words of the point that has these texts and so these settings.
fn words_of(
    alloc: Global,
    full: bool,
    shown: &[Opt],
    texts: &[&str],
    settings: Settings,
) -> Result<Vec<String>, AllocError>
    requires { settings ≡ settings_at (text_at (map (λ t. t.now) texts.now)) }
    ensures { IfOk result (λ words. map string_bytes words.items
        ≡ words_of full shown.now (map (λ t. t.now) texts.now)) }
{
    if full {
        shown_values(alloc, shown, settings)
    } else {
        shown_texts(alloc, shown, texts)
    }
}

/// The configuration with these settings, or the first rule that they break.
fn configured(settings: Settings) -> Result<Config, ConfigFault>
    ensures { IsConfigured settings result }
{
    Config::new(settings.i, settings.d, settings.u, settings.ring)
}

/// The point that has these texts.
fn point_of(
    alloc: Global,
    full: bool,
    shown: &[Opt],
    texts: &[&str],
) -> Result<GridPoint, AllocError>
    ensures { IfOk result (λ p. IsPoint full shown.now (map (λ t. t.now) texts.now) p) }
{
    let settings = settings_in(texts);
    let words = words_of(alloc, full, shown, texts, settings)?;
    Ok(GridPoint {
        words,
        selection: settings.selection,
        config: configured(settings),
    })
}

/// What each of these points asks for.
pub(crate) fn read_points(
    alloc: Global,
    full: bool,
    shown: &[Opt],
    points: &[Vec<&str>],
) -> Result<Vec<GridPoint>, AllocError>
    ensures { IfOk result (λ v. AllZip (IsPoint full shown.now)
        (texts_of_points points.now) v.items) }
{
    let mut read = Vec::new(alloc);
    for texts in points {
        read.push(point_of(alloc, full, shown, texts.as_slice())?)?;
    }
    Ok(read)
}
