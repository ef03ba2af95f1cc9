//! The points of a grid: every choice of one value for each option.

ghost use Rattle.std.specs.Prelude.{◌≡◌, ◌⊎◌, ◌*◌, ◌<◌, ◌≤◌, ◌∷◌, ◌++◌, [], IfErr, IfOk, OnOk};
ghost use Rattle.std.specs.Prelude.{length, map, nat_lt};
ghost use Rattle.clap.specs.Words.{found_of, rows_of};
ghost use Rattle.grid_options.specs.Grid.{extended, memory, points_of};
ghost use Rattle.grid_options.specs.Points.{texts_of_points};
ghost use Rattle.grid_options.specs.declared.fault.GridWordsFault.TheVariants.{TooMany};

use crate::fault::{GridWordsFault, MEMORY};
use crate::values::values_in;
use clap::ArgMatches;
use dinero_options::Opt;
use std::alloc::{AllocError, Global};

/// The most configurations that a grid may have.
const MOST_POINTS: usize = 4096;

/// The point, and this value behind it.
fn longer<'a>(alloc: Global, point: &[&'a str], value: &'a str) -> Result<Vec<&'a str>, AllocError>
    ensures { IfOk result (λ v. map (λ t. t.now) v.items
        ≡ map (λ t. t.now) point.now ++ value.now ∷ []) }
{
    let mut texts = Vec::new(alloc);
    texts.extend_from_slice(point)?;
    texts.push(value)?;
    Ok(texts)
}

/// Adds the point with each of these values behind it.
fn add_points<'a>(
    alloc: Global,
    points: &mut Vec<Vec<&'a str>>,
    point: &[&'a str],
    values: &[&'a str],
) -> Result<(), AllocError>
    ensures { OnOk result (texts_of_points points.new.items
        ≡ texts_of_points points.old.items
        ++ map (λ v. map (λ t. t.now) point.now ++ v ∷ []) (map (λ t. t.now) values.now)) }
{
    for value in values {
        points.push(longer(alloc, point, *value)?)?;
    }
    Ok(())
}

/// Every point with each of these values behind it, in order.
fn extend<'a>(
    alloc: Global,
    points: &[Vec<&'a str>],
    values: &[&'a str],
) -> Result<Vec<Vec<&'a str>>, AllocError>
    ensures { IfOk result (λ v. texts_of_points v.items
        ≡ extended (texts_of_points points.now) (map (λ t. t.now) values.now)) }
{
    let mut made = Vec::new(alloc);
    for point in points {
        add_points(alloc, &mut made, point.as_slice(), values)?;
    }
    Ok(made)
}

/// The one point that has no value yet.
fn origin<'a>(alloc: Global) -> Result<Vec<Vec<&'a str>>, AllocError>
    ensures { IfOk result (λ v. texts_of_points v.items ≡ [] ∷ []) }
{
    let mut points = Vec::new(alloc);
    points.push(Vec::new(alloc))?;
    Ok(points)
}

/// Whether the points with each of these values behind them are more than a grid may have.
fn are_too_many(points: &[Vec<&str>], values: &[&str]) -> bool
    requires some { 1 ≤ length points.now }
    requires few { length points.now ≤ MOST_POINTS }
    ensures { result ≡ nat_lt MOST_POINTS (length points.now * length values.now) }
{
    if values.len() > MOST_POINTS {
        return true;
    }
    points.len() * values.len() > MOST_POINTS
}

/// All points of the grid that clap's matches ask for, each with a text for each option.
pub(crate) fn points_in<'a>(
    alloc: Global,
    matches: &ArgMatches<'a>,
) -> Result<Vec<Vec<&'a str>>, GridWordsFault>
    ensures points { IfOk result (λ v. texts_of_points v.items
        ≡ points_of (rows_of (found_of matches.now))) }
    ensures few { OnOk result (length (points_of (rows_of (found_of matches.now))) ≤ MOST_POINTS) }
    ensures fault { IfErr result (λ f. (f ≡ memory)
        ⊎ ((f ≡ TooMany) × (MOST_POINTS < length (points_of (rows_of (found_of matches.now)))))) }
{
    let Ok(mut points) = origin(alloc) else {
        return Err(MEMORY);
    };
    for option in Opt::ALL {
        let Ok(values) = values_in(alloc, matches, option) else {
            return Err(MEMORY);
        };
        let before = points.as_slice();
        let next = values.as_slice();
        if are_too_many(before, next) {
            return Err(GridWordsFault::TooMany);
        }
        let Ok(made) = extend(alloc, before, next) else {
            return Err(MEMORY);
        };
        points = made;
    }
    Ok(points)
}
