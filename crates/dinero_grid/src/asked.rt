//! From the points that a command line asks for to the rows of a table.

ghost use Rattle.std.specs.Prelude.{◌≡◌, IfOk};
ghost use Rattle.std.specs.List.{All, AllZip};
ghost use Rattle.stage_core.specs.Events.{IsBounded};
ghost use Rattle.grid_run.specs.Grids.{HasBoundedRows, IsBoundedRow, IsBoundedSetup};
ghost use Rattle.dinero_grid.specs.AskedRows.{IsBoundedPoint, IsGridFor, IsRowOf, IsSetupOf};
ghost use Rattle.dinero_grid.specs.AskedRows.{columns_for, has_refused};

use dinero_options::config_text;
use grid_options::{GridPoint, ParsedGrid};
use grid_run::{Columns, Grid, Row, Setup};
use stage_core::{Config, ConfigFault, Selection};
use std::alloc::{AllocError, Global};

/// What a row asks for: a simulation, or the text of why its configuration is refused.
fn setup_of(
    alloc: Global,
    selection: Selection,
    config: Result<Config, ConfigFault>,
) -> Result<Setup, AllocError>
    requires { IsBounded selection }
    ensures setup { IfOk result (IsSetupOf selection config) }
    ensures bound { IfOk result IsBoundedSetup }
{
    match config {
        Ok(config) => Ok(Setup::Simulated(config, selection)),
        Err(fault) => Ok(Setup::Refused(config_text(alloc, fault)?)),
    }
}

/// The row of a point.
fn row_of(alloc: Global, point: GridPoint) -> Result<Row, AllocError>
    requires { IsBoundedPoint point }
    ensures row { IfOk result (IsRowOf point) }
    ensures bound { IfOk result IsBoundedRow }
{
    let GridPoint {
        words,
        selection,
        config,
    } = point;
    let setup = setup_of(alloc, selection, config)?;
    Ok(Row { words, setup })
}

/// The row of each point.
fn rows_of(alloc: Global, points: Vec<GridPoint>) -> Result<Vec<Row>, AllocError>
    requires { All IsBoundedPoint points.items }
    ensures rows { IfOk result (λ rows. AllZip IsRowOf points.items rows.items) }
    ensures bound { IfOk result (λ rows. All IsBoundedRow rows.items) }
{
    let mut rows = Vec::new(alloc);
    for point in points {
        rows.push(row_of(alloc, point)?)?;
    }
    Ok(rows)
}

/// The columns of a table that is full or not.
fn columns_for(full: bool) -> Columns
    ensures { result ≡ columns_for full }
{
    if full { Columns::Full } else { Columns::Plain }
}

/// The grid whose table is asked for.
pub(crate) fn grid_for(alloc: Global, asked: ParsedGrid) -> Result<Grid, AllocError>
    requires { All IsBoundedPoint asked.points.items }
    ensures grid { IfOk result (IsGridFor asked) }
    ensures bound { IfOk result HasBoundedRows }
{
    let ParsedGrid {
        names,
        points,
        threads: _,
        full,
    } = asked;
    let rows = rows_of(alloc, points)?;
    Ok(Grid {
        names,
        columns: columns_for(full),
        rows,
    })
}

/// Whether the configuration of some point was refused.
pub(crate) fn has_refused(points: &[GridPoint]) -> bool
    ensures { result ≡ has_refused points.now }
{
    points.iter().any(|point| point.config.is_err())
}
