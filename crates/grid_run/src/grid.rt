//! The grid that is asked for.

use stage_core::{Config, Selection};

/// What stands behind a row: a configuration to simulate over a part of the trace, or the text of
/// the fault for which it was refused.
#[derive(Debug, Drop)]
pub enum Setup {
    /// A configuration to simulate, and which part of the trace.
    Simulated(Config, Selection),
    /// The text of the fault. It has no tab and no end of a line, or else the table has them too.
    Refused(String),
}

/// A row of a grid.
#[derive(Debug, Drop)]
pub struct Row {
    /// The words that the row begins with, one for each name of the grid, or else the table has
    /// lines of several lengths. For tabs and ends of lines, see [`Setup::Refused`].
    pub words: Vec<String>,
    /// What stands behind the row.
    pub setup: Setup,
}

/// Which columns a table has.
#[derive(Clone, Copy, Debug, PartialEq, Eq)]
pub enum Columns {
    /// Each count over all classes.
    Plain,
    /// The same, and after each count of accesses or misses those of the four classes.
    Full,
}

/// A grid: the names of the words of its rows, its columns, and its rows in their order.
#[derive(Debug, Drop)]
pub struct Grid {
    /// The names of the options that the rows have words of, without the two hyphens in front;
    /// without tabs and ends of lines, too.
    pub names: Vec<String>,
    /// The columns of its table.
    pub columns: Columns,
    /// The rows.
    pub rows: Vec<Row>,
}
