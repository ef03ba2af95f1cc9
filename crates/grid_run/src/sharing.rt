//! How the rows of a grid are divided into portions.

ghost use Rattle.std.specs.Prelude.{◌≡◌, IfOk, length};

use crate::grid::{Row, Setup};
use crate::lists::add_to;
use cache_core::NoMemory;
use stage_core::Config;
use std::alloc::Global;

/// A row that is simulated: its index, how many sets its first-level caches have, and its group.
#[derive(Clone, Copy, Debug)]
struct RowSets {
    row: usize,
    i_sets: u64,
    d_sets: u64,
    group: usize,
}

/// The configuration of a row, if it was not refused.
fn config_of(row: &Row) -> Option<&Config> {
    match &row.setup {
        Setup::Simulated(config, _) => Some(config),
        Setup::Refused(_) => None,
    }
}

/// The rows that are simulated, in their order, not yet in groups.
fn simulated_rows(alloc: Global, rows: &[Row]) -> Result<Vec<RowSets>, NoMemory> {
    let mut simulated = Vec::new(alloc);
    for (row, asked) in rows.iter().enumerate() {
        if let Some(config) = config_of(asked) {
            let one = RowSets {
                row,
                i_sets: config.i().0.sets(),
                d_sets: config.d().0.sets(),
                group: 0,
            };
            add_to(&mut simulated, one)?;
        }
    }
    Ok(simulated)
}

/// The rows that are simulated, in the order of the numbers of sets of their data caches, and where
/// these are alike, of their instruction caches. Else they keep their order.
fn by_sets(alloc: Global, rows: &[Row]) -> Result<Vec<RowSets>, NoMemory> {
    let mut ordered = simulated_rows(alloc, rows)?;
    if ordered.sort_by_key(|one| one.i_sets).is_err() {
        return Err(NoMemory);
    }
    if ordered.sort_by_key(|one| one.d_sets).is_err() {
        return Err(NoMemory);
    }
    Ok(ordered)
}

/// Whether two configurations have the same first-level caches, so that one engine may serve their
/// second levels.
fn share_first_level(one: Option<&Config>, other: Option<&Config>) -> bool {
    match (one, other) {
        (Some(one), Some(other)) => one.i() == other.i() && one.d() == other.d(),
        _ => false,
    }
}

/// Numbers the groups from 0, and answers how many there are, or 1 if there is no row. Rows beside
/// one another that have the same first-level caches are a group.
fn number_groups(rows: &[Row], ordered: &mut [RowSets]) -> usize {
    let mut group = 0usize;
    let mut last = None;
    for one in ordered.iter_mut() {
        let config = rows.get(one.row).and_then(config_of);
        if last.is_some() && !share_first_level(last, config) {
            group = group.saturating_add(1);
        }
        one.group = group;
        last = config;
    }
    group.saturating_add(1)
}

/// The portion of a group, of so many, if there are `count` groups. A group is not divided: its
/// second levels are cheaper together. Groups beside one another have more in common, so each
/// portion has runs of them. It has two, one from each half of the groups: the small caches, which
/// send most to their second levels, often stand at one end. A group goes where its middle is. If
/// there are no more groups than portions, each has its own.
fn portion_of(group: usize, count: usize, portions: usize) -> usize {
    if portions == 0 {
        return 0;
    }
    if count <= portions {
        return group;
    }
    let middle = group.saturating_mul(2).saturating_add(1);
    let part = middle.saturating_mul(portions) / count;
    if part < portions {
        part
    } else {
        (portions - 1).saturating_sub(part - portions)
    }
}

/// Notes the portion of each of these rows, which are so many groups.
fn note_portions(ordered: &[RowSets], count: usize, portions: usize, noted: &mut [usize])
    ensures { length noted.new ≡ length noted.old }
{
    for one in ordered {
        if one.row < noted.len() {
            noted[one.row] = portion_of(one.group, count, portions);
        }
    }
}

/// In which order the rows are planned, and in which portion each of them is.
#[derive(Drop)]
pub(crate) struct Sharing {
    /// The rows that are simulated, by their indices.
    pub order: Vec<usize>,
    /// The portion of each row. That of one that was refused does not matter.
    pub portions: Vec<usize>,
}

/// Divides the rows into so many portions. Data caches with the same number of sets share rows of
/// blocks, so most of them go to one portion, and stand beside one another there.
pub(crate) fn share_rows(alloc: Global, rows: &[Row], portions: usize) -> Result<Sharing, NoMemory>
    ensures { IfOk result (λ sharing. length sharing.portions.items ≡ length rows.now) }
{
    let mut ordered = by_sets(alloc, rows)?;
    let count = number_groups(rows, &mut ordered);
    let mut noted = Vec::new(alloc);
    if noted.resize(rows.len(), 0).is_err() {
        return Err(NoMemory);
    }
    note_portions(&ordered, count, portions, &mut noted);
    let Ok(order) = ordered.iter().map(|one| one.row).collect(alloc) else {
        return Err(NoMemory);
    };
    Ok(Sharing {
        order,
        portions: noted,
    })
}
