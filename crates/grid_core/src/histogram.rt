//! How often the accesses to the rows of one number of sets found their blocks where.

ghost use Rattle.std.specs.Prelude.{◌≡◌, ◌<◌, ◌≤◌, ◌+◌, ◌^◌, ◌&&◌, ℕ, map, not, nat_lt};
ghost use Rattle.std.specs.Prelude.{drop, length, replicate, IfOk};
ghost use Rattle.std.specs.List.{All};
ghost use Rattle.cache_core.specs.Counts.{none_by_class};
ghost use Rattle.cache_core.specs.Counting.{IsWithin, with_one};
ghost use Rattle.cache_core.specs.History.{is_write};
ghost use Rattle.grid_core.specs.Totals.{listed_counts, past, total};

use crate::sums::{count_at, plus, sum_from, zeros};
use cache_core::{Access, MAX_EVENTS, PerClass};
use std::alloc::{AllocError, Global};

/// The accesses to the rows of one number of sets, by class: those that did not find their blocks
/// first in their rows, and the writes that did not find them dirty in all numbers of ways.
#[derive(Drop)]
pub(crate) struct Histogram {
    ways: usize,
    levels: usize,
    /// By the stack distance of the block, and then by its level in the shadows.
    distances: Vec<Vec<PerClass>>,
    /// By the number of ways up to which the block was not dirty.
    first_writes: Vec<PerClass>,
    ghost tall: { length distances.items ≡ ways + 1 },
    ghost wide: { All (λ n. n ≡ levels) (map length (map listed_counts distances.items)) },
    ghost long: { length first_writes.items ≡ ways + 1 },
}

/// So many tables of so many counts, all zero.
fn tables(alloc: Global, rows: usize, levels: usize) -> Result<Vec<Vec<PerClass>>, AllocError>
    ensures { IfOk result (λ v. map listed_counts v.items
        ≡ replicate rows (replicate levels none_by_class)) }
{
    let mut tables = Vec::new(alloc);
    for _ in 0..rows {
        tables.push(zeros(alloc, levels)?)?;
    }
    Ok(tables)
}

/// The counts of the tables from a distance and from a level on, added.
fn sum_past(tables: &[Vec<PerClass>], distance: usize, level: usize) -> PerClass
    requires distance { distance ≤ length tables.now }
    requires level { All (λ counts. level ≤ length counts) (map listed_counts tables.now) }
    requires within { IsWithin (past distance level (map listed_counts tables.now)) MAX_EVENTS }
    ensures { result ≡ past distance level (map listed_counts tables.now) }
{
    let mut sum = PerClass::default();
    for place in distance..tables.len() {
        sum = plus(sum, sum_from(&tables[place], level));
    }
    sum
}

/// Adds one in the table of a distance, at a level, in the class of the access.
fn count_past(tables: &mut [Vec<PerClass>], distance: usize, level: usize, access: Access)
    requires distance { distance < length tables.old }
    requires level { All (λ counts. level < length counts) (map listed_counts tables.old) }
    requires within { IsWithin (past 0 0 (map listed_counts tables.old)) MAX_EVENTS }
    ensures past { (n k : ℕ) → past n k (map listed_counts tables.new)
        ≡ with_one access (not (nat_lt distance n) && not (nat_lt level k))
        (past n k (map listed_counts tables.old)) }
    ensures wide { map length (map listed_counts tables.new)
        ≡ map length (map listed_counts tables.old) }
{
    count_at(&mut tables[distance], level, access);
}

/// The same for a vector.
fn count_past_in(tables: &mut Vec<Vec<PerClass>>, distance: usize, level: usize, access: Access)
    requires distance { distance < length tables.old.items }
    requires level { All (λ counts. level < length counts) (map listed_counts tables.old.items) }
    requires within { IsWithin (past 0 0 (map listed_counts tables.old.items)) MAX_EVENTS }
    ensures past { (n k : ℕ) → past n k (map listed_counts tables.new.items)
        ≡ with_one access (not (nat_lt distance n) && not (nat_lt level k))
        (past n k (map listed_counts tables.old.items)) }
    ensures wide { map length (map listed_counts tables.new.items)
        ≡ map length (map listed_counts tables.old.items) }
{
    count_past(tables, distance, level, access);
}

/// Counts an access whose block had this stack distance, unless it was first in its row.
fn count_distance(tables: &mut Vec<Vec<PerClass>>, distance: usize, level: usize, access: Access)
    requires distance { distance < length tables.old.items }
    requires level { All (λ counts. level < length counts) (map listed_counts tables.old.items) }
    requires within { IsWithin (past 0 0 (map listed_counts tables.old.items)) MAX_EVENTS }
    ensures past { (n k : ℕ) → 0 < n → past n k (map listed_counts tables.new.items)
        ≡ with_one access (not (nat_lt distance n) && not (nat_lt level k))
        (past n k (map listed_counts tables.old.items)) }
    ensures bounds { (b : ℕ) → IsWithin (past 0 0 (map listed_counts tables.old.items)) b →
        IsWithin (past 0 0 (map listed_counts tables.new.items)) (b + 1) }
    ensures wide { map length (map listed_counts tables.new.items)
        ≡ map length (map listed_counts tables.old.items) }
{
    if distance > 0 {
        count_past_in(tables, distance, level, access);
    }
}

/// Counts an access whose block was not dirty in up to `clean` ways, if it is a write.
fn count_first(counts: &mut Vec<PerClass>, clean: usize, access: Access)
    requires clean { clean < length counts.old.items }
    requires within { IsWithin (total counts.old.items) MAX_EVENTS }
    ensures first { (n : ℕ) → 0 < n → total (drop n counts.new.items) ≡ with_one access
        (is_write access && not (nat_lt clean n)) (total (drop n counts.old.items)) }
    ensures bounds { (b : ℕ) → IsWithin (total counts.old.items) b →
        IsWithin (total counts.new.items) (b + 1) }
    ensures len { length counts.new.items ≡ length counts.old.items }
{
    if clean > 0 && access.writes() {
        count_at(counts, clean, access);
    }
}

impl Histogram {
    ghost use Rattle.std.specs.Prelude.{◌≡◌, ◌<◌, ◌≤◌, ◌+◌, ◌^◌, ◌&&◌, ℕ, not, nat_lt, IfOk};
    ghost use Rattle.cache_core.specs.Counts.{none_by_class};
    ghost use Rattle.cache_core.specs.Counting.{with_one};
    ghost use Rattle.cache_core.specs.History.{is_write};
    ghost use Rattle.grid_core.specs.Histograms.{past_in, first_in, histogram_levels};
    ghost use Rattle.grid_core.specs.Histograms.{histogram_ways, IsWithinHistogram};

    /// A histogram of nothing, for so many ways and levels.
    pub fn new(alloc: Global, ways: usize, levels: usize) -> Result<Histogram, AllocError>
        requires { ways < 2 ^ 32 }
        ensures past { IfOk result (λ t. (n k : ℕ) → past_in t n k ≡ none_by_class) }
        ensures first { IfOk result (λ t. (n : ℕ) → first_in t n ≡ none_by_class) }
        ensures levels { IfOk result (λ t. histogram_levels t ≡ levels) }
        ensures ways { IfOk result (λ t. histogram_ways t ≡ ways) }
    {
        let distances = tables(alloc, ways + 1, levels)?;
        Ok(Histogram {
            ways,
            levels,
            distances,
            first_writes: zeros(alloc, ways + 1)?,
        })
    }

    /// Counts an access whose block had this stack distance, the number of ways if it was not in
    /// its row; which was not dirty in up to `clean` ways, and had this level in the shadows.
    pub fn note(&mut self, distance: usize, clean: usize, level: usize, access: Access)
        requires distance { distance ≤ histogram_ways self.old }
        requires clean { clean ≤ histogram_ways self.old }
        requires level { level < histogram_levels self.old }
        requires within { (n : ℕ) × IsWithinHistogram n self.old × (n < MAX_EVENTS) }
        ensures past { (n k : ℕ) → 0 < n → past_in self.new n k ≡ with_one access
            (not (nat_lt distance n) && not (nat_lt level k)) (past_in self.old n k) }
        ensures first { (n : ℕ) → 0 < n → first_in self.new n ≡ with_one access
            (is_write access && not (nat_lt clean n)) (first_in self.old n) }
        ensures bounds { (n : ℕ) → IsWithinHistogram n self.old →
            IsWithinHistogram (n + 1) self.new }
        ensures levels { histogram_levels self.new ≡ histogram_levels self.old }
        ensures ways { histogram_ways self.new ≡ histogram_ways self.old }
    {
        count_distance(&mut self.distances, distance, level, access);
        count_first(&mut self.first_writes, clean, access);
    }

    /// The accesses that missed in so many ways, of which there is one or more, and in the first
    /// `level` of the shadows.
    pub fn past(&self, ways: usize, level: usize) -> PerClass
        requires ways { ways ≤ histogram_ways self.now }
        requires level { level ≤ histogram_levels self.now }
        requires within { IsWithinHistogram MAX_EVENTS self.now }
        ensures { result ≡ past_in self.now ways level }
    {
        sum_past(&self.distances, ways, level)
    }

    /// How many writes found their block not dirty in so many ways, of which there is one or more.
    pub fn first_writes(&self, ways: usize) -> u64
        requires ways { ways ≤ histogram_ways self.now }
        requires within { IsWithinHistogram MAX_EVENTS self.now }
        ensures { result ≡ (first_in self.now ways).write }
    {
        sum_from(&self.first_writes, ways).write
    }
}
