//! Which blocks each set of each cache holds, by their numbers.

ghost use Rattle.std.specs.Prelude.{◌≡◌, ◌≤◌, ◌<◌, ◌+◌, ◌*◌, ◌^◌, length, replicate, IfOk};
ghost use Rattle.std.specs.List.{All};

use std::alloc::{AllocError, Global};

/// The numbers of the blocks in each row, in any order. Each set of each cache has a row.
#[derive(Drop)]
pub(crate) struct Rows {
    ways: usize,
    /// As many numbers for each row as a set has ways. The first of them, as many as are `filled`,
    /// are those of blocks.
    numbers: Vec<u32>,
    /// For each row, how many blocks it has.
    filled: Vec<u32>,
    ghost wide: { length numbers.items ≡ length filled.items * ways },
    ghost low: { All (λ n. n ≤ ways) filled.items },
    ghost narrow: { ways ≤ 2 ^ 24 },
}

/// So many zeros.
fn zeros(alloc: Global, count: usize) -> Result<Vec<u32>, AllocError>
    ensures { IfOk result (λ v. v.items ≡ replicate count 0) }
{
    let mut zeros = Vec::new(alloc);
    zeros.resize(count, 0)?;
    Ok(zeros)
}

/// Empties all rows.
fn empty_each(filled: &mut Vec<u32>)
    ensures { filled.new.items ≡ replicate (length filled.old.items) 0 }
{
    for count in filled.iter_mut() {
        *count = 0;
    }
}

#[tactic(auto, unfolding(crate::specs::Rows::row_held, crate::specs::Rows::rows_in, crate::specs::Rows::set_ways))]
impl Rows {
    ghost use Rattle.std.specs.Prelude.{◌≡◌, ◌≢◌, ◌<◌, ◌≤◌, ◌+◌, ◌*◌, ◌^◌, ◌++◌, ◌∷◌, [], ℕ};
    ghost use Rattle.std.specs.Prelude.{length, get_or, set as set_at, IfOk};
    ghost use Rattle.stamped_cache.specs.Rows.{row_held, rows_in, set_ways};

    /// So many empty rows, of so many ways.
    pub fn new(alloc: Global, rows: usize, ways: usize) -> Result<Rows, AllocError>
        requires few { rows * ways ≤ 2 ^ 29 }
        requires narrow { ways ≤ 2 ^ 24 }
        ensures empty { IfOk result (λ made. (s : ℕ) → row_held made s ≡ []) }
        ensures rows { IfOk result (λ made. rows_in made ≡ rows) }
        ensures ways { IfOk result (λ made. set_ways made ≡ ways) }
    {
        Ok(Rows {
            ways,
            numbers: zeros(alloc, rows * ways)?,
            filled: zeros(alloc, rows)?,
        })
    }

    /// The numbers of the blocks in a row, in any order.
    pub fn held(&self, row: usize) -> &[u32]
        requires { row < rows_in self.now }
        ensures held { result.now ≡ row_held self.now row }
        ensures few { length result.now ≤ set_ways self.now }
    {
        let first = row * self.ways;
        &self.numbers[first..first + self.filled[row] as usize]
    }

    /// How many ways a set has.
    pub fn ways(&self) -> usize
        ensures { result ≡ set_ways self.now }
    {
        self.ways
    }

    /// Adds the number of a block to a row that has room.
    pub fn add(&mut self, row: usize, number: u32)
        requires inside { row < rows_in self.old }
        requires room { length (row_held self.old row) < set_ways self.old }
        ensures added { row_held self.new row ≡ row_held self.old row ++ number ∷ [] }
        ensures others { (t : ℕ) → t ≢ row → row_held self.new t ≡ row_held self.old t }
        ensures rows { rows_in self.new ≡ rows_in self.old }
        ensures ways { set_ways self.new ≡ set_ways self.old }
    {
        let count = self.filled[row];
        self.numbers[row * self.ways + count as usize] = number;
        self.filled[row] = count + 1;
    }

    /// Puts the number of a block in the place of the one at an index, which it answers.
    pub fn replace(&mut self, row: usize, index: usize, number: u32) -> u32
        requires inside { row < rows_in self.old }
        requires held { index < length (row_held self.old row) }
        ensures was { result ≡ get_or (row_held self.old row) index 0 }
        ensures replaced { row_held self.new row
            ≡ set_at (row_held self.old row) index number }
        ensures others { (t : ℕ) → t ≢ row → row_held self.new t ≡ row_held self.old t }
        ensures rows { rows_in self.new ≡ rows_in self.old }
        ensures ways { set_ways self.new ≡ set_ways self.old }
    {
        let place = row * self.ways + index;
        let was = self.numbers[place];
        self.numbers[place] = number;
        was
    }

    /// Empties all rows.
    pub fn clear(&mut self)
        ensures empty { (s : ℕ) → row_held self.new s ≡ [] }
        ensures rows { rows_in self.new ≡ rows_in self.old }
        ensures ways { set_ways self.new ≡ set_ways self.old }
    {
        empty_each(&mut self.filled);
    }
}
