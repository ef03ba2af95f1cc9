//! The stamps that each user of a log has of the blocks.

ghost use Rattle.std.specs.Prelude.{◌≡◌, ◌<◌, ◌≤◌, ◌*◌, length};

use std::alloc::{AllocError, Global};

/// The stamp of a block that a user never used.
pub(crate) const NEVER: u32 = u32::MAX;

/// The stamp of a block whose uses were forgotten. A place is less.
pub(crate) const FORGOTTEN: u32 = u32::MAX - 1;

/// For each block by number, the stamps of all users stand together: the place of the last use in
/// the log, or `FORGOTTEN`, or `NEVER`.
#[derive(Drop)]
pub(crate) struct Stamps {
    users: usize,
    blocks: usize,
    stamps: Vec<u32>,
    ghost wide: { length stamps.items ≡ blocks * users },
    ghost few: { users ≤ 32 },
}

#[tactic(auto, unfolding(crate::specs::Stamps::stamps_of, crate::specs::Stamps::users_in, crate::specs::Stamps::blocks_in))]
impl Stamps {
    ghost use Rattle.std.specs.Prelude.{◌≡◌, ◌<◌, ◌≤◌, ◌==◌, ◌&&◌, ℕ, if◌then◌else◌, OnOk, get_or};
    ghost use Rattle.std.specs.Prelude.{length};
    ghost use Rattle.marked_list.specs.Uses.{dead, never, stamp_at};
    ghost use Rattle.shared_list.specs.Stamps.{blocks_in, stamps_of, users_in};

    /// No stamps yet, for so many users.
    pub fn new(alloc: Global, users: usize) -> Stamps
        requires { users ≤ 32 }
        ensures none { (q n : ℕ) → stamp_at (stamps_of result q) n ≡ never }
        ensures users { users_in result ≡ users }
    {
        Stamps {
            users,
            blocks: 0,
            stamps: Vec::new(alloc),
        }
    }

    /// The stamp that a user has of a block for which there is room.
    #[inline(always)]
    pub fn of(&self, number: usize, user: usize) -> u32
        requires user { user < users_in self.now }
        requires room { number < blocks_in self.now }
        ensures { result ≡ stamp_at (stamps_of self.now user) number }
    {
        self.stamps[number * self.users + user]
    }

    /// The stamp that a user has of a block.
    pub fn at(&self, number: usize, user: usize) -> u32
        requires { user < users_in self.now }
        ensures { result ≡ stamp_at (stamps_of self.now user) number }
    {
        if number < self.blocks {
            return self.of(number, user);
        }
        NEVER
    }

    /// Makes room for the stamps of a block.
    #[inline(always)]
    pub fn grow(&mut self, number: usize) -> Result<(), AllocError>
        requires { number < dead }
        ensures room { OnOk result (number < blocks_in self.new) }
        ensures more { blocks_in self.old ≤ blocks_in self.new }
        ensures kept { (q n : ℕ) → q < users_in self.old →
            stamp_at (stamps_of self.new q) n ≡ stamp_at (stamps_of self.old q) n }
        ensures users { users_in self.new ≡ users_in self.old }
    {
        if number < self.blocks {
            return Ok(());
        }
        self.grow_to(number + 1)
    }

    /// Makes room for the stamps of so many blocks. Not inlined, so that a block that has stamps is
    /// served by less code.
    #[inline(never)]
    fn grow_to(&mut self, blocks: usize) -> Result<(), AllocError>
        requires few { blocks ≤ dead }
        requires more { blocks_in self.old ≤ blocks }
        ensures room { OnOk result (blocks_in self.new ≡ blocks) }
        ensures more { blocks_in self.old ≤ blocks_in self.new }
        ensures kept { (q n : ℕ) → q < users_in self.old →
            stamp_at (stamps_of self.new q) n ≡ stamp_at (stamps_of self.old q) n }
        ensures users { users_in self.new ≡ users_in self.old }
    {
        self.stamps.resize(blocks * self.users, NEVER)?;
        self.blocks = blocks;
        Ok(())
    }

    /// Sets the stamp that a user has of a block.
    #[inline(always)]
    pub fn set(&mut self, number: usize, user: usize, stamp: u32)
        requires user { user < users_in self.old }
        requires room { number < blocks_in self.old }
        ensures set { (q n : ℕ) → q < users_in self.old → stamp_at (stamps_of self.new q) n
            ≡ (if number == n && user == q then stamp else stamp_at (stamps_of self.old q) n) }
        ensures blocks { blocks_in self.new ≡ blocks_in self.old }
        ensures users { users_in self.new ≡ users_in self.old }
    {
        self.stamps[number * self.users + user] = stamp;
    }

    /// Of some blocks, the index of the first of which a user has the least stamp.
    pub fn least(&self, user: usize, numbers: &[u32]) -> usize
        requires user { user < users_in self.now }
        requires some { 0 < length numbers.now }
        ensures inside { result < length numbers.now }
        ensures least { (k : ℕ) → k < length numbers.now →
            stamp_at (stamps_of self.now user) (get_or numbers.now result 0)
            ≤ stamp_at (stamps_of self.now user) (get_or numbers.now k 0) }
    {
        let mut found = 0;
        let mut least = self.at(numbers[0] as usize, user);
        for index in 1..numbers.len() {
            let stamp = self.at(numbers[index] as usize, user);
            if stamp < least {
                least = stamp;
                found = index;
            }
        }
        found
    }
}
