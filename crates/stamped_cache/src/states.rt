//! What each cache knows of each block, by the number of the block.

ghost use Rattle.std.specs.Prelude.{◌≡◌, ◌≤◌, ◌*◌, ℕ, length, get_or};
ghost use Rattle.stamped_cache.specs.declared.state.State.TheVariants.{Absent};

use crate::state::State;
use std::alloc::{AllocError, Global};

/// For each block by number, its states in all caches stand together.
#[derive(Drop)]
pub(crate) struct States {
    users: usize,
    blocks: usize,
    states: Vec<State>,
    ghost wide: { length states.items ≡ blocks * users },
    ghost few: { users ≤ 32 },
}

/// Lets all blocks be absent.
fn forget_each(states: &mut Vec<State>)
    ensures all { (i : ℕ) → get_or states.new.items i Absent ≡ Absent }
    ensures len { length states.new.items ≡ length states.old.items }
{
    for state in states.iter_mut() {
        *state = State::Absent;
    }
}

#[tactic(auto, unfolding(crate::specs::States::states_of, crate::specs::States::state_users, crate::specs::States::state_blocks))]
impl States {
    ghost use Rattle.std.specs.Prelude.{◌≡◌, ◌<◌, ◌≤◌, ◌+◌, ◌*◌, ◌^◌, ◌==◌, ◌&&◌, ℕ};
    ghost use Rattle.std.specs.Prelude.{if◌then◌else◌, OnOk};
    ghost use Rattle.stamped_cache.specs.declared.state.State.TheVariants.{Absent, Written};
    ghost use Rattle.stamped_cache.specs.States.{state_blocks, state_users, states_of};

    /// All blocks are absent in so many caches.
    pub fn new(alloc: Global, users: usize) -> States
        requires { users ≤ 32 }
        ensures none { (q n : ℕ) → states_of result q n ≡ Absent }
        ensures users { state_users result ≡ users }
    {
        States {
            users,
            blocks: 0,
            states: Vec::new(alloc),
        }
    }

    /// Makes room for the states of a block.
    #[inline(always)]
    pub fn grow(&mut self, number: usize) -> Result<(), AllocError>
        requires { number < 2 ^ 32 }
        ensures room { OnOk result (number < state_blocks self.new) }
        ensures same { (q n : ℕ) → q < state_users self.old →
            states_of self.new q n ≡ states_of self.old q n }
        ensures users { state_users self.new ≡ state_users self.old }
    {
        if number < self.blocks {
            return Ok(());
        }
        self.grow_to(number + 1)
    }

    /// Makes room for the states of so many blocks. Not inlined, so that a block that has states is
    /// served by less code.
    #[inline(never)]
    fn grow_to(&mut self, blocks: usize) -> Result<(), AllocError>
        requires few { blocks ≤ 2 ^ 32 }
        requires more { state_blocks self.old ≤ blocks }
        ensures room { OnOk result (state_blocks self.new ≡ blocks) }
        ensures same { (q n : ℕ) → q < state_users self.old →
            states_of self.new q n ≡ states_of self.old q n }
        ensures users { state_users self.new ≡ state_users self.old }
    {
        self.states.resize(blocks * self.users, State::Absent)?;
        self.blocks = blocks;
        Ok(())
    }

    /// Where the states of a block begin.
    #[inline(always)]
    pub fn first(&self, number: usize) -> usize
        requires { number < state_blocks self.now }
        ensures { result ≡ number * state_users self.now }
    {
        number * self.users
    }

    /// The state of a block in a cache, by its place.
    #[inline(always)]
    pub fn at(&self, place: usize) -> State
        requires { place < state_blocks self.now * state_users self.now }
        ensures { (q n : ℕ) → place ≡ n * state_users self.now + q →
            result ≡ states_of self.now q n }
    {
        self.states[place]
    }

    /// Lets the block whose state has this place be written, if this is a write.
    #[inline(always)]
    pub fn note_write(&mut self, place: usize, write: bool)
        requires { place < state_blocks self.old * state_users self.old }
        ensures notes { (q n : ℕ) → states_of self.new q n
            ≡ (if n * state_users self.old + q == place && write then Written
            else states_of self.old q n) }
        ensures users { state_users self.new ≡ state_users self.old }
        ensures blocks { state_blocks self.new ≡ state_blocks self.old }
    {
        if write {
            self.states[place] = State::Written;
        }
    }

    /// The state of a block in a cache.
    pub fn of(&self, number: usize, user: usize) -> State
        requires { user < state_users self.now }
        ensures { result ≡ states_of self.now user number }
    {
        if number < self.blocks {
            return self.states[number * self.users + user];
        }
        State::Absent
    }

    /// Sets the state of a block in a cache.
    pub fn set(&mut self, number: usize, user: usize, state: State)
        requires user { user < state_users self.old }
        requires room { number < state_blocks self.old }
        ensures sets { (q n : ℕ) → q < state_users self.old → states_of self.new q n
            ≡ (if number == n && user == q then state else states_of self.old q n) }
        ensures users { state_users self.new ≡ state_users self.old }
        ensures blocks { state_blocks self.new ≡ state_blocks self.old }
    {
        self.states[number * self.users + user] = state;
    }

    /// Lets a block be absent in a cache.
    pub fn remove(&mut self, number: usize, user: usize)
        requires { user < state_users self.old }
        ensures removes { (q n : ℕ) → q < state_users self.old → states_of self.new q n
            ≡ (if number == n && user == q then Absent else states_of self.old q n) }
        ensures users { state_users self.new ≡ state_users self.old }
        ensures blocks { state_blocks self.new ≡ state_blocks self.old }
    {
        if number < self.blocks {
            self.set(number, user, State::Absent);
        }
    }

    /// Lets all blocks be absent.
    pub fn forget_all(&mut self)
        ensures none { (q n : ℕ) → states_of self.new q n ≡ Absent }
        ensures users { state_users self.new ≡ state_users self.old }
    {
        forget_each(&mut self.states);
    }
}
