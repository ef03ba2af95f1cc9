//! Second levels that one thread serves.

ghost use Rattle.std.specs.Prelude.{◌≡◌, ℕ, List, IfOk, OnOk, map};
ghost use Rattle.std.specs.List.{All};
ghost use Rattle.grid_run.specs.Backs.{AreFewRequests, NothingWaits, RequestsFor, WereAsked};
ghost use Rattle.grid_run.specs.Backs.{back_task, no_requests, task_of_shelf};
ghost use Rattle.grid_run.specs.Banks.{each_of};

use crate::back::Back;
use crate::backs::back_for;
use crate::lists::add_to;
use crate::plan::BackShelf;
use crate::queue::Queue;
use cache_core::NoMemory;
use std::alloc::Global;

/// Second levels that one thread serves, one after another.
#[derive(Drop)]
pub(crate) struct Bank {
    pub backs: Vec<Back>,
}

/// The empty second levels of these shelves. Those beside one another share a queue where they
/// can.
fn backs_for(alloc: Global, shelves: &[BackShelf]) -> Result<Vec<Back>, NoMemory>
    ensures tasks { IfOk result (λ backs.
        each_of (map back_task backs.items) ≡ map task_of_shelf shelves.now) }
    ensures asked { IfOk result (λ backs. (blocks : List ℕ) →
        All (WereAsked blocks no_requests) backs.items) }
    ensures settled { IfOk result (λ backs. All NothingWaits backs.items) }
{
    let mut backs = Vec::new(alloc);
    let mut rest = shelves;
    'backs: while !rest.is_empty() {
        let back = back_for(alloc, rest)?;
        let (_, behind) = rest.split_at(back.users.len());
        add_to(&mut backs, back)?;
        rest = behind;
    }
    Ok(backs)
}

/// Serves all requests that wait, for one second level after another.
fn settle_backs(backs: &mut [Back]) -> Result<(), NoMemory>
    requires room { (blocks : List ℕ) × (all : RequestsFor) × All (WereAsked blocks all) backs.old
        × AreFewRequests all }
    ensures asked { OnOk result ((blocks : List ℕ) (all : RequestsFor) →
        All (WereAsked blocks all) backs.old → All (WereAsked blocks all) backs.new) }
    ensures settled { OnOk result (All NothingWaits backs.new) }
    ensures tasks { map back_task backs.new ≡ map back_task backs.old }
{
    for back in backs.iter_mut() {
        back.settle()?;
    }
    Ok(())
}

#[tactic(auto, unfolding(crate::specs::Banks::bank_task))]
impl Bank {
    ghost use Rattle.std.specs.Prelude.{◌≡◌, ℕ, List, IfOk, OnOk, map};
    ghost use Rattle.std.specs.List.{All};
    ghost use Rattle.grid_run.specs.Backs.{AreFewRequests, AreWaiting, HasNone, HasNumbers};
    ghost use Rattle.grid_run.specs.Backs.{RequestsFor, no_requests, queue_seats};
    ghost use Rattle.grid_run.specs.Backs.{seats_of_shared, task_of_shelf};
    ghost use Rattle.grid_run.specs.Banks.{NothingWaitsIn, WasAsked, bank_task, each_of};

    /// The empty second levels of these shelves.
    pub fn new(alloc: Global, shelves: &[BackShelf]) -> Result<Bank, NoMemory>
        ensures tasks { IfOk result (λ bank.
            each_of (bank_task bank) ≡ map task_of_shelf shelves.now) }
        ensures asked { IfOk result (λ bank. (blocks : List ℕ) → WasAsked blocks no_requests bank) }
        ensures settled { IfOk result NothingWaitsIn }
    {
        Ok(Bank {
            backs: backs_for(alloc, shelves)?,
        })
    }

    /// Each second level takes over what waits in the queue behind its seats.
    pub fn take_over(&mut self, queues: &mut [Queue])
        requires seats { map queue_seats queues.old ≡ map seats_of_shared (bank_task self.old) }
        requires settled { NothingWaitsIn self.old }
        ensures asked { (blocks : List ℕ) (served all : RequestsFor) →
            All (AreWaiting served all) queues.old → All (HasNumbers blocks) queues.old →
            WasAsked blocks served self.old → WasAsked blocks all self.new }
        ensures none { All HasNone queues.new }
        ensures queues { map queue_seats queues.new ≡ map queue_seats queues.old }
        ensures task { bank_task self.new ≡ bank_task self.old }
    {
        for (index, back) in self.backs.iter_mut().enumerate() {
            back.take_over(&mut queues[index]);
        }
    }

    /// How many requests wait.
    pub fn waiting(&self) -> usize {
        let mut sum = 0usize;
        for back in &self.backs {
            sum = sum.saturating_add(back.waiting());
        }
        sum
    }

    /// Serves all requests that wait.
    pub fn settle(&mut self) -> Result<(), NoMemory>
        requires room { (blocks : List ℕ) × (all : RequestsFor) × WasAsked blocks all self.old
            × AreFewRequests all }
        ensures asked { OnOk result ((blocks : List ℕ) (all : RequestsFor) →
            WasAsked blocks all self.old → WasAsked blocks all self.new) }
        ensures settled { OnOk result (NothingWaitsIn self.new) }
        ensures task { bank_task self.new ≡ bank_task self.old }
    {
        settle_backs(&mut self.backs)
    }
}
