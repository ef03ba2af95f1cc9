//! The caches of second levels that share a queue, and the requests that wait for them.

use crate::numbered::Numbered;
use crate::second_caches::SecondCaches;
use cache_core::NoMemory;
use std::alloc::Global;
use std::mem::swap;

/// Second-level caches of one block size and one policy. Requests wait until `settle` serves them
/// in one go: while it does, what these caches need stays in the processor's own caches.
#[derive(Drop)]
pub(crate) struct Second {
    pub caches: SecondCaches,
    waiting: Vec<Numbered>,
}

impl Second {
    ghost use Rattle.std.specs.Prelude.{◌≡◌, ◌<◌, ◌≤◌, ◌^◌, ◌++◌, [], List, ℕ, OnOk, length};
    ghost use Rattle.std.specs.List.{All};
    ghost use Rattle.stage_core.specs.declared.message.What.{What};
    ghost use Rattle.grid_run.specs.Numbering.{IsNumbered, sent_to};
    ghost use Rattle.grid_run.specs.SecondCaches.{SecondStandsBy, second_bsize, second_rules};
    ghost use Rattle.grid_run.specs.SecondCaches.{second_users};
    ghost use Rattle.grid_run.specs.Sending.{NothingWaitsFor, SecondAsked};

    /// Empty caches, for which nothing waits.
    pub fn new(alloc: Global, caches: SecondCaches) -> Second
        ensures asked { (blocks : List ℕ) →
            ((q : ℕ) → q < second_users caches → SecondStandsBy blocks caches q []) →
            SecondAsked blocks (λ q. []) result }
        ensures settled { NothingWaitsFor result }
        ensures caches { result.caches ≡ caches }
    {
        Second {
            caches,
            waiting: Vec::new(alloc),
        }
    }

    /// Exchanges the requests that wait, of which there are none here, for others.
    pub fn swap_waiting(&mut self, waiting: &mut Vec<Numbered>)
        requires settled { NothingWaitsFor self.old }
        ensures asked { (blocks : List ℕ) (ws : ℕ → List What) →
            All (IsNumbered blocks (second_bsize self.old.caches)) waiting.old.items →
            SecondAsked blocks ws self.old →
            SecondAsked blocks (λ q. ws q ++ sent_to q waiting.old.items) self.new }
        ensures none { waiting.new.items ≡ [] }
        ensures caches { self.new.caches ≡ self.old.caches }
    {
        swap(&mut self.waiting, waiting);
    }

    /// How many requests wait.
    pub fn waiting(&self) -> usize
        ensures { result ≡ length self.now.waiting.items }
    {
        self.waiting.len()
    }

    /// Serves all requests that wait.
    pub fn settle(&mut self) -> Result<(), NoMemory>
        requires room { (blocks : List ℕ) × (ws : ℕ → List What) × SecondAsked blocks ws self.old
            × ((q : ℕ) → length (ws q) ≤ 2 ^ 44) }
        ensures asked { OnOk result ((blocks : List ℕ) (ws : ℕ → List What) →
            SecondAsked blocks ws self.old → SecondAsked blocks ws self.new) }
        ensures settled { OnOk result (NothingWaitsFor self.new) }
        ensures users { second_users self.new.caches ≡ second_users self.old.caches }
        ensures bsize { second_bsize self.new.caches ≡ second_bsize self.old.caches }
        ensures rules { second_rules self.new.caches ≡ second_rules self.old.caches }
    {
        self.caches.serve_each(&self.waiting)?;
        self.waiting.clear();
        Ok(())
    }
}
