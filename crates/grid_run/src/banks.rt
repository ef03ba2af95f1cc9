//! The second levels of a lane.

ghost use Rattle.std.specs.Prelude.{◌≡◌, ◌<◌, ◌++◌, ℕ, List, IfOk, OnOk, length, map};
ghost use Rattle.std.specs.List.{All};
ghost use Rattle.grid_run.specs.Backs.{AreFewRequests, AreWaiting, HasNone, HasNumbers};
ghost use Rattle.grid_run.specs.Backs.{NothingWaits, RequestsFor, WereAsked, back_task};
ghost use Rattle.grid_run.specs.Backs.{no_requests, queue_seats, seats_of_shared, task_of_shelf};
ghost use Rattle.grid_run.specs.Banks.{HaveServed, IsUserAt, NothingWaitsIn, WasAsked, bank_task};
ghost use Rattle.grid_run.specs.Banks.{each_of, tasks_of_banks};

use crate::back::Back;
use crate::bank::Bank;
use crate::lists::add_to;
use crate::plan::BackShelf;
use crate::queue::Queue;
use cache_core::NoMemory;
use std::alloc::Global;
use std::thread::{Threads, join_mut};

/// So many threads can work for one lane: one for its first levels, which are at least a third of
/// all the work, and two for its second levels.
const MOST_HELPFUL: usize = 3;

/// Of `count` second levels, how many are a bank: there are at most two banks for each of so many
/// threads, of which no more than `MOST_HELPFUL` count.
fn size_of_bank(count: usize, threads: usize) -> usize
    ensures { 0 < result }
{
    if threads < 2 {
        return count.max(1);
    }
    count.div_ceil(threads.min(MOST_HELPFUL) * 2).max(1)
}

/// The empty second levels of these shelves, for so many threads.
pub(crate) fn banks_for(
    alloc: Global,
    shelves: &[BackShelf],
    threads: usize,
) -> Result<Vec<Bank>, NoMemory>
    ensures tasks { IfOk result (λ banks.
        each_of (tasks_of_banks banks.items) ≡ map task_of_shelf shelves.now) }
    ensures asked { IfOk result (λ banks. (blocks : List ℕ) →
        All (WasAsked blocks no_requests) banks.items) }
{
    let size = size_of_bank(shelves.len(), threads);
    let mut banks = Vec::new(alloc);
    let mut rest = shelves;
    'banks: while !rest.is_empty() {
        let (part, behind) = rest.split_at(size.min(rest.len()));
        add_to(&mut banks, Bank::new(alloc, part)?)?;
        rest = behind;
    }
    Ok(banks)
}

/// All second levels take over what waits in the queues, each from the queue behind its seats.
pub(crate) fn take_over_all(queues: &mut [Queue], banks: &mut [Bank])
    requires seats { map queue_seats queues.old ≡ map seats_of_shared (tasks_of_banks banks.old) }
    requires settled { All NothingWaitsIn banks.old }
    ensures asked { (blocks : List ℕ) (served all : RequestsFor) →
        All (AreWaiting served all) queues.old → All (HasNumbers blocks) queues.old →
        All (WasAsked blocks served) banks.old → All (WasAsked blocks all) banks.new }
    ensures none { All HasNone queues.new }
    ensures queues { map queue_seats queues.new ≡ map queue_seats queues.old }
    ensures tasks { map bank_task banks.new ≡ map bank_task banks.old }
{
    let Some((bank, banks)) = banks.split_first_mut() else {
        return;
    };
    let (near, queues) = queues.split_at_mut(bank.backs.len());
    bank.take_over(near);
    take_over_all(queues, banks);
}

/// How many requests wait for second levels.
pub(crate) fn waiting_for(banks: &[Bank]) -> usize {
    let mut sum = 0usize;
    for bank in banks {
        sum = sum.saturating_add(bank.waiting());
    }
    sum
}

/// Serves all requests that wait, for one bank after another.
pub(crate) fn settle_all(banks: &mut [Bank]) -> Result<(), NoMemory>
    requires room { (blocks : List ℕ) × (all : RequestsFor)
        × All (WasAsked blocks all) banks.old × AreFewRequests all }
    ensures served { OnOk result (HaveServed banks.old banks.new) }
    ensures tasks { map bank_task banks.new ≡ map bank_task banks.old }
{
    for bank in banks.iter_mut() {
        bank.settle()?;
    }
    Ok(())
}

/// Serves all requests that wait for two runs of banks, each run in a thread of its own.
fn settle_both<T: Threads + Sync>(
    rt: &T,
    front: &mut [Bank],
    behind: &mut [Bank],
) -> Result<(), NoMemory>
    requires front { (blocks : List ℕ) × (all : RequestsFor)
        × All (WasAsked blocks all) front.old × AreFewRequests all }
    requires behind { (blocks : List ℕ) × (all : RequestsFor)
        × All (WasAsked blocks all) behind.old × AreFewRequests all }
    ensures front { OnOk result (HaveServed front.old front.new) }
    ensures behind { OnOk result (HaveServed behind.old behind.new) }
    ensures tasks { (map bank_task front.new ≡ map bank_task front.old)
        × (map bank_task behind.new ≡ map bank_task behind.old) }
{
    let (one, other) = join_mut(
        rt,
        &mut ||
            requires { (blocks : List ℕ) × (all : RequestsFor)
                × All (WasAsked blocks all) front.now × AreFewRequests all }
        { settle_all(front) },
        &mut ||
            requires { (blocks : List ℕ) × (all : RequestsFor)
                × All (WasAsked blocks all) behind.now × AreFewRequests all }
        { settle_all(behind) },
    );
    one?;
    other
}

/// Serves all requests that wait for these banks: in two threads, if two may work and there are two
/// banks.
pub(crate) fn settle_on<T: Threads + Sync>(
    rt: &T,
    threads: usize,
    banks: &mut [Bank],
) -> Result<(), NoMemory>
    requires room { (blocks : List ℕ) × (all : RequestsFor)
        × All (WasAsked blocks all) banks.old × AreFewRequests all }
    ensures served { OnOk result (HaveServed banks.old banks.new) }
    ensures tasks { map bank_task banks.new ≡ map bank_task banks.old }
{
    if threads < 2 || banks.len() < 2 {
        return settle_all(banks);
    }
    let (front, behind) = banks.split_at_mut(banks.len() / 2);
    settle_both(rt, front, behind)
}

/// The user at an index, of those of these second levels, and then of all banks: of which second
/// levels it is one, and which of their users.
fn user_from<'a>(backs: &'a [Back], banks: &'a [Bank], index: usize) -> (&'a Back, usize)
    requires { index
        < length (each_of (map back_task backs.now ++ tasks_of_banks banks.now)) }
    ensures user { IsUserAt (each_of (map back_task backs.now ++ tasks_of_banks banks.now))
        index result.0.now result.1 }
    ensures asked { (blocks : List ℕ) (all : RequestsFor) → All (WereAsked blocks all) backs.now →
        All (WasAsked blocks all) banks.now → WereAsked blocks all result.0.now }
    ensures settled { All NothingWaits backs.now → All NothingWaitsIn banks.now →
        NothingWaits result.0.now }
{
    let Some((back, others)) = backs.split_first() else {
        let Some((bank, behind)) = banks.split_first() else {
            unreachable!()
        };
        return user_from(&bank.backs, behind, index);
    };
    let count = back.users.len();
    if index < count {
        return (back, index);
    }
    user_from(others, banks, index - count)
}

/// The user at an index, of those of all banks: of which second levels, and which of their users.
pub(crate) fn back_at(banks: &[Bank], index: usize) -> (&Back, usize)
    requires { index < length (each_of (tasks_of_banks banks.now)) }
    ensures user { IsUserAt (each_of (tasks_of_banks banks.now)) index result.0.now result.1 }
    ensures asked { (blocks : List ℕ) (all : RequestsFor) →
        All (WasAsked blocks all) banks.now → WereAsked blocks all result.0.now }
    ensures settled { All NothingWaitsIn banks.now → NothingWaits result.0.now }
{
    user_from(&[], banks, index)
}
