//! The caches of the rows of one portion of the grid that have one selection.

use crate::bank::Bank;
use crate::banks::{back_at, banks_for, settle_on, take_over_all};
use crate::beside::take_on;
use crate::figures::{Figures, ShadowMisses};
use crate::first_levels::FirstLevels;
use crate::plan::{LanePlan, Place};
use crate::queues::much_waits;
use cache_core::NoMemory;
use din_trace::{DinRecord, MAX_LIMIT};
use stage_core::{Totals, second_level_sees_at_most_two, selections_make_at_most_two};
use std::alloc::Global;
use std::thread::Threads;

/// First-level caches, and the second levels behind them.
#[derive(Drop)]
pub(crate) struct Lane {
    first: FirstLevels,
    banks: Vec<Bank>,
}

#[tactic(auto, unfolding(crate::specs::Lanes::lane_task, crate::specs::Lanes::task_of_plan))]
impl Lane {
    ghost use Rattle.std.specs.Prelude.{◌≡◌, ◌+◌, ◌≤◌, ◌++◌, [], List, IfOk, OnOk, length};
    ghost use Rattle.din_trace.specs.declared.record.DinRecord.{DinRecord};
    ghost use Rattle.stage_core.specs.Events.{IsBounded, events};
    ghost use Rattle.stage_core.specs.SecondLevel.{Hierarchy};
    ghost use Rattle.stage_core.specs.declared.selection.Selection.{Selection};
    ghost use Rattle.grid_run.specs.Grids.{figures_of};
    ghost use Rattle.grid_run.specs.Lanes.{AllLevelsHaveServed, AreIdle, FirstLevelsHaveServed};
    ghost use Rattle.grid_run.specs.Lanes.{HasGiven, IsPlaced, lane_task, task_of_plan};
    ghost use Rattle.grid_run.specs.Rows.{IsPlaceIn};

    /// The empty caches of a plan, for so many threads.
    pub fn new(alloc: Global, plan: &LanePlan, threads: usize) -> Result<Lane, NoMemory>
        requires bounded { IsBounded plan.now.selection }
        requires placed { IsPlaced (task_of_plan plan.now) }
        ensures taken { IfOk result (FirstLevelsHaveServed []) }
        ensures task { IfOk result (λ lane. lane_task lane ≡ task_of_plan plan.now) }
    {
        let banks = banks_for(alloc, &plan.backs, threads)?;
        let first = FirstLevels::new(alloc, plan, &banks)?;
        Ok(Lane { first, banks })
    }

    /// The first levels take records, and beside that the second levels serve what they were given.
    fn work<T: Threads + Sync>(
        &mut self,
        rt: &T,
        threads: usize,
        part: &[DinRecord],
    ) -> Result<(), NoMemory>
        requires room { (records : List DinRecord) × FirstLevelsHaveServed records self.old
            × (length records + length part.now ≤ MAX_LIMIT) }
        ensures given { OnOk result ((past records : List DinRecord) →
            HasGiven past records self.old → HasGiven past (records ++ part.now) self.new) }
        ensures idle { OnOk result (AreIdle self.new) }
        ensures task { lane_task self.new ≡ lane_task self.old }
    {
        selections_make_at_most_two();
        second_level_sees_at_most_two();
        take_on(rt, threads, &mut self.banks, &mut self.first, part)
    }

    /// The second levels serve what they were given.
    fn serve<T: Threads + Sync>(&mut self, rt: &T, threads: usize) -> Result<(), NoMemory>
        requires room { (records : List DinRecord) × FirstLevelsHaveServed records self.old
            × (length records ≤ MAX_LIMIT) }
        ensures given { OnOk result ((past records : List DinRecord) →
            HasGiven past records self.old → HasGiven past records self.new) }
        ensures idle { OnOk result (AreIdle self.new) }
        ensures task { lane_task self.new ≡ lane_task self.old }
    {
        selections_make_at_most_two();
        second_level_sees_at_most_two();
        settle_on(rt, threads, &mut self.banks)
    }

    /// The second levels, which are idle, are given all that waits in the queues. The queues get
    /// their empty lists.
    fn pass_on(&mut self)
        requires taken { (records : List DinRecord) × FirstLevelsHaveServed records self.old }
        requires idle { AreIdle self.old }
        ensures given { (past records : List DinRecord) → HasGiven past records self.old
            → HasGiven records records self.new }
        ensures task { lane_task self.new ≡ lane_task self.old }
    {
        take_over_all(&mut self.first.queues, &mut self.banks);
    }

    /// Serves all that waits for the second levels.
    pub fn settle<T: Threads + Sync>(&mut self, rt: &T, threads: usize) -> Result<(), NoMemory>
        requires room { (records : List DinRecord) × FirstLevelsHaveServed records self.old
            × (length records ≤ MAX_LIMIT) }
        ensures settled { OnOk result ((records : List DinRecord)
            → FirstLevelsHaveServed records self.old
            → AllLevelsHaveServed records self.new) }
        ensures task { lane_task self.new ≡ lane_task self.old }
    {
        self.serve(rt, threads)?;
        self.pass_on();
        self.serve(rt, threads)
    }

    /// Serves all that waits for the second levels, and gives the lists back to the queues, so that
    /// each queue does with one list.
    pub fn catch_up<T: Threads + Sync>(&mut self, rt: &T, threads: usize) -> Result<(), NoMemory>
        requires room { (records : List DinRecord) × FirstLevelsHaveServed records self.old
            × (length records ≤ MAX_LIMIT) }
        ensures given { OnOk result ((records : List DinRecord)
            → FirstLevelsHaveServed records self.old
            → HasGiven records records self.new) }
        ensures task { lane_task self.new ≡ lane_task self.old }
    {
        self.settle(rt, threads)?;
        self.pass_on();
        Ok(())
    }

    /// Takes records in their order. What they ask of the second levels may wait until more records
    /// are taken, or until it is settled. One thread lets it wait until it is much.
    pub fn take<T: Threads + Sync>(
        &mut self,
        rt: &T,
        threads: usize,
        part: &[DinRecord],
    ) -> Result<(), NoMemory>
        requires room { (records : List DinRecord) × FirstLevelsHaveServed records self.old
            × (length records + length part.now ≤ MAX_LIMIT) }
        ensures taken { OnOk result ((records : List DinRecord)
            → FirstLevelsHaveServed records self.old
            → FirstLevelsHaveServed (records ++ part.now) self.new) }
        ensures task { lane_task self.new ≡ lane_task self.old }
    {
        self.work(rt, threads, part)?;
        if threads > 1 {
            self.pass_on();
            return Ok(());
        }
        if much_waits(&self.first.queues) {
            return self.catch_up(rt, threads);
        }
        Ok(())
    }

    /// What the caches of a row have counted.
    pub fn figures(&self, place: &Place) -> Figures
        requires { (c : Hierarchy) × (s : Selection)
            × IsPlaceIn (lane_task self.now) c s place.now }
        ensures { (c : Hierarchy) (s : Selection) (past : List DinRecord) →
            IsPlaceIn (lane_task self.now) c s place.now → AllLevelsHaveServed past self.now →
            result ≡ figures_of c (events s past) }
    {
        let i = &self.first.i[place.i.family].family;
        let d = &self.first.d[place.d.family].family;
        let (back, user) = back_at(&self.banks, place.u.family);
        let u = &back.second.caches;
        Figures {
            totals: Totals {
                i: i.counts(place.i.cell),
                d: d.counts(place.d.cell),
                u: u.counts(user, place.u.cell),
            },
            shadows: ShadowMisses {
                i: i.shadow_misses(place.i.cell),
                d: d.shadow_misses(place.d.cell),
                u: u.shadow_misses(user, place.u.cell),
            },
        }
    }
}
