//! The run on one thread.

ghost use Rattle.std.specs.Prelude.{◌≡◌, ◌<◌, ◌≤◌, ◌+◌, ◌*◌, ◌++◌, ◌∷◌, [], IfOk, OnOk, List};
ghost use Rattle.std.specs.Prelude.{length, option_to_list, false};
ghost use Rattle.std.specs.List.{flat_map, list_any};
ghost use Rattle.cache_core.specs.Standing.{rules_of, served_of};
ghost use Rattle.din_trace.specs.declared.record.DinRecord.{DinRecord};
ghost use Rattle.stage_core.specs.Events.{IsBounded, events};
ghost use Rattle.stage_core.specs.SecondLevel.{totals};
ghost use Rattle.stage_core.specs.Streams.{is_finish};
ghost use Rattle.stage_core.specs.Merging.{what_in};
ghost use Rattle.stage_core.specs.Config.{hierarchy_of};
ghost use Rattle.stage_core.specs.Standing.{StageStandsFor, L2StandsFor, IsReady, cache_of};
ghost use Rattle.stage_core.specs.Standing.{side_of, outbox_of, took_finish, l2_cache};
ghost use Rattle.stage_core.specs.Plain.{AreWanted, WantsAnswers, state_after, after_answers};
ghost use Rattle.stage_core.specs.Plain.{brought_from, hierarchy_in, Ran};
ghost use Rattle.stage_core.specs.declared.message.What.{What};
ghost use Rattle.stage_core.specs.declared.message.ToStage.{ToStage};

use crate::config::Config;
use crate::l1_stage::L1Stage;
use crate::l2_stage::L2Stage;
use crate::laws::{second_level_sees_at_most_two, selections_make_at_most_two};
use crate::memory::NoMemory;
use crate::merge::Merge;
use crate::message::{Side, ToStage};
use crate::selection::{Selection, Selector};
use crate::splitter::Splitter;
use crate::totals::Totals;
use cache_core::MAX_EVENTS;
use din_trace::{DinRecord, MAX_LIMIT};
use std::alloc::Global;

/// Gives a stage's whole outbox to the merge, and the requests in it to the second level.
#[inline(always)]
fn drain(stage: &mut L1Stage, merge: &mut Merge, u: &mut L2Stage) -> Result<(), NoMemory>
    requires wanted { AreWanted merge.old (outbox_of stage.old) }
    requires room { served_of (l2_cache u.old) + length (flat_map what_in (outbox_of stage.old))
        ≤ MAX_EVENTS }
    ensures empty { OnOk result (outbox_of stage.new ≡ []) }
    ensures merge { OnOk result (merge.new ≡ state_after merge.old (outbox_of stage.old)) }
    ensures second { OnOk result ((before : List What) → L2StandsFor u.old before →
        L2StandsFor u.new (before ++ flat_map what_in (outbox_of stage.old))) }
    ensures cache { cache_of stage.new ≡ cache_of stage.old }
    ensures side { side_of stage.new ≡ side_of stage.old }
    ensures finish { took_finish stage.new ≡ took_finish stage.old }
    ensures rules { rules_of (l2_cache u.new) ≡ rules_of (l2_cache u.old) }
{
    while let Some(message) = stage.outbox_next() {
        if let Some(what) = merge.take(message) {
            u.on(what)?;
        }
    }
    Ok(())
}

/// Gives a stage its message, if there is one, and the requests in the answer to the second level.
#[inline(always)]
fn serve_side(
    stage: &mut L1Stage,
    message: Option<ToStage>,
    merge: &mut Merge,
    u: &mut L2Stage,
) -> Result<(), NoMemory>
    requires ready { IsReady stage.old }
    requires goes_on { list_any is_finish (option_to_list message) ≡ false }
    requires wanted { WantsAnswers merge.old (option_to_list message) }
    requires room { served_of (cache_of stage.old) < MAX_EVENTS }
    requires room_above { (before : List ToStage) × StageStandsFor stage.old before
        × (served_of (l2_cache u.old) + length (brought_from stage.old before message)
        ≤ MAX_EVENTS) }
    ensures ready { OnOk result (IsReady stage.new) }
    ensures merge { OnOk result (merge.new ≡ after_answers merge.old (option_to_list message)) }
    ensures stands { OnOk result ((before : List ToStage) → StageStandsFor stage.old before →
        StageStandsFor stage.new (before ++ option_to_list message)) }
    ensures second { OnOk result ((before : List ToStage) (requests : List What) →
        StageStandsFor stage.old before → L2StandsFor u.old requests →
        L2StandsFor u.new (requests ++ brought_from stage.old before message)) }
    ensures side { side_of stage.new ≡ side_of stage.old }
    ensures rules { rules_of (cache_of stage.new) ≡ rules_of (cache_of stage.old) }
    ensures rules_above { rules_of (l2_cache u.new) ≡ rules_of (l2_cache u.old) }
{
    let Some(message) = message else {
        return Ok(());
    };
    stage.on(message)?;
    drain(stage, merge, u)
}

/// All machines of a run.
#[derive(Drop)]
struct Machines {
    splitter: Splitter,
    i: L1Stage,
    d: L1Stage,
    merge: Merge,
    u: L2Stage,
}

impl Machines {
    /// Simulates the next event.
    #[inline(always)]
    fn take(&mut self, event: DinRecord) -> Result<(), NoMemory>
        requires room { (es : List DinRecord) × Ran self.old es × (length es < 2 * MAX_LIMIT) }
        ensures ran { OnOk result ((es : List DinRecord) → Ran self.old es
            → Ran self.new (es ++ event ∷ [])) }
        ensures rules { hierarchy_in self.new ≡ hierarchy_in self.old }
    {
        second_level_sees_at_most_two();
        let routed = self.splitter.route(event);
        self.merge.turn(routed.turn);
        serve_side(&mut self.i, routed.i, &mut self.merge, &mut self.u)?;
        serve_side(&mut self.d, routed.d, &mut self.merge, &mut self.u)?;
        Ok(())
    }

    /// Simulates an event, if there is one.
    #[inline(always)]
    fn take_some(&mut self, event: Option<DinRecord>) -> Result<(), NoMemory>
        requires room { (es : List DinRecord) × Ran self.old es × (length es < 2 * MAX_LIMIT) }
        ensures ran { OnOk result ((es : List DinRecord) → Ran self.old es
            → Ran self.new (es ++ option_to_list event)) }
        ensures rules { hierarchy_in self.new ≡ hierarchy_in self.old }
    {
        let Some(event) = event else {
            return Ok(());
        };
        self.take(event)
    }

    /// Simulates the selected events of these records.
    fn run(&mut self, selection: Selection, records: &[DinRecord]) -> Result<(), NoMemory>
        requires start { Ran self.old [] }
        requires bounded { IsBounded selection }
        requires short { length records.now ≤ MAX_LIMIT }
        ensures ran { OnOk result (Ran self.new (events selection records.now)) }
        ensures rules { hierarchy_in self.new ≡ hierarchy_in self.old }
    {
        selections_make_at_most_two();
        let mut selector = Selector::new(selection);
        for next in records {
            let picked = selector.offer(*next);
            self.take_some(picked.event)?;
            self.take_some(picked.inserted())?;
        }
        Ok(())
    }

    /// The machines before the first event.
    fn new(alloc: Global, config: &Config) -> Result<Machines, NoMemory>
        ensures ran { IfOk result (λ machines. Ran machines []) }
        ensures rules { IfOk result (λ machines. hierarchy_in machines ≡ hierarchy_of config.now) }
    {
        let (i_geometry, i_policy) = config.i();
        let (d_geometry, d_policy) = config.d();
        let (u_geometry, u_policy) = config.u();
        Ok(Machines {
            splitter: Splitter::new(),
            i: L1Stage::new(alloc, Side::I, i_geometry, i_policy)?,
            d: L1Stage::new(alloc, Side::D, d_geometry, d_policy)?,
            merge: Merge::new(),
            u: L2Stage::new(alloc, u_geometry, u_policy)?,
        })
    }

    /// The counts so far.
    fn totals(&self) -> Totals
        ensures { (es : List DinRecord) → Ran self.now es
            → result ≡ totals (hierarchy_in self.now) es }
    {
        Totals {
            i: self.i.counts(),
            d: self.d.counts(),
            u: self.u.counts(),
        }
    }
}

/// Simulates the selected records of a trace on one thread, event by event. The totals are those
/// that the definitions give for the whole event list. `NoMemory` means that an allocation failed.
pub fn run_plain(
    alloc: Global,
    config: &Config,
    selection: &Selection,
    records: &[DinRecord],
) -> Result<Totals, NoMemory>
    requires bounded { IsBounded selection.now }
    requires short { length records.now ≤ MAX_LIMIT }
    ensures { IfOk result (λ counted. counted ≡ totals (hierarchy_of config.now)
        (events selection.now records.now)) }
{
    let mut machines = Machines::new(alloc, config)?;
    machines.run(*selection, records)?;
    Ok(machines.totals())
}
