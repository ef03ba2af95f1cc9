//! The run in four threads: starts the threads, feeds them, joins them and checks the rings.

ghost use Rattle.std.specs.Prelude.{◌≡◌, ◌≤◌, ◌⊎◌, List, ℕ, Option, None, IfOk, IfErr, IsOk};
ghost use Rattle.std.specs.Prelude.{OnOk, Ok, Err, true};
ghost use Rattle.pipe_rings.specs.Rings.{outbox_for};
ghost use Rattle.din_trace.specs.Text.{Remaining};
ghost use Rattle.din_trace.specs.Remaining.{Script, Fate, Follows};
ghost use Rattle.din_trace.specs.Source.{HasLeft, Takes, fault_in};
ghost use Rattle.din_trace.specs.declared.fault.TraceFault.{TraceFault};
ghost use Rattle.din_trace.specs.declared.record.DinRecord.{DinRecord};
ghost use Rattle.stage_core.specs.Config.{hierarchy_of, ring_of};
ghost use Rattle.stage_core.specs.Events.{IsBounded};
ghost use Rattle.stage_core.specs.Waiting.{HasPosted};
ghost use Rattle.run_threads.specs.Faults.{IsFaultOfThreads, IsTold, MayAnswer, rank, source_fault};
ghost use Rattle.run_threads.specs.Ends.{AllReceived, ArePaired, AreUnused, HaveCapacity};
ghost use Rattle.run_threads.specs.Ends.{HaveOutboxes, SameRings};
ghost use Rattle.run_threads.specs.Machines.{AreNew, hierarchy_in, machines_at, rings_at};
ghost use Rattle.run_threads.specs.Runs.{HasRun, RunsOver};
ghost use Rattle.run_threads.specs.Waits.{splitter_at};

use crate::ends::{Rings, SplitterEnds};
use crate::fault::{RunFault, gravest};
use crate::feed::Feed;
use crate::gap::gap;
use crate::gate::{Gate, Who};
use crate::joins::{all_ended, give_up, join_merge, join_stage, why_stopped};
use crate::merge_thread::{MergeHandle, start_merge};
use crate::split::split;
use crate::stage_thread::{StageHandle, start_stage};
use crate::waits::BodyRuntime;
use din_trace::{ByteReader, Source};
use pipe_rings::OUTBOX;
use stage_core::{
    Config, L1Stage, L2Stage, NoMemory, Selection, Side, Totals, merge_takes_the_requests,
    stages_answer_their_streams,
};
use std::alloc::Global;
use std::sync::Wait;
use std::thread;
use std::thread::{Scope, Threads};

/// The result of a successful run: the counts, and the rings that carried its messages.
#[derive(Drop)]
pub struct Settled {
    /// The counts of the three caches.
    pub totals: Totals,
    pub rings: Rings,
}

/// The machines that are moved into threads of their own.
#[derive(Drop)]
pub struct Machines {
    pub i: L1Stage,
    pub d: L1Stage,
    pub u: L2Stage,
}

impl Machines {
    fn new(alloc: Global, config: &Config) -> Result<Machines, NoMemory>
        ensures new { IfOk result (λ machines. AreNew machines) }
        ensures rules { IfOk result (λ machines. hierarchy_in machines ≡ hierarchy_of config.now) }
    {
        let (i_geometry, i_policy) = config.i();
        let (d_geometry, d_policy) = config.d();
        let (u_geometry, u_policy) = config.u();
        let _gap_before_i = gap(alloc)?;
        let i = L1Stage::new(alloc, Side::I, i_geometry, i_policy)?;
        let _gap_before_d = gap(alloc)?;
        let d = L1Stage::new(alloc, Side::D, d_geometry, d_policy)?;
        let _gap_before_u = gap(alloc)?;
        let u = L2Stage::new(alloc, u_geometry, u_policy)?;
        Ok(Machines { i, d, u })
    }
}

/// Makes the rings and the machines of a run. Each outbox has room for `outbox` messages, but for
/// at least 1 and at most [`OUTBOX`].
pub fn prepare(alloc: Global, config: &Config, outbox: usize) -> Result<(Machines, Rings), NoMemory>
    ensures new { IfOk result (λ r. AreNew r.0) }
    ensures rules { IfOk result (λ r. hierarchy_in r.0 ≡ hierarchy_of config.now) }
    ensures paired { IfOk result (λ r. ArePaired r.1) }
    ensures unused { IfOk result (λ r. AreUnused r.1) }
    ensures capacity { IfOk result (λ r. HaveCapacity (ring_of config.now) r.1) }
    ensures outboxes { IfOk result (λ r. HaveOutboxes (outbox_for outbox) r.1) }
{
    let Ok(rings) = Rings::new(alloc, config.ring(), outbox) else {
        return Err(NoMemory);
    };
    let machines = Machines::new(alloc, config)?;
    Ok((machines, rings))
}

/// A run whose threads were started, with the ends that feed them.
#[derive(Drop)]
pub struct Started {
    pub splitter: SplitterEnds,
    pub i: StageHandle,
    pub d: StageHandle,
    pub merge: MergeHandle,
}

/// Starts the three threads. If one cannot be started, all ends are dropped, so that the threads
/// that were started end too.
fn start<'s, E, T: Threads, H: Wait + Sync, G: Gate>(
    scope: &Scope<'s, E>,
    rt: &T,
    body_rt: &'s BodyRuntime<H>,
    gate: &'s G,
    machines: Machines,
    rings: Rings,
) -> Result<Started, RunFault>
    requires new { AreNew machines }
    requires unused { AreUnused rings }
    ensures machines { IfOk result (λ s. machines_at s ≡ machines) }
    ensures rings { IfOk result (λ s. rings_at s ≡ rings) }
    ensures refused { IfErr result (λ why. (why ≡ RunFault.Memory) ⊎ (why ≡ RunFault.Threads)) }
{
    let Ok(i) = start_stage(scope, body_rt, gate, Who::I, machines.i, rings.i) else {
        let left = (rings.splitter, machines.d, rings.d, machines.u, rings.merge);
        return Err(give_up(rt, left, None, None));
    };
    let Ok(d) = start_stage(scope, body_rt, gate, Who::D, machines.d, rings.d) else {
        let left = (rings.splitter, machines.u, rings.merge);
        return Err(give_up(rt, left, Some(i), None));
    };
    let Ok(merge) = start_merge(scope, body_rt, gate, machines.u, rings.merge) else {
        return Err(give_up(rt, rings.splitter, Some(i), Some(d)));
    };
    Ok(Started {
        splitter: rings.splitter,
        i,
        d,
        merge,
    })
}

/// The result of a run, if every message that was sent was received.
fn settle(totals: Totals, rings: Rings) -> Result<Settled, RunFault>
    requires { ArePaired rings }
    ensures settled { IfOk result (λ settled. (settled.totals ≡ totals)
        × SameRings rings settled.rings × AllReceived settled.rings) }
    ensures all { AllReceived rings → IsOk result }
    ensures cut { IfErr result (λ why. why ≡ RunFault.Cut) }
{
    let mut rings = rings;
    if rings.are_settled() {
        Ok(Settled { totals, rings })
    } else {
        Err(RunFault::Cut)
    }
}

/// Joins the threads of a run and checks its rings. `fed` is the result of the splitter.
fn finish<H: Threads>(
    rt: &H,
    started: Started,
    fed: Result<(), RunFault>,
) -> Result<Settled, RunFault>
    requires paired { ArePaired (rings_at started) }
    requires met { IfErr fed IsFaultOfThreads }
    ensures fed { OnOk result (IsOk fed) }
    ensures whole { IfOk result (λ settled. (ring : ℕ) → HaveCapacity ring (rings_at started)
        → (es : List DinRecord) → AreNew (machines_at started)
        → HasPosted (splitter_at es true started.splitter)
        → HasRun ring (hierarchy_in (machines_at started)) es settled) }
    ensures met { IfErr result IsFaultOfThreads }
    ensures answers { IfErr result (λ why. (left : Option TraceFault)
        → IfErr fed (MayAnswer left) → MayAnswer left why) }
    ensures threads { result ≡ Err RunFault.Threads → fed ≡ Err RunFault.Threads }
    ensures source { (f : TraceFault) → fed ≡ Err (source_fault f) → result ≡ Err (source_fault f) }
    ensures gravest { IfErr fed (λ fault. IfErr result (λ why. rank why ≤ rank fault)) }
{
    merge_takes_the_requests();
    stages_answer_their_streams();
    let Started {
        splitter,
        i,
        d,
        merge,
    } = started;
    if let Err(fault) = fed {
        drop(splitter);
        let i = why_stopped(rt, i);
        let d = why_stopped(rt, d);
        let merge = why_stopped(rt, merge);
        return Err(gravest(fault, i, d, merge));
    }
    let i = join_stage(rt, i);
    let d = join_stage(rt, d);
    let merge = join_merge(rt, merge);
    let (i, d, merge) = all_ended(i, d, merge)?;
    let totals = Totals {
        i: i.0,
        d: d.0,
        u: merge.0,
    };
    let rings = Rings {
        splitter,
        i: i.1,
        d: d.1,
        merge: merge.1,
    };
    settle(totals, rings)
}

/// Runs the records of the source through the machines, inside a scope of threads.
pub fn run_in<'s, E, T: Threads, H: Wait + Sync, R: ByteReader + Drop, G: Gate>(
    scope: &Scope<'s, E>,
    rt: &T,
    body_rt: &'s BodyRuntime<H>,
    gate: &'s G,
    selection: Selection,
    source: Source<R>,
    machines: Machines,
    rings: Rings,
) -> (Source<R>, Result<Settled, RunFault>)
    requires bounded { IsBounded selection }
    requires new { AreNew machines }
    requires paired { ArePaired rings }
    requires unused { AreUnused rings }
    ensures met { IfErr result.1 IsFaultOfThreads }
    ensures unread { result.1 ≡ Err RunFault.Threads → result.0 ≡ source }
    ensures told { IsTold (fault_in source) (fault_in result.0) result.1 }
    ensures reads { (given : List ℕ) × (fate : Fate)
        × Takes R.remaining R.failures source result.0 given fate
        × ((ring : ℕ) (before later : Script) (l : Remaining) → HaveCapacity ring rings
        → Follows fate given before later → HasLeft source before l
        → RunsOver ring (hierarchy_in machines) selection l (HasLeft result.0 later) result.1) }
{
    let mut started = match start(scope, rt, body_rt, gate, machines, rings) {
        Ok(started) => started,
        Err(fault) => return (source, Err(fault)),
    };
    let mut feed = Feed::of(source);
    let fed = split(body_rt, gate, selection, &mut feed, &mut started.splitter);
    (feed.into_source(), finish(rt, started, fed))
}

/// Simulates the selected records of a source in four threads: the splitter runs in the caller's
/// thread, and the other three are one for each first-level stage and one for the merge with the
/// second level. Returns when all of them have ended. The source comes back with the result, and
/// unread if a thread was not granted. Each number of the selection is at most 2^40.
pub fn run_pipeline<H: Threads + Wait + Sync, R: ByteReader + Drop, G: Gate>(
    rt: &H,
    alloc: Global,
    config: &Config,
    selection: &Selection,
    source: Source<R>,
    gate: &G,
) -> (Source<R>, Result<Settled, RunFault>)
    requires bounded { IsBounded selection.now }
    // `Trace` never holds `TraceFault::Memory`, and `Write` is never answered.
    ensures met { IfErr result.1 IsFaultOfThreads }
    ensures unread { result.1 ≡ Err RunFault.Threads → result.0 ≡ source }
    // A fault that the source has met in the run is what the run answers: it is told neither as
    // want of memory nor as a cut.
    ensures told { IsTold (fault_in source) (fault_in result.0) result.1 }
    // Whatever the reader did, `Ok` means that the source ended without a fault, and that all its
    // selected events were simulated. After an error, the last of the records before are left.
    ensures reads { (given : List ℕ) × (fate : Fate)
        × Takes R.remaining R.failures source result.0 given fate
        × ((before later : Script) (l : Remaining)
        → Follows fate given before later → HasLeft source before l
        → RunsOver (ring_of config.now) (hierarchy_of config.now) selection.now l
        (HasLeft result.0 later) result.1) }
{
    let Ok((machines, rings)) = prepare(alloc, config, OUTBOX) else {
        return (source, Err(RunFault::Memory));
    };
    let selection = *selection;
    let body_rt = &BodyRuntime::new(rt);
    thread::scope(
        thread::scope_env(),
        rt,
        move |scope| -> (Source<R>, Result<Settled, RunFault>)
            requires bounded { IsBounded selection }
            requires new { AreNew machines }
            requires paired { ArePaired rings }
            requires unused { AreUnused rings }
            ensures met { IfErr result.1 IsFaultOfThreads }
            ensures unread { result.1 ≡ Err RunFault.Threads → result.0 ≡ source }
            ensures told { IsTold (fault_in source) (fault_in result.0) result.1 }
            ensures reads { (given : List ℕ) × (fate : Fate)
                × Takes R.remaining R.failures source result.0 given fate
                × ((ring : ℕ) (before later : Script) (l : Remaining) → HaveCapacity ring rings
                → Follows fate given before later → HasLeft source before l
                → RunsOver ring (hierarchy_in machines) selection l (HasLeft result.0 later)
                result.1) }
        { run_in(scope, rt, body_rt, gate, selection, source, machines, rings) },
    )
}
