//! The splitter, which runs in the caller's thread: it reads the source and feeds the rings.

ghost use Rattle.std.specs.Prelude.{◌≡◌, ◌<◌, ◌≤◌, ◌+◌, ◌*◌, ◌++◌, List, ℕ, OnOk};
ghost use Rattle.std.specs.Prelude.{◌≢◌, ◌⊎◌, IfOk, IfErr, IsSome, None, true, false, MatchResult};
ghost use Rattle.std.specs.Result.{result_err};
ghost use Rattle.std.specs.Prelude.{option_to_list, length};
ghost use Rattle.pipe_rings.specs.Rings.{sent};
ghost use Rattle.din_trace.specs.Text.{Remaining};
ghost use Rattle.din_trace.specs.Remaining.{Script, Fate, Follows, first_answer, after_first};
ghost use Rattle.din_trace.specs.Source.{HasLeft, IsSettled, Takes, fault_in, reader_of, room_of};
ghost use Rattle.din_trace.specs.declared.record.DinRecord.{DinRecord};
ghost use Rattle.stage_core.specs.Events.{IsBounded, picked_events};
ghost use Rattle.stage_core.specs.Waiting.{HasPosted};
ghost use Rattle.run_threads.specs.Faults.{IsFaultOfThreads, IsTold};
ghost use Rattle.run_threads.specs.declared.fault.Stop.{Stop};
ghost use Rattle.run_threads.specs.declared.fault.RunFault.{RunFault};
ghost use Rattle.run_threads.specs.Ends.{SameSplitterEnds, SentSame, HaveRoom, UnusedSplitter};
ghost use Rattle.run_threads.specs.Threads.{IsEnd, Sends, SplitUp};
ghost use Rattle.run_threads.specs.Waits.{AllAnnounced, AllPublished, PostedWhole};
ghost use Rattle.run_threads.specs.Waits.{SplitterHasEnded, splitter_at};
ghost use Rattle.run_threads.specs.declared.split.Until.TheVariants as Until;

use crate::ends::{BETWEEN_OFFERS, SplitterEnds};
use crate::fault::{RunFault, Stop, fault_of_source};
use crate::feed::Feed;
use crate::gate::Gate;
use crate::waits::{BodyRuntime, await_rooms, pass_splitter};
use din_trace::{ByteReader, DinRecord, MAX_LIMIT, TraceFault};
use stage_core::{Picked, Routed, Selection, Selector, Splitter};
use std::sync::Wait;

/// How far to publish posted messages.
#[derive(Clone, Copy, PartialEq, Eq)]
enum Until {
    /// Until another message can be posted.
    Room,
    /// Until all are published.
    Published,
}

/// Publishes posted messages, until all are published or there is room for another event. Each
/// round publishes as many as fit into each of the three rings, so that no ring waits for another
/// one.
fn publish<H: Wait>(rt: &BodyRuntime<H>, ends: &mut SplitterEnds, until: Until) -> Result<(), Stop>
    requires whole { PostedWhole ends.old }
    ensures rings { SameSplitterEnds ends.old ends.new }
    ensures sent { SentSame ends.old ends.new }
    ensures room { OnOk result (HaveRoom ends.new) }
    ensures published { until ≡ Until.Published → OnOk result (AllPublished ends.new) }
    ensures cut { IfErr result (λ why. why ≡ Stop.Cut) }
{
    for _ in rt.forever() {
        if ends.are_cut() {
            return Err(Stop::Cut);
        }
        let moved = ends.publish();
        if ends.are_published() {
            return Ok(());
        }
        if until == Until::Room && ends.have_room() {
            return Ok(());
        }
        if !moved {
            await_rooms(rt, ends)?;
        }
    }
    unreachable!()
}

/// The next record of the source, or its end or fault. Publishes all messages before a long wait.
fn next_record<H: Wait, R: ByteReader, G: Gate>(
    rt: &BodyRuntime<H>,
    gate: &G,
    source: &mut Feed<R>,
    ends: &mut SplitterEnds,
) -> Result<Result<Option<DinRecord>, TraceFault>, Stop>
    requires whole { PostedWhole ends.old }
    ensures rings { SameSplitterEnds ends.old ends.new }
    ensures sent { SentSame ends.old ends.new }
    // All messages are published before the reader is asked, and if the gate is not open.
    ensures published { OnOk result ((G.open gate.now ≡ true) ⊎ AllPublished ends.new) }
    ensures asked { OnOk result ((reader_of source.new ≡ reader_of source.old)
        ⊎ AllPublished ends.new) }
    ensures reads { (given : List ℕ) × (fate : Fate)
        × Takes R.remaining R.failures source.old source.new given fate
        × ((before later : Script) (l : Remaining)
        → Follows fate given before later → HasLeft source.old before l
        → MatchResult result
        (λ answer. (answer ≡ first_answer l) × HasLeft source.new later (after_first l))
        (λ _. HasLeft source.new later l)) }
    ensures settled { IsSettled source.old → source.new ≡ source.old }
    // The source has met a fault only if that is the answer.
    ensures told { MatchResult result (λ answer. fault_in source.new ≡ result_err answer)
        (λ _. fault_in source.old ≡ None → fault_in source.new ≡ None) }
    ensures records { IfOk result (λ answer. IfOk answer (λ found. IsSome found
        → room_of source.new < room_of source.old)) }
    ensures room { OnOk result (room_of source.old ≤ MAX_LIMIT) }
    ensures cut { IfErr result (λ why. why ≡ Stop.Cut) }
{
    if !gate.is_open() {
        publish(rt, ends, Until::Published)?;
    }
    if let Some(answer) = source.at_hand() {
        return Ok(answer);
    }
    publish(rt, ends, Until::Published)?;
    Ok(source.ask(ends))
}

/// Sends the messages of one event, or those of the end.
#[inline(always)]
fn send_routed<H: Wait>(
    rt: &BodyRuntime<H>,
    ends: &mut SplitterEnds,
    routed: Routed,
) -> Result<(), Stop>
    requires whole { PostedWhole ends.old }
    ensures rings { SameSplitterEnds ends.old ends.new }
    ensures sent { OnOk result (Sends ends.old routed ends.new) }
    ensures cut { IfErr result (λ why. why ≡ Stop.Cut) }
{
    if !ends.have_room() {
        publish(rt, ends, Until::Room)?;
    }
    ends.post(routed);
    if ends.order.posted() % BETWEEN_OFFERS == 0 {
        ends.offer();
    }
    Ok(())
}

/// Sends the messages of the end, and publishes all messages.
fn send_end<H: Wait>(
    rt: &BodyRuntime<H>,
    ends: &mut SplitterEnds,
    routed: Routed,
) -> Result<(), Stop>
    requires posted { (es : List DinRecord) × HasPosted (splitter_at es false ends.old) }
    requires finish { IsEnd routed }
    ensures rings { SameSplitterEnds ends.old ends.new }
    ensures posted { OnOk result ((es : List DinRecord)
        → HasPosted (splitter_at es false ends.old) → HasPosted (splitter_at es true ends.new)) }
    ensures rests { OnOk result (SplitterHasEnded ends.new) }
    ensures announced { OnOk result (AllAnnounced ends.new) }
    ensures cut { IfErr result (λ why. why ≡ Stop.Cut) }
{
    send_routed(rt, ends, routed)?;
    publish(rt, ends, Until::Published)
}

/// Routes an event, if there is one, and sends its messages. The splitter counts the events, as
/// many as it has sent turns.
#[inline(always)]
fn send_some<H: Wait>(
    rt: &BodyRuntime<H>,
    splitter: &mut Splitter,
    ends: &mut SplitterEnds,
    event: Option<DinRecord>,
) -> Result<(), Stop>
    requires at_most { splitter.old < 2 * MAX_LIMIT }
    requires counted { splitter.old ≡ length (sent ends.old.order) }
    requires posted { (es : List DinRecord) × HasPosted (splitter_at es false ends.old) }
    ensures rings { SameSplitterEnds ends.old ends.new }
    ensures place { splitter.new ≤ splitter.old + 1 }
    ensures counted { OnOk result (splitter.new ≡ length (sent ends.new.order)) }
    ensures posted { OnOk result ((es : List DinRecord)
        → HasPosted (splitter_at es false ends.old)
        → HasPosted (splitter_at (es ++ option_to_list event) false ends.new)) }
    ensures cut { IfErr result (λ why. why ≡ Stop.Cut) }
{
    let Some(event) = event else {
        return Ok(());
    };
    send_routed(rt, ends, splitter.route(event))
}

/// Sends the messages of the events that the selection made of a record.
fn send_picked<H: Wait>(
    rt: &BodyRuntime<H>,
    splitter: &mut Splitter,
    ends: &mut SplitterEnds,
    picked: Picked,
) -> Result<(), Stop>
    requires at_most { splitter.old + 1 < 2 * MAX_LIMIT }
    requires counted { splitter.old ≡ length (sent ends.old.order) }
    requires posted { (es : List DinRecord) × HasPosted (splitter_at es false ends.old) }
    ensures rings { SameSplitterEnds ends.old ends.new }
    ensures place { splitter.new ≤ splitter.old + 2 }
    ensures counted { OnOk result (splitter.new ≡ length (sent ends.new.order)) }
    ensures posted { OnOk result ((es : List DinRecord)
        → HasPosted (splitter_at es false ends.old)
        → HasPosted (splitter_at (es ++ picked_events picked) false ends.new)) }
    ensures cut { IfErr result (λ why. why ≡ Stop.Cut) }
{
    send_some(rt, splitter, ends, picked.event)?;
    send_some(rt, splitter, ends, picked.inserted())
}

/// Reads the records one by one, sends the messages of the selected events, and then those of the
/// end. Stops at a fault of the trace, and if a peer is gone; the rest is then not read.
pub fn split<H: Wait, R: ByteReader, G: Gate>(
    rt: &BodyRuntime<H>,
    gate: &G,
    selection: Selection,
    source: &mut Feed<R>,
    ends: &mut SplitterEnds,
) -> Result<(), RunFault>
    requires bounded { IsBounded selection }
    requires unused { UnusedSplitter ends.old }
    ensures rings { SameSplitterEnds ends.old ends.new }
    // A splitter that has ended holds no message back, and has none left to announce.
    ensures rests { OnOk result (SplitterHasEnded ends.new) }
    ensures announced { OnOk result (AllAnnounced ends.new) }
    ensures met { IfErr result IsFaultOfThreads }
    ensures threads { IfErr result (λ why. why ≢ RunFault.Threads) }
    // A fault of the source that it has met is its answer.
    ensures told { IsTold (fault_in source.old) (fault_in source.new) result }
    // Whatever the reader did, all selected events were sent, or the splitter stopped with a fault.
    ensures reads { (given : List ℕ) × (fate : Fate)
        × Takes R.remaining R.failures source.old source.new given fate
        × ((before later : Script) (l : Remaining)
        → Follows fate given before later → HasLeft source.old before l
        → SplitUp selection l (HasLeft source.new later) ends.new result) }
{
    let mut selector = Selector::new(selection);
    let mut splitter = Splitter::new();
    for _ in rt.forever() {
        let Ok(answer) = next_record(rt, gate, source, ends) else {
            return Err(RunFault::Cut);
        };
        match answer {
            Ok(Some(next)) => {
                pass_splitter(rt, gate, ends, selector.offered() + 1);
                let picked = selector.offer(next);
                if send_picked(rt, &mut splitter, ends, picked).is_err() {
                    return Err(RunFault::Cut);
                }
            }
            Ok(None) => {
                if send_end(rt, ends, splitter.finish()).is_err() {
                    return Err(RunFault::Cut);
                }
                return Ok(());
            }
            Err(fault) => return Err(fault_of_source(fault)),
        }
    }
    unreachable!()
}
