//! The only functions in which the body of a thread waits for another thread. Each of those that
//! are public requires that its thread may wait there, and that it has looked and found nothing to
//! do. `await_item` is private: the two of the merge wait in it.
//!
//! The body of a thread has no runtime, only a [`BodyRuntime`], whose runtime no other module can
//! reach. Without a runtime no end of a ring can be asked to wait, and no gate can be passed. Each
//! body passes its gate by its own function: [`pass_splitter`], [`pass_stage`] or [`pass_merge`]. A
//! gate may hold a body, so the first two require that all that was sent is published.

ghost use Rattle.std.specs.Prelude.{◌≡◌, ◌+◌, ◌<◌, ◌≤◌, [], ◌∷◌, ◌++◌, length, OnOk, IfOk, IfErr};
ghost use Rattle.std.specs.Prelude.{◌⊎◌, true};
ghost use Rattle.pipe_rings.specs.Rings.{sent, posted, received, SameTx, SameRx};
ghost use Rattle.pipe_rings.specs.Rings.{LookedForRoom, LookedForItem, IsAnnounced};
ghost use Rattle.stage_core.specs.Merging.{wanted, want_of};
ghost use Rattle.stage_core.specs.Waiting.{MayAwaitRoom, MayAwaitMessage};
ghost use Rattle.stage_core.specs.declared.message.Want.TheVariants as want;
ghost use Rattle.run_threads.specs.declared.fault.Stop.{Stop};
ghost use Rattle.run_threads.specs.Ends.{SameSplitterEnds, SentSame};
ghost use Rattle.run_threads.specs.Waits.{SplitterMay, LookedEverywhere, OfStage, MergeUsed, held};
ghost use Rattle.run_threads.specs.Waits.{AllAnnounced, AllPublished, AnswersPublished, OnlyFrom};
ghost use Rattle.run_threads.specs.Waits.{end_from};

use crate::ends::{MergeEnds, SplitterEnds, StageEnds};
use crate::fault::Stop;
use crate::gate::{Gate, Who};
use cache_core::MAX_EVENTS;
use pipe_rings::Rx;
use stage_core::{FromStage, L1Stage, Merge, Side, ToStage, Turn};
use std::sync::{Forever, Wait};

/// The runtime, as the body of a thread has it: it lets the body wait and pass its gate in the
/// functions of this module, and go round without end, and nothing else.
#[derive(Drop)]
pub struct BodyRuntime<H> {
    rt: H,
}

impl<H> BodyRuntime<H> {
    /// This runtime, for the bodies of threads.
    pub fn new(rt: H) -> BodyRuntime<H>
        ensures { result.rt ≡ rt }
    {
        BodyRuntime { rt }
    }
}

impl<H: Wait> BodyRuntime<H> {
    /// Rounds without end.
    #[inline(always)]
    pub(crate) fn forever(&self) -> Forever<'_, H> {
        self.rt.forever()
    }
}

/// Counts one more message and passes the gate with it. The contract of a thread does not say how
/// many messages it will receive, so the thread stops if the count would reach `MAX_EVENTS`.
#[inline]
fn pass<H: Wait, G: Gate>(
    rt: &BodyRuntime<H>,
    gate: &G,
    who: Who,
    received: u64,
) -> Result<u64, Stop>
    ensures counted { IfOk result (λ nth. nth ≡ received + 1) }
    ensures below { IfOk result (λ nth. nth < MAX_EVENTS) }
    ensures cut { IfErr result (λ why. (why ≡ Stop.Cut) × (MAX_EVENTS ≤ received + 1)) }
{
    if received >= MAX_EVENTS - 1 {
        return Err(Stop::Cut);
    }
    let nth = received + 1;
    gate.arrive(&rt.rt, who, nth);
    Ok(nth)
}

/// The splitter passes its gate with a record. A gate that is not open may hold it for long, so all
/// posted messages have to be published before.
#[inline]
pub fn pass_splitter<H: Wait, G: Gate>(rt: &BodyRuntime<H>, gate: &G, ends: &SplitterEnds, nth: u64)
    requires published { (G.open gate.now ≡ true) ⊎ AllPublished ends.now }
{
    gate.arrive(&rt.rt, Who::Splitter, nth);
}

/// A stage passes its gate with a message. A gate that is not open may hold it for long, so all
/// answers have to be published before.
#[inline]
pub fn pass_stage<H: Wait, G: Gate>(
    rt: &BodyRuntime<H>,
    gate: &G,
    who: Who,
    ends: &StageEnds,
    received: u64,
) -> Result<u64, Stop>
    requires published { (G.open gate.now ≡ true) ⊎ AnswersPublished ends.now }
    ensures counted { IfOk result (λ nth. nth ≡ received + 1) }
    ensures below { IfOk result (λ nth. nth < MAX_EVENTS) }
    ensures cut { IfErr result (λ why. (why ≡ Stop.Cut) × (MAX_EVENTS ≤ received + 1)) }
{
    pass(rt, gate, who, received)
}

/// The merge, which sends nothing, passes its gate with a message. It gives its ends here so that
/// only the merge can call this: another thread might pass with messages that are not published.
#[inline]
pub fn pass_merge<H: Wait, G: Gate>(
    rt: &BodyRuntime<H>,
    gate: &G,
    _ends: &MergeEnds,
    received: u64,
) -> Result<u64, Stop>
    ensures counted { IfOk result (λ nth. nth ≡ received + 1) }
    ensures below { IfOk result (λ nth. nth < MAX_EVENTS) }
    ensures cut { IfErr result (λ why. (why ≡ Stop.Cut) × (MAX_EVENTS ≤ received + 1)) }
{
    pass(rt, gate, Who::Merge, received)
}

/// The splitter waits until at least one of its posted messages is published.
#[cold]
pub fn await_rooms<H: Wait>(rt: &BodyRuntime<H>, ends: &mut SplitterEnds) -> Result<(), Stop>
    requires may { SplitterMay ends.old }
    requires looked { LookedEverywhere ends.old }
    requires announced { AllAnnounced ends.old }
    ensures rings { SameSplitterEnds ends.old ends.new }
    ensures sent { SentSame ends.old ends.new }
    ensures room { OnOk result (held ends.new < held ends.old) }
    ensures cut { IfErr result (λ why. why ≡ Stop.Cut) }
{
    for _ in rt.forever() {
        // The three ends share one bell, so it is enough to sleep at one of them.
        if ends.order.posted() > 0 {
            ends.order.pause(&rt.rt);
        } else if ends.to_i.posted() > 0 {
            ends.to_i.pause(&rt.rt);
        } else {
            ends.to_d.pause(&rt.rt);
        }
        if ends.are_cut() {
            return Err(Stop::Cut);
        }
        if ends.publish() {
            return Ok(());
        }
    }
    unreachable!()
}

/// A stage waits until at least one of its posted messages is published.
#[cold]
pub fn await_room<H: Wait>(
    rt: &BodyRuntime<H>,
    stage: &L1Stage,
    ends: &mut StageEnds,
) -> Result<(), Stop>
    requires may { OfStage MayAwaitRoom stage.now ends.old }
    requires looked { LookedForRoom ends.old.to_merge }
    requires announced { IsAnnounced ends.old.to_merge }
    ensures from_splitter { ends.new.from_splitter ≡ ends.old.from_splitter }
    ensures ring { SameTx ends.old.to_merge ends.new.to_merge }
    ensures sent { sent ends.new.to_merge ≡ sent ends.old.to_merge }
    ensures room { OnOk result (length (posted ends.new.to_merge)
        < length (posted ends.old.to_merge)) }
    ensures cut { IfErr result (λ why. why ≡ Stop.Cut) }
{
    for _ in rt.forever() {
        ends.to_merge.pause(&rt.rt);
        if ends.to_merge.is_cut() {
            return Err(Stop::Cut);
        }
        if ends.to_merge.publish() > 0 {
            return Ok(());
        }
    }
    unreachable!()
}

/// Waits at a ring until it has a message.
#[cold]
#[inline(never)]
fn await_item<T: Copy, H: Wait>(rt: &BodyRuntime<H>, rx: &mut Rx<T>) -> Result<T, Stop>
    requires looked { LookedForItem rx.old }
    ensures ring { SameRx rx.old rx.new }
    ensures received { IfOk result (λ item. received rx.new ≡ received rx.old ++ item ∷ []) }
    ensures cut { IfErr result (λ why. why ≡ Stop.Cut) }
{
    for _ in rt.forever() {
        if rx.is_cut() {
            // A message that was published before the sender was dropped is still there.
            return rx.try_recv().ok_or(Stop::Cut);
        }
        rx.pause(&rt.rt);
        if let Some(item) = rx.try_recv() {
            return Ok(item);
        }
    }
    unreachable!()
}

/// A stage waits for a message. If its own receiver is gone, it stops too.
#[cold]
pub fn await_message<H: Wait>(
    rt: &BodyRuntime<H>,
    stage: &L1Stage,
    ends: &mut StageEnds,
) -> Result<ToStage, Stop>
    requires may { OfStage MayAwaitMessage stage.now ends.old }
    requires looked { LookedForItem ends.old.from_splitter }
    requires published { AnswersPublished ends.old }
    ensures from_splitter { SameRx ends.old.from_splitter ends.new.from_splitter }
    ensures received { IfOk result (λ message. received ends.new.from_splitter
        ≡ received ends.old.from_splitter ++ message ∷ []) }
    ensures to_merge { SameTx ends.old.to_merge ends.new.to_merge }
    ensures sent { sent ends.new.to_merge ≡ sent ends.old.to_merge }
    ensures published { AnswersPublished ends.new }
    ensures cut { IfErr result (λ why. why ≡ Stop.Cut) }
{
    for _ in rt.forever() {
        if ends.to_merge.is_cut() {
            return Err(Stop::Cut);
        }
        if ends.from_splitter.is_cut() {
            // A message that was published before the sender was dropped is still there.
            return ends.from_splitter.try_recv().ok_or(Stop::Cut);
        }
        ends.from_splitter.pause(&rt.rt);
        if let Some(message) = ends.from_splitter.try_recv() {
            return Ok(message);
        }
    }
    unreachable!()
}

/// The merge waits for a turn.
#[inline(always)]
pub fn await_turn<H: Wait>(
    rt: &BodyRuntime<H>,
    merge: &Merge,
    ends: &mut MergeEnds,
) -> Result<Turn, Stop>
    requires may { MergeUsed merge.now ends.old }
    requires wants { wanted merge.now ≡ want.Order }
    requires looked { LookedForItem ends.old.order }
    ensures order { SameRx ends.old.order ends.new.order }
    ensures received { IfOk result (λ turn. received ends.new.order
        ≡ received ends.old.order ++ turn ∷ []) }
    ensures from_i { ends.new.from_i ≡ ends.old.from_i }
    ensures from_d { ends.new.from_d ≡ ends.old.from_d }
    ensures cut { IfErr result (λ why. why ≡ Stop.Cut) }
{
    await_item(rt, &mut ends.order)
}

/// The merge waits for a message from a stage.
#[inline(always)]
pub fn await_from<H: Wait>(
    rt: &BodyRuntime<H>,
    side: Side,
    merge: &Merge,
    ends: &mut MergeEnds,
) -> Result<FromStage, Stop>
    requires may { MergeUsed merge.now ends.old }
    requires wants { wanted merge.now ≡ want_of side }
    requires looked { LookedForItem (end_from ends.old side) }
    ensures ring { OnlyFrom side ends.old ends.new }
    ensures received { IfOk result (λ message. received (end_from ends.new side)
        ≡ received (end_from ends.old side) ++ message ∷ []) }
    ensures cut { IfErr result (λ why. why ≡ Stop.Cut) }
{
    match side {
        Side::I => await_item(rt, &mut ends.from_i),
        Side::D => await_item(rt, &mut ends.from_d),
    }
}
