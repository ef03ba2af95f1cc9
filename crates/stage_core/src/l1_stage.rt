//! A first-level stage: one cache, and the messages that it sends to the next level.

ghost use Rattle.std.specs.Prelude.{◌≡◌};
ghost use Rattle.cache_core.specs.Standing.{rules_of};
ghost use Rattle.cache_core.specs.Geometry.{bsize_of};
ghost use Rattle.stage_core.specs.SecondLevel.{access_parts};
ghost use Rattle.stage_core.specs.Streams.{answer};

use crate::memory::NoMemory;
use crate::message::{FromStage, Side, ToStage};
use crate::outbox::Outbox;
use crate::parts::{fetch_part, flush_part, through_part};
use cache_core::{Access, Cache, Counts, Geometry, MAX_EVENTS, Outcome, Policy};
use std::alloc::Global;

/// One first-level cache. It receives messages, and answers each with the parts for the next level.
/// The next message may be given to it only after all answers were taken out of its outbox.
#[derive(Drop)]
pub struct L1Stage {
    alloc: Global,
    side: Side,
    geometry: Geometry,
    cache: Cache,
    outbox: Outbox,
    took_finish: bool,
    ghost shape: { (rules_of cache).bsize ≡ bsize_of geometry },
}

/// The outbox with the answer to an access whose block begins at `first`: its parts, and Done.
fn access_box(
    alloc: Global,
    side: Side,
    place: u64,
    first: u64,
    access: Access,
    outcome: Outcome,
) -> Outbox
    ensures { result ≡ answer place (access_parts side first access outcome) }
{
    let fetch = fetch_part(side, outcome.fetch, first);
    let through = through_part(outcome.through, access.addr);
    Outbox::answer(place, Vec::new(alloc), outcome.back, fetch, through)
}

/// Puts the answer to an access into the outbox. Most accesses have no part: for them the outbox is
/// not made anew.
fn put_access(
    outbox: &mut Outbox,
    alloc: Global,
    side: Side,
    place: u64,
    first: u64,
    access: Access,
    outcome: Outcome,
)
    ensures { outbox.new ≡ answer place (access_parts side first access outcome) }
{
    if outcome.sends_nothing() {
        outbox.answer_nothing(place);
    } else {
        *outbox = access_box(alloc, side, place, first, access, outcome);
    }
}

#[tactic(auto, unfolding(crate::specs::Standing::cache_of, crate::specs::Standing::side_of, crate::specs::Standing::outbox_of, crate::specs::Standing::took_finish))]
impl L1Stage {
    ghost use Rattle.std.specs.Prelude.{◌≡◌, ◌<◌, ◌+◌, ◌↔◌, ◌++◌, ◌∷◌, [], IsTrue, IsNone, IsErr};
    ghost use Rattle.std.specs.Prelude.{IfOk, OnOk, OnErr, IsOk, List, true, false, length};
    ghost use Rattle.std.specs.Prelude.{option_to_list};
    ghost use Rattle.cache_core.specs.History.{History, access as accessed, flush as flushed};
    ghost use Rattle.cache_core.specs.Counts.{KindsAddUp, counts_of};
    ghost use Rattle.cache_core.specs.Standing.{StandsFor, rules_of, rules_from, served_of};
    ghost use Rattle.cache_core.specs.Standing.{counts_kept, has_failed};
    ghost use Rattle.stage_core.specs.SecondLevel.{parts_of};
    ghost use Rattle.stage_core.specs.Streams.{answer, reply, asked_in, taken_in, is_finish};
    ghost use Rattle.stage_core.specs.Standing.{StageStandsFor, IsReady, StageIsFinished};
    ghost use Rattle.stage_core.specs.Standing.{ServesOne, HasFailedSince, cache_of, side_of};
    ghost use Rattle.stage_core.specs.Standing.{outbox_of, took_finish};
    ghost use Rattle.stage_core.specs.declared.message.ToStage.{ToStage};
    ghost use Rattle.stage_core.specs.declared.message.FromStage.TheVariants as from_stage;

    /// A stage that has received nothing, with an empty cache.
    pub fn new(
        alloc: Global,
        side: Side,
        geometry: Geometry,
        policy: Policy,
    ) -> Result<L1Stage, NoMemory>
        ensures side { IfOk result (λ stage. side_of stage ≡ side) }
        ensures rules { IfOk result (λ stage. rules_of (cache_of stage)
            ≡ rules_from geometry policy) }
        ensures ready { IfOk result (λ stage. IsReady stage) }
        ensures stands { IfOk result (λ stage. StageStandsFor stage []) }
        ensures works { IfOk result (λ stage. has_failed (cache_of stage) ≡ false) }
    {
        let cache = Cache::new(alloc, geometry, policy)?;
        Ok(L1Stage {
            alloc,
            side,
            geometry,
            cache,
            outbox: Outbox::empty(alloc),
            took_finish: false,
        })
    }

    /// Whether the stage may receive a message: its outbox is empty, and Finish was not received.
    pub fn ready(&self) -> bool
        ensures { IsTrue result ↔ IsReady self.now }
    {
        self.outbox.is_empty() && !self.took_finish
    }

    /// Whether Finish was received and the outbox is empty.
    pub fn finished(&self) -> bool
        ensures { IsTrue result ↔ StageIsFinished self.now }
    {
        self.took_finish && self.outbox.is_empty()
    }

    /// How many accesses and flushes its cache has served.
    pub fn served(&self) -> u64
        ensures served { result ≡ served_of (cache_of self.now) }
        ensures all { (messages : List ToStage) → StageStandsFor self.now messages →
            result ≡ length (taken_in messages) }
    {
        self.cache.served()
    }

    /// The counts of its cache, also after a failure.
    pub fn counts(&self) -> Counts
        ensures kept { result ≡ counts_kept (cache_of self.now) }
        ensures counted { (messages : List ToStage) → StageStandsFor self.now messages →
            result ≡ counts_of (rules_of (cache_of self.now)) (taken_in messages) }
        ensures kinds_add_up { KindsAddUp result }
    {
        self.cache.counts()
    }

    /// Whether a call of `on` failed.
    pub fn failed(&self) -> bool
        ensures { result ≡ has_failed (cache_of self.now) }
    {
        self.cache.failed()
    }

    /// Takes the next message out of the outbox.
    pub fn outbox_next(&mut self) -> Option<FromStage>
        ensures front { outbox_of self.old ≡ option_to_list result ++ outbox_of self.new }
        ensures none { IsNone result ↔ (outbox_of self.old ≡ []) }
        ensures cache { cache_of self.new ≡ cache_of self.old }
        ensures side { side_of self.new ≡ side_of self.old }
        ensures finish { took_finish self.new ≡ took_finish self.old }
    {
        self.outbox.next()
    }

    /// Serves an access.
    #[inline(always)]
    fn access(&mut self, place: u64, access: Access) -> Result<(), NoMemory>
        requires { served_of (cache_of self.old) < MAX_EVENTS }
        ensures sent { OnOk result ((h : History) → StandsFor (cache_of self.old) h →
            outbox_of self.new
            ≡ answer place (parts_of (rules_of (cache_of self.old)) (side_of self.old) h
            (accessed access))) }
        ensures stands { OnOk result ((h : History) → StandsFor (cache_of self.old) h →
            StandsFor (cache_of self.new) (accessed access ∷ h)) }
        ensures serves { ServesOne result (cache_of self.old) (cache_of self.new) }
        ensures unsent { OnErr result (outbox_of self.new ≡ outbox_of self.old) }
        ensures side { side_of self.new ≡ side_of self.old }
        ensures finish { took_finish self.new ≡ took_finish self.old }
    {
        let outcome = self.cache.access(access)?;
        let first = self.geometry.first_byte(self.geometry.block(access.addr));
        let outbox = &mut self.outbox;
        put_access(outbox, self.alloc, self.side, place, first, access, outcome);
        Ok(())
    }

    /// Serves a flush.
    fn flush(&mut self, place: u64) -> Result<(), NoMemory>
        requires { served_of (cache_of self.old) < MAX_EVENTS }
        ensures sent { OnOk result ((h : History) → StandsFor (cache_of self.old) h →
            outbox_of self.new
            ≡ answer place (parts_of (rules_of (cache_of self.old)) (side_of self.old) h flushed)) }
        ensures stands { OnOk result ((h : History) → StandsFor (cache_of self.old) h →
            StandsFor (cache_of self.new) (flushed ∷ h)) }
        ensures serves { ServesOne result (cache_of self.old) (cache_of self.new) }
        ensures unsent { OnErr result (outbox_of self.new ≡ outbox_of self.old) }
        ensures side { side_of self.new ≡ side_of self.old }
        ensures finish { took_finish self.new ≡ took_finish self.old }
    {
        let mut backs = Vec::new(self.alloc);
        self.cache.flush(&mut backs)?;
        self.outbox = Outbox::answer(place, backs, None, flush_part(self.side), None);
        Ok(())
    }

    /// Receives Finish. A stage that has failed refuses it too.
    fn finish(&mut self) -> Result<(), NoMemory>
        ensures sent { OnOk result (outbox_of self.new ≡ from_stage.Finish ∷ []) }
        ensures finish { OnOk result (took_finish self.new ≡ true) }
        ensures works { OnOk result (has_failed (cache_of self.old) ≡ false) }
        ensures taken { has_failed (cache_of self.old) ≡ false → IsOk result }
        ensures refused { OnErr result ((has_failed (cache_of self.old) ≡ true)
            × (outbox_of self.new ≡ outbox_of self.old)
            × (took_finish self.new ≡ took_finish self.old)) }
        ensures cache { cache_of self.new ≡ cache_of self.old }
        ensures side { side_of self.new ≡ side_of self.old }
    {
        if self.failed() {
            return Err(NoMemory);
        }
        self.took_finish = true;
        self.outbox = Outbox::finish(self.alloc);
        Ok(())
    }

    /// Receives a message, and puts the answer to it into the outbox. After an error the stage has
    /// failed: its outbox is empty, and every later call answers `NoMemory`. A stage that has not
    /// failed always takes Finish.
    #[inline(always)]
    pub fn on(&mut self, message: ToStage) -> Result<(), NoMemory>
        requires ready { IsReady self.old }
        requires room { is_finish message ≡ false → served_of (cache_of self.old) < MAX_EVENTS }
        ensures sent { OnOk result ((before : List ToStage) → StageStandsFor self.old before →
            outbox_of self.new
            ≡ reply (parts_of (rules_of (cache_of self.old))) (side_of self.old) before message) }
        ensures stands { OnOk result ((before : List ToStage) → StageStandsFor self.old before →
            StageStandsFor self.new (before ++ message ∷ [])) }
        ensures served { OnOk result (served_of (cache_of self.new)
            ≡ served_of (cache_of self.old) + length (asked_in message)) }
        ensures finish { OnOk result (took_finish self.new ≡ is_finish message) }
        ensures works { OnOk result (has_failed (cache_of self.new) ≡ false) }

        ensures refused { OnErr result (HasFailedSince (cache_of self.old) (cache_of self.new)) }
        ensures stays_ready { OnErr result (IsReady self.new) }
        ensures failed { has_failed (cache_of self.old) ≡ true → IsErr result }
        ensures taken { is_finish message ≡ true → has_failed (cache_of self.old) ≡ false →
            IsOk result }
        ensures side { side_of self.new ≡ side_of self.old }
        ensures rules { rules_of (cache_of self.new) ≡ rules_of (cache_of self.old) }
    {
        match message {
            ToStage::Ref { place, class, addr } => self.access(place, Access { class, addr }),
            ToStage::Flush { place } => self.flush(place),
            ToStage::Finish => self.finish(),
        }
    }
}
