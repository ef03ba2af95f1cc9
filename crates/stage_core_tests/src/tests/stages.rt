//! What one stage sends, and what the second level serves.

use super::messages::{part, refers};
use super::{LRU, config_of, push, same};
use cache_core::{Class, Counts, MAX_EVENTS};
use expected_counts::{by_class, first_misses};
use stage_core::{Config, FromStage, L1Stage, L2Stage, NoMemory, Side, ToStage, What};
use std::alloc::Global;
use std::process::Abort;

// A stage that has received nothing.
pub(super) fn stage_of(alloc: Global, config: &Config, side: Side) -> Result<L1Stage, NoMemory> {
    let (geometry, policy) = match side {
        Side::I => config.i(),
        Side::D => config.d(),
    };
    L1Stage::new(alloc, side, geometry, policy)
}

pub(super) fn second_of(alloc: Global, config: &Config) -> Result<L2Stage, NoMemory> {
    let (geometry, policy) = config.u();
    L2Stage::new(alloc, geometry, policy)
}

// What a stage has counted, of how many events, and whether it has failed.
pub(super) fn state(stage: &L1Stage) -> (Counts, u64, bool) {
    (stage.counts(), stage.served(), stage.failed())
}

pub(super) fn finished(stage: &L1Stage) -> bool {
    stage.finished()
}

// The next message that a stage sends.
pub(super) fn sent_next(stage: &mut L1Stage) -> Option<FromStage> {
    stage.outbox_next()
}

/// Gives a stage a message, for which it has to be ready.
fn give(rt: &impl Abort, stage: &mut L1Stage, message: ToStage) -> Result<(), NoMemory> {
    assert!(rt; stage.ready());
    assert!(rt; stage.served() < MAX_EVENTS);
    stage.on(message)
}

/// A stage has to have failed, with an empty outbox and the counts from before.
fn has_failed(rt: &impl Abort, stage: &mut L1Stage, before: (Counts, u64, bool)) {
    same(
        rt,
        &state(stage),
        &(before.0, before.1, true),
        "the counts",
        before.1,
    );
    assert!(rt; !finished(stage));
    assert!(rt; sent_next(stage) == None);
}

/// After a refusal, a stage has to have failed for good.
fn stays_failed(
    rt: &impl Abort,
    stage: &mut L1Stage,
    message: ToStage,
    before: (Counts, u64, bool),
) {
    for next in [message, ToStage::Flush { place: 9 }, ToStage::Finish] {
        has_failed(rt, stage, before);
        assert!(rt; give(rt, stage, next) == Err(NoMemory));
    }
    has_failed(rt, stage, before);
}

// A stage takes a message in. If an allocation fails, the stage has to stay failed.
pub(super) fn receive(
    rt: &impl Abort,
    stage: &mut L1Stage,
    message: ToStage,
) -> Result<(), NoMemory> {
    let before = state(stage);
    let received = give(rt, stage, message);
    if received.is_err() {
        stays_failed(rt, stage, message, before);
    }
    received
}

// A stage takes a message in and sends all that this brings.
pub(super) fn answer(
    rt: &impl Abort,
    stage: &mut L1Stage,
    message: ToStage,
    sent: &mut Vec<FromStage>,
) {
    assert!(rt; receive(rt, stage, message).is_ok());
    for _ in 0..10 {
        if let Some(next) = sent_next(stage) {
            push(rt, sent, next);
        }
    }
}

/// Answers a reference, and then the end.
fn finishes(rt: &impl Abort, stage: &mut L1Stage, sent: &mut Vec<FromStage>) {
    static WANTED: [FromStage; 3] = [
        part!(1, 1, What::Fetch(Class::Read, 0)),
        FromStage::Done { place: 1, parts: 1 },
        FromStage::Finish,
    ];
    let message = refers!(1, Write, 0);
    answer(rt, stage, message, sent);
    assert!(rt; !finished(stage));
    answer(rt, stage, ToStage::Finish, sent);
    assert!(rt; finished(stage));
    assert!(rt; sent.as_slice() == WANTED.as_slice());
}

#[test]
fn a_stage_sends_finish_last(rt: HostRuntime) -> Result<(), NoMemory> {
    let mut stage = stage_of(rt.alloc(), &config_of(&rt, LRU, 2), Side::D)?;
    let mut sent = Vec::new(rt.alloc());
    finishes(&rt, &mut stage, &mut sent);
    Ok(())
}

// What the second level has counted, of how many requests, and whether it has failed.
pub(super) fn second_state(stage: &L2Stage) -> (Counts, u64, bool) {
    (stage.counts(), stage.served(), stage.failed())
}

fn give_second(rt: &impl Abort, stage: &mut L2Stage, what: What) -> Result<(), NoMemory> {
    assert!(rt; stage.served() < MAX_EVENTS);
    stage.on(what)
}

/// After a refusal, the second level has to have failed for good, with the counts from before.
fn second_stays_failed(
    rt: &impl Abort,
    stage: &mut L2Stage,
    what: What,
    before: (Counts, u64, bool),
) {
    let failed = (before.0, before.1, true);
    for next in [what, What::Back(0), What::FlushAll] {
        same(rt, &second_state(stage), &failed, "the counts", failed.1);
        assert!(rt; give_second(rt, stage, next) == Err(NoMemory));
    }
    same(rt, &second_state(stage), &failed, "the counts", failed.1);
}

// Serves requests of the first level. If an allocation fails, the second level has to stay failed.
pub(super) fn serve(rt: &impl Abort, stage: &mut L2Stage, sent: &[What]) -> Result<(), NoMemory> {
    for what in sent {
        let before = second_state(stage);
        let served = give_second(rt, stage, *what);
        if served.is_err() {
            second_stays_failed(rt, stage, *what, before);
        }
        served?;
    }
    Ok(())
}

#[test]
fn the_second_level_serves_each_part(rt: HostRuntime) -> Result<(), NoMemory> {
    static SENT: [What; 3] = [What::Fetch(Class::Read, 0), What::Back(4), What::FlushAll];
    static COUNTS: Counts = Counts {
        written_back: 1,
        flushes: 1,
        ..first_misses!(by_class!(read: 1, write: 1), by_class!(read: 1), 1)
    };
    let mut stage = second_of(rt.alloc(), &config_of(&rt, LRU, 2))?;
    serve(&rt, &mut stage, &SENT)?;
    same(
        &rt,
        &second_state(&stage),
        &(COUNTS, 3, false),
        "the counts",
        3,
    );
    Ok(())
}
