//! The machines, one after another, and the messages that they send.

use super::stages::{answer, finished, stage_of};
use super::{config_of, push, same};
use cache_core::Policy;
use din_trace::{DinRecord, MAX_LIMIT};
use stage_core::{
    Config, FromStage, L1Stage, Merge, Routed, Side, Splitter, ToStage, Turn, Want, What,
};
use std::alloc::Global;
use std::process::Abort;

// A first-level stage, with the messages of the two rings at it.
#[derive(Drop)]
pub(super) struct Lane {
    stage: L1Stage,
    to: Vec<ToStage>,
    from: Vec<FromStage>,
}

impl Lane {
    fn new(rt: &impl Abort, alloc: Global, config: &Config, side: Side) -> Lane {
        Lane {
            stage: stage_of(alloc, config, side).expect(rt, "memory"),
            to: Vec::new(alloc),
            from: Vec::new(alloc),
        }
    }

    fn send(&mut self, rt: &impl Abort, message: Option<ToStage>) {
        if let Some(message) = message {
            push(rt, &mut self.to, message);
            answer(rt, &mut self.stage, message, &mut self.from);
        }
    }

    // The two rings have to have carried just this.
    pub(super) fn expect(&self, rt: &impl Abort, to: &[ToStage], from: &[FromStage]) {
        same(rt, &self.to.as_slice(), &to, "the messages to a side", 0);
        same(
            rt,
            &self.from.as_slice(),
            &from,
            "the messages from a side",
            0,
        );
    }
}

// The messages that the five rings carry.
#[derive(Drop)]
pub(super) struct Streams {
    pub order: Vec<Turn>,
    pub i: Lane,
    pub d: Lane,
}

impl Streams {
    /// The rings before the first event.
    fn new(rt: &impl Abort, alloc: Global, policy: Policy) -> Streams {
        let config = config_of(rt, policy, 2);
        Streams {
            order: Vec::new(alloc),
            i: Lane::new(rt, alloc, &config, Side::I),
            d: Lane::new(rt, alloc, &config, Side::D),
        }
    }

    fn send(&mut self, rt: &impl Abort, routed: Routed) {
        push(rt, &mut self.order, routed.turn);
        self.i.send(rt, routed.i);
        self.d.send(rt, routed.d);
    }

    fn send_all(&mut self, rt: &impl Abort, events: &[DinRecord]) {
        let mut splitter = Splitter::new();
        for event in events {
            let routed = route(rt, &mut splitter, *event);
            self.send(rt, routed);
        }
        self.send(rt, splitter.finish());
        assert!(rt; finished(&self.i.stage) && finished(&self.d.stage));
    }
}

fn route(rt: &impl Abort, splitter: &mut Splitter, event: DinRecord) -> Routed {
    assert!(rt; splitter.place() < 2 * MAX_LIMIT);
    splitter.route(event)
}

// What the rings carry for these events, with this policy of the data cache.
pub(super) fn streams_of(
    rt: &impl Abort,
    alloc: Global,
    policy: Policy,
    events: &[DinRecord],
) -> Streams {
    let mut streams = Streams::new(rt, alloc, policy);
    streams.send_all(rt, events);
    streams
}

/// The next item of a list, which has to have one.
fn next_of<T: Copy>(rt: &impl Abort, list: &[T], taken: &mut usize) -> T {
    let next = list.get(*taken).expect(rt, "a message");
    *taken = taken.wrapping_add(1);
    *next
}

/// How many items of the order and of both sides' messages the merge has taken.
#[derive(Clone, Copy)]
struct Taken {
    turns: usize,
    i: usize,
    d: usize,
}

/// Gives the merge the item that it wants. The answer is the request in that.
fn give_wanted(
    rt: &impl Abort,
    merge: &mut Merge,
    streams: &Streams,
    taken: &mut Taken,
) -> Option<What> {
    match merge.wants() {
        Want::Nothing => None,
        Want::Order => {
            merge.turn(next_of(rt, &streams.order, &mut taken.turns));
            None
        }
        Want::I => merge.take(next_of(rt, &streams.i.from, &mut taken.i)),
        Want::D => merge.take(next_of(rt, &streams.d.from, &mut taken.d)),
    }
}

/// Takes what the merge wants, at most a hundred times. The answer is the requests in that.
fn merge_all(
    rt: &impl Abort,
    requests: &mut Vec<What>,
    merge: &mut Merge,
    streams: &Streams,
) -> Taken {
    let mut taken = Taken {
        turns: 0,
        i: 0,
        d: 0,
    };
    for _ in 0..100 {
        if let Some(what) = give_wanted(rt, merge, streams, &mut taken) {
            push(rt, requests, what);
        }
    }
    taken
}

// The merge takes all of the streams, each message from the side that it wants, and just these
// requests.
pub(super) fn is_merged(rt: &impl Abort, alloc: Global, streams: &Streams, wanted: &[What]) {
    let mut merge = Merge::new();
    let mut requests = Vec::new(alloc);
    let taken = merge_all(rt, &mut requests, &mut merge, streams);
    assert!(rt; merge.wants() == Want::Nothing);
    assert!(rt; taken.turns == streams.order.len());
    assert!(rt; taken.i == streams.i.from.len() && taken.d == streams.d.from.len());
    same(rt, &requests.as_slice(), &wanted, "the requests", 0);
}
