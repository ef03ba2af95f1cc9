//! The events that selections make of a trace.

use super::{FLUSH, INSTR_0, INSTR_4, INSTR_8, push, same};
use din_trace::{DinRecord, MAX_LIMIT};
use stage_core::{Picked, Selection, Selector};
use std::alloc::Global;
use std::process::Abort;

/// How many are left out, how many are taken at most, and after how many a flush is inserted.
type Numbers = (u64, u64, u64);

fn selector_of(rt: &impl Abort, (skip, max, every): Numbers) -> Selector {
    assert!(rt; skip <= MAX_LIMIT && max <= MAX_LIMIT && every <= MAX_LIMIT);
    Selector::new(Selection { skip, max, every })
}

fn offer(rt: &impl Abort, selector: &mut Selector, next: DinRecord) -> Picked {
    assert!(rt; selector.offered() < MAX_LIMIT);
    selector.offer(next)
}

// The events that a selection makes of a trace.
pub(super) fn events_of(
    rt: &impl Abort,
    alloc: Global,
    numbers: Numbers,
    records: &[DinRecord],
) -> Vec<DinRecord> {
    let mut selector = selector_of(rt, numbers);
    let mut events = Vec::new(alloc);
    for next in records {
        let picked = offer(rt, &mut selector, *next);
        if let Some(event) = picked.event {
            push(rt, &mut events, event);
        }
        if picked.flush {
            push(rt, &mut events, FLUSH);
        }
    }
    events
}

/// A selection, with the records that it is made of, and the events that it has to make of them.
type Row<'a> = (Numbers, &'a [DinRecord], &'a [DinRecord]);

static ROWS: [Row<'static>; 6] = [
    ((1, 1, 0), &[INSTR_0, INSTR_4, INSTR_8], &[INSTR_4]),
    (
        (0, 0, 2),
        &[INSTR_0, INSTR_4, INSTR_8],
        &[INSTR_0, INSTR_4, FLUSH, INSTR_8],
    ),
    (
        (1, 1, 0),
        &[INSTR_0, FLUSH, INSTR_4, FLUSH],
        &[FLUSH, INSTR_4],
    ),
    ((1, 0, 0), &[FLUSH, INSTR_0, FLUSH], &[FLUSH]),
    ((0, 0, 1), &[INSTR_0, FLUSH], &[INSTR_0, FLUSH, FLUSH]),
    ((5, 0, 0), &[INSTR_0], &[]),
];

#[test]
fn a_selection_counts_references_alone(rt: HostRuntime) {
    for (numbers, records, wanted) in &ROWS {
        let events = events_of(&rt, rt.alloc(), *numbers, *records);
        same(
            &rt,
            &events.as_slice(),
            wanted,
            "the events from",
            numbers.0,
        );
    }
}
