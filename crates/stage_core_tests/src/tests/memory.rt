//! Failing allocations. Each test passes if there is enough memory. If an allocation is refused, it
//! checks the state after that, and then fails with the name of the refusal and nothing else.

use super::messages::{part, refers};
use super::stages::{
    finished, receive, second_of, second_state, sent_next, serve, stage_of, state,
};
use super::totals::{Run, come_to};
use super::worked::{FLUSHED, FLUSHED_TOTALS};
use super::{LRU, config_of, same};
use cache_core::Class;
use stage_core::{FromStage, L1Stage, NoMemory, Side, ToStage, What};
use std::process::Abort;
use std::test::Fail;

/// A message to a stage, and all that it has to send then.
type Row<'a> = (ToStage, &'a [FromStage]);

/// Receives a message and has to send exactly this. If an allocation fails, the stage has to stay
/// failed.
fn answers(rt: &impl Abort, stage: &mut L1Stage, row: &Row<'_>) -> Result<(), NoMemory> {
    receive(rt, stage, row.0)?;
    assert!(rt; !stage.failed());
    for message in row.1 {
        same(rt, &sent_next(stage), &Some(*message), "the answer", 0);
    }
    assert!(rt; sent_next(stage) == None);
    Ok(())
}

/// Receives messages in this way, up to the last one.
fn answers_all(rt: &impl Abort, stage: &mut L1Stage, rows: &[Row<'_>]) -> Result<(), NoMemory> {
    for row in rows {
        answers(rt, stage, row)?;
    }
    assert!(rt; finished(stage));
    Ok(())
}

// Two writes, a flush that writes both blocks back, and the end.
static DATA_ROWS: [Row<'static>; 4] = [
    (
        refers!(1, Write, 8),
        &[
            part!(1, 1, What::Fetch(Class::Read, 8)),
            FromStage::Done { place: 1, parts: 1 },
        ],
    ),
    (
        refers!(2, Write, 0),
        &[
            part!(2, 1, What::Fetch(Class::Read, 0)),
            FromStage::Done { place: 2, parts: 1 },
        ],
    ),
    (
        ToStage::Flush { place: 3 },
        &[
            part!(3, 1, What::Back(0)),
            part!(3, 2, What::Back(8)),
            part!(3, 3, What::FlushAll),
            FromStage::Done { place: 3, parts: 3 },
        ],
    ),
    (ToStage::Finish, &[FromStage::Finish]),
];

#[test]
fn the_data_stage_answers_or_fails(rt: HostRuntime) -> Result<(), Fail> {
    let mut stage = stage_of(rt.alloc(), &config_of(&rt, LRU, 2), Side::D)?;
    answers_all(&rt, &mut stage, &DATA_ROWS)?;
    same(
        &rt,
        &state(&stage),
        &(FLUSHED_TOTALS.d, 3, false),
        "the counts",
        3,
    );
    Ok(())
}

static INSTRUCTION_ROWS: [Row<'static>; 3] = [
    (
        refers!(1, Instr, 6),
        &[
            part!(1, 1, What::Fetch(Class::Instr, 4)),
            FromStage::Done { place: 1, parts: 1 },
        ],
    ),
    (
        ToStage::Flush { place: 2 },
        &[FromStage::Done { place: 2, parts: 0 }],
    ),
    (ToStage::Finish, &[FromStage::Finish]),
];

#[test]
fn the_instruction_stage_answers_or_fails(rt: HostRuntime) -> Result<(), Fail> {
    let mut stage = stage_of(rt.alloc(), &config_of(&rt, LRU, 2), Side::I)?;
    answers_all(&rt, &mut stage, &INSTRUCTION_ROWS)?;
    assert!(rt; stage.served() == 2);
    Ok(())
}

static SENT: [What; 5] = [
    What::Fetch(Class::Read, 8),
    What::Fetch(Class::Read, 0),
    What::Back(0),
    What::Back(8),
    What::FlushAll,
];

#[test]
fn the_second_level_serves_or_fails(rt: HostRuntime) -> Result<(), Fail> {
    let mut stage = second_of(rt.alloc(), &config_of(&rt, LRU, 2))?;
    serve(&rt, &mut stage, &SENT)?;
    same(
        &rt,
        &second_state(&stage),
        &(FLUSHED_TOTALS.u, 5, false),
        "the counts",
        5,
    );
    Ok(())
}

#[test]
fn a_run_counts_all_or_wants_memory(rt: HostRuntime) -> Result<(), Fail> {
    static RUNS: [Run; 1] = [("a flush", LRU, 0, &FLUSHED, FLUSHED_TOTALS)];
    Ok(come_to(&rt, rt.alloc(), &RUNS)?)
}
