//! The counts of whole runs.

use super::messages::record;
use super::worked::{
    FLUSHED, FLUSHED_TOTALS, ONE_FLUSH, PUT_IN_TOTALS, SWEEP_TOTALS, VICTIM, VICTIM_TOTALS, sweep,
};
use super::{DATA, FLUSH, INSTR_0, INSTRUCTIONS, LRU, READ_0, SECOND, config_of, same};
use cache_core::{Counts, GeometryFault, Policy};
use din_trace::{DinRecord, MAX_LIMIT};
use expected_counts::{NO_COUNTS, by_class, first_misses};
use stage_core::{
    CacheName, CacheSpec, Config, ConfigFault, NoMemory, Selection, Totals, run_plain,
};
use std::alloc::Global;
use std::process::Abort;

// The counts of a run over the whole trace, with a flush after every `every` references.
pub(super) fn totals_of(
    rt: &impl Abort,
    alloc: Global,
    config: &Config,
    every: u64,
    records: &[DinRecord],
) -> Result<Totals, NoMemory> {
    assert!(rt; every <= MAX_LIMIT && records.len() as u64 <= MAX_LIMIT);
    let selection = Selection {
        skip: 0,
        max: 0,
        every,
    };
    run_plain(alloc, config, &selection, records)
}

// What a run shows, the policy of its data cache, after how many references a flush is put in, its
// trace, and the counts that it has to come to.
pub(super) type Run = (&'static str, Policy, u64, &'static [DinRecord], Totals);

fn comes_to(rt: &impl Abort, alloc: Global, run: &Run) -> Result<(), NoMemory> {
    let (shown, policy, every, records, want) = run;
    let totals = totals_of(rt, alloc, &config_of(rt, *policy, 2), *every, *records)?;
    same(rt, &totals, want, *shown, *every);
    Ok(())
}

pub(super) fn come_to(rt: &impl Abort, alloc: Global, runs: &[Run]) -> Result<(), NoMemory> {
    for run in runs {
        comes_to(rt, alloc, run)?;
    }
    Ok(())
}

const MISC_0: DinRecord = record!(Misc, 0);

const READ_WIDE: DinRecord = record!(Read, 0x1_0000_0000);

/// A block that is read, flushed and read again.
const LOADED_TWICE: Counts = Counts {
    compulsory: by_class!(read: 1),
    capacity: by_class!(read: 1),
    flushes: 1,
    ..first_misses!(by_class!(read: 2), by_class!(read: 2), 2)
};

static RUNS: [Run; 8] = [
    (
        "a dirty victim is written back",
        LRU,
        0,
        &VICTIM,
        VICTIM_TOTALS,
    ),
    (
        "a flush writes back before the second level is flushed",
        LRU,
        0,
        &FLUSHED,
        FLUSHED_TOTALS,
    ),
    ("a flush is put in", LRU, 2, &VICTIM, PUT_IN_TOTALS),
    (
        "a flushed block stays known",
        LRU,
        0,
        &[READ_0, FLUSH, READ_0],
        Totals {
            i: ONE_FLUSH,
            d: LOADED_TWICE,
            u: LOADED_TWICE,
        },
    ),
    (
        "the second level is shared",
        LRU,
        0,
        &[READ_0, INSTR_0],
        Totals {
            i: first_misses!(by_class!(instr: 1), by_class!(instr: 1), 1),
            d: first_misses!(by_class!(read: 1), by_class!(read: 1), 1),
            u: first_misses!(by_class!(instr: 1, read: 1), by_class!(read: 1), 1),
        },
    ),
    (
        "the second level is shared if instructions come first",
        LRU,
        0,
        &[INSTR_0, READ_0],
        Totals {
            i: first_misses!(by_class!(instr: 1), by_class!(instr: 1), 1),
            d: first_misses!(by_class!(read: 1), by_class!(read: 1), 1),
            u: first_misses!(by_class!(instr: 1, read: 1), by_class!(instr: 1), 1),
        },
    ),
    (
        "a miscellaneous reference is read above",
        LRU,
        0,
        &[MISC_0, READ_0],
        Totals {
            i: NO_COUNTS,
            d: first_misses!(by_class!(read: 1, misc: 1), by_class!(misc: 1), 1),
            u: first_misses!(by_class!(read: 1), by_class!(read: 1), 1),
        },
    ),
    (
        "addresses are wide",
        LRU,
        0,
        &[READ_WIDE, READ_0],
        Totals {
            i: NO_COUNTS,
            d: first_misses!(by_class!(read: 2), by_class!(read: 2), 2),
            u: first_misses!(by_class!(read: 2), by_class!(read: 2), 2),
        },
    ),
];

#[test]
fn traces_come_to_their_counts(rt: HostRuntime) -> Result<(), NoMemory> {
    come_to(&rt, rt.alloc(), &RUNS)
}

#[test]
fn a_sweep_over_more_than_fits_always_misses(rt: HostRuntime) -> Result<(), NoMemory> {
    let trace = sweep(&rt, rt.alloc());
    let totals = totals_of(&rt, rt.alloc(), &config_of(&rt, LRU, 1), 0, &trace)?;
    same(&rt, &totals, &SWEEP_TOTALS, "the counts", 0);
    Ok(())
}

#[test]
fn the_first_broken_rule_refuses(rt: HostRuntime) {
    const WIDE: CacheSpec = CacheSpec {
        bsize: 16,
        ..INSTRUCTIONS
    };
    const MANY_WAYS: CacheSpec = CacheSpec {
        assoc: 8,
        ..INSTRUCTIONS
    };
    const GEOMETRY: ConfigFault = ConfigFault::Geometry(CacheName::I, GeometryFault::AssocTooLarge);
    static ROWS: [(CacheSpec, u64, Option<ConfigFault>); 6] = [
        (WIDE, 2, Some(ConfigFault::BlockOrder)),
        (INSTRUCTIONS, 0, Some(ConfigFault::Ring)),
        (INSTRUCTIONS, 65_537, Some(ConfigFault::Ring)),
        (INSTRUCTIONS, 65_536, None),
        (MANY_WAYS, 2, Some(GEOMETRY)),
        (MANY_WAYS, 0, Some(GEOMETRY)),
    ];
    for (i, ring, fault) in &ROWS {
        let came = Config::new(*i, DATA, SECOND, *ring).err();
        same(&rt, &came, fault, "the fault of a ring", *ring);
    }
}
