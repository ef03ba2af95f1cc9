//! Small traces. The expected values were worked out by hand.

mod memory;
mod messages;
mod network;
mod policies;
mod rings;
mod seen;
mod selections;
mod stages;
mod streams;
mod totals;
mod worked;

use cache_core::{Policy, Repl};
use din_trace::DinRecord;
use messages::record;
use stage_core::{CacheSpec, Config};
use std::fmt::Debug;
use std::process::Abort;

/// What came has to be what is wanted, in this place of this case.
fn same<T: PartialEq + Debug>(rt: &impl Abort, came: &T, wanted: &T, case: &str, place: u64) {
    assert_eq!(rt; came, wanted, "{case} at {place}");
}

fn push<T: Drop>(rt: &impl Abort, list: &mut Vec<T>, item: T) {
    assert!(rt; list.push(item).is_ok());
}

fn read(addr: u64) -> DinRecord {
    record!(Read, addr)
}

const READ_0: DinRecord = record!(Read, 0);

const READ_8: DinRecord = record!(Read, 8);

const READ_16: DinRecord = record!(Read, 16);

const WRITE_0: DinRecord = record!(Write, 0);

const WRITE_2: DinRecord = record!(Write, 2);

const WRITE_8: DinRecord = record!(Write, 8);

const INSTR_0: DinRecord = record!(Instr, 0);

const INSTR_4: DinRecord = record!(Instr, 4);

const INSTR_8: DinRecord = record!(Instr, 8);

const FLUSH: DinRecord = record!(Flush, 0);

const LRU: Policy = Policy {
    repl: Repl::Lru,
    wback: true,
    walloc: true,
};

const THROUGH: Policy = Policy {
    wback: false,
    ..LRU
};

const AROUND: Policy = Policy {
    walloc: false,
    ..LRU
};

/// The instruction cache.
const INSTRUCTIONS: CacheSpec = CacheSpec {
    size: 16,
    bsize: 4,
    assoc: 1,
    policy: LRU,
};

/// The data cache of most traces.
const DATA: CacheSpec = CacheSpec {
    size: 16,
    bsize: 4,
    assoc: 2,
    policy: LRU,
};

/// The second level.
const SECOND: CacheSpec = CacheSpec {
    size: 32,
    bsize: 8,
    assoc: 2,
    policy: LRU,
};

fn config_of(rt: &impl Abort, policy: Policy, ring: u64) -> Config {
    let d = CacheSpec { policy, ..DATA };
    Config::new(INSTRUCTIONS, d, SECOND, ring).expect(rt, "a lawful configuration")
}
