//! The bytes of a report.

use super::{EVERYTHING, config, writes_text};
use cache_core::{Counts, PerClass};
use din_trace::FromWrite;
use expected_counts::{NO_COUNTS, NONE};
use sim_run::write_block;

/// The report of a write and two reads, the second of which evicts the written block.
pub static ONE_WRITE_BACK: &str = "\
l1-icache                Total      Instrn        Read       Write        Misc
Demand Fetches               0           0           0           0           0
Demand Misses                0           0           0           0           0
Miss Rate               0.0000      0.0000      0.0000      0.0000      0.0000
Compulsory                   0           0           0           0           0
Capacity                     0           0           0           0           0
Conflict                     0           0           0           0           0
Blocks Fetched               0
Written Back                 0
Writes Sent On               0
Flushes                      0

l1-dcache                Total      Instrn        Read       Write        Misc
Demand Fetches               3           0           2           1           0
Demand Misses                3           0           2           1           0
Miss Rate               1.0000      0.0000      1.0000      1.0000      0.0000
Compulsory                   3           0           2           1           0
Capacity                     0           0           0           0           0
Conflict                     0           0           0           0           0
Blocks Fetched               3
Written Back                 1
Writes Sent On               0
Flushes                      0

l2-ucache                Total      Instrn        Read       Write        Misc
Demand Fetches               4           0           3           1           0
Demand Misses                3           0           3           0           0
Miss Rate               0.7500      0.0000      1.0000      0.0000      0.0000
Compulsory                   3           0           3           0           0
Capacity                     0           0           0           0           0
Conflict                     0           0           0           0           0
Blocks Fetched               3
Written Back                 0
Writes Sent On               0
Flushes                      0
";

#[test]
fn a_whole_report_byte_for_byte(rt: HostRuntime) {
    let trace = b"1 0\n0 8\n0 10\n";
    let text = ONE_WRITE_BACK.as_bytes();
    writes_text(&rt, rt.alloc(), &config(&rt), &EVERYTHING, trace, text);
}

static LONG_NUMBERS: &str = "\
l2-ucache                Total      Instrn        Read       Write        Misc
Demand Fetches               7           3           0           0           4
Demand Misses     73786976294838206460184467440737095516151844674407370955161518446744073709551615\
18446744073709551615
Miss Rate         10540996613548315208.57146148914691236517205.0000      0.0000      0.0000\
4611686018427387903.7500
Compulsory        100000000000          12           0           0 99999999988
Capacity          1234567890123           0123456789012           01111111101111
Conflict                     0           0           0           0           0
Blocks Fetched    18446744073709551615
Written Back      123456789012
Writes Sent On    1234567890123
Flushes           999999999999
";

#[test]
fn a_long_number_takes_the_places_that_it_needs(rt: HostRuntime) {
    let most = u64::MAX;
    let counts = Counts {
        fetches: PerClass {
            instr: 3,
            read: 0,
            write: 0,
            misc: 4,
        },
        misses: PerClass {
            instr: most,
            read: most,
            write: most,
            misc: most,
        },
        compulsory: PerClass {
            instr: 12,
            read: 0,
            write: 0,
            misc: 99_999_999_988,
        },
        capacity: PerClass {
            instr: 0,
            read: 123_456_789_012,
            write: 0,
            misc: 1_111_111_101_111,
        },
        conflict: NONE,
        loaded: most,
        written_back: 123_456_789_012,
        sent_on: 1_234_567_890_123,
        flushes: 999_999_999_999,
    };
    let mut written = Vec::new(rt.alloc());
    let mut writer = FromWrite::new(&mut written);
    write_block("l2-ucache", &counts, &mut writer).expect(&rt, "a block");
    assert!(rt; written.as_slice() == LONG_NUMBERS.as_bytes());
}

static RATES: &str = "\
l1-dcache                Total      Instrn        Read       Write        Misc
Demand Fetches           20013           0           3       20000          10
Demand Misses            20001           0           2       19999           0
Miss Rate               0.9994      0.0000      0.6666      0.9999      0.0000
Compulsory                   0           0           0           0           0
Capacity                     0           0           0           0           0
Conflict                     0           0           0           0           0
Blocks Fetched               0
Written Back                 0
Writes Sent On               0
Flushes                      0
";

#[test]
fn a_rate_is_rounded_down(rt: HostRuntime) {
    let counts = Counts {
        fetches: PerClass {
            instr: 0,
            read: 3,
            write: 20_000,
            misc: 10,
        },
        misses: PerClass {
            instr: 0,
            read: 2,
            write: 19_999,
            misc: 0,
        },
        ..NO_COUNTS
    };
    let mut written = Vec::new(rt.alloc());
    let mut writer = FromWrite::new(&mut written);
    write_block("l1-dcache", &counts, &mut writer).expect(&rt, "a block");
    assert!(rt; written.as_slice() == RATES.as_bytes());
}
