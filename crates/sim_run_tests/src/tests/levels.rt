//! The counts of each level over short traces.

use super::{EVERYTHING, NO_TOTALS, USUAL, config_with, is_counted, reports};
use cache_core::{Counts, Policy, Repl};
use expected_counts::{NO_COUNTS, by_class, first_misses};
use stage_core::Totals;

#[test]
fn an_empty_trace_counts_nothing(rt: HostRuntime) {
    is_counted(&rt, rt.alloc(), b"", &NO_TOTALS);
}

#[test]
fn a_first_fetch_misses_at_both_levels(rt: HostRuntime) {
    let one = first_misses!(by_class!(instr: 1), by_class!(instr: 1), 1);
    let totals = Totals {
        i: one,
        u: one,
        ..NO_TOTALS
    };
    is_counted(&rt, rt.alloc(), b"2 0\n", &totals);
}

#[test]
fn fetches_share_a_block_of_the_second_level(rt: HostRuntime) {
    let totals = Totals {
        i: first_misses!(by_class!(instr: 3), by_class!(instr: 2), 2),
        u: first_misses!(by_class!(instr: 2), by_class!(instr: 1), 1),
        ..NO_TOTALS
    };
    let traces: [&[u8]; 2] = [b"2 0\n2 0\n2 4\n", b"2 0\n2 4\n2 0\n"];
    for trace in traces {
        is_counted(&rt, rt.alloc(), trace, &totals);
    }
}

#[test]
fn a_loop_that_does_not_fit_misses_in_one_set(rt: HostRuntime) {
    let i = Counts {
        compulsory: by_class!(instr: 5),
        capacity: by_class!(instr: 2),
        ..first_misses!(by_class!(instr: 10), by_class!(instr: 7), 7)
    };
    let totals = Totals {
        i,
        u: first_misses!(by_class!(instr: 7), by_class!(instr: 3), 3),
        ..NO_TOTALS
    };
    let trace = b"2 0\n2 4\n2 8\n2 c\n2 10\n2 0\n2 4\n2 8\n2 c\n2 10\n";
    is_counted(&rt, rt.alloc(), trace, &totals);
}

#[test]
fn a_flush_empties_the_instruction_cache(rt: HostRuntime) {
    let again = Counts {
        compulsory: by_class!(instr: 1),
        capacity: by_class!(instr: 1),
        flushes: 1,
        ..first_misses!(by_class!(instr: 2), by_class!(instr: 2), 2)
    };
    let d = Counts {
        flushes: 1,
        ..NO_COUNTS
    };
    let totals = Totals {
        i: again,
        d,
        u: again,
    };
    is_counted(&rt, rt.alloc(), b"2 0\n4 0\n2 0\n", &totals);
}

#[test]
fn blocks_of_one_set_conflict(rt: HostRuntime) {
    let i = Counts {
        compulsory: by_class!(instr: 2),
        conflict: by_class!(instr: 1),
        ..first_misses!(by_class!(instr: 3), by_class!(instr: 3), 3)
    };
    let u = first_misses!(by_class!(instr: 3), by_class!(instr: 2), 2);
    let totals = Totals { i, u, ..NO_TOTALS };
    is_counted(&rt, rt.alloc(), b"2 0\n2 10\n2 0\n", &totals);
}

#[test]
fn a_block_in_use_stays(rt: HostRuntime) {
    let totals = Totals {
        d: first_misses!(by_class!(read: 5), by_class!(read: 3), 3),
        u: first_misses!(by_class!(read: 3), by_class!(read: 3), 3),
        ..NO_TOTALS
    };
    let trace = b"0 0\n0 8\n0 0\n0 10\n0 0\n";
    is_counted(&rt, rt.alloc(), trace, &totals);
}

#[test]
fn first_in_first_out_forgets_uses(rt: HostRuntime) {
    let fifo = config_with(
        &rt,
        Policy {
            repl: Repl::Fifo,
            ..USUAL
        },
    );
    let d = Counts {
        compulsory: by_class!(read: 3),
        conflict: by_class!(read: 1),
        ..first_misses!(by_class!(read: 5), by_class!(read: 4), 4)
    };
    let u = first_misses!(by_class!(read: 4), by_class!(read: 3), 3);
    let totals = Totals { d, u, ..NO_TOTALS };
    let trace = b"0 0\n0 8\n0 0\n0 10\n0 0\n";
    reports(&rt, rt.alloc(), &fifo, &EVERYTHING, trace, &totals);
}

#[test]
fn each_write_is_sent_on_under_write_through(rt: HostRuntime) {
    let through = config_with(
        &rt,
        Policy {
            wback: false,
            ..USUAL
        },
    );
    let d = Counts {
        sent_on: 2,
        ..first_misses!(by_class!(write: 2), by_class!(write: 1), 1)
    };
    let u = first_misses!(by_class!(read: 1, write: 2), by_class!(read: 1), 1);
    let totals = Totals { d, u, ..NO_TOTALS };
    reports(
        &rt,
        rt.alloc(),
        &through,
        &EVERYTHING,
        b"1 2\n1 2\n",
        &totals,
    );
}

#[test]
fn a_write_miss_without_allocation_loads_nothing(rt: HostRuntime) {
    let around = config_with(
        &rt,
        Policy {
            walloc: false,
            ..USUAL
        },
    );
    let both = by_class!(read: 1, write: 1);
    let d = Counts {
        compulsory: by_class!(write: 1),
        capacity: by_class!(read: 1),
        sent_on: 1,
        ..first_misses!(both, both, 1)
    };
    let u = first_misses!(both, by_class!(write: 1), 1);
    let totals = Totals { d, u, ..NO_TOTALS };
    reports(
        &rt,
        rt.alloc(),
        &around,
        &EVERYTHING,
        b"1 0\n0 0\n",
        &totals,
    );
}

#[test]
fn a_flush_writes_dirty_blocks_back_through_both_levels(rt: HostRuntime) {
    let i = Counts {
        flushes: 1,
        ..NO_COUNTS
    };
    let d = Counts {
        written_back: 2,
        flushes: 1,
        ..first_misses!(by_class!(write: 2), by_class!(write: 2), 2)
    };
    let u = Counts {
        written_back: 2,
        flushes: 1,
        ..first_misses!(by_class!(read: 2, write: 2), by_class!(read: 2), 2)
    };
    let trace = b"1 8\n1 0\n4 0\n";
    is_counted(&rt, rt.alloc(), trace, &Totals { i, d, u });
}

#[test]
fn a_flush_empties_but_does_not_forget(rt: HostRuntime) {
    let i = Counts {
        flushes: 1,
        ..NO_COUNTS
    };
    let again = Counts {
        compulsory: by_class!(read: 1),
        capacity: by_class!(read: 1),
        flushes: 1,
        ..first_misses!(by_class!(read: 2), by_class!(read: 2), 2)
    };
    let totals = Totals {
        i,
        d: again,
        u: again,
    };
    is_counted(&rt, rt.alloc(), b"0 0\n4 0\n0 0\n", &totals);
}

#[test]
fn the_first_level_to_miss_loads_the_second(rt: HostRuntime) {
    let i = first_misses!(by_class!(instr: 1), by_class!(instr: 1), 1);
    let d = first_misses!(by_class!(read: 1), by_class!(read: 1), 1);
    let fetches = by_class!(instr: 1, read: 1);
    let read_first = Totals {
        i,
        d,
        u: first_misses!(fetches, by_class!(read: 1), 1),
    };
    is_counted(&rt, rt.alloc(), b"0 0\n2 0\n", &read_first);
    let fetch_first = Totals {
        i,
        d,
        u: first_misses!(fetches, by_class!(instr: 1), 1),
    };
    is_counted(&rt, rt.alloc(), b"2 0\n0 0\n", &fetch_first);
}

#[test]
fn a_miscellaneous_reference_is_fetched_as_a_read(rt: HostRuntime) {
    let misc = by_class!(misc: 1);
    let totals = Totals {
        d: first_misses!(by_class!(read: 1, misc: 1), misc, 1),
        u: first_misses!(by_class!(read: 1), by_class!(read: 1), 1),
        ..NO_TOTALS
    };
    is_counted(&rt, rt.alloc(), b"3 0\n0 0\n", &totals);
}
