//! Whole runs with selections, all forms of a line, wide addresses and cut texts.

use super::{EVERYTHING, NO_TOTALS, bad, config, ends, is_counted, reports};
use cache_core::Counts;
use din_trace::{MAX_LIMIT, Why};
use expected_counts::{NO_COUNTS, by_class, first_misses};
use sim_run::RunFault;
use stage_core::{Selection, Totals};

#[test]
fn a_selection_puts_flushes_in(rt: HostRuntime) {
    let every_second = Selection {
        every: 2,
        ..EVERYTHING
    };
    let i = Counts {
        flushes: 1,
        ..NO_COUNTS
    };
    let all = by_class!(read: 2, write: 1);
    let d = Counts {
        written_back: 1,
        flushes: 1,
        ..first_misses!(all, all, 3)
    };
    let u = Counts {
        written_back: 1,
        flushes: 1,
        ..first_misses!(by_class!(read: 3, write: 1), by_class!(read: 3), 3)
    };
    let trace = b"1 0\n0 8\n0 10\n";
    reports(
        &rt,
        rt.alloc(),
        &config(&rt),
        &every_second,
        trace,
        &Totals { i, d, u },
    );
}

#[test]
fn only_what_is_selected_is_simulated(rt: HostRuntime) {
    let second = Selection {
        skip: 1,
        max: 1,
        ..EVERYTHING
    };
    let one = first_misses!(by_class!(instr: 1), by_class!(instr: 1), 1);
    let totals = Totals {
        i: one,
        u: one,
        ..NO_TOTALS
    };
    reports(
        &rt,
        rt.alloc(),
        &config(&rt),
        &second,
        b"0 0\n2 4\n1 8\n",
        &totals,
    );
}

#[test]
fn lines_that_are_not_selected_are_judged(rt: HostRuntime) {
    let second = Selection {
        skip: 1,
        max: 1,
        ..EVERYTHING
    };
    let third = Err(bad(3, Why::Label));
    ends(
        &rt,
        rt.alloc(),
        &second,
        b"0 0\n0 8\n9 0\n",
        MAX_LIMIT,
        third,
    );
}

#[test]
fn a_line_may_have_blanks_a_prefix_and_a_comment(rt: HostRuntime) {
    let both = by_class!(read: 1, write: 1);
    let totals = Totals {
        d: first_misses!(both, both, 2),
        u: first_misses!(by_class!(read: 2), by_class!(read: 2), 2),
        ..NO_TOTALS
    };
    let trace = b"0 0x1F comment\r\n 1 ffffffff";
    is_counted(&rt, rt.alloc(), trace, &totals);
}

#[test]
fn an_address_may_have_zeros_before_it_or_a_prefix(rt: HostRuntime) {
    // Each block is read twice, with its address written in two ways.
    let totals = Totals {
        d: first_misses!(by_class!(read: 4), by_class!(read: 2), 2),
        u: first_misses!(by_class!(read: 2), by_class!(read: 2), 2),
        ..NO_TOTALS
    };
    let trace = b"0 00000000000ffffffff\n0 ffffffff\n0 0Xab\n0 ab\n";
    is_counted(&rt, rt.alloc(), trace, &totals);
}

#[test]
fn the_highest_address_lies_in_the_last_block(rt: HostRuntime) {
    // The fetch that follows hits the second level, in the block that the read loaded there.
    let totals = Totals {
        i: first_misses!(by_class!(instr: 1), by_class!(instr: 1), 1),
        d: first_misses!(by_class!(read: 1), by_class!(read: 1), 1),
        u: first_misses!(by_class!(instr: 1, read: 1), by_class!(read: 1), 1),
    };
    let traces: [&[u8]; 2] = [
        b"0 ffffffffffffffff\n2 fffffffffffffff8\n",
        b"0 0000ffffffffffffffff\n2 fffffffffffffff8\n",
    ];
    for trace in traces {
        is_counted(&rt, rt.alloc(), trace, &totals);
    }
}

#[test]
fn addresses_keep_their_high_bits(rt: HostRuntime) {
    let two = first_misses!(by_class!(read: 2), by_class!(read: 2), 2);
    let totals = Totals {
        d: two,
        u: two,
        ..NO_TOTALS
    };
    is_counted(&rt, rt.alloc(), b"0 100000000\n0 0\n", &totals);
}

/// The expected result of a run over the first `length` bytes of the text.
fn ended_at(length: usize) -> Result<(), RunFault> {
    match length {
        1 => Err(bad(1, Why::Gap)),
        2 => Err(bad(1, Why::Address)),
        5 => Err(bad(2, Why::Gap)),
        6 => Err(bad(2, Why::Address)),
        9 => Err(bad(3, Why::Gap)),
        10 => Err(bad(3, Why::Address)),
        _ => Ok(()),
    }
}

#[test]
fn a_cut_text_has_a_report_unless_its_last_line_has_no_address(rt: HostRuntime) {
    let text = b"1 0\n0 8\n0 10\n";
    for length in 0..=text.len() {
        let cut = &text[..length];
        ends(
            &rt,
            rt.alloc(),
            &EVERYTHING,
            cut,
            MAX_LIMIT,
            ended_at(length),
        );
    }
}

#[test]
fn a_shorter_address_at_the_cut_is_simulated(rt: HostRuntime) {
    // Cut after the first digit of the last address, which is then 1, in the first block.
    let missed = by_class!(read: 1, write: 1);
    let d = first_misses!(by_class!(read: 2, write: 1), missed, 2);
    let u = first_misses!(by_class!(read: 2), by_class!(read: 2), 2);
    let totals = Totals { d, u, ..NO_TOTALS };
    is_counted(&rt, rt.alloc(), b"1 0\n0 8\n0 1", &totals);
}
