//! Whole texts. Each is read in memory, and from a reader that gives it in pieces of several sizes.

use super::fakes::{END, FAIL};
use super::sources::{Found, Text, has, left_in_pieces};
use din_trace::{DinRecord, Label, MAX_LIMIT, TraceFault, Why, read_all};
use std::alloc::Global;
use std::process::Abort;

/// Reads the text in memory, under the limit.
pub fn in_memory(alloc: Global, text: &str, limit: u64) -> Result<Vec<DinRecord>, TraceFault> {
    read_all(alloc, text.as_bytes(), limit.min(MAX_LIMIT))
}

/// Reads texts from readers that fail after them. Each has to have this fault.
fn expect_failing(rt: &impl Abort, alloc: Global, rows: &[(&str, Found)]) {
    for (text, fault) in rows {
        left_in_pieces(rt, alloc, (*text, "", FAIL), MAX_LIMIT, (&[], *fault));
    }
}

/// Reads the text under the limit, in memory and from readers that end after it.
fn expect(rt: &impl Abort, alloc: Global, text: &str, limit: u64, want: Text<'_>) {
    has(rt, in_memory(alloc, text, limit), want, text);
    left_in_pieces(rt, alloc, (text, "", END), limit, want);
}

/// Reads texts in this way.
fn expect_each(rt: &impl Abort, alloc: Global, rows: &[(&str, Text<'_>)]) {
    for (text, want) in rows {
        expect(rt, alloc, *text, MAX_LIMIT, *want);
    }
}

/// Reads texts in this way, each under its limit.
fn expect_limited(rt: &impl Abort, alloc: Global, rows: &[(&str, u64, Text<'_>)]) {
    for (text, limit, want) in rows {
        expect(rt, alloc, *text, *limit, *want);
    }
}

/// Faulty lines, each with its first fault.
static FAULTY: [(&str, Text<'static>); 18] = [
    ("0 10000000000000000", (&[], Found::Bad(1, Why::Range))),
    ("0 10000000000000000g", (&[], Found::Bad(1, Why::Range))),
    ("0 100000000g", (&[], Found::Bad(1, Why::Tail))),
    ("0 12g", (&[], Found::Bad(1, Why::Tail))),
    ("0 00x1", (&[], Found::Bad(1, Why::Tail))),
    ("0 0x0x1", (&[], Found::Bad(1, Why::Tail))),
    ("0 12\u{0b}", (&[], Found::Bad(1, Why::Tail))),
    ("0", (&[], Found::Bad(1, Why::Gap))),
    ("12 0", (&[], Found::Bad(1, Why::Gap))),
    ("0x1 0", (&[], Found::Bad(1, Why::Gap))),
    ("0 0x", (&[], Found::Bad(1, Why::Address))),
    ("0 ", (&[], Found::Bad(1, Why::Address))),
    ("0 -1", (&[], Found::Bad(1, Why::Address))),
    ("0 x1", (&[], Found::Bad(1, Why::Address))),
    ("x 0", (&[], Found::Bad(1, Why::Label))),
    ("5 0", (&[], Found::Bad(1, Why::Label))),
    ("-0 0", (&[], Found::Bad(1, Why::Label))),
    ("# a comment alone", (&[], Found::Bad(1, Why::Label))),
];

/// Faulty lines that are held whole.
static HELD_FAULTY: [(&str, Text<'static>); 7] = [
    (
        "0 1\n0 12g comment\n2 1000\n2 2000\n2 3000\n2 4000\n",
        (&[], Found::Bad(2, Why::Tail)),
    ),
    (
        "0 1\n0  12; comment\n2 1000\n2 2000\n2 3000\n2 4000\n",
        (&[], Found::Bad(2, Why::Tail)),
    ),
    (
        "0 1\n0 \t comment\n2 1000\n2 2000\n2 3000\n2 4000\n",
        (&[], Found::Bad(2, Why::Tail)),
    ),
    (
        "0 1\n0 \t \n2 1000\n2 2000\n2 3000\n2 4000\n",
        (&[], Found::Bad(2, Why::Address)),
    ),
    (
        "0 1\n0  0x 1\n2 1000\n2 2000\n2 3000\n2 4000\n",
        (&[], Found::Bad(2, Why::Address)),
    ),
    (
        "0 1\n0\n 2 1000\n2 2000\n2 3000\n2 4000\n",
        (&[], Found::Bad(2, Why::Gap)),
    ),
    (
        "0 1\n0  10000000000000000 c\n2 1000\n2 2000\n2 3000\n",
        (&[], Found::Bad(2, Why::Range)),
    ),
];

#[test]
fn refuses_faulty_lines(rt: HostRuntime) {
    expect_each(&rt, rt.alloc(), &FAULTY);
    expect_each(&rt, rt.alloc(), &HELD_FAULTY);
}

/// Each form of an address.
static FORMS: [(&str, Text<'static>); 17] = [
    (
        "0 00000000000ffffffff",
        (&[(Label::Read, 0xffff_ffff)], Found::Nothing),
    ),
    (
        "0 100000000",
        (&[(Label::Read, 0x1_0000_0000)], Found::Nothing),
    ),
    (
        "0 ffffffffffffffff",
        (&[(Label::Read, u64::MAX)], Found::Nothing),
    ),
    (
        "0 FFFFFFFFFFFFFFFF",
        (&[(Label::Read, u64::MAX)], Found::Nothing),
    ),
    (
        "0 0000ffffffffffffffff",
        (&[(Label::Read, u64::MAX)], Found::Nothing),
    ),
    (
        "0 0xffffffffffffffff",
        (&[(Label::Read, u64::MAX)], Found::Nothing),
    ),
    (
        "0 8000000000000001",
        (&[(Label::Read, 0x8000_0000_0000_0001)], Found::Nothing),
    ),
    ("0 0Xab", (&[(Label::Read, 0xab)], Found::Nothing)),
    ("0 0", (&[(Label::Read, 0)], Found::Nothing)),
    ("1 aBcD", (&[(Label::Write, 0xabcd)], Found::Nothing)),
    ("2 9", (&[(Label::Instr, 9)], Found::Nothing)),
    ("3 10", (&[(Label::Misc, 0x10)], Found::Nothing)),
    ("4 0", (&[(Label::Flush, 0)], Found::Nothing)),
    ("4 7f", (&[(Label::Flush, 0x7f)], Found::Nothing)),
    (" \t0 \t\r 1f\r", (&[(Label::Read, 0x1f)], Found::Nothing)),
    ("0 1 2 3", (&[(Label::Read, 1)], Found::Nothing)),
    ("0 1\t; a comment", (&[(Label::Read, 1)], Found::Nothing)),
];

/// Lines that hold no record are counted.
static BLANK: [(&str, Text<'static>); 5] = [
    ("", (&[], Found::Nothing)),
    ("\n\n \t\r\n", (&[], Found::Nothing)),
    (" ", (&[], Found::Nothing)),
    ("0 0\n\n5 0\n", (&[], Found::Bad(3, Why::Label))),
    ("0 0\r\n \r\n0\r\n", (&[], Found::Bad(3, Why::Address))),
];

/// Comments, line ends, a last line without one, and a flush between fetches.
static ENDS: [(&str, Text<'static>); 2] = [
    (
        "0 0x1F comment\r\n 1 ffffffff",
        (
            &[(Label::Read, 0x1f), (Label::Write, 0xffff_ffff)],
            Found::Nothing,
        ),
    ),
    (
        "2 0\n4 0\n2 0\n",
        (
            &[(Label::Instr, 0), (Label::Flush, 0), (Label::Instr, 0)],
            Found::Nothing,
        ),
    ),
];

#[test]
fn reads_lines_of_each_form(rt: HostRuntime) {
    expect_each(&rt, rt.alloc(), &FORMS);
    expect_each(&rt, rt.alloc(), &BLANK);
    expect_each(&rt, rt.alloc(), &ENDS);
}

#[test]
fn reads_gaps_and_comments_of_lines_that_are_held_whole(rt: HostRuntime) {
    // Each line but the last ones is followed by more bytes than an address takes.
    static TEXT: &str = "1  7f\n1\t7e\n1 \t\r 0x7D\n0 \t  \t \t  \t  \t  \t 0Xffffffffffffffff\n\
        2 0x40 a comment with a number 0x80\n3   40\t; 4 80\n4 0\r\n4\t\t10 \r\n\
        1 0000000000000001 \n1 00000000000000002 c\n2 3 \n2 4\n2 5\n2 6\n2 7\n2 8\n2 9\n";
    static WANT: [(Label, u64); 17] = [
        (Label::Write, 0x7f),
        (Label::Write, 0x7e),
        (Label::Write, 0x7d),
        (Label::Read, u64::MAX),
        (Label::Instr, 0x40),
        (Label::Misc, 0x40),
        (Label::Flush, 0),
        (Label::Flush, 0x10),
        (Label::Write, 1),
        (Label::Write, 2),
        (Label::Instr, 3),
        (Label::Instr, 4),
        (Label::Instr, 5),
        (Label::Instr, 6),
        (Label::Instr, 7),
        (Label::Instr, 8),
        (Label::Instr, 9),
    ];
    expect(&rt, rt.alloc(), TEXT, MAX_LIMIT, (&WANT, Found::Nothing));
}

#[test]
fn judges_the_lines_within_the_limit_before_the_length(rt: HostRuntime) {
    static ROWS: [(&str, u64, Text<'static>); 10] = [
        ("2 0\n2 4\n2 8\n", 8, (&[], Found::TooLong)),
        ("9 0\n2 0\n2 4\n2 8\n", 8, (&[], Found::Bad(1, Why::Label))),
        (
            "2 0\n2 4\n",
            8,
            (&[(Label::Instr, 0), (Label::Instr, 4)], Found::Nothing),
        ),
        (
            "2 0\n2 4",
            7,
            (&[(Label::Instr, 0), (Label::Instr, 4)], Found::Nothing),
        ),
        ("2 0\n9 0\n", 8, (&[], Found::Bad(2, Why::Label))),
        ("2 0\n9 0\n", 7, (&[], Found::TooLong)),
        ("9 0", 3, (&[], Found::Bad(1, Why::Label))),
        ("9 0", 2, (&[], Found::TooLong)),
        ("", 0, (&[], Found::Nothing)),
        ("\n", 0, (&[], Found::TooLong)),
    ];
    expect_limited(&rt, rt.alloc(), &ROWS);
}

#[test]
fn judges_the_lines_that_came_before_the_reader_failed(rt: HostRuntime) {
    static ROWS: [(&str, Found); 17] = [
        ("2 0\n9 0\n", Found::Bad(2, Why::Label)),
        ("2 0\n9", Found::Unread),
        ("2 0\n9 0", Found::Unread),
        ("", Found::Unread),
        ("1", Found::Unread),
        ("1 ", Found::Unread),
        ("1 0", Found::Unread),
        ("1 0\n", Found::Unread),
        ("1 0\n0", Found::Unread),
        ("1 0\n0 ", Found::Unread),
        ("1 0\n0 8", Found::Unread),
        ("1 0\n0 8\n", Found::Unread),
        ("1 0\n0 8\n0", Found::Unread),
        ("1 0\n0 8\n0 ", Found::Unread),
        ("1 0\n0 8\n0 1", Found::Unread),
        ("1 0\n0 8\n0 10", Found::Unread),
        ("1 0\n0 8\n0 10\n", Found::Unread),
    ];
    expect_failing(&rt, rt.alloc(), &ROWS);
}

/// A text, cut off behind each of its bytes.
static CUT_TEXTS: [(&str, Text<'static>); 14] = [
    ("", (&[], Found::Nothing)),
    ("1", (&[], Found::Bad(1, Why::Gap))),
    ("1 ", (&[], Found::Bad(1, Why::Address))),
    ("1 0", (&[(Label::Write, 0)], Found::Nothing)),
    ("1 0\n", (&[(Label::Write, 0)], Found::Nothing)),
    ("1 0\n0", (&[], Found::Bad(2, Why::Gap))),
    ("1 0\n0 ", (&[], Found::Bad(2, Why::Address))),
    (
        "1 0\n0 8",
        (&[(Label::Write, 0), (Label::Read, 8)], Found::Nothing),
    ),
    (
        "1 0\n0 8\n",
        (&[(Label::Write, 0), (Label::Read, 8)], Found::Nothing),
    ),
    ("1 0\n0 8\n0", (&[], Found::Bad(3, Why::Gap))),
    ("1 0\n0 8\n0 ", (&[], Found::Bad(3, Why::Address))),
    (
        "1 0\n0 8\n0 1",
        (
            &[(Label::Write, 0), (Label::Read, 8), (Label::Read, 1)],
            Found::Nothing,
        ),
    ),
    (
        "1 0\n0 8\n0 10",
        (
            &[(Label::Write, 0), (Label::Read, 8), (Label::Read, 0x10)],
            Found::Nothing,
        ),
    ),
    (
        "1 0\n0 8\n0 10\n",
        (
            &[(Label::Write, 0), (Label::Read, 8), (Label::Read, 0x10)],
            Found::Nothing,
        ),
    ),
];

#[test]
fn reads_a_text_that_is_cut_off_anywhere(rt: HostRuntime) {
    expect_each(&rt, rt.alloc(), &CUT_TEXTS);
}
