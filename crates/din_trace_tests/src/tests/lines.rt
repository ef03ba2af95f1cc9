//! Line readers, byte by byte.

use super::same;
use super::sources::{Answer, Found, answer};
use din_trace::{Label, LineReader, MAX_LIMIT, TraceFault, Why};
use std::process::Abort;

/// What ends a line.
#[derive(Clone, Copy)]
enum Ends {
    LineFeed,
    Text,
}

/// The rest of a line, what ends it, and what this has to answer. Then so many bytes are counted,
/// and the line has this number.
type Row<'a> = (&'a str, Ends, Found, (u64, u64));

fn give(rt: &impl Abort, lines: &mut LineReader, byte: u8) -> Answer {
    assert!(rt; lines.bytes() < MAX_LIMIT);
    lines.byte(byte)
}

fn end(lines: &mut LineReader) -> Answer {
    lines.end()
}

/// How many bytes are counted, and the number of the line.
fn counted(lines: &LineReader) -> (u64, u64) {
    (lines.bytes(), lines.line())
}

/// Gives bytes without an LF: each is answered by `None` and counted, and the line goes on.
fn give_all(rt: &impl Abort, lines: &mut LineReader, part: &str) {
    let (before, line) = counted(lines);
    for (place, byte) in part.as_bytes().iter().enumerate() {
        same(rt, &give(rt, lines, *byte), &Ok(None), part, place);
    }
    let bytes = before.wrapping_add(part.len() as u64);
    same(rt, &counted(lines), &(bytes, line), part, part.len());
}

/// Reads these lines from the start.
fn reads(rt: &impl Abort, lines: &mut LineReader, rows: &[Row<'_>]) {
    assert!(rt; counted(lines) == (0, 1));
    for (part, ends, found, after) in rows {
        give_all(rt, lines, *part);
        let came = match *ends {
            Ends::LineFeed => give(rt, lines, b'\n'),
            Ends::Text => end(lines),
        };
        same(rt, &came, &answer(*found), *part, part.len());
        same(rt, &counted(lines), after, *part, part.len());
    }
}

#[test]
fn judges_a_line_at_its_end_alone(rt: HostRuntime) {
    static ROWS: [Row<'static>; 4] = [
        (
            "0 0x1F comment\r",
            Ends::LineFeed,
            Found::Record(Label::Read, 0x1f),
            (16, 2),
        ),
        ("", Ends::LineFeed, Found::Nothing, (17, 3)),
        (" \t\r", Ends::LineFeed, Found::Nothing, (21, 4)),
        (
            "x nothing is said inside a line",
            Ends::LineFeed,
            Found::Bad(4, Why::Label),
            (53, 4),
        ),
    ];
    reads(&rt, &mut LineReader::new(), &ROWS);
}

#[test]
fn ends_a_last_line_as_an_lf_would_without_counting(rt: HostRuntime) {
    static ROWS: [Row<'static>; 6] = [
        ("", Ends::Text, Found::Nothing, (0, 1)),
        ("2 0", Ends::Text, Found::Record(Label::Instr, 0), (3, 2)),
        ("", Ends::Text, Found::Nothing, (3, 2)),
        (" ", Ends::Text, Found::Nothing, (4, 3)),
        (
            "1 8",
            Ends::LineFeed,
            Found::Record(Label::Write, 8),
            (8, 4),
        ),
        ("0 12g", Ends::Text, Found::Bad(4, Why::Tail), (13, 4)),
    ];
    reads(&rt, &mut LineReader::new(), &ROWS);
}

/// The answer to a line with a faulty label.
static BAD: Answer = Err(TraceFault::Bad {
    line: 2,
    why: Why::Label,
});

/// After a fault, each byte and the end repeat it, and nothing more is counted.
fn repeats(rt: &impl Abort, lines: &mut LineReader, byte: u8, after: &(u64, u64)) {
    same(rt, &give(rt, lines, byte), &BAD, "a byte", 0);
    same(rt, &end(lines), &BAD, "the end", 0);
    same(rt, &counted(lines), after, "a byte", 0);
}

#[test]
fn repeats_a_fault_and_counts_no_more(rt: HostRuntime) {
    static ROWS: [Row<'static>; 2] = [
        (
            "2 0",
            Ends::LineFeed,
            Found::Record(Label::Instr, 0),
            (4, 2),
        ),
        ("9 0", Ends::LineFeed, Found::Bad(2, Why::Label), (8, 2)),
    ];
    let mut lines = LineReader::new();
    reads(&rt, &mut lines, &ROWS);
    for byte in b"2 0\n2 0\n" {
        repeats(&rt, &mut lines, *byte, &(8, 2));
    }
}
