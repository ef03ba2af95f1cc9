//! Sources, record by record.

use super::fakes::{END, FAIL, Pieces, SIZES, Stop, in_pieces};
use super::same;
use din_trace::{DinRecord, FromRead, Label, MAX_LIMIT, Source, TraceFault, Why};
use std::alloc::Global;
use std::process::Abort;

/// The answer to a call of `next`.
pub type Answer = Result<Option<DinRecord>, TraceFault>;

/// What is found next: a record, nothing more, or a fault.
#[derive(Clone, Copy)]
pub enum Found {
    Record(Label, u64),
    Nothing,
    Bad(u64, Why),
    TooLong,
    Unread,
}

/// The answer where this is found.
pub fn answer(found: Found) -> Answer {
    match found {
        Found::Record(label, addr) => Ok(Some(DinRecord { label, addr })),
        Found::Nothing => Ok(None),
        Found::Bad(line, why) => Err(TraceFault::Bad { line, why }),
        Found::TooLong => Err(TraceFault::TooLong),
        Found::Unread => Err(TraceFault::Read),
    }
}

/// What a text has: all records and then the end, or a fault.
pub type Text<'a> = (&'a [(Label, u64)], Found);

/// A call of a source, with what it has to answer.
#[derive(Clone, Copy)]
pub enum Call {
    Next(Found),
    AtHand(Option<Found>),
}

/// The next answer of a source.
pub fn next(source: &mut Source<FromRead<Pieces<'_>>>) -> Answer {
    source.next()
}

fn at_hand(source: &mut Source<FromRead<Pieces<'_>>>) -> Option<Answer> {
    source.at_hand()
}

/// All that is left, or the fault.
pub fn rest(
    alloc: Global,
    source: &mut Source<FromRead<Pieces<'_>>>,
) -> Result<Vec<DinRecord>, TraceFault> {
    source.rest(alloc)
}

/// These records have to have been found.
pub fn has_records(rt: &impl Abort, found: &[DinRecord], wanted: &[(Label, u64)], case: &str) {
    same(rt, &found.len(), &wanted.len(), case, 0);
    for (place, (label, addr)) in wanted.iter().enumerate() {
        let wanted = Some(DinRecord {
            label: *label,
            addr: *addr,
        });
        same(rt, &found.get(place).copied(), &wanted, case, place);
    }
}

/// The text has to have these records, or this fault.
pub fn has(
    rt: &impl Abort,
    came: Result<Vec<DinRecord>, TraceFault>,
    (records, end): Text<'_>,
    case: &str,
) {
    match came {
        Ok(found) => {
            same(rt, &Ok(None), &answer(end), case, found.len());
            has_records(rt, found.as_slice(), records, case);
        }
        Err(fault) => same(rt, &Err(fault), &answer(end), case, 0),
    }
}

/// Makes these calls, one after another.
pub fn ask(rt: &impl Abort, source: &mut Source<FromRead<Pieces<'_>>>, calls: &[Call], case: &str) {
    for (place, call) in calls.iter().enumerate() {
        match *call {
            Call::Next(found) => same(rt, &next(source), &answer(found), case, place),
            Call::AtHand(found) => same(rt, &at_hand(source), &found.map(answer), case, place),
        }
    }
}

/// The source has to answer these records and then the end, or this fault, and to repeat that.
pub fn has_left(
    rt: &impl Abort,
    alloc: Global,
    source: &mut Source<FromRead<Pieces<'_>>>,
    text: Text<'_>,
    case: &str,
) {
    let end = answer(text.1);
    has(rt, rest(alloc, source), text, case);
    same(rt, &next(source), &end, case, 1);
    same(rt, &next(source), &end, case, 2);
    has(rt, rest(alloc, source), (&[], text.1), case);
}

/// The text that a reader gives before it stops, what it would give if it were asked again, and how
/// it stops.
pub type Reader<'a> = (&'a str, &'a str, Stop);

/// A source of what the reader gives, in pieces of this size, under this limit.
pub fn source_of<'a>(reader: Reader<'a>, size: usize, limit: u64) -> Source<FromRead<Pieces<'a>>> {
    let (text, more, stop) = reader;
    let pieces = in_pieces(text.as_bytes(), more.as_bytes(), size, stop);
    Source::new(pieces, limit.min(MAX_LIMIT))
}

/// A source of what comes in pieces of each size has to have this left, under this limit.
pub fn left_in_pieces(
    rt: &impl Abort,
    alloc: Global,
    reader: Reader<'_>,
    limit: u64,
    want: Text<'_>,
) {
    for size in SIZES {
        has_left(
            rt,
            alloc,
            &mut source_of(reader, size, limit),
            want,
            reader.0,
        );
    }
}

#[test]
fn answers_one_record_and_then_the_rest(rt: HostRuntime) {
    static FIRST: [Call; 1] = [Call::Next(Found::Record(Label::Read, 0x1f))];
    static LEFT: [(Label, u64); 1] = [(Label::Write, 0xffff_ffff)];
    let text = "0 0x1F comment\r\n 1 ffffffff";
    for size in SIZES {
        let mut source = source_of((text, "", END), size, MAX_LIMIT);
        ask(&rt, &mut source, &FIRST, text);
        has_left(&rt, rt.alloc(), &mut source, (&LEFT, Found::Nothing), text);
    }
}

#[test]
fn takes_a_read_of_nothing_for_the_end(rt: HostRuntime) {
    static TWO: [(Label, u64); 2] = [(Label::Instr, 0), (Label::Instr, 1)];
    let cut = ("2 0\n2", " 4\n", END);
    left_in_pieces(
        &rt,
        rt.alloc(),
        cut,
        MAX_LIMIT,
        (&[], Found::Bad(2, Why::Gap)),
    );
    let cut = ("2 0\n2 1", "4\n", END);
    left_in_pieces(&rt, rt.alloc(), cut, MAX_LIMIT, (&TWO, Found::Nothing));
}

/// A reader, with the calls of a source of what it gives.
pub type Row = (Reader<'static>, &'static [Call]);

/// Lines of every form that holds a record, a blank one, and a faulty one.
const MIXED: &str = "0 7fff5a8\n\
    1 0x7ffe0010\r\n\
    2 400d7c\r\n\
    0  10 read\n\
    \t1 0XAb\n\
    2 0\n\
    0 ffffffffffffffff\n\
    1 0xffffffffffffffff\r\n\
    \n\
    2 00000000000000000000000000400d80\n\
    0 1\r \n\
    1 5 6\n\
    0 g\n";

static IN_PIECES: [Row; 3] = [
    // The records before a fault are answered, and then the fault, again and again.
    (
        ("2 0\n2 4\n2\n2 8\n", "", END),
        &[
            Call::Next(Found::Record(Label::Instr, 0)),
            Call::Next(Found::Record(Label::Instr, 4)),
            Call::Next(Found::Bad(3, Why::Gap)),
            Call::Next(Found::Bad(3, Why::Gap)),
            Call::Next(Found::Bad(3, Why::Gap)),
        ],
    ),
    // A failed read is repeated, though more would come.
    (
        ("2 0\n2 4", "\n2 8\n", FAIL),
        &[
            Call::Next(Found::Record(Label::Instr, 0)),
            Call::Next(Found::Unread),
            Call::AtHand(Some(Found::Unread)),
            Call::Next(Found::Unread),
            Call::AtHand(Some(Found::Unread)),
            Call::Next(Found::Unread),
            Call::AtHand(Some(Found::Unread)),
        ],
    ),
    (
        (MIXED, "", END),
        &[
            Call::Next(Found::Record(Label::Read, 0x7ff_f5a8)),
            Call::Next(Found::Record(Label::Write, 0x7ffe_0010)),
            Call::Next(Found::Record(Label::Instr, 0x40_0d7c)),
            Call::Next(Found::Record(Label::Read, 0x10)),
            Call::Next(Found::Record(Label::Write, 0xab)),
            Call::Next(Found::Record(Label::Instr, 0)),
            Call::Next(Found::Record(Label::Read, u64::MAX)),
            Call::Next(Found::Record(Label::Write, u64::MAX)),
            Call::Next(Found::Record(Label::Instr, 0x40_0d80)),
            Call::Next(Found::Record(Label::Read, 1)),
            Call::Next(Found::Record(Label::Write, 5)),
            Call::Next(Found::Bad(13, Why::Address)),
        ],
    ),
];

#[test]
fn answers_record_by_record_however_the_bytes_come(rt: HostRuntime) {
    for size in SIZES {
        for (reader, calls) in &IN_PIECES {
            ask(
                &rt,
                &mut source_of(*reader, size, MAX_LIMIT),
                *calls,
                reader.0,
            );
        }
    }
}
