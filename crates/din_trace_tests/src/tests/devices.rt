//! Devices over std's readers and writers.

use super::fakes::{FAIL, INTERRUPTED, Stop, Tape, WHOLE, in_pieces};
use super::same;
use din_trace::{ByteReader, ByteWriter, DeviceFailed, FromRead, FromWrite};
use std::alloc::Global;
use std::io::{BufWriter, Write};
use std::process::Abort;

/// The answer of a reader that failed.
const FAILED: Result<usize, DeviceFailed> = Err(DeviceFailed);

/// What a call of `fill` has to answer, and the bytes that the buffer of four then has to have.
type Filled = (Result<usize, DeviceFailed>, [u8; 4]);

fn fill<R: ByteReader>(reader: &mut R, buffer: &mut [u8]) -> Result<usize, DeviceFailed> {
    reader.fill(buffer)
}

/// Fills a buffer of four bytes again and again.
fn fill_four<R: ByteReader>(rt: &impl Abort, reader: &mut R, calls: &[Filled]) {
    let mut buffer = [0; 4];
    for (place, (answer, held)) in calls.iter().enumerate() {
        same(rt, &fill(reader, &mut buffer), answer, "fill", place);
        same(rt, &buffer, held, "fill", place);
    }
}

#[test]
fn hands_on_the_bytes_of_a_good_reader(rt: HostRuntime) {
    static CALLS: [Filled; 3] = [(Ok(4), *b"2 0\n"), (Ok(1), *b"2 0\n"), (Ok(0), *b"2 0\n")];
    let mut reader = FromRead::new(b"2 0\n2".as_slice());
    fill_four(&rt, &mut reader, &CALLS);
    assert!(rt; fill(&mut reader, &mut []) == Ok(0));
}

/// A reader's text, what it would give if it were asked again, the size of its pieces, and how it
/// stops, with the calls. No read that failed or was interrupted is tried again.
static STOPPING: [(&str, &str, usize, Stop, &[Filled]); 3] = [
    (
        "2 0",
        "",
        2,
        FAIL,
        &[
            (Ok(2), *b"2 \0\0"),
            (Ok(1), *b"0 \0\0"),
            (FAILED, *b"0 \0\0"),
            (FAILED, *b"0 \0\0"),
        ],
    ),
    (
        "2 0\n",
        "2 4\n",
        WHOLE,
        FAIL,
        &[(Ok(4), *b"2 0\n"), (FAILED, *b"2 0\n"), (Ok(4), *b"2 4\n")],
    ),
    (
        "",
        "2 0\n",
        WHOLE,
        INTERRUPTED,
        &[(FAILED, [0; 4]), (Ok(4), *b"2 0\n")],
    ),
];

#[test]
fn fails_where_the_reader_does(rt: HostRuntime) {
    for (text, more, size, stop, calls) in &STOPPING {
        let mut reader = in_pieces(text.as_bytes(), more.as_bytes(), *size, *stop);
        fill_four(&rt, &mut reader, *calls);
    }
}

/// How many lines of eight bytes the large text has.
const LINES: usize = 2_500;

/// So many lines, one after another, if there is memory.
fn repeated(alloc: Global, line: &[u8]) -> Option<Vec<u8>> {
    let mut text = Vec::new(alloc);
    for _ in 0..LINES {
        if text.extend_from_slice(line).is_err() {
            return None;
        }
    }
    Some(text)
}

/// Fills the buffer with all of the text. Then the reader is at its end.
fn fill_whole(rt: &impl Abort, text: &[u8], buffer: &mut [u8]) {
    let mut reader = FromRead::new(text);
    assert!(rt; fill(&mut reader, buffer) == Ok(text.len()));
    assert!(rt; &*buffer == text);
    assert!(rt; fill(&mut reader, buffer) == Ok(0));
}

#[test]
fn fills_a_large_buffer(rt: HostRuntime) {
    let text = repeated(rt.alloc(), b"2 7fff8\n").expect(&rt, "memory");
    let mut buffer = repeated(rt.alloc(), b"........").expect(&rt, "memory");
    fill_whole(&rt, text.as_slice(), buffer.as_mut_slice());
}

/// Calls of a writer: these bytes are put, or, without any, it is flushed. Each has to succeed, or
/// to fail.
type Calls<'a> = &'a [(Option<&'a [u8]>, Result<(), DeviceFailed>)];

fn put<W: ByteWriter>(writer: &mut W, bytes: Option<&[u8]>) -> Result<(), DeviceFailed> {
    match bytes {
        Some(bytes) => writer.put(bytes),
        None => writer.flush(),
    }
}

/// Makes these calls, one after another.
fn put_all<W: ByteWriter>(rt: &impl Abort, writer: &mut W, calls: Calls<'_>) {
    for (place, (bytes, answer)) in calls.iter().enumerate() {
        same(rt, &put(writer, *bytes), answer, "put", place);
    }
}

#[test]
fn appends_what_is_put(rt: HostRuntime) {
    static CALLS: Calls<'static> = &[
        (Some(b"l1-"), Ok(())),
        (Some(b""), Ok(())),
        (Some(b"icache"), Ok(())),
        (None, Ok(())),
    ];
    let mut held = Vec::new(rt.alloc());
    put_all(&rt, &mut FromWrite::new(&mut held), CALLS);
    assert!(rt; held.as_slice() == b"l1-icache".as_slice());
}

/// Makes these calls of a writer over a tape that fails so often first. Then the tape has to hold
/// nine bytes, and to have been flushed so often.
fn put_on_tape(rt: &impl Abort, failing: u64, calls: Calls<'_>, flushes: u64) {
    let mut tape = Tape {
        failing,
        taken: 0,
        flushes: 0,
        flushed: 0,
    };
    put_all(rt, &mut FromWrite::new(&mut tape), calls);
    assert!(rt; tape.taken == 9 && tape.flushes == flushes);
}

#[test]
fn puts_all_bytes_into_a_writer_that_takes_few(rt: HostRuntime) {
    static CALLS: Calls<'static> = &[(Some(b"l1-icache"), Ok(())), (None, Ok(())), (None, Ok(()))];
    put_on_tape(&rt, 0, CALLS, 2);
}

#[test]
fn fails_where_the_writer_does(rt: HostRuntime) {
    static CALLS: Calls<'static> = &[
        (Some(b"l1-icache"), Err(DeviceFailed)),
        (None, Err(DeviceFailed)),
        (Some(b"l1-icache"), Ok(())),
        (None, Ok(())),
    ];
    put_on_tape(&rt, 2, CALLS, 1);
}

/// Puts nine bytes, and flushes the buffer twice: the writer behind it fails once.
fn put_and_flush_twice<W: Write + Drop>(rt: &impl Abort, buffer: BufWriter<W>) {
    let mut writer = FromWrite::new(buffer);
    same(rt, &put(&mut writer, Some(b"l1-icache")), &Ok(()), "put", 0);
    same(rt, &writer.flush_buffer(), &Err(DeviceFailed), "flush", 1);
    same(rt, &writer.flush_buffer(), &Ok(()), "flush", 2);
}

#[test]
fn a_flushed_buffer_has_passed_all_bytes_on(rt: HostRuntime) {
    let mut tape = Tape {
        failing: 1,
        taken: 0,
        flushes: 0,
        flushed: 0,
    };
    let buffer = BufWriter::new(rt.alloc(), &mut tape).expect(&rt, "memory");
    put_and_flush_twice(&rt, buffer);
    assert!(rt; tape.flushes == 1 && tape.flushed == 9);
}
