//! Reads traces in the din format: from bytes to records, or to the first fault with its line.
//!
//! A line is a label, a gap of blanks and a hexadecimal address. Text after the address is a
//! comment, if a blank comes before it. There are three ways to read a trace:
//!
//! - `read_all` reads a trace in memory;
//! - `Source` reads from any `ByteReader` through one buffer: `next` answers the next record,
//!   `at_hand` does so only if that needs no further byte, and `rest` answers all that are left;
//! - `LineReader` takes a trace byte by byte, and stores no line.
//!
//! The modules: `device` has the readers and writers, `line` the state of one line as it is read,
//! `plain` a fast path for complete lines, `buffer` the buffer of a source, `backlog` the bytes
//! that wait in it, and `text` the reader of a trace in memory.
//!
//! Proved for every trace, however its reader cuts it into pieces: the records and the fault are
//! those that `specs/Line` and `specs/Text` define. After a fault, every later call answers the
//! same fault. At most one byte past the limit is read, and the reader is asked for more bytes only
//! when every complete line has been answered.
#![tactic(auto)]

ghost use Rattle.din_trace.specs.Laws.{EachLineHasOneForm, WiderAddressesKeepRecords};
ghost use Rattle.din_trace.specs.Laws.{FaultIsOfFirstFaultyLine, SourceHasItsTextLeft};
ghost use Rattle.din_trace.specs.Laws.{TextsAreTheirLines};
ghost use Rattle.std.specs.Prelude.{◌≡◌, ◌^◌};

mod backlog;
mod buffer;
mod device;
mod digits;
mod fault;
mod line;
mod line_reader;
mod plain;
mod record;
mod source;
mod text;

pub use device::{ByteReader, ByteWriter, DeviceFailed, FromRead, FromWrite};
pub use fault::{TraceFault, Why};
pub use line_reader::{LineReader, MAX_LIMIT};
pub use record::{DinRecord, Label};
pub use source::Source;
pub use text::read_all;

/// Law: each line has exactly one form.
pub fn each_line_has_one_form()
    ensures { EachLineHasOneForm }
{}

/// Law: a text is its lines that an LF ends, each with its LF, and then what follows the last LF.
pub fn texts_are_their_lines()
    ensures { TextsAreTheirLines }
{}

/// Law: what is left of a text stops at the first faulty line, with the records before it. Where no
/// line that is judged is faulty, it ends, was too long, or could not be read.
pub fn fault_is_of_first_faulty_line()
    ensures { FaultIsOfFirstFaultyLine }
{}

/// Law: a text without a fault has no fault under a greater bound on addresses, and the same
/// records.
pub fn wider_addresses_keep_records()
    ensures { WiderAddressesKeepRecords }
{}

/// Law: what a source has left to answer of a whole text is that text's records and its fault.
pub fn source_has_its_text_left()
    ensures { SourceHasItsTextLeft }
{}

/// The value of `MAX_LIMIT`: the greatest limit on the bytes of a trace.
pub fn max_limit_is_two_to_the_forty()
    ensures { MAX_LIMIT ≡ 2 ^ 40 }
{}
