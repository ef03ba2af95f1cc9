//! A trace, read byte by byte.

ghost use Rattle.std.specs.Prelude.{◌≡◌, ◌≢◌, ℕ, length, ◌+◌, ◌≤◌, ◌<◌, ◌^◌, List, [], ◌∷◌, ◌++◌};
ghost use Rattle.std.specs.Prelude.{None, OnOk, OnErr, IfOk, IsSome, IfErr, IsTrue};
ghost use Rattle.din_trace.specs.Line.{ADDRESS_MAX};
ghost use Rattle.din_trace.specs.LineSoFar.{begun};
ghost use Rattle.din_trace.specs.Text.{ended_lines, open_line, first_fault, line_result};

use crate::fault::{TraceFault, Why};
use crate::line::{LineSoFar, judge, next};
use crate::record::DinRecord;

/// The most bytes that a trace may have: `2^40`.
pub const MAX_LIMIT: u64 = 1 << 40;

/// Reads a trace byte by byte, and stores no line. After a fault, every later call of `byte` or
/// `end` answers the same fault.
#[derive(Debug, Drop)]
pub struct LineReader {
    bytes: u64,
    line: u64,
    so_far: LineSoFar,
    fault: Option<Why>,
    ghost bounded: { bytes ≤ 2 ^ 40 },
    ghost numbered: { 0 < line },
    ghost counted: { line + begun so_far ≤ bytes + 1 },
}

#[tactic(auto, unfolding(crate::specs::Standing::StandsFor, crate::specs::Standing::HasFailed, crate::specs::Standing::HasNoFault, crate::specs::Standing::bytes_of, crate::specs::Standing::line_of, crate::specs::Standing::begun_of))]
impl LineReader {
    ghost use Rattle.din_trace.specs.Standing.{StandsFor, HasFailed, HasNoFault, bytes_of, line_of};
    ghost use Rattle.din_trace.specs.Standing.{begun_of};
    ghost use Rattle.din_trace.specs.declared.fault.TraceFault.{TraceFault};
    ghost use Rattle.din_trace.specs.declared.fault.Why.{Why};

    /// A reader that has read nothing.
    pub fn new() -> LineReader
        ensures stands { StandsFor result [] }
        ensures no_fault { HasNoFault result }
        ensures bytes { bytes_of result ≡ 0 }
        ensures line { line_of result ≡ 1 }
        ensures begun { begun_of result ≡ 0 }
    {
        LineReader {
            bytes: 0,
            line: 1,
            so_far: LineSoFar::Empty,
            fault: None,
        }
    }

    /// How many bytes were read. If a line is faulty, only the bytes up to its end are counted.
    pub fn bytes(&self) -> u64
        ensures bytes { result ≡ bytes_of self.now }
        // A reader that stands for a text has no fault, so `byte` counts the next byte.
        ensures no_fault { (text : List ℕ) → StandsFor self.now text → HasNoFault self.now }
    {
        self.bytes
    }

    /// The number of the line that is being read, from 1. After a fault, the number of the faulty
    /// line.
    pub fn line(&self) -> u64
        ensures line { result ≡ line_of self.now }
        // One more than the number of LFs so far, none of which ended a faulty line.
        ensures number { (text : List ℕ) → StandsFor self.now text
            → (result ≡ length (ended_lines text) + 1)
            × (first_fault ADDRESS_MAX 1 (ended_lines text) None ≡ None) }
        ensures fault { (fault : TraceFault) → HasFailed self.now fault
            → (why : Why) × (fault ≡ TraceFault.Bad result why) }
    {
        self.line
    }

    /// Whether no byte of the current line was read.
    pub(crate) fn is_empty(&self) -> bool
        ensures { IsTrue result → begun_of self.now ≡ 0 }
    {
        matches!(self.so_far, LineSoFar::Empty)
    }

    /// Skips a complete line that was judged elsewhere. With its LF it has this many bytes.
    pub(crate) fn pass(&mut self, count: u64)
        requires empty { begun_of self.old ≡ 0 }
        requires some { 0 < count }
        requires fits { bytes_of self.old + count ≤ MAX_LIMIT }
        ensures line { line_of self.new ≡ line_of self.old + 1 }
        ensures bytes { bytes_of self.new ≡ bytes_of self.old + count }
        ensures so_far { self.new.so_far ≡ self.old.so_far }
        ensures fault { self.new.fault ≡ self.old.fault }
    {
        let line = self.line + 1;
        self.bytes += count;
        self.line = line;
    }

    /// Takes the next byte. An LF ends the line: the answer is the line's record, `None` if it is
    /// blank, or its fault. For every other byte the answer is `None`.
    pub fn byte(&mut self, byte: u8) -> Result<Option<DinRecord>, TraceFault>
        requires { bytes_of self.old < MAX_LIMIT }
        ensures inside { byte ≢ 10 → (text : List ℕ) → StandsFor self.old text
            → (result ≡ Ok None) × StandsFor self.new (text ++ byte ∷ []) }
        ensures ends { byte ≡ 10 → (text : List ℕ) → StandsFor self.old text
            → (result ≡ line_result ADDRESS_MAX (line_of self.old) (open_line text))
            × OnOk result (StandsFor self.new (text ++ byte ∷ [])) }
        ensures counted { HasNoFault self.old → bytes_of self.new ≡ bytes_of self.old + 1 }
        ensures no_fault { OnOk result (HasNoFault self.new) }
        ensures refused { IfErr result (HasFailed self.new) }
        ensures repeated { (fault : TraceFault) → HasFailed self.old fault
            → (result ≡ Err fault) × (self.new ≡ self.old) }
        // After a record, nothing of the next line was read.
        ensures begun { begun_of self.new ≤ 1 }
        ensures record { IfOk result (λ found. IsSome found → begun_of self.new ≡ 0) }
    {
        if let Some(why) = self.fault {
            return Err(TraceFault::Bad {
                line: self.line,
                why,
            });
        }
        self.bytes += 1;
        if byte == b'\n' {
            self.end_line()
        } else {
            self.so_far = next(self.so_far, byte);
            Ok(None)
        }
    }

    /// Ends the last line as an LF would. If nothing of that line was read, this does nothing and
    /// the answer is `None`.
    pub fn end(&mut self) -> Result<Option<DinRecord>, TraceFault>
        ensures empty { (text : List ℕ) → StandsFor self.old text → open_line text ≡ []
            → (result ≡ Ok None) × (self.new ≡ self.old) }
        ensures ends { (text : List ℕ) → StandsFor self.old text → 0 < length (open_line text)
            → (result ≡ line_result ADDRESS_MAX (line_of self.old) (open_line text))
            × OnOk result (StandsFor self.new (text ++ 10 ∷ [])) }
        ensures bytes { bytes_of self.new ≡ bytes_of self.old }
        ensures no_fault { OnOk result (HasNoFault self.new) }
        ensures refused { IfErr result (HasFailed self.new) }
        ensures repeated { (fault : TraceFault) → HasFailed self.old fault
            → (result ≡ Err fault) × (self.new ≡ self.old) }
        ensures record { IfOk result (λ found. IsSome found → begun_of self.old ≡ 1) }
    {
        if let Some(why) = self.fault {
            return Err(TraceFault::Bad {
                line: self.line,
                why,
            });
        }
        if let LineSoFar::Empty = self.so_far {
            return Ok(None);
        }
        self.end_line()
    }

    /// Judges the line. Then the next line begins, or the fault is kept.
    fn end_line(&mut self) -> Result<Option<DinRecord>, TraceFault>
        requires room { line_of self.old ≤ bytes_of self.old }
        requires no_fault { HasNoFault self.old }
        ensures ends { (text : List ℕ) → StandsFor self.old text
            → (result ≡ line_result ADDRESS_MAX (line_of self.old) (open_line text))
            × OnOk result (StandsFor self.new (text ++ 10 ∷ [])) }
        ensures bytes { bytes_of self.new ≡ bytes_of self.old }
        ensures no_fault { OnOk result (HasNoFault self.new) }
        ensures refused { IfErr result (HasFailed self.new) }
        ensures begun { OnOk result (begun_of self.new ≡ 0) }
        ensures kept { OnErr result (self.new.so_far ≡ self.old.so_far) }
        ensures line { IfErr result (λ _. line_of self.new ≡ line_of self.old) }
    {
        match judge(self.so_far) {
            Ok(found) => {
                self.line += 1;
                self.so_far = LineSoFar::Empty;
                Ok(found)
            }
            Err(why) => {
                self.fault = Some(why);
                Err(TraceFault::Bad {
                    line: self.line,
                    why,
                })
            }
        }
    }
}
