//! What a source keeps besides its reader: the bytes that are not judged yet, and its state.

ghost use Rattle.std.specs.Prelude.{◌≡◌, ℕ, ◌+◌, ◌-◌, ◌<◌, ◌≤◌, ◌^◌, List, [], ◌++◌, true};
ghost use Rattle.std.specs.Prelude.{false, length, IfSome, IfNone, IfOk, OnOk, OnErr};
ghost use Rattle.std.specs.Prelude.{IsSome, Ok, Err, None, Some};
ghost use Rattle.std.specs.Result.{result_err};
ghost use Rattle.std.specs.Io.KnownBytes.{Consumes, Keeps, IsAtEnd};
ghost use Rattle.din_trace.specs.Device.{once_more};
ghost use Rattle.din_trace.specs.declared.buffer.TheConstants.{ROOM};
ghost use Rattle.din_trace.specs.Line.{ADDRESS_MAX};
ghost use Rattle.din_trace.specs.State.{is_sound, is_reading, fault_met, ClosesAt};
ghost use Rattle.din_trace.specs.Text.{Remaining, text_left};
ghost use Rattle.din_trace.specs.Remaining.{Script};

use crate::buffer::{Buffer, ROOM};
use crate::device::{ByteReader, DeviceFailed};
use crate::fault::TraceFault;
use crate::line_reader::LineReader;
use crate::plain::plain_line;
use crate::record::DinRecord;

/// Whether a source is reading, or has ended or failed.
#[derive(Clone, Copy, Debug)]
pub enum State {
    /// It is reading.
    Reading,
    /// Its reader has ended, and the last line was judged.
    Ended,
    /// It has found this fault.
    Failed(TraceFault),
}

/// What a source holds besides its reader.
#[derive(Debug, Drop)]
pub struct Backlog {
    /// The most bytes that the trace may have.
    limit: u64,
    /// Has read the trace up to the bytes that wait.
    lines: LineReader,
    buffer: Buffer,
    /// The bytes of the buffer that wait are those from `at` to `filled`.
    at: usize,
    filled: usize,
    state: State,
    ghost limited: { limit ≤ 2 ^ 40 },
    ghost ordered: { at ≤ filled },
    ghost fits: { filled ≤ ROOM },
    ghost within: { lines.bytes ≤ limit },
    ghost last: { lines.bytes + (filled - at) ≤ limit + 1 },
    ghost sound: { is_sound state lines.fault ≡ true },
}

#[tactic(auto, unfolding(crate::specs::Standing::StandsFor, crate::specs::Standing::HasNoFault, crate::specs::Standing::bytes_of, crate::specs::Standing::line_of, crate::specs::Standing::begun_of))]
impl Backlog {
    ghost use Rattle.din_trace.specs.Backlog.{HasLeft, KeepsLeft, AnswersFirst, TakesRoom};
    ghost use Rattle.din_trace.specs.Backlog.{EndsWith, held, taken, room};
    ghost use Rattle.din_trace.specs.declared.backlog.State.{State};

    /// The backlog of a source that has not asked its reader yet.
    pub fn new(limit: u64) -> Backlog
        requires { limit ≤ 2 ^ 40 }
        ensures left { (script : Script)
            → HasLeft result script (text_left ADDRESS_MAX 1 script.given limit script.fails) }
        ensures taken { taken result ≡ 0 }
        ensures limit { result.limit ≡ limit }
        ensures room { room result ≡ limit }
        ensures faultless { fault_met result.state ≡ None }
    {
        Backlog {
            limit,
            lines: LineReader::new(),
            buffer: Buffer { bytes: [0; ROOM] },
            at: 0,
            filled: 0,
            state: State::Reading,
        }
    }

    /// Takes the next held byte. The answer is `None` if more bytes are needed for one.
    fn step(&mut self) -> Option<Result<Option<DinRecord>, TraceFault>>
        requires reading { self.old.state ≡ State.Reading }
        requires some { self.old.at < self.old.filled }
        ensures answer { IfSome result (λ answer. AnswersFirst answer self.old self.new) }
        ensures goes_on { IfNone result (KeepsLeft self.old self.new) }
        ensures reading { IfNone result (self.new.state ≡ State.Reading) }
        ensures nearer { IfNone result ((self.new.at ≡ self.old.at + 1)
            × (self.new.filled ≡ self.old.filled)) }
        ensures taken { taken self.new ≡ taken self.old }
        ensures limit { self.new.limit ≡ self.old.limit }
        ensures closes { IfSome result (λ answer. ClosesAt answer self.new.state) }
        ensures told { IfSome result (λ answer. fault_met self.new.state ≡ result_err answer) }
        ensures records { IfSome result (λ answer. TakesRoom answer self.old self.new) }
        ensures room { room self.new ≤ room self.old }
    {
        if self.lines.bytes() == self.limit {
            self.state = State::Failed(TraceFault::TooLong);
            return Some(Err(TraceFault::TooLong));
        }
        let byte = self.buffer.bytes[self.at];
        self.at += 1;
        match self.lines.byte(byte) {
            Ok(found) => match found {
                Some(record) => Some(Ok(Some(record))),
                None => None,
            },
            Err(fault) => {
                self.state = State::Failed(fault);
                Some(Err(fault))
            }
        }
    }

    /// The next answer, if the held bytes decide it. After `None`, no byte is held.
    #[inline(always)]
    pub fn answer(&mut self) -> Option<Result<Option<DinRecord>, TraceFault>>
        ensures answer { IfSome result (λ answer. AnswersFirst answer self.old self.new) }
        ensures goes_on { IfNone result (KeepsLeft self.old self.new) }
        ensures reading { IfNone result ((self.new.state ≡ State.Reading)
            × (self.new.at ≡ self.new.filled)) }
        ensures settled { is_reading self.old.state ≡ false
            → IsSome result × (self.new ≡ self.old) }
        ensures dry { IfNone result ((l : Remaining)
            → HasLeft self.old (record { given = []; fails = true }) l
            → l ≡ record { records = []; fault = Some TraceFault.Read }) }
        ensures taken { taken self.new ≡ taken self.old }
        ensures limit { self.new.limit ≡ self.old.limit }
        ensures closes { IfSome result (λ answer. ClosesAt answer self.new.state) }
        ensures told { IfSome result (λ answer. fault_met self.new.state ≡ result_err answer) }
        ensures records { IfSome result (λ answer. TakesRoom answer self.old self.new) }
        ensures room { room self.new ≤ room self.old }
    {
        match self.state {
            State::Reading => match self.plain() {
                Some(record) => Some(Ok(Some(record))),
                None => self.answer_held(),
            },
            State::Ended => Some(Ok(None)),
            State::Failed(fault) => Some(Err(fault)),
        }
    }

    /// The record of the next line, if that line is plain and completely held.
    #[inline(always)]
    fn plain(&mut self) -> Option<DinRecord>
        requires reading { self.old.state ≡ State.Reading }
        ensures answer { IfSome result (λ found. AnswersFirst (Ok (Some found)) self.old self.new) }
        ensures same { IfNone result (self.new ≡ self.old) }
        ensures state { self.new.state ≡ self.old.state }
        ensures taken { taken self.new ≡ taken self.old }
        ensures limit { self.new.limit ≡ self.old.limit }
        ensures records { IfSome result (λ _. room self.new < room self.old) }
    {
        if !self.lines.is_empty() {
            return None;
        }
        match plain_line(&self.buffer.bytes[self.at..self.filled]) {
            Some((record, count)) => {
                if count as u64 > self.limit - self.lines.bytes() {
                    return None;
                }
                self.at += count;
                self.lines.pass(count as u64);
                Some(record)
            }
            None => None,
        }
    }

    /// The next answer, if the held bytes decide it, read byte by byte.
    fn answer_held(&mut self) -> Option<Result<Option<DinRecord>, TraceFault>>
        requires reading { self.old.state ≡ State.Reading }
        ensures answer { IfSome result (λ answer. AnswersFirst answer self.old self.new) }
        ensures goes_on { IfNone result (KeepsLeft self.old self.new) }
        ensures reading { IfNone result ((self.new.state ≡ State.Reading)
            × (self.new.at ≡ self.new.filled)) }
        ensures taken { taken self.new ≡ taken self.old }
        ensures limit { self.new.limit ≡ self.old.limit }
        ensures closes { IfSome result (λ answer. ClosesAt answer self.new.state) }
        ensures told { IfSome result (λ answer. fault_met self.new.state ≡ result_err answer) }
        ensures records { IfSome result (λ answer. TakesRoom answer self.old self.new) }
        ensures room { room self.new ≤ room self.old }
    {
        'bytes: while self.at < self.filled {
            if let Some(answer) = self.step() {
                return Some(answer);
            }
        }
        None
    }

    /// The answer if the reader has ended.
    pub fn end(&mut self) -> Result<Option<DinRecord>, TraceFault>
        requires reading { self.old.state ≡ State.Reading }
        requires empty { self.old.at ≡ self.old.filled }
        ensures ends { EndsWith false result self.old self.new }
        ensures records { TakesRoom result self.old self.new }
    {
        match self.lines.end() {
            Ok(found) => {
                self.state = State::Ended;
                Ok(found)
            }
            Err(fault) => {
                self.state = State::Failed(fault);
                Err(fault)
            }
        }
    }

    /// The answer if the reader has failed.
    pub fn fail(&mut self) -> Result<Option<DinRecord>, TraceFault>
        requires reading { self.old.state ≡ State.Reading }
        requires empty { self.old.at ≡ self.old.filled }
        ensures ends { EndsWith true result self.old self.new }
        ensures read { result ≡ Err TraceFault.Read }
    {
        self.state = State::Failed(TraceFault::Read);
        Err(TraceFault::Read)
    }

    /// Asks the reader for bytes when none is held. `Ok(0)` means the end.
    pub fn refill<R: ByteReader>(&mut self, reader: &mut R) -> Result<usize, DeviceFailed>
        requires reading { self.old.state ≡ State.Reading }
        requires empty { self.old.at ≡ self.old.filled }
        ensures given { IfOk result (λ count. (given : List ℕ) × (length given ≡ count)
            × Consumes (R.remaining reader.old) (R.remaining reader.new) given
            × ((script : Script) (l : Remaining)
            → HasLeft self.old (record { given = given ++ script.given; fails = script.fails }) l
            → HasLeft self.new script l)) }
        ensures end { IfOk result (λ count. count ≡ 0 → IsAtEnd (R.remaining reader.new)) }
        ensures ok { OnOk result (R.failures reader.new ≡ R.failures reader.old) }
        ensures err { OnErr result ((R.failures reader.new ≡ once_more (R.failures reader.old))
            × Keeps (R.remaining reader.old) (R.remaining reader.new)) }
        ensures same { OnErr result (KeepsLeft self.old self.new) }
        ensures taken { IfOk result (λ count. taken self.new ≡ taken self.old + count) }
        ensures taken_none { OnErr result (taken self.new ≡ taken self.old) }
        ensures reading { self.new.state ≡ State.Reading }
        ensures limit { self.new.limit ≡ self.old.limit }
        ensures room { room self.new ≡ room self.old }
        ensures held { IfOk result (λ count. self.new.filled ≡ self.new.at + count) }
        ensures empty { OnErr result (self.new.at ≡ self.new.filled) }
    {
        let most = (self.limit + 1 - self.lines.bytes()).min(ROOM as u64) as usize;
        self.at = 0;
        self.filled = 0;
        match self.buffer.fill(reader, most) {
            Ok(count) => {
                self.filled = count;
                Ok(count)
            }
            Err(failed) => Err(failed),
        }
    }

    /// Ends the source after a failed allocation: it answers `Memory` from now on.
    pub fn exhaust(&mut self)
        ensures left { (script : Script)
            → HasLeft self.new script (record { records = []; fault = Some TraceFault.Memory }) }
        ensures closed { is_reading self.new.state ≡ false }
        ensures told { fault_met self.new.state ≡ Some TraceFault.Memory }
        ensures taken { taken self.new ≡ taken self.old }
        ensures limit { self.new.limit ≡ self.old.limit }
    {
        self.state = State::Failed(TraceFault::Memory);
    }
}
