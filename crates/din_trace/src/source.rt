//! A trace from any reader, read record by record.

ghost use Rattle.std.specs.Prelude.{◌≡◌, ◌≢◌, ◌⊎◌, ℕ, true, None, Some, ◌+◌, ◌<◌, ◌≤◌, List};
ghost use Rattle.std.specs.Prelude.{[], MatchResult, MatchOption, IfOk, IfSome, IfNone, IsSome};
ghost use Rattle.std.specs.Prelude.{vec_len};
ghost use Rattle.std.specs.Result.{result_err};
ghost use Rattle.din_trace.specs.Line.{ADDRESS_MAX};
ghost use Rattle.din_trace.specs.Text.{Remaining, text_left};
ghost use Rattle.din_trace.specs.Remaining.{Script, Fate, Open, Follows, first_answer, after_first};
ghost use Rattle.din_trace.specs.Source.{reader_of, limit_of, taken_by, room_of, HasLeft};
ghost use Rattle.din_trace.specs.Source.{IsSettled, MustAsk, SettlesAt, Takes, fault_in};

use crate::backlog::Backlog;
use crate::device::ByteReader;
use crate::fault::TraceFault;
use crate::line_reader::MAX_LIMIT;
use crate::record::DinRecord;
use std::alloc::Global;

/// Reads a trace from a reader through one buffer of fixed size. After the end or a fault, every
/// later call of `next` or `at_hand` answers the same.
#[derive(Debug, Drop)]
pub struct Source<R> {
    reader: R,
    backlog: Backlog,
}

#[tactic(auto, unfolding(crate::specs::Source::reader_of, crate::specs::Source::limit_of, crate::specs::Source::taken_by, crate::specs::Source::room_of, crate::specs::Source::HasLeft, crate::specs::Source::IsSettled, crate::specs::Source::fault_in, crate::specs::Source::MustAsk, crate::specs::Source::Settles))]
impl<R: ByteReader> Source<R> {
    /// A source of the trace that this reader gives. A trace of more than `limit` bytes is faulty.
    pub fn new(reader: R, limit: u64) -> Source<R>
        requires { limit ≤ MAX_LIMIT }
        ensures reader { reader_of result ≡ reader }
        ensures limit { limit_of result ≡ limit }
        ensures left { (script : Script)
            → HasLeft result script (text_left ADDRESS_MAX 1 script.given limit script.fails) }
        ensures taken { taken_by result ≡ 0 }
        ensures room { room_of result ≡ limit }
        ensures faultless { fault_in result ≡ None }
    {
        Source {
            reader,
            backlog: Backlog::new(limit),
        }
    }

    /// The answer of `next`, if the bytes in the buffer decide it. `None` if `next` would have to
    /// ask the reader; this call never asks it.
    #[inline(always)]
    pub fn at_hand(&mut self) -> Option<Result<Option<DinRecord>, TraceFault>>
        // An answer is the first of what was left, and is removed from it. `None` removes nothing.
        ensures reads { Takes R.remaining R.failures self.old self.new [] Open
            × ((script : Script) (l : Remaining) → HasLeft self.old script l
            → MatchOption result (HasLeft self.new script l)
            (λ answer. (answer ≡ first_answer l) × HasLeft self.new script (after_first l))) }
        ensures reader { reader_of self.new ≡ reader_of self.old }
        // After `None`, every complete line has been answered: if the reader failed now, that
        // failure would be the only answer left.
        ensures asks { IfNone result (MustAsk self.new) }
        ensures lazy { IfNone result ((l : Remaining)
            → HasLeft self.old (record { given = []; fails = true }) l
            → l ≡ record { records = []; fault = Some TraceFault.Read }) }
        ensures settled { IsSettled self.old → IsSome result × (self.new ≡ self.old) }
        ensures ends { IfSome result (λ answer. SettlesAt answer self.new) }
        // The source has met a fault only if that is the answer.
        ensures told { MatchOption result (fault_in self.new ≡ None)
            (λ answer. fault_in self.new ≡ result_err answer) }
        ensures taken { taken_by self.new ≡ taken_by self.old }
        ensures limit { limit_of self.new ≡ limit_of self.old }
        ensures bound { taken_by self.new ≤ limit_of self.new + 1 }
        ensures records { IfSome result (λ answer. IfOk answer (λ found. IsSome found
            → room_of self.new < room_of self.old)) }
        ensures room { room_of self.old ≤ MAX_LIMIT }
        ensures no_more { room_of self.new ≤ room_of self.old }
    {
        self.backlog.answer()
    }

    /// The next record, `None` at the end, or the fault. The fault is `TraceFault::Memory` only if
    /// an earlier call of `rest` answered that.
    pub fn next(&mut self) -> Result<Option<DinRecord>, TraceFault>
        // Whatever the reader does, the answer is the first of what was left, and is removed.
        ensures reads { (given : List ℕ) × (fate : Fate)
            × Takes R.remaining R.failures self.old self.new given fate
            × ((before later : Script) (l : Remaining)
            → Follows fate given before later → HasLeft self.old before l
            → (result ≡ first_answer l) × HasLeft self.new later (after_first l)) }
        // The reader is asked only when every complete line has been answered: if it failed at
        // once, that failure would be the only answer left.
        ensures lazy { (reader_of self.new ≡ reader_of self.old)
            ⊎ ((l : Remaining) → HasLeft self.old (record { given = []; fails = true }) l
            → l ≡ record { records = []; fault = Some TraceFault.Read }) }
        // This also covers the second and later times that one call asks the reader: a failure
        // there is the answer, so no complete line was left unanswered.
        ensures failed { (R.failures (reader_of self.new) ≡ R.failures (reader_of self.old))
            ⊎ (result ≡ Err TraceFault.Read) }
        // After the end or a fault the reader is asked no more.
        ensures settled { IsSettled self.old → self.new ≡ self.old }
        ensures ends { SettlesAt result self.new }
        ensures told { fault_in self.new ≡ result_err result }
        ensures limit { limit_of self.new ≡ limit_of self.old }
        ensures bound { taken_by self.new ≤ limit_of self.new + 1 }
        // So at most `limit` records are answered, whatever the reader does.
        ensures records { IfOk result (λ found. IsSome found
            → room_of self.new < room_of self.old) }
        ensures room { room_of self.old ≤ MAX_LIMIT }
        ensures no_more { room_of self.new ≤ room_of self.old }
    {
        match self.at_hand() {
            Some(answer) => answer,
            // Bound to a name first: otherwise a record at hand would go through memory too.
            None => {
                let answer = self.ask();
                answer
            }
        }
    }

    /// The answer of `next`, if the reader has to be asked for it.
    #[inline(never)]
    fn ask(&mut self) -> Result<Option<DinRecord>, TraceFault>
        requires asks { MustAsk self.old }
        ensures reads { (given : List ℕ) × (fate : Fate)
            × Takes R.remaining R.failures self.old self.new given fate
            × ((before later : Script) (l : Remaining)
            → Follows fate given before later → HasLeft self.old before l
            → (result ≡ first_answer l) × HasLeft self.new later (after_first l)) }
        ensures failed { (R.failures (reader_of self.new) ≡ R.failures (reader_of self.old))
            ⊎ (result ≡ Err TraceFault.Read) }
        ensures ends { SettlesAt result self.new }
        ensures told { fault_in self.new ≡ result_err result }
        ensures limit { limit_of self.new ≡ limit_of self.old }
        ensures bound { taken_by self.new ≤ limit_of self.new + 1 }
        ensures records { IfOk result (λ found. IsSome found
            → room_of self.new < room_of self.old) }
        ensures no_more { room_of self.new ≤ room_of self.old }
    {
        'asks: loop {
            match self.backlog.refill(&mut self.reader) {
                Ok(count) => {
                    if count == 0 {
                        return self.backlog.end();
                    }
                }
                Err(_) => return self.backlog.fail(),
            }
            if let Some(answer) = self.at_hand() {
                return answer;
            }
        }
    }

    /// All records that are left, or the fault. If an allocation fails before that, the answer is
    /// `TraceFault::Memory`, and the source answers that from then on.
    pub fn rest(&mut self, alloc: Global) -> Result<Vec<DinRecord>, TraceFault>
        // `Memory` is new only if there was a record to store; else it was the fault before.
        ensures reads { (given : List ℕ) × (fate : Fate)
            × Takes R.remaining R.failures self.old self.new given fate
            × ((before later : Script) (l : Remaining)
            → Follows fate given before later → HasLeft self.old before l
            → MatchResult result
            (λ records. (records.items ≡ l.records) × (l.fault ≡ None)
            × HasLeft self.new later (record { records = []; fault = None }))
            (λ fault. (fault ≢ TraceFault.Memory → l.fault ≡ Some fault)
            × HasLeft self.new later (record { records = []; fault = Some fault })
            × (fault ≡ TraceFault.Memory → (l.fault ≡ Some fault) ⊎ (l.records ≢ [])))) }
        // So if the reader failed in this call, the answer says so, also where memory was wanting.
        ensures failed { (R.failures (reader_of self.new) ≡ R.failures (reader_of self.old))
            ⊎ (result ≡ Err TraceFault.Read) }
        ensures settled { IsSettled self.old → self.new ≡ self.old }
        ensures ends { IsSettled self.new }
        ensures told { fault_in self.new ≡ result_err result }
        ensures bound { taken_by self.new ≤ limit_of self.new + 1 }
        ensures limit { limit_of self.new ≡ limit_of self.old }
        ensures at_most { IfOk result (λ records. vec_len records ≤ room_of self.old) }
        ensures no_room { room_of self.new ≡ 0 }
    {
        let mut records = Vec::new(alloc);
        'records: loop {
            match self.next() {
                Ok(found) => match found {
                    Some(next) => {
                        if records.push(next).is_err() {
                            self.backlog.exhaust();
                            return Err(TraceFault::Memory);
                        }
                    }
                    None => return Ok(records),
                },
                Err(fault) => return Err(fault),
            }
        }
    }
}
