//! The source of a run, as the splitter has it.

ghost use Rattle.std.specs.Prelude.{◌≡◌, ◌<◌, ◌≤◌, ℕ, List, [], None, IfOk, IfSome, IsSome};
ghost use Rattle.std.specs.Prelude.{MatchOption};
ghost use Rattle.std.specs.Result.{result_err};
ghost use Rattle.din_trace.specs.Text.{Remaining};
ghost use Rattle.din_trace.specs.Remaining.{Script, Fate, Open, Follows, first_answer, after_first};
ghost use Rattle.din_trace.specs.Source.{HasLeft, IsSettled, Takes, fault_in, reader_of, room_of};
ghost use Rattle.run_threads.specs.Waits.{AllPublished};

use crate::ends::SplitterEnds;
use din_trace::{ByteReader, DinRecord, MAX_LIMIT, Source, TraceFault};
use std::marker::Model;

/// A source whose reader is asked by [`Feed::ask`] alone. The contracts see the source.
#[derive(Drop)]
pub struct Feed<R> {
    source: Source<R>,
}

impl<R> Model for Feed<R> {
    ghost use Rattle.din_trace.specs.declared.source.Source.{Source};

    ghost Value = { Source R };

    ghost view = { λ f. f.source };
}

impl<R: ByteReader> Feed<R> {
    /// This source, for the splitter.
    pub fn of(source: Source<R>) -> Feed<R>
        ensures { result ≡ source }
    {
        Feed { source }
    }

    /// The next record, end or fault, if the bytes in the buffer decide it. Never asks the reader.
    #[inline(always)]
    pub fn at_hand(&mut self) -> Option<Result<Option<DinRecord>, TraceFault>>
        ensures reads { Takes R.remaining R.failures self.old self.new [] Open
            × ((script : Script) (l : Remaining) → HasLeft self.old script l
            → MatchOption result (HasLeft self.new script l)
            (λ answer. (answer ≡ first_answer l) × HasLeft self.new script (after_first l))) }
        ensures reader { reader_of self.new ≡ reader_of self.old }
        ensures settled { IsSettled self.old → IsSome result × (self.new ≡ self.old) }
        ensures told { MatchOption result (fault_in self.new ≡ None)
            (λ answer. fault_in self.new ≡ result_err answer) }
        ensures records { IfSome result (λ answer. IfOk answer (λ found. IsSome found
            → room_of self.new < room_of self.old)) }
        ensures room { room_of self.old ≤ MAX_LIMIT }
        ensures no_more { room_of self.new ≤ room_of self.old }
    {
        self.source.at_hand()
    }

    /// The next record, if the reader has to be asked. That may take long, so all posted messages
    /// have to be published before.
    pub fn ask(&mut self, ends: &SplitterEnds) -> Result<Option<DinRecord>, TraceFault>
        requires published { AllPublished ends.now }
        ensures reads { (given : List ℕ) × (fate : Fate)
            × Takes R.remaining R.failures self.old self.new given fate
            × ((before later : Script) (l : Remaining)
            → Follows fate given before later → HasLeft self.old before l
            → (result ≡ first_answer l) × HasLeft self.new later (after_first l)) }
        ensures settled { IsSettled self.old → self.new ≡ self.old }
        ensures told { fault_in self.new ≡ result_err result }
        ensures records { IfOk result (λ found. IsSome found
            → room_of self.new < room_of self.old) }
        ensures room { room_of self.old ≤ MAX_LIMIT }
    {
        self.source.next()
    }

    /// The source, once the splitter has ended.
    pub fn into_source(self) -> Source<R>
        ensures { result ≡ self }
    {
        let Feed { source } = self;
        source
    }
}
