//! The outbox of a stage. A message is made only when it is taken out, so no allocation is needed
//! after the cache was called.

ghost use Rattle.std.specs.Prelude.{◌≡◌, ◌<◌, ◌^◌, ◌↔◌, ◌++◌, ◌∷◌, [], IsNone, IsTrue, length};
ghost use Rattle.std.specs.Prelude.{option_to_list, map};
ghost use Rattle.stage_core.specs.SecondLevel.{back};
ghost use Rattle.stage_core.specs.Streams.{answer};
ghost use Rattle.stage_core.specs.declared.message.FromStage.TheVariants as from_stage;

use crate::message::{FromStage, What};
use std::alloc::Global;
use std::marker::Model;

/// The parts that are still to be sent for one message. The write-backs of a flush are kept in the
/// list that the cache filled.
#[derive(Drop)]
struct Pending {
    backs: Vec<u64>,
    next: usize,
    first: Option<u64>,
    second: Option<What>,
    third: Option<What>,
}

impl Model for Pending {
    ghost use Rattle.std.specs.Prelude.{List, ◌≤◌, length};
    ghost use Rattle.stage_core.specs.declared.message.What.{What};
    ghost use Rattle.stage_core.specs.Outboxes.{parts_left};

    ghost Value = { List What };

    ghost view = { λ p. parts_left p.backs.items p.next p.first p.second p.third };

    ghost invariant = { λ p. p.next ≤ length p.backs.items };
}

impl Pending {
    /// No parts.
    fn none(alloc: Global) -> Pending
        ensures { result ≡ [] }
    {
        Pending {
            backs: Vec::new(alloc),
            next: 0,
            first: None,
            second: None,
            third: None,
        }
    }

    /// The part that stands first, if one is left. It is taken out.
    fn next(&mut self) -> Option<What>
        ensures front { self.old ≡ option_to_list result ++ self.new }
        ensures none { IsNone result ↔ (self.old ≡ []) }
    {
        if self.next < self.backs.len() {
            let addr = self.backs[self.next];
            self.next += 1;
            return Some(What::Back(addr));
        }
        if let Some(addr) = self.first {
            self.first = None;
            return Some(What::Back(addr));
        }
        if let Some(what) = self.second {
            self.second = None;
            return Some(what);
        }
        let what = self.third;
        self.third = None;
        what
    }
}

/// What is still to be sent: `Parts` means parts, perhaps none, and then Done.
#[derive(Clone, Copy)]
enum Closing {
    Nothing,
    Parts,
    Done,
    Finish,
}

/// The messages that are still to be sent as the answer to one message.
#[derive(Drop)]
pub(crate) struct Outbox {
    place: u64,
    sent: u32,
    pending: Pending,
    closing: Closing,
}

impl Model for Outbox {
    ghost use Rattle.std.specs.Prelude.{List, ◌<◌, ◌+◌, ◌^◌, length};
    ghost use Rattle.stage_core.specs.declared.message.FromStage.{FromStage};
    ghost use Rattle.stage_core.specs.Outboxes.{to_send, parts_owed};

    ghost Value = { List FromStage };

    ghost view = { λ o. to_send o.place o.sent (parts_owed o.closing o.pending) o.closing };

    ghost invariant = { λ o. o.sent + length (parts_owed o.closing o.pending) < 2 ^ 32 };
}

impl Outbox {
    /// An empty outbox.
    pub(crate) fn empty(alloc: Global) -> Outbox
        ensures { result ≡ [] }
    {
        Outbox {
            place: 0,
            sent: 0,
            pending: Pending::none(alloc),
            closing: Closing::Nothing,
        }
    }

    /// An outbox with Finish alone.
    pub(crate) fn finish(alloc: Global) -> Outbox
        ensures { result ≡ from_stage.Finish ∷ [] }
    {
        Outbox {
            place: 0,
            sent: 0,
            pending: Pending::none(alloc),
            closing: Closing::Finish,
        }
    }

    /// An outbox with the write-backs, up to three more parts, and Done.
    pub(crate) fn answer(
        place: u64,
        backs: Vec<u64>,
        first: Option<u64>,
        second: Option<What>,
        third: Option<What>,
    ) -> Outbox
        requires { length backs.items < 2 ^ 31 }
        ensures { result ≡ answer place (map back backs.items
            ++ (map back (option_to_list first) ++ option_to_list second ++ option_to_list third)) }
    {
        Outbox {
            place,
            sent: 0,
            pending: Pending {
                backs,
                next: 0,
                first,
                second,
                third,
            },
            closing: Closing::Parts,
        }
    }

    /// Puts Done alone into the outbox, instead of what was in it.
    pub(crate) fn answer_nothing(&mut self, place: u64)
        ensures { self.new ≡ answer place [] }
    {
        self.place = place;
        self.sent = 0;
        self.closing = Closing::Done;
    }

    /// Whether no message is left.
    pub(crate) fn is_empty(&self) -> bool
        ensures { IsTrue result ↔ (self.now ≡ []) }
    {
        match self.closing {
            Closing::Nothing => true,
            Closing::Parts | Closing::Done | Closing::Finish => false,
        }
    }

    /// Takes the next message out.
    pub(crate) fn next(&mut self) -> Option<FromStage>
        ensures front { self.old ≡ option_to_list result ++ self.new }
        ensures none { IsNone result ↔ (self.old ≡ []) }
    {
        if let Closing::Parts = self.closing {
            if let Some(what) = self.pending.next() {
                self.sent += 1;
                return Some(FromStage::Part {
                    place: self.place,
                    part: self.sent,
                    what,
                });
            }
        }
        let closing = self.closing;
        self.closing = Closing::Nothing;
        match closing {
            Closing::Nothing => None,
            Closing::Parts | Closing::Done => Some(FromStage::Done {
                place: self.place,
                parts: self.sent,
            }),
            Closing::Finish => Some(FromStage::Finish),
        }
    }
}
