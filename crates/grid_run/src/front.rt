//! First-level caches of one side, and what each sends to the second level.

ghost use Rattle.std.specs.Prelude.{◌≡◌, ◌&&◌, ◌||◌, ℕ, if◌then◌else◌};
ghost use Rattle.shared_list.specs.Users.{is_user};
ghost use Rattle.grid_run.specs.declared.front.Last.TheVariants as last;

use crate::family::Family;
use crate::numbered::{Known, Numbered, number_of};
use crate::parts::{ask_part, ask_write_backs};
use crate::requests::Request;
use crate::senders::Sender;
use crate::shelf::Shelf;
use cache_core::{Access, Geometry, NoMemory};
use grid_core::BlockNumbers;
use shared_list::Users;
use stage_core::{Side, back_part, fetch_part, flush_part, through_part};
use std::alloc::Global;

/// What the caches served last.
#[derive(Clone, Copy)]
pub(crate) enum Last {
    /// An access that sent nothing in any cache, or nothing yet.
    Silence,
    /// Another access.
    Access(Access),
    /// A flush.
    Flush,
}

/// First-level caches of one side, of one block size and one policy.
#[derive(Drop)]
pub(crate) struct Front {
    pub family: Family,
    last: Last,
    /// The block of the last access, and its number.
    known: Option<Known>,
    /// The first bytes of the blocks that each cache wrote back at the last flush.
    lists: Vec<Vec<u64>>,
}

/// What the caches served last, if that was an access, which may have sent nothing in any cache.
fn last_of(access: Access, sent_nothing: bool) -> Last
    ensures { result ≡ (if sent_nothing then last.Silence else last.Access access) }
{
    if sent_nothing {
        Last::Silence
    } else {
        Last::Access(access)
    }
}

/// These users, and the others if they join them.
#[inline(always)]
fn joined(users: Users, others: Users, join: bool) -> Users
    ensures { (k : ℕ) → is_user result k ≡ (is_user users k || (is_user others k && join)) }
{
    if join { users.union(others) } else { users }
}

impl Front {
    ghost use Rattle.std.specs.Prelude.{◌≡◌, ◌<◌, ◌^◌, ◌∷◌, [], IfOk, OnOk};
    ghost use Rattle.std.specs.Prelude.{true, false, length, map, List, ℕ};
    ghost use Rattle.cache_core.specs.Geometry.{bsize_of};
    ghost use Rattle.cache_core.specs.Lists.{IsBeginning};
    ghost use Rattle.cache_core.specs.History.{History, access as accessed, flush as flushed};
    ghost use Rattle.grid_core.specs.Numbered.{blocks_in};
    ghost use Rattle.grid_core.specs.Cells.{items_of};
    ghost use Rattle.grid_core.specs.Written.{written_by};
    ghost use Rattle.grid_run.specs.declared.requests.Request.{Request};
    ghost use Rattle.grid_run.specs.declared.requests.Request.TheVariants as asked;
    ghost use Rattle.grid_run.specs.Fronts.{FrontAt, HasSent, IsSilent, front_rules};
    ghost use Rattle.grid_run.specs.Families.{HasServedLast};
    ghost use Rattle.grid_run.specs.Numbering.{KnowsNumber, StayNumbered};
    ghost use Rattle.grid_run.specs.Senders.{AreCellsOf, AreSent};
    ghost use Rattle.grid_run.specs.Sending.{event_of};
    ghost use Rattle.grid_run.specs.Seats.{rules_on};

    /// The empty caches of a shelf.
    pub fn new(alloc: Global, shelf: &Shelf) -> Result<Front, NoMemory>
        ensures stands { IfOk result (λ front. (blocks : List ℕ) → FrontAt blocks [] front) }
        ensures rules { IfOk result (λ front. front_rules front ≡ rules_on shelf.now) }
    {
        Ok(Front {
            family: Family::new(alloc, shelf)?,
            last: Last::Silence,
            known: None,
            lists: Vec::new(alloc),
        })
    }

    /// Serves an access. Its block gets a number, if it has none yet.
    fn serve_access(&mut self, access: Access, numbers: &mut BlockNumbers) -> Result<(), NoMemory>
        requires room { (blocks : List ℕ) × (h : History) × FrontAt blocks h self.old
            × (length h < 2 ^ 44) }
        ensures stands { OnOk result ((h : History) → FrontAt (blocks_in numbers.old) h self.old →
            FrontAt (blocks_in numbers.new) (accessed access ∷ h) self.new) }
        ensures last { OnOk result ((h : History) → FrontAt (blocks_in numbers.old) h self.old →
            HasSent h (asked.Access access) self.new) }
        ensures grows { OnOk result (IsBeginning (blocks_in numbers.old) (blocks_in numbers.new)) }
        ensures rules { front_rules self.new ≡ front_rules self.old }
    {
        let block = self.family.block(access.addr);
        let number = number_of(numbers, block)?;
        self.family.access(access, number as usize)?;
        self.last = last_of(access, self.family.sent_nothing());
        self.known = Some(Known { block, number });
        Ok(())
    }

    /// Serves an access the short way, if it may go it. Any other access is left.
    #[inline(always)]
    pub fn again(&mut self, access: Access) -> bool
        requires room { (blocks : List ℕ) × (h : History) × FrontAt blocks h self.old
            × (length h < 2 ^ 44) }
        ensures stands { result ≡ true → (blocks : List ℕ) (h : History) →
            FrontAt blocks h self.old → FrontAt blocks (accessed access ∷ h) self.new }
        ensures last { result ≡ true → (blocks : List ℕ) (h : History) →
            FrontAt blocks h self.old → HasSent h (asked.Access access) self.new }
        ensures silent { result ≡ true → IsSilent self.new }
        ensures leaves { result ≡ false → self.new ≡ self.old }
        ensures rules { front_rules self.new ≡ front_rules self.old }
    {
        if !self.family.again(access) {
            return false;
        }
        self.last = Last::Silence;
        true
    }

    /// Serves a flush.
    fn serve_flush(&mut self) -> Result<(), NoMemory>
        requires room { (blocks : List ℕ) × (h : History) × FrontAt blocks h self.old
            × (length h < 2 ^ 44) }
        ensures stands { OnOk result ((blocks : List ℕ) (h : History) →
            FrontAt blocks h self.old → FrontAt blocks (flushed ∷ h) self.new) }
        ensures last { OnOk result ((blocks : List ℕ) (h : History) →
            FrontAt blocks h self.old → HasSent h asked.Flush self.new) }
        ensures rules { front_rules self.new ≡ front_rules self.old }
    {
        self.lists = self.family.flush()?;
        self.last = Last::Flush;
        Ok(())
    }

    /// Serves a request. Its block gets a number, if it has none yet.
    pub fn serve(&mut self, request: Request, numbers: &mut BlockNumbers) -> Result<(), NoMemory>
        requires room { (blocks : List ℕ) × (h : History) × FrontAt blocks h self.old
            × (length h < 2 ^ 44) }
        ensures stands { OnOk result ((h : History) → FrontAt (blocks_in numbers.old) h self.old →
            FrontAt (blocks_in numbers.new) (event_of request ∷ h) self.new) }
        ensures last { OnOk result ((h : History) → FrontAt (blocks_in numbers.old) h self.old →
            HasSent h request self.new) }
        ensures grows { OnOk result (IsBeginning (blocks_in numbers.old) (blocks_in numbers.new)) }
        ensures rules { front_rules self.new ≡ front_rules self.old }
    {
        match request {
            Request::Access(access) => self.serve_access(access, numbers),
            Request::Flush => self.serve_flush(),
        }
    }

    /// Whether no cache sent anything for the last request. May be `false` though none did.
    pub fn is_silent(&self) -> bool
        ensures { result ≡ true → IsSilent self.now }
    {
        matches!(self.last, Last::Silence)
    }

    /// Adds what these caches sent for the last request, which was this access, to what waits for
    /// second levels of the block size of `first`.
    fn send_access(
        &self,
        access: Access,
        senders: &[Sender],
        side: Side,
        first: Geometry,
        numbers: &mut BlockNumbers,
        waiting: &mut Vec<Numbered>,
    ) -> Result<(), NoMemory>
        requires inside { AreCellsOf (front_rules self.now) senders.now }
        requires known { KnowsNumber (blocks_in numbers.old) self.now.known }
        ensures sent { OnOk result ((h : History) → HasServedLast self.now.family h access →
            AreSent (front_rules self.now) side h (accessed access) senders.now waiting.old.items
            waiting.new.items) }
        ensures numbers { OnOk result (StayNumbered (bsize_of first) (blocks_in numbers.old)
            waiting.old.items (blocks_in numbers.new) waiting.new.items) }
    {
        let mut fetching = Users::none();
        let mut writing = Users::none();
        for sender in senders {
            let outcome = self.family.outcome(sender.cell);
            let back = back_part(outcome.back);
            ask_part(waiting, numbers, self.known, first, back, sender.users)?;
            fetching = joined(fetching, sender.users, outcome.fetch);
            writing = joined(writing, sender.users, outcome.through);
        }
        let block = self.family.first_byte(access.addr);
        let fetch = fetch_part(side, !fetching.is_empty(), block);
        ask_part(waiting, numbers, self.known, first, fetch, fetching)?;
        let through = through_part(!writing.is_empty(), access.addr);
        ask_part(waiting, numbers, self.known, first, through, writing)
    }

    /// Adds what these caches sent for the last request, which was a flush, to what waits for
    /// second levels of the block size of `first`.
    fn send_flush(
        &self,
        senders: &[Sender],
        side: Side,
        first: Geometry,
        numbers: &mut BlockNumbers,
        waiting: &mut Vec<Numbered>,
    ) -> Result<(), NoMemory>
        requires inside { AreCellsOf (front_rules self.now) senders.now }
        requires lists { length self.now.lists.items ≡ length (front_rules self.now) }
        requires known { KnowsNumber (blocks_in numbers.old) self.now.known }
        ensures sent { OnOk result ((h : History) →
            map items_of self.now.lists.items ≡ map (written_by h) (front_rules self.now) →
            AreSent (front_rules self.now) side h flushed senders.now waiting.old.items
            waiting.new.items) }
        ensures numbers { OnOk result (StayNumbered (bsize_of first) (blocks_in numbers.old)
            waiting.old.items (blocks_in numbers.new) waiting.new.items) }
    {
        for sender in senders {
            let list = &self.lists[sender.cell];
            ask_write_backs(waiting, numbers, self.known, first, list, sender.users)?;
        }
        let flush = flush_part(side);
        ask_part(waiting, numbers, self.known, first, flush, Users::none())
    }

    /// Adds what these caches sent for the last request to what waits for second levels of the
    /// block size of `first`. Each user gets what the cache at its cell sent. The blocks get
    /// numbers, if they have none yet.
    pub fn send(
        &self,
        senders: &[Sender],
        side: Side,
        first: Geometry,
        numbers: &mut BlockNumbers,
        waiting: &mut Vec<Numbered>,
    ) -> Result<(), NoMemory>
        requires inside { AreCellsOf (front_rules self.now) senders.now }
        requires last { (h : History) × (q : Request) × HasSent h q self.now }
        requires known { KnowsNumber (blocks_in numbers.old) self.now.known }
        ensures sent { OnOk result ((h : History) (q : Request) → HasSent h q self.now →
            AreSent (front_rules self.now) side h (event_of q) senders.now waiting.old.items
            waiting.new.items) }
        ensures numbers { OnOk result (StayNumbered (bsize_of first) (blocks_in numbers.old)
            waiting.old.items (blocks_in numbers.new) waiting.new.items) }
    {
        match self.last {
            Last::Silence => Ok(()),
            Last::Access(access) => {
                self.send_access(access, senders, side, first, numbers, waiting)
            }
            Last::Flush => self.send_flush(senders, side, first, numbers, waiting),
        }
    }
}
