//! The first-level caches of one side.

ghost use Rattle.std.specs.Prelude.{◌≡◌, ◌<◌, ◌≤◌, ◌+◌, ◌*◌, ◌^◌, ◌++◌, ◌∷◌, [], ℕ, List};
ghost use Rattle.std.specs.Prelude.{IfOk, OnOk, map, length, take, true, false};
ghost use Rattle.std.specs.List.{All};
ghost use Rattle.cache_core.specs.History.{History};
ghost use Rattle.cache_core.specs.Lists.{IsBeginning};
ghost use Rattle.din_trace.specs.declared.record.DinRecord.{DinRecord};
ghost use Rattle.grid_core.specs.Numbered.{blocks_in};
ghost use Rattle.stage_core.specs.Events.{history};
ghost use Rattle.stage_core.specs.declared.message.Side.TheVariants as side;
ghost use Rattle.grid_run.specs.Backs.{IsSeatIn};
ghost use Rattle.grid_run.specs.Fetching.{AsksNoData, fetched};
ghost use Rattle.grid_run.specs.Fronts.{FrontAt, HasSent, IsSilent, front_rules};
ghost use Rattle.grid_run.specs.Seats.{rules_of_seat, rules_on};
ghost use Rattle.grid_run.specs.Sending.{event_of};
ghost use Rattle.grid_run.specs.declared.seat.Seat.{Seat};

use crate::fetches::fetch_on;
use crate::front::Front;
use crate::lists::made_for_each;
use crate::requests::Request;
use crate::shelf::Shelf;
use cache_core::NoMemory;
use din_trace::{DinRecord, MAX_LIMIT};
use grid_core::BlockNumbers;
use std::alloc::Global;

/// The empty caches of these shelves.
pub(crate) fn fronts_for(alloc: Global, shelves: &[Shelf]) -> Result<Vec<Front>, NoMemory>
    ensures rules { IfOk result (λ fronts.
        map front_rules fronts.items ≡ map rules_on shelves.now) }
    ensures stands { IfOk result (λ fronts. (blocks : List ℕ) →
        All (FrontAt blocks []) fronts.items) }
{
    made_for_each!(alloc, shelves, shelf => Front::new(alloc, shelf)?)
}

/// Serves a request in all caches. Its block gets a number, if it has none yet.
pub(crate) fn serve_fronts(
    fronts: &mut Vec<Front>,
    request: Request,
    numbers: &mut BlockNumbers,
) -> Result<(), NoMemory>
    requires room { (blocks : List ℕ) × (h : History) × All (FrontAt blocks h) fronts.old.items
        × (length h < 2 ^ 44) }
    ensures stands { OnOk result ((h : History) →
        All (FrontAt (blocks_in numbers.old) h) fronts.old.items →
        All (FrontAt (blocks_in numbers.new) (event_of request ∷ h)) fronts.new.items) }
    ensures sent { OnOk result ((h : History) →
        All (FrontAt (blocks_in numbers.old) h) fronts.old.items →
        All (HasSent h request) fronts.new.items) }
    ensures grows { OnOk result (IsBeginning (blocks_in numbers.old) (blocks_in numbers.new)) }
    ensures rules { map front_rules fronts.new.items ≡ map front_rules fronts.old.items }
{
    for front in fronts.iter_mut() {
        front.serve(request, numbers)?;
    }
    Ok(())
}

/// Serves a request the short way, if all caches of the side are served together and it may go it.
/// It sends nothing then. Any other request is left.
#[inline(always)]
pub(crate) fn serve_again(fronts: &mut Vec<Front>, request: Request) -> bool
    requires room { (blocks : List ℕ) × (h : History) × All (FrontAt blocks h) fronts.old.items
        × (length h < 2 ^ 44) }
    ensures stands { result ≡ true → (blocks : List ℕ) (h : History) →
        All (FrontAt blocks h) fronts.old.items →
        All (FrontAt blocks (event_of request ∷ h)) fronts.new.items }
    ensures sent { result ≡ true → (blocks : List ℕ) (h : History) →
        All (FrontAt blocks h) fronts.old.items → All (HasSent h request) fronts.new.items }
    ensures silent { result ≡ true → All IsSilent fronts.new.items }
    ensures leaves { result ≡ false → fronts.new.items ≡ fronts.old.items }
    ensures rules { map front_rules fronts.new.items ≡ map front_rules fronts.old.items }
{
    let Request::Access(access) = request else {
        return false;
    };
    if fronts.len() != 1 {
        return false;
    }
    fronts[0].again(access)
}

/// Serves the fetches that stand first among these records, as long as they go the short way, if
/// all instruction caches are served together. Answers how many these are. They send nothing.
pub(crate) fn serve_fetches(fronts: &mut Vec<Front>, part: &[DinRecord]) -> usize
    requires room { (blocks : List ℕ) × (es : List DinRecord)
        × All (FrontAt blocks (history side.I es)) fronts.old.items
        × (length es + length part.now ≤ 2 * MAX_LIMIT) }
    ensures inside { result ≤ length part.now }
    ensures stands { (blocks : List ℕ) (es : List DinRecord) →
        All (FrontAt blocks (history side.I es)) fronts.old.items →
        All (FrontAt blocks (history side.I (es ++ take result part.now))) fronts.new.items }
    ensures silent { (blocks : List ℕ) (es : List DinRecord) →
        All (FrontAt blocks (history side.I es)) fronts.old.items →
        (seat : Seat) → IsSeatIn (map front_rules fronts.old.items) seat → fetched
        (rules_of_seat (map front_rules fronts.old.items) seat) es (take result part.now) ≡ [] }
    ensures no_data { All AsksNoData (take result part.now) }
    ensures rules { map front_rules fronts.new.items ≡ map front_rules fronts.old.items }
{
    if fronts.len() == 1 {
        return fetch_on(&mut fronts[0], part);
    }
    0
}

/// Whether no cache sent anything for the last request. May be `false` though none did.
pub(crate) fn are_silent(fronts: &[Front]) -> bool
    ensures { result ≡ true → All IsSilent fronts.now }
{
    for front in fronts {
        if !front.is_silent() {
            return false;
        }
    }
    true
}
