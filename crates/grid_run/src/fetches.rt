//! Fetches that follow one another in one block.

ghost use Rattle.std.specs.Prelude.{◌≡◌, ◌<◌, ◌≤◌, ◌+◌, ◌*◌, ◌++◌, ◌∷◌, [], ℕ, List, length};
ghost use Rattle.std.specs.Prelude.{take, true, false};
ghost use Rattle.std.specs.List.{All};
ghost use Rattle.din_trace.specs.declared.record.DinRecord.{DinRecord};
ghost use Rattle.grid_core.specs.Written.{rules_at_index};
ghost use Rattle.stage_core.specs.Events.{history};
ghost use Rattle.stage_core.specs.SecondLevel.{parts_of, sent_up};
ghost use Rattle.stage_core.specs.declared.message.Side.TheVariants as side;
ghost use Rattle.grid_run.specs.Fetching.{AsksNoData, fetched};
ghost use Rattle.grid_run.specs.Fronts.{FrontAt, front_rules};

use crate::front::Front;
use crate::requests::{Request, asked_of};
use din_trace::{DinRecord, MAX_LIMIT};
use stage_core::Side;

/// Serves the next record the short way, if it is a fetch that may go it. It sends nothing then.
/// Any other record is left.
#[inline(always)]
fn fetch_once(front: &mut Front, next: DinRecord) -> bool
    requires room { (blocks : List ℕ) × (es : List DinRecord)
        × FrontAt blocks (history side.I es) front.old × (length es < 2 * MAX_LIMIT) }
    ensures stands { result ≡ true → (blocks : List ℕ) (es : List DinRecord) →
        FrontAt blocks (history side.I es) front.old →
        FrontAt blocks (history side.I (es ++ next ∷ [])) front.new }
    ensures silent { result ≡ true → (blocks : List ℕ) (es : List DinRecord) →
        FrontAt blocks (history side.I es) front.old →
        (cell : ℕ) → cell < length (front_rules front.old) →
        sent_up (parts_of (rules_at_index (front_rules front.old) cell)) side.I es next ≡ [] }
    ensures no_data { result ≡ true → AsksNoData next }
    ensures leaves { result ≡ false → front.new ≡ front.old }
    ensures rules { front_rules front.new ≡ front_rules front.old }
{
    let Some(Request::Access(fetch)) = asked_of(Side::I, next) else {
        return false;
    };
    front.again(fetch)
}

/// Serves the fetches that stand first among these records, as long as they go the short way, and
/// answers how many these are. They send nothing.
pub(crate) fn fetch_on(front: &mut Front, part: &[DinRecord]) -> usize
    requires room { (blocks : List ℕ) × (es : List DinRecord)
        × FrontAt blocks (history side.I es) front.old
        × (length es + length part.now ≤ 2 * MAX_LIMIT) }
    ensures inside { result ≤ length part.now }
    ensures stands { (blocks : List ℕ) (es : List DinRecord) →
        FrontAt blocks (history side.I es) front.old →
        FrontAt blocks (history side.I (es ++ take result part.now)) front.new }
    ensures silent { (blocks : List ℕ) (es : List DinRecord) →
        FrontAt blocks (history side.I es) front.old →
        (cell : ℕ) → cell < length (front_rules front.old) →
        fetched (rules_at_index (front_rules front.old) cell) es (take result part.now) ≡ [] }
    ensures no_data { All AsksNoData (take result part.now) }
    ensures rules { front_rules front.new ≡ front_rules front.old }
{
    let mut count = 0;
    'fetches: while count < part.len() {
        if !fetch_once(front, part[count]) {
            return count;
        }
        count += 1;
    }
    count
}
