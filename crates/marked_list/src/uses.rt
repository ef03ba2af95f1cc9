//! The uses of blocks in the order of time, and which of them are the last ones of their blocks.

ghost use Rattle.std.specs.Prelude.{◌≡◌, ◌<◌, ◌≤◌, ◌+◌, ◌-◌, ◌^◌, ◌∷◌, ◌++◌, ◌==◌, [], ℕ};
ghost use Rattle.std.specs.Prelude.{if◌then◌else◌, length, reverse, take, unwrap_or, OnOk, OnErr};
ghost use Rattle.std.specs.List.{list_any};
ghost use Rattle.cache_core.specs.Residents.{distinct};
ghost use Rattle.marked_list.specs.Uses.{AreStamps, HaveStampRoom, forgotten, last_in, living};
ghost use Rattle.marked_list.specs.Uses.{since, stamp_at, with_dead};

use crate::stamp::{FORGOTTEN, NEVER, least_stamped};
use std::alloc::{AllocError, Global};

/// Stands in the log at a use that is dead: its block was used again.
const DEAD: u32 = u32::MAX;

/// The uses of blocks by number. Numbers, and places in the log, have 32 bits.
#[derive(Drop)]
pub(crate) struct Uses {
    /// The numbers of the blocks in the order of their uses, and `DEAD` for each use that is not
    /// the last one of its block.
    log: Vec<u32>,
    /// By number: the place of the last use in `log`, or `FORGOTTEN`, or `NEVER`.
    stamps: Vec<u32>,
    ghost stamped: { AreStamps (reverse log.items) stamps.items },
    ghost once: { distinct (living (reverse log.items)) ≡ living (reverse log.items) },
    ghost short: { length log.items + 1 < 2 ^ 32 },
}

/// Makes room for a stamp of this number, which has none. Not inlined, so that a block that has a
/// stamp is served by less code.
#[inline(never)]
fn grow_to(stamps: &mut Vec<u32>, number: usize) -> Result<(), AllocError>
    requires low { number < u32.MAX }
    requires none { length stamps.old.items ≤ number }
    ensures kept { (q : ℕ) → stamp_at stamps.new.items q ≡ stamp_at stamps.old.items q }
    ensures room { OnOk result (number < length stamps.new.items) }
{
    stamps.resize(number + 1, NEVER)
}

/// Makes room for a stamp of this number.
#[inline(always)]
fn grow(stamps: &mut Vec<u32>, number: usize) -> Result<(), AllocError>
    requires { number < u32.MAX }
    ensures kept { (q : ℕ) → stamp_at stamps.new.items q ≡ stamp_at stamps.old.items q }
    ensures room { OnOk result (number < length stamps.new.items) }
{
    if number < stamps.len() {
        return Ok(());
    }
    grow_to(stamps, number)
}

/// Adds a use to the log, and stamps its block with the place.
#[inline(always)]
fn note(log: &mut Vec<u32>, stamps: &mut Vec<u32>, number: usize) -> Result<(), AllocError>
    requires number { number < length stamps.old.items }
    requires low { number < u32.MAX }
    requires short { length log.old.items < forgotten }
    ensures log { OnOk result (log.new.items ≡ log.old.items ++ number ∷ []) }
    ensures stamps { OnOk result ((q : ℕ) → stamp_at stamps.new.items q
        ≡ (if number == q then length log.old.items else stamp_at stamps.old.items q)) }
    ensures unchanged { OnErr result (log.new.items ≡ log.old.items) }
    ensures kept { OnErr result ((q : ℕ) →
        stamp_at stamps.new.items q ≡ stamp_at stamps.old.items q) }
{
    let place = log.len();
    log.push(number as u32)?;
    stamps[number] = place as u32;
    Ok(())
}

/// Lets the use at this place be dead, if there is one.
fn bury(log: &mut Vec<u32>, last: Option<usize>)
    requires { (p : ℕ) → last ≡ Some p → p < length log.old.items }
    ensures { log.new.items ≡ with_dead log.old.items last }
{
    if let Some(place) = last {
        log[place] = DEAD;
    }
}

/// Moves the last uses to the front, in their order, and answers how many there are.
fn keep_last_uses(log: &mut [u32]) -> usize
    ensures { reverse (take result log.new) ≡ living (reverse log.old) }
{
    let mut kept = 0;
    for place in 0..log.len() {
        let number = log[place];
        log[kept] = number;
        if number != DEAD {
            kept += 1;
        }
    }
    kept
}

/// The same for a vector, and the rest is cut off.
fn keep_each(log: &mut Vec<u32>)
    ensures { reverse log.new.items ≡ living (reverse log.old.items) }
{
    let kept = keep_last_uses(log);
    log.truncate(kept);
}

/// Stamps each block with the place of its last use.
fn restamp(log: &[u32], stamps: &mut [u32])
    requires short { length log.now < 2 ^ 32 }
    requires room { HaveStampRoom (reverse log.now) stamps.old }
    ensures { (q : ℕ) → stamp_at stamps.new q
        ≡ unwrap_or (last_in (reverse log.now) q) (stamp_at stamps.old q) }
{
    for (place, number) in log.iter().enumerate() {
        stamps[*number as usize] = place as u32;
    }
}

/// The same for vectors.
fn restamp_each(log: &Vec<u32>, stamps: &mut Vec<u32>)
    requires short { length log.now.items < 2 ^ 32 }
    requires room { HaveStampRoom (reverse log.now.items) stamps.old.items }
    ensures { (q : ℕ) → stamp_at stamps.new.items q
        ≡ unwrap_or (last_in (reverse log.now.items) q) (stamp_at stamps.old.items q) }
{
    restamp(log, stamps);
}

/// Stamps each block as one whose uses were forgotten.
fn unstamp(log: &[u32], stamps: &mut [u32])
    requires { HaveStampRoom (reverse log.now) stamps.old }
    ensures { (q : ℕ) → stamp_at stamps.new q
        ≡ (if list_any (λ m. m == q) (reverse log.now) then forgotten else stamp_at stamps.old q) }
{
    for number in log.iter() {
        stamps[*number as usize] = FORGOTTEN;
    }
}

/// The same for vectors.
fn unstamp_each(log: &Vec<u32>, stamps: &mut Vec<u32>)
    requires { HaveStampRoom (reverse log.now.items) stamps.old.items }
    ensures { (q : ℕ) → stamp_at stamps.new.items q
        ≡ (if list_any (λ m. m == q) (reverse log.now.items) then forgotten
        else stamp_at stamps.old.items q) }
{
    unstamp(log, stamps);
}

/// The place behind the first use from `place` on that is not dead, or behind the last use.
fn behind_living(log: &[u32], place: usize) -> usize
    requires { place < length log.now }
    ensures within { result ≤ length log.now }
    ensures one_less { let window = living (since place (reverse log.now)) in
        living (since result (reverse log.now)) ≡ take (length window - 1) window }
{
    let mut index = place;
    while index + 1 < log.len() && log[index] == DEAD {
        index += 1;
    }
    index + 1
}

#[tactic(auto, unfolding(crate::specs::Log::uses_of, crate::specs::Log::is_stamped))]
impl Uses {
    ghost use Rattle.std.specs.Prelude.{◌≡◌, ◌≢◌, ◌<◌, ◌≤◌, ◌+◌, ◌-◌, ◌*◌, ◌==◌, ◌||◌, [], ℕ};
    ghost use Rattle.std.specs.Prelude.{length, take, get_or, true, false, OnOk, OnErr};
    ghost use Rattle.std.specs.List.{All, list_any};
    ghost use Rattle.marked_list.specs.Recency.{index_in};
    ghost use Rattle.marked_list.specs.Uses.{dead, last_in, living, since, used_next};
    ghost use Rattle.marked_list.specs.Log.{uses_of, is_stamped};

    /// No uses.
    pub(crate) fn new(alloc: Global) -> Uses
        ensures uses { uses_of result ≡ [] }
        ensures used { (q : ℕ) → is_stamped result q ≡ false }
    {
        Uses {
            log: Vec::new(alloc),
            stamps: Vec::new(alloc),
        }
    }

    /// Whether this block was used last of all.
    pub(crate) fn is_latest(&self, number: usize) -> bool
        ensures { result ≡ true → (0 < length (uses_of self.now))
            × (get_or (uses_of self.now) 0 0 ≡ number) }
    {
        let uses = self.log.len();
        uses > 0 && self.log[uses - 1] as usize == number
    }

    /// Whether so many uses are to be shortened to the last ones, of which there are `used`. With
    /// this test, all calls of `shorten` together take a few steps for each use.
    pub(crate) fn is_long(&self, used: usize) -> bool
        ensures { result ≡ false → length (uses_of self.now) < 4096 + 2 * used }
    {
        let uses = self.log.len();
        uses >= 4096 && uses / 2 > used
    }

    /// The place of the last use of a block, if it has one.
    pub(crate) fn last_use(&self, number: usize) -> Option<usize>
        requires { number ≢ dead }
        ensures { result ≡ last_in (uses_of self.now) number }
    {
        if number < self.stamps.len() {
            let stamp = self.stamps[number];
            if stamp < FORGOTTEN {
                return Some(stamp as usize);
            }
        }
        None
    }

    /// Whether a block was ever used.
    pub(crate) fn knows(&self, number: usize) -> bool
        ensures { result ≡ is_stamped self.now number }
    {
        number < self.stamps.len() && self.stamps[number] != NEVER
    }

    /// Of some blocks that were all used, the index of the one whose last use is the longest ago.
    pub(crate) fn oldest(&self, numbers: &[u32]) -> usize
        requires { 0 < length numbers.now }
        ensures inside { result < length numbers.now }
        ensures oldest { let order = living (uses_of self.now) in
            All (λ n. list_any (λ m. m == n) order ≡ true) numbers.now →
            (k : ℕ) → k < length numbers.now →
            index_in (get_or numbers.now k 0) order
            ≤ index_in (get_or numbers.now result 0) order }
    {
        least_stamped(&self.stamps, numbers)
    }

    /// The place from which on there is one block less: behind the next last use of a block.
    pub(crate) fn behind_next(&self, place: usize) -> usize
        requires { place < length (uses_of self.now) }
        ensures within { result ≤ length (uses_of self.now) }
        ensures one_less { let window = living (since place (uses_of self.now)) in
            living (since result (uses_of self.now)) ≡ take (length window - 1) window }
    {
        behind_living(&self.log, place)
    }

    /// Adds a use of a block, whose use before it is told. Where the log has all the places that a
    /// stamp can say, it is refused as if memory were wanting.
    #[inline(always)]
    pub(crate) fn add(&mut self, number: usize, last: Option<usize>) -> Result<(), AllocError>
        requires low { number < u32.MAX }
        requires last { last ≡ last_in (uses_of self.old) number }
        ensures added { OnOk result (uses_of self.new ≡ used_next number (uses_of self.old)) }
        ensures used { OnOk result ((q : ℕ) →
            is_stamped self.new q ≡ (number == q || is_stamped self.old q)) }
        ensures unchanged { OnErr result (uses_of self.new ≡ uses_of self.old) }
        ensures unused { OnErr result ((q : ℕ) → is_stamped self.new q ≡ is_stamped self.old q) }
    {
        if self.log.len() >= FORGOTTEN as usize {
            return Err(AllocError);
        }
        grow(&mut self.stamps, number)?;
        note(&mut self.log, &mut self.stamps, number)?;
        bury(&mut self.log, last);
        Ok(())
    }

    /// Forgets all uses but the last ones.
    pub(crate) fn shorten(&mut self)
        ensures uses { uses_of self.new ≡ living (uses_of self.old) }
        ensures used { (q : ℕ) → is_stamped self.new q ≡ is_stamped self.old q }
    {
        keep_each(&mut self.log);
        restamp_each(&self.log, &mut self.stamps);
    }

    /// Forgets all uses.
    pub(crate) fn clear(&mut self)
        ensures uses { uses_of self.new ≡ [] }
        ensures used { (q : ℕ) → is_stamped self.new q ≡ is_stamped self.old q }
    {
        keep_each(&mut self.log);
        unstamp_each(&self.log, &mut self.stamps);
        self.log.clear();
    }
}
