//! The rows of one number of sets, for caches of every number of ways up to the widest.

ghost use Rattle.std.specs.Prelude.{◌≡◌, ◌≤◌, ◌<◌, ◌+◌, ◌*◌, vec_len};
ghost use Rattle.cache_core.specs.Geometry.{bsize_of, sets_of, assoc_of};
ghost use Rattle.grid_core.specs.Histograms.{histogram_ways};
ghost use Rattle.grid_core.specs.Slot.{stride_of};

use crate::front::{stays, turn_in};
use crate::histogram::Histogram;
use crate::slots::{clear_in, count_dirty, dirty_rising, empty_slots};
use crate::sought::Sought;
use crate::word::{EMPTY, dirty_byte};
use cache_core::{Access, Geometry, MAX_EVENTS, PerClass};
use std::alloc::{AllocError, Global};

/// The sets of the widest cache, and with them those of every narrower one of as many sets.
#[derive(Drop)]
pub(crate) struct Stack {
    geometry: Geometry,
    ways: usize,
    /// The number of the last set.
    last_set: u64,
    /// How many bytes lie between two blocks of one set that follow one another.
    stride: u64,
    wback: bool,
    /// The word of each slot, one row after another.
    slots: Vec<u64>,
    /// The set of the last access that was not passed over.
    set: usize,
    /// Where the block of the last access stood in its row before: first, if it was passed over.
    found: usize,
    /// The word of the slot that the row of `set` lost at that access, or of an empty one.
    lost: u64,
    /// Where the blocks of all accesses stood before.
    histogram: Histogram,
    ghost width: { ways ≡ assoc_of geometry },
    ghost numbered: { last_set + 1 ≡ sets_of geometry },
    ghost room: { vec_len slots ≡ sets_of geometry * ways },
    ghost apart: { stride ≡ stride_of geometry },
    ghost short: { ways + 2 ≤ stride_of geometry },
    ghost inside: { set < sets_of geometry },
    ghost counted: { histogram_ways histogram ≡ ways },
}

#[tactic(auto, unfolding(crate::specs::Standing::rules_of_rows, crate::specs::Standing::found_in))]
impl Stack {
    ghost use Rattle.std.specs.Prelude.{◌≡◌, ◌<◌, ◌≤◌, ◌+◌, ◌*◌, ◌/◌, ◌%◌, ◌∷◌, ℕ, List};
    ghost use Rattle.std.specs.Prelude.{true, []};
    ghost use Rattle.std.specs.Prelude.{IfOk, map};
    ghost use Rattle.cache_core.specs.History.{History, access as accessed};
    ghost use Rattle.cache_core.specs.History.{flush as flushed};
    ghost use Rattle.cache_core.specs.Dirty.{dirty_blocks};
    ghost use Rattle.grid_core.specs.Slot.{HasWords, slot_of};
    ghost use Rattle.grid_core.specs.Ways.{with_ways};
    ghost use Rattle.grid_core.specs.Standing.{HasMoved, IsBehind, IsCountedIn, IsWithinStack};
    ghost use Rattle.grid_core.specs.Standing.{RowsSuit, StackStandsFor, StaysFirst, back_at};
    ghost use Rattle.grid_core.specs.Standing.{behind_in, dirty_slots, found_in, rules_of_rows};
    ghost use Rattle.grid_core.specs.Standing.{stack_rules, stays_at, told_in, written_at};
    ghost use Rattle.grid_core.specs.Histograms.{level_at, past_in};

    /// Empty rows, of as many sets as the geometry has, and of its number of ways. So many levels
    /// of blocks in the shadows are told apart.
    pub fn new(
        alloc: Global,
        geometry: Geometry,
        levels: usize,
        wback: bool,
    ) -> Result<Stack, AllocError>
        requires { HasWords geometry }
        ensures stands { IfOk result (λ stack. StackStandsFor stack []) }
        ensures counted { IfOk result (λ stack. (sizes : List ℕ) → IsCountedIn sizes [] stack) }
        ensures within { IfOk result (IsWithinStack 0) }
        ensures levels { IfOk result (λ stack. told_in stack ≡ levels) }
        ensures rules { IfOk result (λ stack. rules_of_rows stack ≡ stack_rules geometry wback) }
    {
        let ways = geometry.assoc() as usize;
        let sets = geometry.sets();
        let slots = empty_slots(alloc, sets as usize * ways)?;
        Ok(Stack {
            geometry,
            ways,
            last_set: sets - 1,
            stride: sets * geometry.bsize(),
            wback,
            slots,
            set: 0,
            found: 0,
            lost: EMPTY,
            histogram: Histogram::new(alloc, ways, levels)?,
        })
    }

    /// This block, which holds this address, as its row is searched for it.
    fn sought(&self, block: u64, addr: u64) -> Sought
        requires { block ≡ addr / bsize_of self.now.geometry }
        ensures block { result.block ≡ block }
        ensures set { result.set ≡ result.block % sets_of self.now.geometry }
        ensures sets { result.sets ≡ sets_of self.now.geometry }
        ensures stride { result.stride ≡ stride_of self.now.geometry }
    {
        Sought {
            block,
            sets: self.last_set + 1,
            set: block & self.last_set,
            stride: self.stride,
            base: addr & !(self.stride - 1),
        }
    }

    /// Whether the block of an access is the first of its set, and dirty in all numbers of ways if
    /// this is a write: then the access changes no row.
    pub fn stays(&self, access: Access, block: u64) -> bool
        requires { block ≡ access.addr / bsize_of self.now.geometry }
        ensures is { result ≡ stays_at self.now access }
        ensures first { result ≡ true → (h : History) → StackStandsFor self.now h →
            StaysFirst (rules_of_rows self.now) h access }
    {
        let write = access.writes();
        let sought = self.sought(block, access.addr);
        stays(&self.slots, sought.set as usize, self.ways, sought, write)
    }

    /// Serves one access to this block, which has this level in the shadows, and is not among the
    /// first `from` of its set: it is then the one used last there. Where it stood before is
    /// counted and stays known, and so does what was pushed out.
    pub fn serve(&mut self, access: Access, block: u64, level: usize, from: usize)
        requires block { block ≡ access.addr / bsize_of self.old.geometry }
        requires level { level < told_in self.old }
        requires within { (n : ℕ) × IsWithinStack n self.old × (n < MAX_EVENTS) }
        requires behind { ∥ ((h : History) × StackStandsFor self.old h
            × IsBehind from h access (rules_of_rows self.old)) ∥₁ }
        ensures stands { (h : History) → StackStandsFor self.old h →
            StackStandsFor self.new (accessed access ∷ h) }
        ensures moved { (h : History) → StackStandsFor self.old h → HasMoved h access self.new }
        ensures counted { (sizes : List ℕ) (h : History) → StackStandsFor self.old h →
            level ≡ level_at (rules_of_rows self.old) sizes h access →
            IsCountedIn sizes h self.old → IsCountedIn sizes (accessed access ∷ h) self.new }
        ensures bounds { (n : ℕ) → IsWithinStack n self.old → IsWithinStack (n + 1) self.new }
        ensures levels { told_in self.new ≡ told_in self.old }
        ensures rules { rules_of_rows self.new ≡ rules_of_rows self.old }
    {
        let write = access.writes();
        let sought = self.sought(block, access.addr);
        let set = sought.set as usize;
        let from = from.min(self.ways);
        let turned = turn_in(&mut self.slots, set, self.ways, sought, from, write);
        self.histogram
            .note(turned.position, turned.clean, level, access);
        self.set = set;
        self.found = turned.position;
        self.lost = turned.lost;
    }

    /// Passes over an access whose block stays first in its row: the rows are as they were.
    pub fn pass(&mut self)
        ensures stands { (h : History) (x : Access) → StackStandsFor self.old h →
            StaysFirst (rules_of_rows self.old) h x → StackStandsFor self.new (accessed x ∷ h) }
        ensures moved { (h : History) (x : Access) → StackStandsFor self.old h →
            StaysFirst (rules_of_rows self.old) h x → HasMoved h x self.new }
        ensures counted { (sizes : List ℕ) (h : History) (x : Access) →
            StaysFirst (rules_of_rows self.old) h x → IsCountedIn sizes h self.old →
            IsCountedIn sizes (accessed x ∷ h) self.new }
        ensures bounds { (n : ℕ) → IsWithinStack n self.old → IsWithinStack n self.new }
        ensures levels { told_in self.new ≡ told_in self.old }
        ensures rules { rules_of_rows self.new ≡ rules_of_rows self.old }
    {
        self.found = 0;
    }

    /// The number of the last set.
    pub fn last_set(&self) -> u64
        ensures { result + 1 ≡ (rules_of_rows self.now).sets }
    {
        self.last_set
    }

    /// Where the block of the last access stood in its row before, or the most ways if it was not
    /// there.
    pub fn position(&self) -> usize
        ensures { result ≡ found_in self.now }
    {
        self.found
    }

    /// Whether a cache of this geometry and write policy, of so many ways, is among those of these
    /// rows.
    pub fn suits(&self, geometry: Geometry, ways: usize, wback: bool) -> bool
        ensures suits { result ≡ true → RowsSuit (rules_of_rows self.now) geometry ways wback }
        ensures every { RowsSuit (rules_of_rows self.now) geometry ways wback → result ≡ true }
    {
        self.geometry.bsize() == geometry.bsize()
            && self.geometry.sets() == geometry.sets()
            && self.wback == wback
            && ways <= self.ways
    }

    /// Whether the caches write back.
    pub fn wback(&self) -> bool
        ensures { result ≡ (rules_of_rows self.now).wback }
    {
        self.wback
    }

    /// The word of the slot behind the first `ways` of the row of the last access that was not
    /// passed over, or of the one that the row lost.
    fn word_behind(&self, ways: usize) -> u64
        ensures { slot_of (stride_of self.now.geometry) (sets_of self.now.geometry) self.now.set
            result ≡ behind_in self.now ways }
    {
        if ways < self.ways {
            return self.slots[self.set * self.ways + ways];
        }
        self.lost
    }

    /// The first byte of the block that the cache of `ways` ways wrote back at the last access, if
    /// it missed.
    pub fn back(&self, ways: usize) -> Option<u64>
        ensures { result ≡ back_at self.now ways }
    {
        let word = self.word_behind(ways);
        let start = self.set as u64 * self.geometry.bsize();
        dirty_byte(word, self.stride, start, self.wback, ways)
    }

    /// The first bytes of the blocks that the cache of `ways` ways holds dirty, in rising order,
    /// each once.
    pub fn dirty(&self, alloc: Global, ways: usize) -> Result<Vec<u64>, AllocError>
        requires some { 0 < ways }
        requires fits { ways ≤ (rules_of_rows self.now).assoc }
        ensures { IfOk result (λ bytes. (h : History) → StackStandsFor self.now h →
            bytes.items ≡ map (λ b. b * (rules_of_rows self.now).bsize)
            (dirty_blocks (with_ways ways (rules_of_rows self.now)) h)) }
    {
        let sets = self.geometry.sets() as usize;
        let bsize = self.geometry.bsize();
        let bytes = dirty_rising(alloc, &self.slots, sets, self.ways, bsize, self.wback, ways)?;
        Ok(bytes)
    }

    /// The accesses that missed in so many ways, of which there is one or more, and in the first
    /// `level` of the shadows.
    pub fn past(&self, ways: usize, level: usize) -> PerClass
        requires ways { ways ≤ (rules_of_rows self.now).assoc }
        requires level { level ≤ told_in self.now }
        requires within { IsWithinStack MAX_EVENTS self.now }
        ensures { result ≡ past_in self.now.histogram ways level }
    {
        self.histogram.past(ways, level)
    }

    /// How many blocks the cache of `ways` ways holds dirty.
    fn dirty_count(&self, ways: usize) -> u64
        requires { ways ≤ (rules_of_rows self.now).assoc }
        ensures { result ≡ dirty_slots self.now ways }
    {
        let sets = self.geometry.sets() as usize;
        count_dirty(&self.slots, sets, self.ways, self.stride, self.wback, ways) as u64
    }

    /// How many blocks the cache of `ways` ways has written back so far: the writes that found
    /// their block not dirty, but for the blocks that are dirty still.
    pub fn written_back(&self, ways: usize) -> u64
        requires some { 0 < ways }
        requires ways { ways ≤ (rules_of_rows self.now).assoc }
        requires within { IsWithinStack MAX_EVENTS self.now }
        ensures { result ≡ written_at self.now ways }
    {
        if !self.wback {
            return 0;
        }
        let written = self.histogram.first_writes(ways);
        written.saturating_sub(self.dirty_count(ways))
    }

    /// Empties all rows, as a flush does.
    pub fn clear(&mut self)
        ensures stands { (h : History) → StackStandsFor self.new (flushed ∷ h) }
        ensures counted { (sizes : List ℕ) (h : History) → IsCountedIn sizes h self.old →
            IsCountedIn sizes (flushed ∷ h) self.new }
        ensures bounds { (n : ℕ) → IsWithinStack n self.old → IsWithinStack n self.new }
        ensures levels { told_in self.new ≡ told_in self.old }
        ensures rules { rules_of_rows self.new ≡ rules_of_rows self.old }
    {
        clear_in(&mut self.slots);
    }
}
