//! Caches that are served together by their stack order: LRU, with write allocation.

ghost use Rattle.std.specs.Prelude.{◌≡◌, ◌<◌, ◌≤◌, ◌+◌, ◌^◌, false, length, map};
ghost use Rattle.std.specs.List.{All};
ghost use Rattle.cache_core.specs.Dirty.{rising};
ghost use Rattle.cache_core.specs.Geometry.{bsize_of};
ghost use Rattle.grid_core.specs.Shadows.{shadow_sizes, levels_in};
ghost use Rattle.grid_core.specs.Totals.{total};
ghost use Rattle.cache_core.specs.Counting.{IsWithin};
ghost use Rattle.grid_core.specs.Shapes.{HaveBsize};
ghost use Rattle.grid_core.specs.Standing.{HaveLived, IsWithinStack, rules_of_rows, told_in};
ghost use Rattle.grid_core.specs.Cells.{IsPlacedAmong};
ghost use Rattle.grid_core.specs.State.{IsRanked, IsWithinAlike};

mod last;

use crate::cells::{Alike, Shape, dirty_lists, none_alike, shape_counts};
use crate::outcome::sends_on;
use crate::parts::parts_for;
use crate::shadows::{PriorLevel, Shadows, prior_of_last};
use crate::shapes::rising_sizes;
use crate::stack::Stack;
use crate::stacks::{clear_rows, serve_rows};
use cache_core::{Access, Counts, Geometry, MAX_EVENTS, PerClass};
use std::alloc::{AllocError, Global};

/// LRU caches of one block size that allocate at writes: rows for each number of sets, which count
/// where the blocks of all accesses stood, the shadows of all sizes, and a shape for each cache.
/// After a failed allocation the counts are as before, but the caches stand for no history.
#[derive(Drop)]
pub(crate) struct Stacked {
    alloc: Global,
    /// A geometry of the block size.
    geometry: Geometry,
    wback: bool,
    stacks: Vec<Stack>,
    shadows: Shadows,
    shapes: Vec<Shape>,
    alike: Alike,
    served: u64,
    /// Whether the last access was a write.
    write: bool,
    /// Whether it used the block that was used last, and changed nothing but the fetches.
    again: bool,
    /// What was known of its block before.
    prior: PriorLevel,
    ghost rises: { rising (shadow_sizes shadows) ≡ shadow_sizes shadows },
    ghost placed: { All (λ s. IsPlacedAmong (map rules_of_rows stacks.items) s) shapes.items },
    ghost ranked: { All (IsRanked (shadow_sizes shadows) geometry) shapes.items },
    ghost one_size: { HaveBsize (bsize_of geometry) stacks.items },
    ghost one_policy: { All (λ s. s.wback ≡ wback) shapes.items },
    ghost told: { All (λ n. n ≡ length (shadow_sizes shadows) + 1) (map told_in stacks.items) },
    ghost bounded: { All (IsWithinStack served) stacks.items },
    ghost alike_within: { IsWithinAlike served alike },
    ghost small: { length (shadow_sizes shadows) < 2 ^ 60 },
    ghost leveled: { IsWithin (total (levels_in shadows)) served },
    ghost few: { served ≤ 2 ^ 44 },
    ghost lived: { HaveLived stacks.items },
}

#[tactic(auto, unfolding(crate::specs::StackedCells::stacked_rules, crate::specs::StackedCells::stacked_served, crate::specs::StackedCells::stacked_counts, crate::specs::StackedCells::stacked_shadow_misses))]
impl Stacked {
    ghost use Rattle.std.specs.Prelude.{◌≡◌, ◌<◌, ◌≤◌, ◌+◌, ◌/◌, ◌^◌, ◌∷◌, [], map, true};
    ghost use Rattle.std.specs.Prelude.{false, OnOk, OnErr, IfOk, get_or, length, ℕ, List};
    ghost use Rattle.std.specs.List.{All};
    ghost use Rattle.cache_core.specs.Geometry.{bsize_of};
    ghost use Rattle.cache_core.specs.History.{History, access as accessed, flush as flushed};
    ghost use Rattle.cache_core.specs.History.{is_write};
    ghost use Rattle.cache_core.specs.Parts.{SendsNothing, outcome_of};
    ghost use Rattle.cache_core.specs.Counts.{counts_of, no_counts, none_by_class};
    ghost use Rattle.grid_core.specs.Recent.{IsAgain};
    ghost use Rattle.grid_core.specs.Shadows.{recent_in};
    ghost use Rattle.grid_core.specs.FullyAssociative.{shadow_misses};
    ghost use Rattle.grid_core.specs.Cells.{items_of};
    ghost use Rattle.grid_core.specs.Slot.{HasWords};
    ghost use Rattle.grid_core.specs.Standing.{stack_rules};
    ghost use Rattle.grid_core.specs.Numbers.{IsNumberOf};
    ghost use Rattle.grid_core.specs.StackedCells.{StackedHasAnswered, StackedKeepsCounts};
    ghost use Rattle.grid_core.specs.StackedCells.{StackedStandsBy};
    ghost use Rattle.grid_core.specs.StackedCells.{stacked_counts, stacked_rules, stacked_served};
    ghost use Rattle.grid_core.specs.StackedCells.{stacked_shadow_misses};
    ghost use Rattle.grid_core.specs.Written.{rules_at_index, written_by};

    /// Empty caches of these geometries, which have the block size of `first`.
    pub fn new(
        alloc: Global,
        geometries: &[Geometry],
        first: Geometry,
        wback: bool,
    ) -> Result<Stacked, AllocError>
        requires one_size { All (λ g. bsize_of g ≡ bsize_of first) geometries.now }
        requires words { All HasWords geometries.now }
        ensures stands { IfOk result (λ stacked. (blocks : List ℕ) →
            StackedStandsBy blocks stacked []) }
        ensures rules { IfOk result (λ stacked.
            stacked_rules stacked ≡ map (λ g. stack_rules g wback) geometries.now) }
        ensures served { IfOk result (λ stacked. stacked_served stacked ≡ 0) }
    {
        let sizes = rising_sizes(alloc, geometries)?;
        let shadows = Shadows::new(alloc, &sizes)?;
        let parts = parts_for(alloc, geometries, &sizes, first, wback)?;
        Ok(Stacked {
            alloc,
            geometry: first,
            wback,
            stacks: parts.stacks,
            shadows,
            shapes: parts.shapes,
            alike: none_alike(),
            served: 0,
            write: false,
            again: false,
            prior: PriorLevel::default(),
        })
    }

    /// Serves an access to the block that was used last, and that it makes dirty nowhere. It hits
    /// in all caches and shadows, and changes none.
    #[inline(always)]
    fn repeat(&mut self, access: Access)
        requires few { stacked_served self.old < MAX_EVENTS }
        requires again { IsAgain (access.addr / bsize_of self.old.geometry) (is_write access)
            (recent_in self.old.shadows) }
        ensures stands { (blocks : List ℕ) (h : History) → StackedStandsBy blocks self.old h →
            StackedStandsBy blocks self.new (accessed access ∷ h) }
        ensures answers { (blocks : List ℕ) (h : History) → StackedStandsBy blocks self.old h →
            StackedHasAnswered self.new h access }
        ensures served { stacked_served self.new ≡ stacked_served self.old + 1 }
        ensures rules { stacked_rules self.new ≡ stacked_rules self.old }
        ensures again { self.new.again ≡ true }
        ensures write { self.new.write ≡ is_write access }
        ensures policy { self.new.wback ≡ self.old.wback }
    {
        self.alike.fetches.count(access, true);
        self.write = access.writes();
        self.again = true;
        self.prior = prior_of_last();
        self.served += 1;
    }

    /// Serves one access to this block, which has this number, in all caches.
    fn serve(&mut self, access: Access, block: u64, number: usize) -> Result<(), AllocError>
        requires few { stacked_served self.old < MAX_EVENTS }
        requires block { block ≡ access.addr / bsize_of self.old.geometry }
        ensures stands { OnOk result ((blocks : List ℕ) (h : History) →
            IsNumberOf blocks (bsize_of self.old.geometry) access number →
            StackedStandsBy blocks self.old h →
            StackedStandsBy blocks self.new (accessed access ∷ h)) }
        ensures answers { OnOk result ((blocks : List ℕ) (h : History) →
            IsNumberOf blocks (bsize_of self.old.geometry) access number →
            StackedStandsBy blocks self.old h → StackedHasAnswered self.new h access) }
        ensures served { OnOk result (stacked_served self.new ≡ stacked_served self.old + 1) }
        ensures keeps { OnErr result (StackedKeepsCounts self.new self.old) }
        ensures rules { stacked_rules self.new ≡ stacked_rules self.old }
    {
        let Ok(prior) = self.shadows.touch(block, number, access) else {
            return Err(AllocError);
        };
        serve_rows(&mut self.stacks, access, block, prior.level);
        self.alike.fetches.count(access, true);
        self.alike.firsts.count(access, !prior.known);
        self.write = access.writes();
        self.again = false;
        self.prior = prior;
        self.served += 1;
        Ok(())
    }

    /// Serves an access if it repeats the use of the block that was used last, makes it dirty
    /// nowhere and sends nothing: this is the short way. It leaves any other access, and answers
    /// `false`. This is inlined, as are its callers and `repeat`, so that the short way is served
    /// within the loop over the records. Not inlined, a fetch took about 30 instructions more.
    #[inline(always)]
    pub fn again(&mut self, access: Access) -> bool
        requires { stacked_served self.old < MAX_EVENTS }
        ensures stands { result ≡ true → (blocks : List ℕ) (h : History) →
            StackedStandsBy blocks self.old h →
            StackedStandsBy blocks self.new (accessed access ∷ h) }
        ensures answers { result ≡ true → (blocks : List ℕ) (h : History) →
            StackedStandsBy blocks self.old h → StackedHasAnswered self.new h access }
        ensures silent { result ≡ true → (h : History) (x : Access) →
            StackedHasAnswered self.new h x →
            (index : ℕ) → index < length (stacked_rules self.new) →
            SendsNothing (outcome_of (rules_at_index (stacked_rules self.new) index) h x) }
        ensures served { result ≡ true →
            stacked_served self.new ≡ stacked_served self.old + 1 }
        ensures leaves { result ≡ false → self.new ≡ self.old }
        ensures rules { stacked_rules self.new ≡ stacked_rules self.old }
    {
        let write = access.writes();
        if sends_on(write, self.wback) {
            return false;
        }
        let block = self.geometry.block(access.addr);
        if !self.shadows.is_again(block, write) {
            return false;
        }
        self.repeat(access);
        true
    }

    /// Serves one access, whose block has this number, in all caches.
    pub fn access(&mut self, access: Access, number: usize) -> Result<(), AllocError>
        requires { stacked_served self.old < MAX_EVENTS }
        ensures stands { OnOk result ((blocks : List ℕ) (h : History) →
            IsNumberOf blocks (bsize_of self.old.geometry) access number →
            StackedStandsBy blocks self.old h →
            StackedStandsBy blocks self.new (accessed access ∷ h)) }
        ensures answers { OnOk result ((blocks : List ℕ) (h : History) →
            IsNumberOf blocks (bsize_of self.old.geometry) access number →
            StackedStandsBy blocks self.old h → StackedHasAnswered self.new h access) }
        ensures served { OnOk result (stacked_served self.new ≡ stacked_served self.old + 1) }
        ensures keeps { OnErr result (StackedKeepsCounts self.new self.old) }
        ensures rules { stacked_rules self.new ≡ stacked_rules self.old }
    {
        let block = self.geometry.block(access.addr);
        if self.shadows.is_again(block, access.writes()) {
            self.repeat(access);
            return Ok(());
        }
        self.serve(access, block, number)
    }

    /// What a flush writes back in each cache: the first bytes of its dirty blocks, in rising
    /// order.
    pub fn written(&self) -> Result<Vec<Vec<u64>>, AllocError>
        ensures lists { IfOk result (λ lists. (blocks : List ℕ) (h : History) →
            StackedStandsBy blocks self.now h →
            map items_of lists.items ≡ map (written_by h) (stacked_rules self.now)) }
        ensures len { IfOk result (λ lists. length lists.items ≡ length (stacked_rules self.now)) }
    {
        let lists = dirty_lists(self.alloc, &self.stacks, &self.shapes)?;
        Ok(lists)
    }

    /// Empties all caches and the shadows. Known blocks stay known.
    pub fn flush(&mut self)
        requires few { stacked_served self.old < MAX_EVENTS }
        ensures stands { (blocks : List ℕ) (h : History) → StackedStandsBy blocks self.old h →
            StackedStandsBy blocks self.new (flushed ∷ h) }
        ensures served { stacked_served self.new ≡ stacked_served self.old + 1 }
        ensures rules { stacked_rules self.new ≡ stacked_rules self.old }
    {
        clear_rows(&mut self.stacks);
        self.shadows.clear();
        self.alike.flushes += 1;
        self.served += 1;
    }

    /// How many caches there are.
    pub fn cells(&self) -> usize
        ensures { result ≡ length (stacked_rules self.now) }
    {
        self.shapes.len()
    }

    /// The counts of one cache.
    pub fn counts(&self, index: usize) -> Counts
        requires { index < length (stacked_rules self.now) }
        ensures kept { result ≡ get_or (stacked_counts self.now) index no_counts }
        ensures counted { (blocks : List ℕ) (h : History) → StackedStandsBy blocks self.now h →
            result ≡ counts_of (rules_at_index (stacked_rules self.now) index) h }
    {
        let shape = self.shapes[index];
        shape_counts(shape, &self.stacks[shape.stack], self.alike)
    }

    /// The fully associative misses of one cache.
    pub fn shadow_misses(&self, index: usize) -> PerClass
        requires { index < length (stacked_rules self.now) }
        ensures kept { result ≡ get_or (stacked_shadow_misses self.now) index none_by_class }
        ensures counted { (blocks : List ℕ) (h : History) → StackedStandsBy blocks self.now h →
            result ≡ shadow_misses (rules_at_index (stacked_rules self.now) index) h }
    {
        self.shadows.misses(self.shapes[index].rank)
    }
}
