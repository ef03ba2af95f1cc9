//! What all caches of one block size share: the blocks that were ever accessed, the shadows of all
//! sizes, and the block that was used last.

ghost use Rattle.std.specs.Prelude.{◌≡◌, ◌+◌, length, true};
ghost use Rattle.marked_list.specs.Marked.{marked_sizes};

use crate::recent::{Recent, is_again, nothing_recent, used_now};
use crate::sums::{count_at, sum_from, zeros};
use cache_core::{Access, MAX_EVENTS, PerClass, Prior};
use marked_list::Marked;
use std::alloc::{AllocError, Global};

/// What is known of a block before an access: whether it was ever accessed, and its level, the
/// index of the smallest size whose shadow has it, or the number of sizes.
#[derive(Clone, Copy, Debug, Default, PartialEq, Eq)]
pub(crate) struct PriorLevel {
    pub known: bool,
    pub level: usize,
}

impl PriorLevel {
    ghost use Rattle.std.specs.Prelude.{◌≡◌, nat_lt, not};

    /// What is known of the block for the shadow whose size has this rank.
    pub fn at(self, rank: usize) -> Prior
        ensures { result ≡ record {
          referenced = self.known;
          in_shadow = not (nat_lt rank self.level);
        } }
    {
        Prior {
            referenced: self.known,
            in_shadow: rank >= self.level,
        }
    }
}

/// What is known of the block that was used last: all shadows have it.
pub(crate) fn prior_of_last() -> PriorLevel
    ensures { result ≡ record { known = true; level = 0 } }
{
    PriorLevel {
        known: true,
        level: 0,
    }
}

/// One list of the numbers of the blocks used since the last flush, by last use, with a mark at
/// each size. The list also knows which were ever used.
#[derive(Drop)]
pub(crate) struct Shadows {
    order: Marked,
    /// The accesses by class, for each level that their blocks had before.
    levels: Vec<PerClass>,
    recent: Recent,
    ghost leveled: { length levels.items ≡ length (marked_sizes order) + 1 },
}

impl Shadows {
    ghost use Rattle.std.specs.Prelude.{◌≡◌, ◌<◌, ◌≤◌, ◌==◌, ◌||◌, ℕ, List, [], IfOk, OnOk, OnErr};
    ghost use Rattle.std.specs.Prelude.{Some, false, length, nat_lt};
    ghost use Rattle.std.specs.List.{All};
    ghost use Rattle.marked_list.specs.Recency.{level_of, brought_front};
    ghost use Rattle.grid_core.specs.Recent.{IsAgain, after_use, none_recent};
    ghost use Rattle.grid_core.specs.Numbers.{number_at};
    ghost use Rattle.grid_core.specs.Shadows.{AreNumbered, HoldsOrder, is_known};
    ghost use Rattle.grid_core.specs.Shadows.{far_in, levels_in, recent_in, shadow_sizes};
    ghost use Rattle.grid_core.specs.Totals.{total};
    ghost use Rattle.cache_core.specs.Counts.{none_by_class};
    ghost use Rattle.cache_core.specs.Counting.{IsWithin, with_one};
    ghost use Rattle.cache_core.specs.History.{is_write};

    /// Empty shadows of these sizes in blocks. No block is known.
    pub fn new(alloc: Global, sizes: &[usize]) -> Result<Shadows, AllocError>
        requires { All (λ size. 0 < size) sizes.now }
        ensures order { IfOk result (λ shadows. (blocks : List ℕ) → HoldsOrder blocks shadows []) }
        ensures numbers { IfOk result (λ shadows. (blocks : List ℕ) → AreNumbered blocks shadows) }
        ensures known { IfOk result (λ shadows. (blocks : List ℕ) (q : ℕ) →
            is_known blocks shadows q ≡ false) }
        ensures sizes { IfOk result (λ shadows. shadow_sizes shadows ≡ sizes.now) }
        ensures recent { IfOk result (λ shadows. recent_in shadows ≡ none_recent) }
        ensures levels { IfOk result (λ shadows. total (levels_in shadows) ≡ none_by_class) }
        ensures far { IfOk result (λ shadows. (k : ℕ) → far_in shadows k ≡ none_by_class) }
    {
        let order = Marked::new(alloc, sizes)?;
        let levels = zeros(alloc, sizes.len() + 1)?;
        Ok(Shadows {
            order,
            levels,
            recent: nothing_recent(),
        })
    }

    /// Serves an access to a block, which has this number, in all shadows, and answers what was
    /// known of the block before.
    pub fn touch(
        &mut self,
        block: u64,
        number: usize,
        access: Access,
    ) -> Result<PriorLevel, AllocError>
        requires { IsWithin (total (levels_in self.old)) MAX_EVENTS }
        ensures known { IfOk result (λ prior. (blocks : List ℕ) →
            number_at blocks block ≡ Some number → prior.known ≡ is_known blocks self.old block) }
        ensures level { IfOk result (λ prior. (blocks : List ℕ) (ys : List ℕ) →
            number_at blocks block ≡ Some number → HoldsOrder blocks self.old ys →
            prior.level ≡ level_of (shadow_sizes self.old) ys block) }
        ensures low { IfOk result (λ prior. prior.level ≤ length (shadow_sizes self.old)) }
        ensures order { OnOk result ((blocks : List ℕ) (ys : List ℕ) →
            number_at blocks block ≡ Some number → HoldsOrder blocks self.old ys →
            HoldsOrder blocks self.new (brought_front block ys)) }
        ensures adds { OnOk result ((blocks : List ℕ) → number_at blocks block ≡ Some number →
            (q : ℕ) → is_known blocks self.new q ≡ (block == q || is_known blocks self.old q)) }
        ensures numbers { OnOk result ((blocks : List ℕ) → number_at blocks block ≡ Some number →
            AreNumbered blocks self.old → AreNumbered blocks self.new) }
        ensures recent { OnOk result (
            recent_in self.new ≡ after_use block (is_write access) (recent_in self.old)) }
        ensures levels { OnOk result (
            total (levels_in self.new) ≡ with_one access true (total (levels_in self.old))) }
        ensures far { IfOk result (λ prior. (k : ℕ) →
            far_in self.new k ≡ with_one access (nat_lt k prior.level) (far_in self.old k)) }
        ensures keeps { OnErr result (levels_in self.new ≡ levels_in self.old) }
        ensures sizes { shadow_sizes self.new ≡ shadow_sizes self.old }
    {
        let known = self.order.knows(number);
        let level = self.order.touch(number)?;
        count_at(&mut self.levels, level, access);
        self.recent = used_now(self.recent, block, access.writes());
        Ok(PriorLevel { known, level })
    }

    /// How often the shadow of the size of this rank missed, by class.
    pub fn misses(&self, rank: usize) -> PerClass
        requires inside { rank < length (shadow_sizes self.now) }
        requires within { IsWithin (total (levels_in self.now)) MAX_EVENTS }
        ensures { result ≡ far_in self.now rank }
    {
        sum_from(&self.levels, rank + 1)
    }

    /// Whether a use of a block is one more of the block that was used last, and makes it dirty
    /// nowhere.
    pub fn is_again(&self, block: u64, write: bool) -> bool
        ensures again { result ≡ true → IsAgain block write (recent_in self.now) }
        ensures every { IsAgain block write (recent_in self.now) → result ≡ true }
    {
        is_again(self.recent, block, write)
    }

    /// Empties all shadows. Known blocks stay known.
    pub fn clear(&mut self)
        ensures order { (blocks : List ℕ) → HoldsOrder blocks self.new [] }
        ensures known { (blocks : List ℕ) (q : ℕ) →
            is_known blocks self.new q ≡ is_known blocks self.old q }
        ensures numbers { (blocks : List ℕ) → AreNumbered blocks self.old →
            AreNumbered blocks self.new }
        ensures recent { recent_in self.new ≡ none_recent }
        ensures levels { levels_in self.new ≡ levels_in self.old }
        ensures sizes { shadow_sizes self.new ≡ shadow_sizes self.old }
    {
        self.order.clear();
        self.recent = nothing_recent();
    }
}
