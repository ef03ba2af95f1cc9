//! What the last access did in the caches that are served together.

use crate::cells::all_have_hit;
use crate::outcome::{answer_in, hit_outcome, sends_on};
use crate::stacked::Stacked;
use cache_core::Outcome;

#[tactic(auto, unfolding(crate::specs::StackedCells::stacked_rules))]
impl Stacked {
    ghost use Rattle.std.specs.Prelude.{◌≡◌, ◌==◌, ◌<◌, ℕ, true, length};
    ghost use Rattle.std.specs.List.{list_any};
    ghost use Rattle.cache_core.specs.declared.access.Access.{Access};
    ghost use Rattle.cache_core.specs.History.{History, block_of};
    ghost use Rattle.cache_core.specs.Kinds.{referenced_blocks, shadow_of};
    ghost use Rattle.cache_core.specs.Parts.{SendsNothing, outcome_of};
    ghost use Rattle.cache_core.specs.Residents.{hits, renewals};
    ghost use Rattle.grid_core.specs.StackedCells.{StackedHasAnswered, is_silent, stacked_rules};
    ghost use Rattle.grid_core.specs.Written.{rules_at_index};

    /// Whether the block of the last access was accessed before.
    pub fn knew(&self) -> bool
        requires { 0 < length (stacked_rules self.now) }
        ensures { (h : History) (x : Access) → StackedHasAnswered self.now h x →
            result ≡ list_any (λ b. b == block_of (rules_at_index (stacked_rules self.now) 0) x)
            (referenced_blocks (rules_at_index (stacked_rules self.now) 0) h) }
    {
        self.prior.known
    }

    /// Whether the shadow of one cache had it.
    pub fn shadow_had(&self, index: usize) -> bool
        requires { index < length (stacked_rules self.now) }
        ensures { (h : History) (x : Access) → StackedHasAnswered self.now h x →
            result ≡ hits (shadow_of (rules_at_index (stacked_rules self.now) index))
            (renewals (shadow_of (rules_at_index (stacked_rules self.now) index)) h) x }
    {
        !(self.shapes[index].rank < self.prior.level)
    }

    /// Whether the last access sent nothing to the next level in any cache.
    pub fn sent_nothing(&self) -> bool
        ensures is { result ≡ is_silent self.now }
        ensures told { result ≡ true → (h : History) (x : Access) →
            StackedHasAnswered self.now h x →
            (index : ℕ) → index < length (stacked_rules self.now) →
            SendsNothing (outcome_of (rules_at_index (stacked_rules self.now) index) h x) }
    {
        if sends_on(self.write, self.wback) {
            return false;
        }
        self.again || all_have_hit(&self.shapes, &self.stacks)
    }

    /// What the last access did in one cache.
    pub fn answer(&self, index: usize) -> Outcome
        requires { index < length (stacked_rules self.now) }
        ensures { (h : History) (x : Access) → StackedHasAnswered self.now h x →
            result ≡ outcome_of (rules_at_index (stacked_rules self.now) index) h x }
    {
        let shape = self.shapes[index];
        if self.again {
            return hit_outcome(sends_on(self.write, shape.wback));
        }
        answer_in(shape, &self.stacks, self.write, self.prior)
    }
}
