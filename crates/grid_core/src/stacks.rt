//! The rows of all numbers of sets.

ghost use Rattle.std.specs.Prelude.{◌≡◌, ◌<◌, ◌+◌, ◌/◌, ◌∷◌, List, ℕ, map};
ghost use Rattle.std.specs.Prelude.{nat_lt, if◌then◌else◌};
ghost use Rattle.std.specs.List.{All};
ghost use Rattle.cache_core.specs.History.{History, access as accessed, flush as flushed};
ghost use Rattle.grid_core.specs.Shapes.{HaveBsize};
ghost use Rattle.grid_core.specs.Histograms.{level_at};
ghost use Rattle.grid_core.specs.Standing.{AreBehind, HasMoved, HaveLived, IsCountedIn};
ghost use Rattle.grid_core.specs.Standing.{IsWithinStack, StackStandsFor, StayFirstFrom};
ghost use Rattle.grid_core.specs.Standing.{rules_of_rows, told_in};

use crate::stack::Stack;
use cache_core::{Access, MAX_EVENTS};

/// In the rows of no more sets than these, the block of an access is not among the first `places`.
#[derive(Clone, Copy, Debug)]
pub(crate) struct Behind {
    pub last_set: u64,
    pub places: usize,
}

/// How many places of a row that has this last set need no search.
fn places_in(behind: Behind, last_set: u64) -> usize
    ensures { result ≡ (if nat_lt behind.last_set last_set then 0 else behind.places) }
{
    if behind.last_set < last_set {
        0
    } else {
        behind.places
    }
}

/// The last set of the rows of the fewest sets that an access leaves as they are: so it does in all
/// rows of more sets. The rows of the fewest stand last.
fn least_staying(stacks: &[Stack], access: Access, block: u64) -> u64
    requires { (n : ℕ) × HaveBsize n stacks.now × (block ≡ access.addr / n) }
    ensures { (n : ℕ) (h : History) → HaveBsize n stacks.now →
        All (λ s. StackStandsFor s h) stacks.now → StayFirstFrom n result h access }
{
    let mut left = stacks.len();
    'rising: while left > 0 {
        left -= 1;
        let stack = &stacks[left];
        if stack.stays(access, block) {
            return stack.last_set();
        }
    }
    u64::MAX
}

/// Serves an access to this block, which has this level in the shadows, in the rows of one number
/// of sets. In rows of more sets than `least`, the block stays first: those are passed over.
/// Answers where the block is not in rows of fewer sets.
fn serve_one(
    stack: &mut Stack,
    access: Access,
    block: u64,
    level: usize,
    least: u64,
    behind: Behind,
) -> Behind
    requires block { block ≡ access.addr / (rules_of_rows stack.old).bsize }
    requires level { level < told_in stack.old }
    requires within { (n : ℕ) × IsWithinStack n stack.old × (n < MAX_EVENTS) }
    requires behind { ∥ ((h : History) × StackStandsFor stack.old h
        × AreBehind behind (rules_of_rows stack.old).bsize h access) ∥₁ }
    ensures stands { (h : History) → StackStandsFor stack.old h →
        StayFirstFrom (rules_of_rows stack.old).bsize least h access →
        StackStandsFor stack.new (accessed access ∷ h) }
    ensures moved { (h : History) → StackStandsFor stack.old h →
        StayFirstFrom (rules_of_rows stack.old).bsize least h access → HasMoved h access stack.new }
    ensures behind { (h : History) → StackStandsFor stack.old h →
        AreBehind behind (rules_of_rows stack.old).bsize h access →
        AreBehind result (rules_of_rows stack.old).bsize h access }
    ensures counted { (sizes : List ℕ) (h : History) → StackStandsFor stack.old h →
        StayFirstFrom (rules_of_rows stack.old).bsize least h access →
        level ≡ level_at (rules_of_rows stack.old) sizes h access → IsCountedIn sizes h stack.old →
        IsCountedIn sizes (accessed access ∷ h) stack.new }
    ensures bounds { (n : ℕ) → IsWithinStack n stack.old → IsWithinStack (n + 1) stack.new }
    ensures levels { told_in stack.new ≡ told_in stack.old }
    ensures rules { rules_of_rows stack.new ≡ rules_of_rows stack.old }
{
    let last_set = stack.last_set();
    if least <= last_set {
        stack.pass();
        return behind;
    }
    let from = places_in(behind, last_set);
    stack.serve(access, block, level, from);
    Behind {
        last_set,
        places: stack.position(),
    }
}

/// Serves an access to this block, which has this level in the shadows, in all rows.
pub(crate) fn serve_rows(stacks: &mut Vec<Stack>, access: Access, block: u64, level: usize)
    requires block { (n : ℕ) × HaveBsize n stacks.old.items × (block ≡ access.addr / n) }
    requires levels { All (λ s. level < told_in s) stacks.old.items }
    requires within { (n : ℕ) × All (IsWithinStack n) stacks.old.items × (n < MAX_EVENTS) }
    requires lived { (n : ℕ) × HaveBsize n stacks.old.items × HaveLived stacks.old.items }
    ensures stands { (n : ℕ) (h : History) → HaveBsize n stacks.old.items →
        All (λ s. StackStandsFor s h) stacks.old.items →
        All (λ s. StackStandsFor s (accessed access ∷ h)) stacks.new.items }
    ensures moved { (n : ℕ) (h : History) → HaveBsize n stacks.old.items →
        All (λ s. StackStandsFor s h) stacks.old.items → All (HasMoved h access) stacks.new.items }
    ensures counted { (n : ℕ) (sizes : List ℕ) (h : History) → HaveBsize n stacks.old.items →
        All (λ s. StackStandsFor s h) stacks.old.items →
        All (λ s. level ≡ level_at (rules_of_rows s) sizes h access) stacks.old.items →
        All (IsCountedIn sizes h) stacks.old.items →
        All (IsCountedIn sizes (accessed access ∷ h)) stacks.new.items }
    ensures bounds { (n : ℕ) → All (IsWithinStack n) stacks.old.items →
        All (IsWithinStack (n + 1)) stacks.new.items }
    ensures levels { map told_in stacks.new.items ≡ map told_in stacks.old.items }
    ensures rules { map rules_of_rows stacks.new.items ≡ map rules_of_rows stacks.old.items }
{
    let least = least_staying(stacks, access, block);
    let mut behind = Behind {
        last_set: 0,
        places: 0,
    };
    for stack in stacks.iter_mut() {
        behind = serve_one(stack, access, block, level, least, behind);
    }
}

/// Empties all rows.
pub(crate) fn clear_rows(stacks: &mut Vec<Stack>)
    ensures stands { (h : History) → All (λ s. StackStandsFor s (flushed ∷ h)) stacks.new.items }
    ensures counted { (sizes : List ℕ) (h : History) → All (IsCountedIn sizes h) stacks.old.items →
        All (IsCountedIn sizes (flushed ∷ h)) stacks.new.items }
    ensures bounds { (n : ℕ) → All (IsWithinStack n) stacks.old.items →
        All (IsWithinStack n) stacks.new.items }
    ensures levels { map told_in stacks.new.items ≡ map told_in stacks.old.items }
    ensures rules { map rules_of_rows stacks.new.items ≡ map rules_of_rows stacks.old.items }
{
    for stack in stacks.iter_mut() {
        stack.clear();
    }
}
