//! Counts by class, a list of them, and their sum.

ghost use Rattle.std.specs.Prelude.{◌≡◌, ◌<◌, ◌≤◌, length, get_or, set, true, replicate};
ghost use Rattle.std.specs.Prelude.{IfOk, drop};
ghost use Rattle.cache_core.specs.Counts.{none_by_class};
ghost use Rattle.cache_core.specs.Counting.{with_one, IsWithin};
ghost use Rattle.grid_core.specs.Totals.{added, lessened, total};

use cache_core::{Access, MAX_EVENTS, PerClass};
use std::alloc::{AllocError, Global};

/// Two counts, added class by class.
pub(crate) fn plus(first: PerClass, second: PerClass) -> PerClass
    requires { IsWithin (added first second) MAX_EVENTS }
    ensures { result ≡ added first second }
{
    PerClass {
        instr: first.instr + second.instr,
        read: first.read + second.read,
        write: first.write + second.write,
        misc: first.misc + second.misc,
    }
}

/// The first count without the second, class by class.
pub(crate) fn less(first: PerClass, second: PerClass) -> PerClass
    ensures { result ≡ lessened first second }
{
    PerClass {
        instr: first.instr.saturating_sub(second.instr),
        read: first.read.saturating_sub(second.read),
        write: first.write.saturating_sub(second.write),
        misc: first.misc.saturating_sub(second.misc),
    }
}

/// So many counts, all zero.
pub(crate) fn zeros(alloc: Global, count: usize) -> Result<Vec<PerClass>, AllocError>
    ensures { IfOk result (λ v. v.items ≡ replicate count none_by_class) }
{
    vec![in alloc; PerClass::default(); count]
}

/// All counts, added.
pub(crate) fn sum_of(counts: &[PerClass]) -> PerClass
    requires { IsWithin (total counts.now) MAX_EVENTS }
    ensures { result ≡ total counts.now }
{
    let mut sum = PerClass::default();
    for one in counts {
        sum = plus(sum, *one);
    }
    sum
}

/// The counts from an index on, added.
pub(crate) fn sum_from(counts: &[PerClass], index: usize) -> PerClass
    requires inside { index ≤ length counts.now }
    requires within { IsWithin (total (drop index counts.now)) MAX_EVENTS }
    ensures { result ≡ total (drop index counts.now) }
{
    sum_of(&counts[index..])
}

/// Adds one in the count at an index, in the class of the access.
pub(crate) fn count_at(counts: &mut Vec<PerClass>, index: usize, access: Access)
    requires inside { index < length counts.old.items }
    requires within { IsWithin (total counts.old.items) MAX_EVENTS }
    ensures { counts.new.items ≡ set counts.old.items index (with_one access true
        (get_or counts.old.items index none_by_class)) }
{
    counts[index].count(access, true);
}
