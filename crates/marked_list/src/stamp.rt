//! The stamps of blocks, and which of some blocks has the least one.

ghost use Rattle.std.specs.Prelude.{◌≡◌, ◌<◌, ◌≤◌, ℕ, length, get_or};
ghost use Rattle.marked_list.specs.Uses.{stamp_at};

/// The stamp of a block that was never used.
pub(crate) const NEVER: u32 = u32::MAX;

/// The stamp of a block whose uses were forgotten. A place is less.
pub(crate) const FORGOTTEN: u32 = u32::MAX - 1;

/// The stamp of a block.
fn stamp_of(stamps: &[u32], number: u32) -> u32
    ensures { result ≡ stamp_at stamps.now number }
{
    let number = number as usize;
    if number < stamps.len() {
        stamps[number]
    } else {
        NEVER
    }
}

/// Of some blocks, the index of the first that has the least stamp.
pub(crate) fn least_stamped(stamps: &[u32], numbers: &[u32]) -> usize
    requires { 0 < length numbers.now }
    ensures inside { result < length numbers.now }
    ensures least { (k : ℕ) → k < length numbers.now →
        stamp_at stamps.now (get_or numbers.now result 0)
        ≤ stamp_at stamps.now (get_or numbers.now k 0) }
{
    let mut found = 0;
    let mut least = stamp_of(stamps, numbers[0]);
    for index in 1..numbers.len() {
        let stamp = stamp_of(stamps, numbers[index]);
        if stamp < least {
            least = stamp;
            found = index;
        }
    }
    found
}
