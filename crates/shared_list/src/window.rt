//! The blocks that a user of a log used last.

ghost use Rattle.std.specs.Prelude.{◌≡◌, ◌<◌, ℕ, List, Option, None, Some, true, false};
ghost use Rattle.std.specs.Prelude.{length, get_or};
ghost use Rattle.std.specs.List.{All};
ghost use Rattle.marked_list.specs.Marks.{IsMark, IsUseAfter, counted_with, covers};
ghost use Rattle.marked_list.specs.Uses.{dead, used_next};
ghost use Rattle.shared_list.specs.Log.{seen_by};
ghost use Rattle.shared_list.specs.Windows.{mark_of, no_window};

use crate::log::{Use, behind_next};

/// The blocks that a user used last, as many as the size says, are those that it used at `place` or
/// later. `used` says how many different blocks it used.
#[derive(Clone, Copy, Debug)]
pub(crate) struct Window {
    pub place: usize,
    pub used: usize,
}

/// The place of the last use of a block, if a window has it.
#[inline(always)]
pub(crate) fn near_use(window: Window, last: Option<usize>) -> Option<usize>
    ensures near { (p : ℕ) → result ≡ Some p →
        (last ≡ Some p) × (covers window.place last ≡ true) }
    ensures far { result ≡ None → covers window.place last ≡ false }
{
    let place = last?;
    if place < window.place {
        return None;
    }
    Some(place)
}

/// Where the window of a user begins after a use of a block that it does not have.
#[inline(always)]
fn place_after(window: Window, size: usize, log: &[Use], user: usize) -> usize
    requires inside { window.place < length log.now }
    requires user { user < 32 }
    requires low { All (λ u. u.number < dead) log.now }
    ensures { (ms : List ℕ) (b : ℕ) (last : Option ℕ) → seen_by user log.now ≡ used_next b ms →
        IsUseAfter ms b last window.used → covers window.place last ≡ false →
        IsMark ms (mark_of size window) →
        IsMark (used_next b ms) (record { size = size; place = result }) }
{
    if window.used < size {
        return window.place;
    }
    behind_next(log, user, window.place)
}

/// The window of a user after a use of a block that it does not have, by the last use of the block
/// before it.
#[inline(always)]
pub(crate) fn window_after(
    window: Window,
    size: usize,
    log: &[Use],
    user: usize,
    last: Option<usize>,
) -> Window
    requires inside { window.place < length log.now }
    requires user { user < 32 }
    requires low { All (λ u. u.number < dead) log.now }
    requires used { window.used < usize.MAX }
    requires far { covers window.place last ≡ false }
    ensures mark { (ms : List ℕ) (b : ℕ) → seen_by user log.now ≡ used_next b ms →
        IsUseAfter ms b last window.used → IsMark ms (mark_of size window) →
        IsMark (used_next b ms) (mark_of size result) }
    ensures used { result.used ≡ counted_with last window.used }
{
    let place = place_after(window, size, log, user);
    let used = match last {
        None => window.used + 1,
        Some(_) => window.used,
    };
    Window { place, used }
}

/// Takes all windows back to the start.
pub(crate) fn restart_each(windows: &mut Vec<Window>)
    ensures each { (k : ℕ) → k < length windows.old.items →
        get_or windows.new.items k no_window ≡ no_window }
    ensures len { length windows.new.items ≡ length windows.old.items }
{
    for window in windows.iter_mut() {
        window.place = 0;
        window.used = 0;
    }
}
