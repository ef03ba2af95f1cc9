//! A list of blocks in order of last use for each user of a log.

ghost use Rattle.std.specs.Prelude.{◌≡◌, ◌<◌, ◌≤◌, ◌+◌, ◌*◌, ◌^◌, ℕ, [], length};
ghost use Rattle.std.specs.List.{All};
ghost use Rattle.marked_list.specs.Uses.{dead, living};
ghost use Rattle.shared_list.specs.Log.{seen_by, seen_uses};
ghost use Rattle.shared_list.specs.Stamps.{blocks_in, users_in};
ghost use Rattle.shared_list.specs.Windows.{AreKept};

use crate::latest::use_latest;
use crate::log::Use;
use crate::shorten::{keep_used, kept_before, move_windows, restamp, unstamp};
use crate::stamps::{FORGOTTEN, NEVER, Stamps};
use crate::window::{Window, near_use, restart_each, window_after};
use std::alloc::{AllocError, Global};

/// A log with fewer uses is not shortened.
const FEW: usize = 4096;

/// A list of blocks in order of last use for each user.
#[derive(Drop)]
pub struct SharedList {
    alloc: Global,
    size: usize,
    log: Vec<Use>,
    stamps: Stamps,
    windows: Vec<Window>,
    /// The log is shortened once it has so many uses.
    limit: usize,
    ghost kept: { AreKept size log.items stamps windows.items },
    ghost users: { users_in stamps ≡ length windows.items },
    ghost few: { length windows.items ≤ 32 },
    ghost none: { (q : ℕ) → length windows.items ≤ q → q < 32 →
        living (seen_by q log.items) ≡ [] },
    ghost low: { All (λ u. u.number < dead) log.items },
    ghost room: { All (λ u. u.number < blocks_in stamps) log.items },
    ghost short: { length log.items + 1 < 2 ^ 32 },
    ghost fit: { All (λ u. u.users < 2 ^ 32) log.items },
    ghost long: { length log.items ≤ limit },
    ghost limited: { limit ≤ 4096 + 2 * seen_uses log.items (length windows.items) },
}

#[tactic(auto, unfolding(crate::specs::Shared::order_by, crate::specs::Shared::was_used_by, crate::specs::Shared::users_of, crate::specs::Shared::size_of_list, crate::specs::Shared::kept_in))]
impl SharedList {
    ghost use Rattle.std.specs.Prelude.{◌≡◌, ◌≢◌, ◌<◌, ◌≤◌, ◌==◌, ◌||◌, ℕ, [], OnOk, IfOk};
    ghost use Rattle.std.specs.Prelude.{IsErr, Some, length, get_or, true, false};
    ghost use Rattle.std.specs.List.{All, list_any};
    ghost use Rattle.marked_list.specs.Marks.{covers};
    ghost use Rattle.marked_list.specs.Recency.{brought_front, index_in, is_among};
    ghost use Rattle.marked_list.specs.Uses.{dead, last_in};
    ghost use Rattle.shared_list.specs.Log.{seen_by};
    ghost use Rattle.shared_list.specs.Shared.{IsBegun, IsShort, IsTouched, order_by};
    ghost use Rattle.shared_list.specs.Shared.{size_of_list, users_of, was_used_by, window_of};

    /// An empty list for each of so many users, of which there are at most [`MAX_USERS`]. A use
    /// tells whether the block was among the last ones, as many as the size says.
    ///
    /// [`MAX_USERS`]: crate::MAX_USERS
    pub fn new(alloc: Global, users: usize, size: usize) -> Result<SharedList, AllocError>
        requires users { users ≤ 32 }
        requires size { 0 < size }
        ensures order { IfOk result (λ list. (q : ℕ) → order_by list q ≡ []) }
        ensures used { IfOk result (λ list. (q b : ℕ) → q < users →
            was_used_by list q b ≡ false) }
        ensures users { IfOk result (λ list. users_of list ≡ users) }
        ensures size { IfOk result (λ list. size_of_list list ≡ size) }
        ensures few { IfOk result IsShort }
    {
        let mut windows = Vec::new(alloc);
        windows.resize(users, Window { place: 0, used: 0 })?;
        Ok(SharedList {
            alloc,
            size,
            log: Vec::new(alloc),
            stamps: Stamps::new(alloc, users),
            windows,
            limit: FEW,
        })
    }

    /// Forgets the uses that are not the last ones of a user. Not inlined, since few uses need it.
    #[inline(never)]
    fn shorten(&mut self) -> Result<(), AllocError>
        ensures room { OnOk result (length self.new.log.items < self.new.limit) }
        ensures order { (q : ℕ) → order_by self.new q ≡ order_by self.old q }
        ensures used { (q b : ℕ) → q < users_of self.old →
            was_used_by self.new q b ≡ was_used_by self.old q b }
        ensures users { users_of self.new ≡ users_of self.old }
        ensures size { size_of_list self.new ≡ size_of_list self.old }
    {
        let before = kept_before(self.alloc, &self.log)?;
        keep_used(&mut self.log);
        move_windows(&mut self.windows, &before);
        restamp(&self.log, &mut self.stamps);
        self.limit = FEW + 2 * self.log.len();
        Ok(())
    }

    /// Adds a use of a block by no user yet.
    #[inline(always)]
    fn add(&mut self, number: usize) -> Result<(), AllocError>
        requires low { number < dead }
        requires room { length self.old.log.items < self.old.limit }
        ensures begun { OnOk result (IsBegun self.new number) }
        ensures order { (q : ℕ) → order_by self.new q ≡ order_by self.old q }
        ensures used { (q b : ℕ) → q < users_of self.old →
            was_used_by self.new q b ≡ was_used_by self.old q b }
        ensures users { users_of self.new ≡ users_of self.old }
        ensures size { size_of_list self.new ≡ size_of_list self.old }
    {
        if self.log.len() >= FORGOTTEN as usize {
            return Err(AllocError);
        }
        self.stamps.grow(number)?;
        let number = number as u32;
        self.log.push(Use { number, users: 0 })?;
        Ok(())
    }

    /// Begins a use of a block, which `touch` then makes one of each user that uses the block.
    /// Until then it is nobody's. After an error no list is changed. A number of `u32::MAX` or more
    /// answers an error, as if memory were wanting, and so does a use for which the log has no
    /// place left.
    #[inline(always)]
    pub fn begin(&mut self, number: usize) -> Result<(), AllocError>
        ensures begun { OnOk result (IsBegun self.new number) }
        ensures order { (q : ℕ) → order_by self.new q ≡ order_by self.old q }
        ensures used { (q b : ℕ) → q < users_of self.old →
            was_used_by self.new q b ≡ was_used_by self.old q b }
        ensures users { users_of self.new ≡ users_of self.old }
        ensures size { size_of_list self.new ≡ size_of_list self.old }
        ensures few { IsShort self.new }
        ensures high { u32.MAX ≤ number → IsErr result }
    {
        if number >= u32::MAX as usize {
            return Err(AllocError);
        }
        if self.log.len() >= self.limit {
            self.shorten()?;
        }
        self.add(number)
    }

    /// How many users there are.
    pub fn users(&self) -> usize
        ensures { result ≡ users_of self.now }
    {
        self.windows.len()
    }

    /// Whether a user ever used a block.
    pub fn knows(&self, user: usize, number: usize) -> bool
        requires { user < users_of self.now }
        ensures { result ≡ was_used_by self.now user number }
    {
        self.stamps.at(number, user) != NEVER
    }

    /// Of some blocks, all of which a user used since the last `clear`, the index of the one whose
    /// last use by it is the longest ago.
    pub fn oldest(&self, user: usize, numbers: &[u32]) -> usize
        requires user { user < users_of self.now }
        requires some { 0 < length numbers.now }
        ensures inside { result < length numbers.now }
        ensures oldest { let order = order_by self.now user in
            All (λ n. list_any (λ m. m == n) order ≡ true) numbers.now →
            (k : ℕ) → k < length numbers.now →
            index_in (get_or numbers.now k 0) order
            ≤ index_in (get_or numbers.now result 0) order }
    {
        self.stamps.least(user, numbers)
    }

    /// Empties all lists. Blocks that a user ever used stay known to it.
    pub fn clear(&mut self)
        ensures order { (q : ℕ) → order_by self.new q ≡ [] }
        ensures used { (q b : ℕ) → q < users_of self.old →
            was_used_by self.new q b ≡ was_used_by self.old q b }
        ensures users { users_of self.new ≡ users_of self.old }
        ensures size { size_of_list self.new ≡ size_of_list self.old }
        ensures few { IsShort self.new }
    {
        unstamp(&self.log, &mut self.stamps);
        self.log.clear();
        restart_each(&mut self.windows);
        self.limit = FEW;
    }

    /// The place of the last use of a block by a user, if it has one.
    #[inline(always)]
    fn last_use(&self, user: usize, number: usize) -> Option<usize>
        requires user { user < users_of self.now }
        requires begun { IsBegun self.now number }
        ensures { result ≡ last_in (seen_by user self.now.log.items) number }
    {
        let stamp = self.stamps.of(number, user);
        if stamp < FORGOTTEN {
            return Some(stamp as usize);
        }
        None
    }

    /// The user uses the block of the use that was begun, which it used last at this place of its
    /// window.
    #[inline(always)]
    fn touch_near(&mut self, user: usize, number: usize, place: usize)
        requires user { user < users_of self.old }
        requires begun { IsBegun self.old number }
        requires last { last_in (seen_by user self.old.log.items) number ≡ Some place }
        requires near { covers (window_of self.old user).place (Some place) ≡ true }
        ensures { IsTouched user number self.old self.new }
    {
        if place != self.log.len() - 1 {
            use_latest(&mut self.log, &mut self.stamps, user, number, Some(place));
        }
    }

    /// The user uses the block of the use that was begun, which its window does not have. `last` is
    /// the place where it used the block last, if it did.
    #[inline(always)]
    fn touch_far(&mut self, user: usize, number: usize, last: Option<usize>)
        requires user { user < users_of self.old }
        requires begun { IsBegun self.old number }
        requires last { last ≡ last_in (seen_by user self.old.log.items) number }
        requires far { covers (window_of self.old user).place last ≡ false }
        ensures { IsTouched user number self.old self.new }
    {
        use_latest(&mut self.log, &mut self.stamps, user, number, last);
        let window = self.windows[user];
        self.windows[user] = window_after(window, self.size, &self.log, user, last);
    }

    /// The user uses the block of the use that was begun. Answers whether the block was among those
    /// that it used last, as many as the size says.
    #[inline(always)]
    pub fn touch(&mut self, user: usize, number: usize) -> bool
        requires user { user < users_of self.old }
        requires begun { IsBegun self.old number }
        ensures near { result ≡ is_among number (order_by self.old user) (size_of_list self.old) }
        ensures order { order_by self.new user ≡ brought_front number (order_by self.old user) }
        ensures others { (q : ℕ) → q < users_of self.old → q ≢ user →
            order_by self.new q ≡ order_by self.old q }
        ensures used { (b : ℕ) →
            was_used_by self.new user b ≡ (number == b || was_used_by self.old user b) }
        ensures unused { (q b : ℕ) → q < users_of self.old → q ≢ user →
            was_used_by self.new q b ≡ was_used_by self.old q b }
        ensures begun { IsBegun self.new number }
        ensures users { users_of self.new ≡ users_of self.old }
        ensures size { size_of_list self.new ≡ size_of_list self.old }
        ensures few { IsShort self.new }
    {
        let last = self.last_use(user, number);
        match near_use(self.windows[user], last) {
            Some(place) => {
                self.touch_near(user, number, place);
                true
            }
            None => {
                self.touch_far(user, number, last);
                false
            }
        }
    }
}
