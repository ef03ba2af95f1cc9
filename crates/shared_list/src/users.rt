//! Sets of users, with a bit for each.

ghost use Rattle.std.specs.Prelude.{◌≡◌, ◌<◌, ◌==◌, ◌&&◌, ◌||◌, not, ℕ, true};
ghost use Rattle.shared_list.specs.Users.{has_user};

/// At most so many users share a log.
pub const MAX_USERS: usize = 32;

/// Whether a user is in a set.
#[inline(always)]
pub(crate) fn has(users: u32, user: usize) -> bool
    requires { user < 32 }
    ensures { result ≡ has_user users user }
{
    users >> user & 1 == 1
}

/// A set with one more user.
#[inline(always)]
pub(crate) fn with(users: u32, user: usize) -> u32
    requires { user < 32 }
    ensures { (q : ℕ) → q < 32 → has_user result q ≡ (q == user || has_user users q) }
{
    users | 1 << user
}

/// A set without a user.
#[inline(always)]
pub(crate) fn without(users: u32, user: usize) -> u32
    requires { user < 32 }
    ensures is { (q : ℕ) → q < 32 → has_user result q ≡ (not (q == user) && has_user users q) }
    ensures less { has_user users user ≡ true → result < users }
{
    users & !(1 << user)
}

/// The first user of a set that is not empty.
#[inline(always)]
pub(crate) fn first(users: u32) -> usize
    requires { 0 < users }
    ensures inside { result < 32 }
    ensures has { has_user users result ≡ true }
{
    users.trailing_zeros() as usize
}

/// Some of the users of a log.
#[derive(Clone, Copy, Debug)]
pub struct Users {
    bits: u32,
}

impl Users {
    ghost use Rattle.std.specs.Prelude.{◌≡◌, ◌<◌, ◌==◌, ◌&&◌, ◌||◌, not, ℕ, true, false};
    ghost use Rattle.std.specs.Prelude.{◌≤◌, None, Some, nat_lt};
    ghost use Rattle.shared_list.specs.Users.{bits_of, is_user};

    /// No user.
    #[inline(always)]
    pub fn none() -> Users
        ensures { (q : ℕ) → is_user result q ≡ false }
    {
        Users { bits: 0 }
    }

    /// One user alone.
    #[inline(always)]
    pub fn one(user: usize) -> Users
        requires { user < 32 }
        ensures { (q : ℕ) → q < 32 → is_user result q ≡ (q == user) }
    {
        Users::none().with(user)
    }

    /// So many users, from the first one on, of which there are at most [`MAX_USERS`].
    pub fn below(count: usize) -> Users
        requires { count ≤ 32 }
        ensures { (q : ℕ) → q < 32 → is_user result q ≡ nat_lt q count }
    {
        let mut users = Users::none();
        for user in 0..count {
            users = users.with(user);
        }
        users
    }

    /// Whether a user is among them.
    #[inline(always)]
    pub fn has(self, user: usize) -> bool
        requires { user < 32 }
        ensures { result ≡ is_user self user }
    {
        has(self.bits, user)
    }

    /// These and one more user.
    #[inline(always)]
    pub fn with(self, user: usize) -> Users
        requires { user < 32 }
        ensures { (q : ℕ) → q < 32 → is_user result q ≡ (q == user || is_user self q) }
    {
        Users {
            bits: with(self.bits, user),
        }
    }

    /// These without a user.
    #[inline(always)]
    pub fn without(self, user: usize) -> Users
        requires { user < 32 }
        ensures is { (q : ℕ) → q < 32 →
            is_user result q ≡ (not (q == user) && is_user self q) }
        ensures less { is_user self user ≡ true → bits_of result < bits_of self }
    {
        Users {
            bits: without(self.bits, user),
        }
    }

    /// These and others.
    #[inline(always)]
    pub fn union(self, others: Users) -> Users
        ensures { (q : ℕ) → is_user result q ≡ (is_user self q || is_user others q) }
    {
        Users {
            bits: self.bits | others.bits,
        }
    }

    /// Those of them that are among others.
    #[inline(always)]
    pub fn common(self, others: Users) -> Users
        ensures { (q : ℕ) → is_user result q ≡ (is_user self q && is_user others q) }
    {
        Users {
            bits: self.bits & others.bits,
        }
    }

    /// The first of them, if there is one.
    #[inline(always)]
    pub fn first(self) -> Option<usize>
        ensures none { result ≡ None → (q : ℕ) → is_user self q ≡ false }
        ensures some { (u : ℕ) → result ≡ Some u → (u < 32) × (is_user self u ≡ true) }
    {
        if self.bits == 0 {
            return None;
        }
        Some(first(self.bits))
    }

    /// Whether there is none.
    #[inline(always)]
    pub fn is_empty(self) -> bool
        ensures none { result ≡ true → (q : ℕ) → is_user self q ≡ false }
        ensures some { result ≡ false → (q : ℕ) × (q < 32) × (is_user self q ≡ true) }
    {
        match self.first() {
            None => true,
            Some(_) => false,
        }
    }
}
