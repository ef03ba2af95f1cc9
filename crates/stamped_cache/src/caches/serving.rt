//! How caches serve an access.

use super::StampedCaches;
use crate::contents::put;
use crate::state::State;
use cache_core::{Access, MAX_EVENTS, Prior};
use shared_list::Users;

#[tactic(auto, unfolding(crate::specs::Stamped::stamped_rules, crate::specs::Stamped::stamped_users, crate::specs::Stamped::stamped_served, crate::specs::Stamped::stamped_has_failed))]
impl StampedCaches {
    ghost use Rattle.std.specs.Prelude.{◌≡◌, ◌<◌, ◌+◌, ◌*◌, List, ℕ, true, false};
    ghost use Rattle.cache_core.specs.Geometry.{sets_of};
    ghost use Rattle.cache_core.specs.History.{History};
    ghost use Rattle.shared_list.specs.Users.{is_user};
    ghost use Rattle.stamped_cache.specs.Putting.{IsLeaving, LeavesRoom};
    ghost use Rattle.stamped_cache.specs.Rows.{row_held, rows_in, set_ways};
    ghost use Rattle.stamped_cache.specs.Serving.{IsReady, ServesOne, ServesThose};
    ghost use Rattle.stamped_cache.specs.Stamped.{StampedStandsBy, stamped_rules};
    ghost use Rattle.stamped_cache.specs.Stamped.{stamped_served, stamped_users};
    ghost use Rattle.stamped_cache.specs.States.{is_held, states_of};

    /// Serves an access whose block, of this number, a user's cache holds in the state that has
    /// this place.
    #[inline(always)]
    fn hit(&mut self, access: Access, number: usize, user: usize, place: usize, state: State)
        requires ready { IsReady self.old number }
        requires user { user < stamped_users self.old }
        requires few { stamped_served self.old user < MAX_EVENTS }
        requires place { place ≡ number * stamped_users self.old + user }
        requires state { state ≡ states_of self.old.states user number }
        requires held { is_held state ≡ true }
        ensures { ServesOne access number user self.old self.new }
    {
        let near = self.list.touch(user, number);
        self.states.note_write(place, access.writes());
        let written = state.was_written();
        self.tallies.hit(user, access, near, written, self.wback);
    }

    /// The index of the block that leaves if one more is loaded into a row of a user's cache: of
    /// those in the row, if they are as many as it can have, the one whose last use is the longest
    /// ago.
    fn leaving(&self, user: usize, row: usize) -> Option<usize>
        requires user { user < stamped_users self.now }
        requires row { row < rows_in self.now.rows }
        ensures place { LeavesRoom (set_ways self.now.rows) (row_held self.now.rows row) result }
        ensures last { (blocks : List ℕ) (h : History) (set : ℕ) →
            set < sets_of self.now.geometry → row ≡ set * stamped_users self.now + user →
            StampedStandsBy blocks self.now user h →
            IsLeaving blocks (stamped_rules self.now) h set (row_held self.now.rows row) result }
    {
        let held = self.rows.held(row);
        if held.len() < self.rows.ways() {
            return None;
        }
        Some(self.list.oldest(user, held))
    }

    /// Serves an access whose block, of this number, a user's cache does not hold. Not inlined, so
    /// that hits are served by less code.
    #[inline(never)]
    fn load(&mut self, access: Access, number: usize, user: usize)
        requires ready { IsReady self.old number }
        requires user { user < stamped_users self.old }
        requires few { stamped_served self.old user < MAX_EVENTS }
        requires absent { is_held (states_of self.old.states user number) ≡ false }
        ensures { ServesOne access number user self.old self.new }
    {
        let set = self.geometry.set(self.geometry.block(access.addr)) as usize;
        let row = set * self.users + user;
        let leaving = self.leaving(user, row);
        let known = self.list.knows(user, number);
        let near = self.list.touch(user, number);
        let back = put(
            &mut self.states,
            &mut self.rows,
            user,
            row,
            leaving,
            number as u32,
            access.writes(),
        );
        let prior = Prior {
            referenced: known,
            in_shadow: near,
        };
        self.tallies.load(user, access, prior, back, self.wback);
    }

    /// Serves an access, whose block has this number, in the cache of a user. The states of the
    /// block begin at `first`.
    #[inline(always)]
    fn serve_one(&mut self, access: Access, number: usize, user: usize, first: usize)
        requires ready { IsReady self.old number }
        requires user { user < stamped_users self.old }
        requires few { stamped_served self.old user < MAX_EVENTS }
        requires first { first ≡ number * stamped_users self.old }
        ensures { ServesOne access number user self.old self.new }
    {
        let place = first + user;
        let state = self.states.at(place);
        if state.is_held() {
            self.hit(access, number, user, place, state);
        } else {
            self.load(access, number, user);
        }
    }

    /// Serves an access, whose block has this number, in the caches of these users.
    #[inline(always)]
    pub(super) fn serve(&mut self, access: Access, number: usize, users: Users)
        requires ready { IsReady self.old number }
        requires few { (q : ℕ) → q < stamped_users self.old → is_user users q ≡ true →
            stamped_served self.old q < MAX_EVENTS }
        ensures { ServesThose access number (is_user users) self.old self.new }
    {
        let first = self.states.first(number);
        let mut rest = users.common(self.all);
        while let Some(user) = rest.first() {
            rest = rest.without(user);
            self.serve_one(access, number, user, first);
        }
    }
}
