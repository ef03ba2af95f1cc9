//! Many LRU caches that share one log.

ghost use Rattle.std.specs.Prelude.{◌≡◌, ◌<◌, ◌≤◌, ◌*◌, ℕ, nat_lt};
ghost use Rattle.cache_core.specs.Geometry.{assoc_of, blocks_of, sets_of};
ghost use Rattle.shared_list.specs.Shared.{size_of_list, users_of};
ghost use Rattle.shared_list.specs.Users.{is_user};
ghost use Rattle.stamped_cache.specs.Tallies.{tallies_in};
ghost use Rattle.stamped_cache.specs.Rows.{rows_in, set_ways};
ghost use Rattle.stamped_cache.specs.States.{state_users};

mod serving;

use crate::rows::Rows;
use crate::states::States;
use crate::tallies::Tallies;
use cache_core::{Access, Counts, Geometry, MAX_EVENTS, NoMemory, PerClass};
use shared_list::{SharedList, Users};
use std::alloc::{AllocError, Global};

/// LRU caches of one geometry that allocate at writes, of which each has a history of its own. A
/// cache goes by its user, a number below how many there are. The caches are told the numbers of
/// the blocks that they serve. An access that is refused memory answers `NoMemory`, and so does one
/// if there are more blocks than can be numbered, some 2^31 or more. Every later access or flush
/// does then, too.
#[derive(Drop)]
pub struct StampedCaches {
    geometry: Geometry,
    wback: bool,
    /// How many caches there are.
    users: usize,
    /// The users that have a cache.
    all: Users,
    /// For each cache, the blocks in order of last use.
    list: SharedList,
    /// What each cache knows of each block.
    states: States,
    /// The blocks that each set of each cache holds. The rows of a set stand together.
    rows: Rows,
    tallies: Tallies,
    failed: bool,
    ghost few: { users ≤ 32 },
    ghost named: { (q : ℕ) → q < 32 → is_user all q ≡ nat_lt q users },
    ghost listed: { users_of list ≡ users },
    ghost sized: { size_of_list list ≡ blocks_of geometry },
    ghost stated: { state_users states ≡ users },
    ghost deep: { rows_in rows ≡ sets_of geometry * users },
    ghost wide: { set_ways rows ≡ assoc_of geometry },
    ghost tallied: { tallies_in tallies ≡ users },
}

#[tactic(auto, unfolding(crate::specs::Stamped::stamped_rules, crate::specs::Stamped::stamped_users, crate::specs::Stamped::stamped_served, crate::specs::Stamped::stamped_counts, crate::specs::Stamped::stamped_shadow_misses, crate::specs::Stamped::stamped_has_failed))]
impl StampedCaches {
    ghost use Rattle.std.specs.Prelude.{◌≡◌, ◌<◌, ◌≤◌, ◌+◌, ◌∷◌, [], List, ℕ, true, false};
    ghost use Rattle.std.specs.Prelude.{IfOk, IsErr, OnErr, OnOk, if◌then◌else◌};
    ghost use Rattle.cache_core.specs.Counts.{counts_of};
    ghost use Rattle.cache_core.specs.History.{History, access as accessed, flush as flushed};
    ghost use Rattle.grid_core.specs.FullyAssociative.{shadow_misses};
    ghost use Rattle.grid_core.specs.Numbers.{IsNumberOf};
    ghost use Rattle.grid_core.specs.Standing.{stack_rules};
    ghost use Rattle.stamped_cache.specs.Serving.{IsReady, IsSameCache, IsSameSet};
    ghost use Rattle.stamped_cache.specs.Stamped.{StampedStandsBy, stamped_counts};
    ghost use Rattle.stamped_cache.specs.Stamped.{stamped_has_failed, stamped_rules};
    ghost use Rattle.stamped_cache.specs.Stamped.{stamped_served, stamped_shadow_misses};
    ghost use Rattle.stamped_cache.specs.Stamped.{stamped_users};

    /// So many empty caches of this geometry, which write back or through. There are at most
    /// [`MAX_USERS`] caches.
    ///
    /// [`MAX_USERS`]: shared_list::MAX_USERS
    pub fn new(
        alloc: Global,
        geometry: Geometry,
        wback: bool,
        users: usize,
    ) -> Result<StampedCaches, NoMemory>
        requires users { users ≤ 32 }
        ensures stands { IfOk result (λ caches. (blocks : List ℕ) (q : ℕ) → q < users →
            StampedStandsBy blocks caches q []) }
        ensures rules { IfOk result (λ caches.
            stamped_rules caches ≡ stack_rules geometry wback) }
        ensures users { IfOk result (λ caches. stamped_users caches ≡ users) }
        ensures served { IfOk result (λ caches. (q : ℕ) → stamped_served caches q ≡ 0) }
        ensures works { IfOk result (λ caches. stamped_has_failed caches ≡ false) }
    {
        let Ok(list) = SharedList::new(alloc, users, geometry.blocks() as usize) else {
            return Err(NoMemory);
        };
        let sets = geometry.sets() as usize;
        let Ok(rows) = Rows::new(alloc, sets * users, geometry.assoc() as usize) else {
            return Err(NoMemory);
        };
        let Ok(tallies) = Tallies::new(alloc, users) else {
            return Err(NoMemory);
        };
        Ok(StampedCaches {
            geometry,
            wback,
            users,
            all: Users::below(users),
            list,
            states: States::new(alloc, users),
            rows,
            tallies,
            failed: false,
        })
    }

    /// Gets all memory for an access to the block of a number.
    #[inline(always)]
    fn begin(&mut self, number: usize) -> Result<(), AllocError>
        ensures ready { OnOk result (IsReady self.new number) }
        ensures alike { (q : ℕ) → q < stamped_users self.old →
            IsSameCache q self.old self.new }
        ensures same { IsSameSet self.old self.new }
    {
        self.list.begin(number)?;
        self.states.grow(number)
    }

    /// Serves an access, whose block has this number, in the caches of these users. Those of them
    /// that have no cache are left out. This is inlined, so that hits are served within the loop
    /// over the requests.
    #[inline(always)]
    pub fn access(&mut self, access: Access, number: usize, users: Users) -> Result<(), NoMemory>
        requires { (q : ℕ) → q < stamped_users self.old → is_user users q ≡ true →
            stamped_served self.old q < MAX_EVENTS }
        ensures stands { OnOk result ((blocks : List ℕ) (q : ℕ) (h : History) →
            q < stamped_users self.old →
            IsNumberOf blocks (stamped_rules self.old).bsize access number →
            StampedStandsBy blocks self.old q h →
            StampedStandsBy blocks self.new q
            (if is_user users q then accessed access ∷ h else h)) }
        ensures served { OnOk result ((q : ℕ) → q < stamped_users self.old →
            stamped_served self.new q
            ≡ (if is_user users q then stamped_served self.old q + 1
            else stamped_served self.old q)) }
        ensures works { OnOk result (stamped_has_failed self.new ≡ false) }

        ensures fails { OnErr result (stamped_has_failed self.new ≡ true) }
        ensures keeps { OnErr result ((q : ℕ) → q < stamped_users self.old →
            (stamped_counts self.new q ≡ stamped_counts self.old q)
            × (stamped_shadow_misses self.new q ≡ stamped_shadow_misses self.old q)
            × (stamped_served self.new q ≡ stamped_served self.old q)) }
        ensures failed { stamped_has_failed self.old ≡ true → IsErr result }
        ensures rules { stamped_rules self.new ≡ stamped_rules self.old }
        ensures users { stamped_users self.new ≡ stamped_users self.old }
    {
        if self.failed {
            return Err(NoMemory);
        }
        let Ok(()) = self.begin(number) else {
            self.failed = true;
            return Err(NoMemory);
        };
        self.serve(access, number, users);
        Ok(())
    }

    /// Empties all caches and their shadows. Known blocks stay known. It needs no memory, and
    /// answers `NoMemory` only if an earlier call did.
    pub fn flush(&mut self) -> Result<(), NoMemory>
        requires { (q : ℕ) → q < stamped_users self.old → stamped_served self.old q < MAX_EVENTS }
        ensures stands { OnOk result ((blocks : List ℕ) (q : ℕ) (h : History) →
            q < stamped_users self.old → StampedStandsBy blocks self.old q h →
            StampedStandsBy blocks self.new q (flushed ∷ h)) }
        ensures served { OnOk result ((q : ℕ) → q < stamped_users self.old →
            stamped_served self.new q ≡ stamped_served self.old q + 1) }
        ensures works { OnOk result (stamped_has_failed self.new ≡ false) }

        ensures unchanged { OnErr result (self.new ≡ self.old) }
        ensures only_failed { IsErr result → stamped_has_failed self.old ≡ true }
        ensures failed { stamped_has_failed self.old ≡ true → IsErr result }
        ensures rules { stamped_rules self.new ≡ stamped_rules self.old }
        ensures users { stamped_users self.new ≡ stamped_users self.old }
    {
        if self.failed() {
            return Err(NoMemory);
        }
        self.states.forget_all();
        self.rows.clear();
        self.list.clear();
        self.tallies.flush(self.wback);
        Ok(())
    }

    /// All counts of a user's cache.
    pub fn counts(&self, user: usize) -> Counts
        requires { user < stamped_users self.now }
        ensures kept { result ≡ stamped_counts self.now user }
        ensures counted { (blocks : List ℕ) (h : History) →
            StampedStandsBy blocks self.now user h →
            result ≡ counts_of (stamped_rules self.now) h }
    {
        self.tallies.counts(user)
    }

    /// How often the shadow of a user's cache missed.
    pub fn shadow_misses(&self, user: usize) -> PerClass
        requires { user < stamped_users self.now }
        ensures kept { result ≡ stamped_shadow_misses self.now user }
        ensures counted { (blocks : List ℕ) (h : History) →
            StampedStandsBy blocks self.now user h →
            result ≡ shadow_misses (stamped_rules self.now) h }
    {
        self.tallies.far(user)
    }

    /// How many accesses and flushes of a user's cache succeeded.
    pub fn served(&self, user: usize) -> u64
        requires { user < stamped_users self.now }
        ensures { result ≡ stamped_served self.now user }
    {
        self.tallies.served(user)
    }

    /// Whether each cache can serve another access or flush.
    pub fn have_room(&self) -> bool
        ensures room { result ≡ true → (q : ℕ) → q < stamped_users self.now →
            stamped_served self.now q < MAX_EVENTS }
        ensures full { result ≡ false → (q : ℕ) × (q < stamped_users self.now)
            × (MAX_EVENTS ≤ stamped_served self.now q) }
    {
        self.tallies.have_room()
    }

    /// How many caches there are.
    pub fn users(&self) -> usize
        ensures { result ≡ stamped_users self.now }
    {
        self.users
    }

    /// Whether a call was refused memory.
    pub fn failed(&self) -> bool
        ensures { result ≡ stamped_has_failed self.now }
    {
        self.failed
    }
}
