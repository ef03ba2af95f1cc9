//! Second levels, each behind one cache of each side, that share a queue.

ghost use Rattle.std.specs.Prelude.{◌≡◌, length};
ghost use Rattle.cache_core.specs.Geometry.{bsize_of};
ghost use Rattle.grid_run.specs.SecondCaches.{second_bsize, second_users};
ghost use Rattle.grid_run.specs.Senders.{MayShare};

use crate::queue::Queue;
use crate::seat::BothSeats;
use crate::second::Second;
use crate::second_caches::SecondCaches;
use cache_core::{Geometry, NoMemory};
use std::alloc::Global;

/// Second-level caches of one block size and one policy that share a queue: those of each user are
/// behind the same two first-level caches.
#[derive(Drop)]
pub(crate) struct Back {
    /// The block size, as that of a geometry.
    pub first: Geometry,
    /// The seats in front of each user.
    pub users: Vec<BothSeats>,
    pub second: Second,
    ghost sized: { second_bsize second.caches ≡ bsize_of first },
    ghost as_many: { second_users second.caches ≡ length users.items },
    ghost share: { MayShare users.items },
}

#[tactic(auto, unfolding(crate::specs::Backs::back_task, crate::specs::Backs::back_seats))]
impl Back {
    ghost use Rattle.std.specs.Prelude.{◌≡◌, ◌<◌, [], List, ℕ, OnOk, length};
    ghost use Rattle.cache_core.specs.Geometry.{bsize_of};
    ghost use Rattle.grid_run.specs.Backs.{AreFewRequests, AreWaiting, HasNone, HasNumbers};
    ghost use Rattle.grid_run.specs.Backs.{NothingWaits, RequestsFor, WereAsked, back_seats};
    ghost use Rattle.grid_run.specs.Backs.{back_task, no_requests, queue_seats};
    ghost use Rattle.grid_run.specs.SecondCaches.{SecondStandsBy, second_bsize, second_rules};
    ghost use Rattle.grid_run.specs.SecondCaches.{second_users};
    ghost use Rattle.grid_run.specs.Senders.{MayShare};

    /// Second levels of this block size, for which nothing waits, of the users behind these seats.
    pub fn new(first: Geometry, users: Vec<BothSeats>, caches: SecondCaches, alloc: Global) -> Back
        requires share { MayShare users.items }
        requires as_many { second_users caches ≡ length users.items }
        requires bsize { second_bsize caches ≡ bsize_of first }
        ensures asked { (blocks : List ℕ) →
            ((q : ℕ) → q < second_users caches → SecondStandsBy blocks caches q []) →
            WereAsked blocks no_requests result }
        ensures settled { NothingWaits result }
        ensures task { back_task result ≡ record {
          seats = record { first = first; users = users.items };
          rules = second_rules caches;
        } }
        ensures users { result.users ≡ users }
    {
        Back {
            first,
            users,
            second: Second::new(alloc, caches),
        }
    }

    /// Takes over what waits in the queue behind the same seats. The queue gets an empty list.
    pub fn take_over(&mut self, queue: &mut Queue)
        requires seats { queue_seats queue.old ≡ back_seats self.old }
        requires settled { NothingWaits self.old }
        ensures asked { (blocks : List ℕ) (served all : RequestsFor) →
            AreWaiting served all queue.old → HasNumbers blocks queue.old →
            WereAsked blocks served self.old → WereAsked blocks all self.new }
        ensures none { HasNone queue.new }
        ensures seats { queue_seats queue.new ≡ queue_seats queue.old }
        ensures task { back_task self.new ≡ back_task self.old }
    {
        self.second.swap_waiting(&mut queue.waiting);
    }

    /// How many requests wait.
    pub fn waiting(&self) -> usize
        ensures { result ≡ length self.now.second.waiting.items }
    {
        self.second.waiting()
    }

    /// Serves all requests that wait.
    pub fn settle(&mut self) -> Result<(), NoMemory>
        requires room { (blocks : List ℕ) × (all : RequestsFor) × WereAsked blocks all self.old
            × AreFewRequests all }
        ensures asked { OnOk result ((blocks : List ℕ) (all : RequestsFor) →
            WereAsked blocks all self.old → WereAsked blocks all self.new) }
        ensures settled { OnOk result (NothingWaits self.new) }
        ensures task { back_task self.new ≡ back_task self.old }
    {
        self.second.settle()
    }
}
