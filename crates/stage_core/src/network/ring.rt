//! A ring of the network, which keeps all messages that it has carried.

ghost use Rattle.std.specs.Prelude.{◌≡◌, ◌<◌, OnOk, OnErr, Some, length};
ghost use Rattle.stage_core.specs.Network.Rings.{empty_ring, with_message, pop};

use crate::memory::NoMemory;
use std::alloc::Global;
use std::marker::Model;

/// The messages that were pushed, in their order, and how many of them were popped.
#[derive(Drop)]
pub(crate) struct Ring<T: Copy> {
    carried: Vec<T>,
    popped: usize,
}

impl<T: Copy> Model for Ring<T> {
    ghost use Rattle.std.specs.Prelude.{◌≤◌, length, take, drop};
    ghost use Rattle.stage_core.specs.Network.Rings.{Ring as Carried};

    ghost Value = { Carried T };

    ghost view = { λ r. record {
      popped = take r.popped r.carried.items;
      waiting = drop r.popped r.carried.items;
    } };

    ghost invariant = { λ r. r.popped ≤ length r.carried.items };
}

impl<T: Copy> Ring<T> {
    /// A ring that has carried nothing.
    pub fn new(alloc: Global) -> Self
        ensures { result ≡ empty_ring }
    {
        Ring {
            carried: Vec::new(alloc),
            popped: 0,
        }
    }

    /// How many messages wait.
    pub fn waiting(&self) -> usize
        ensures { result ≡ length self.now.waiting }
    {
        self.carried.len() - self.popped
    }

    /// Adds a message. The ring itself has no capacity: the caller has to check that there is room.
    pub fn push(&mut self, message: T) -> Result<(), NoMemory>
        ensures pushed { OnOk result (self.new ≡ with_message message self.old) }
        ensures refused { OnErr result (self.new ≡ self.old) }
    {
        let Ok(()) = self.carried.push(message) else {
            return Err(NoMemory);
        };
        Ok(())
    }

    /// Removes the oldest waiting message and returns it.
    pub fn pop(&mut self) -> T
        requires { 0 < length self.old.waiting }
        ensures { pop self.old ≡ Some (result, self.new) }
    {
        let message = self.carried[self.popped];
        self.popped += 1;
        message
    }
}
