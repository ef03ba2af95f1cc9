//! The messages that the splitter pushes, in order.

ghost use Rattle.std.specs.Prelude.{◌≡◌, ◌≤◌, ◌*◌, ◌++◌, ◌∷◌, [], IfOk, OnOk, length};
ghost use Rattle.stage_core.specs.Network.Pushes.{pushes, pushes_in, IsPushed};

use crate::memory::NoMemory;
use crate::message::{Routed, Side, ToStage, Turn};
use crate::network::ring::Ring;
use crate::splitter::Splitter;
use din_trace::{DinRecord, MAX_LIMIT};
use std::alloc::Global;

/// A message of the splitter, together with the ring that it goes to.
#[derive(Clone, Copy)]
pub(crate) enum Push {
    Order(Turn),
    To(Side, ToStage),
}

/// Adds a push to the list.
fn add(pushes: &mut Vec<Push>, push: Push) -> Result<(), NoMemory>
    ensures { OnOk result (pushes.new.items ≡ pushes.old.items ++ push ∷ []) }
{
    let Ok(()) = pushes.push(push) else {
        return Err(NoMemory);
    };
    Ok(())
}

/// Adds the pushes of the messages that the splitter made of an event.
fn add_routed(pushes: &mut Vec<Push>, routed: Routed) -> Result<(), NoMemory>
    ensures { OnOk result (pushes.new.items ≡ pushes.old.items ++ pushes_in routed) }
{
    add(pushes, Push::Order(routed.turn))?;
    if let Some(message) = routed.i {
        add(pushes, Push::To(Side::I, message))?;
    }
    if let Some(message) = routed.d {
        add(pushes, Push::To(Side::D, message))?;
    }
    Ok(())
}

/// All pushes of the splitter for an event list, up to those of Finish.
pub(crate) fn pushes_of(alloc: Global, events: &[DinRecord]) -> Result<Vec<Push>, NoMemory>
    requires { length events.now ≤ 2 * MAX_LIMIT }
    ensures { IfOk result (λ made. made.items ≡ pushes events.now) }
{
    let mut pushes = Vec::new(alloc);
    let mut splitter = Splitter::new();
    for event in events {
        let routed = splitter.route(*event);
        add_routed(&mut pushes, routed)?;
    }
    add_routed(&mut pushes, splitter.finish())?;
    Ok(pushes)
}

/// Pushes a message of the splitter into its ring.
pub(crate) fn push_to(
    push: Push,
    order: &mut Ring<Turn>,
    i: &mut Ring<ToStage>,
    d: &mut Ring<ToStage>,
) -> Result<(), NoMemory>
    ensures { OnOk result (IsPushed push order.old i.old d.old order.new i.new d.new) }
{
    match push {
        Push::Order(turn) => order.push(turn),
        Push::To(Side::I, message) => i.push(message),
        Push::To(Side::D, message) => d.push(message),
    }
}
