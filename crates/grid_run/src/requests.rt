//! What an event asks of each cache of a configuration.

ghost use Rattle.std.specs.Prelude.{◌≡◌, map, option_to_list};
ghost use Rattle.stage_core.specs.Events.{asked};
ghost use Rattle.stage_core.specs.declared.message.Side.TheVariants as side;
ghost use Rattle.grid_run.specs.Sending.{event_of};

use cache_core::{Access, Class};
use din_trace::{DinRecord, Label};
use stage_core::Side;

/// A request to a first-level cache.
#[derive(Clone, Copy)]
pub(crate) enum Request {
    Access(Access),
    Flush,
}

/// The request of an event to the instruction cache, if there is one.
fn asked_of_i(event: DinRecord) -> Option<Request>
    ensures { map event_of (option_to_list result) ≡ asked side.I event }
{
    let addr = event.addr;
    match event.label {
        Label::Instr => Some(Request::Access(Access {
            class: Class::Instr,
            addr,
        })),
        Label::Flush => Some(Request::Flush),
        Label::Read | Label::Write | Label::Misc => None,
    }
}

/// The request of an event to the data cache, if there is one.
fn asked_of_d(event: DinRecord) -> Option<Request>
    ensures { map event_of (option_to_list result) ≡ asked side.D event }
{
    let addr = event.addr;
    match event.label {
        Label::Read => Some(Request::Access(Access {
            class: Class::Read,
            addr,
        })),
        Label::Write => Some(Request::Access(Access {
            class: Class::Write,
            addr,
        })),
        Label::Misc => Some(Request::Access(Access {
            class: Class::Misc,
            addr,
        })),
        Label::Flush => Some(Request::Flush),
        Label::Instr => None,
    }
}

/// The request of an event to a side's cache, if there is one.
pub(crate) fn asked_of(side: Side, event: DinRecord) -> Option<Request>
    ensures { map event_of (option_to_list result) ≡ asked side event }
{
    match side {
        Side::I => asked_of_i(event),
        Side::D => asked_of_d(event),
    }
}
