//! The machines of a simulated hierarchy: a trace goes through a [`Selector`] and a [`Splitter`] to
//! two first-level stages ([`L1Stage`], for instructions and for data), and what these send goes
//! through a [`Merge`] to the second level ([`L2Stage`]).
//!
//! No machine knows of threads or rings. Each has `&mut self` methods that take one item in and
//! answer what it puts out. `config` and `selection` say what is simulated, `message` has the
//! messages between the machines, and `parts` those that a request to a first-level cache makes for
//! the second level. `plain` runs all machines on one thread, and `laws` has properties of the
//! definitions themselves.
//!
//! `network` runs all machines with rings of a given capacity between them, one push or one pop at
//! a time, in whatever order its caller chooses. No program uses it.
//!
//! Proved of every trace, selection and lawful configuration: what each machine puts out is a
//! function of the list that it took in (`specs/Streams`); the merge takes the two sides' messages
//! by place, I's before D's, whichever is there first (`specs/Merging`); and a run answers the
//! counts that the definitions give over the whole event list (`specs/SecondLevel`), or want of
//! memory. No order of steps is stuck, however small the rings are, and all have the same end
//! (`specs/Network`, `specs/Network/Laws`). Nor do threads that keep outboxes ever all wait in
//! vain, if each waits only where it may (`specs/Waiting`, `specs/Laws`).
#![tactic(auto)]

mod config;
mod l1_stage;
mod l2_stage;
mod laws;
mod memory;
mod merge;
mod message;
mod network;
mod outbox;
mod parts;
mod plain;
mod selection;
mod splitter;
mod totals;

pub use config::{CacheName, CacheSpec, Config, ConfigFault};
pub use l1_stage::L1Stage;
pub use l2_stage::L2Stage;
pub use laws::{
    definitions_meet_worked_examples, finish_ends_each_stream, merge_takes_the_requests,
    second_level_sees_at_most_two, selections_make_at_most_two, stages_answer_their_streams,
    taking_all_keeps_each_record, waiting_threads_have_ended,
};
pub use memory::NoMemory;
pub use merge::Merge;
pub use message::{FromStage, Routed, Side, ToStage, Turn, Want, What};
pub use network::{
    Core, complete_schedules_are_as_long, drive, no_schedule_is_stuck, rings_carry_beginnings,
    rings_hold_their_capacity, second_level_is_given_no_more, steps_keep_consistency,
};
pub use parts::{back_part, fetch_part, flush_part, through_part};
pub use plain::run_plain;
pub use selection::{Picked, Selection, Selector};
pub use splitter::Splitter;
pub use totals::Totals;
