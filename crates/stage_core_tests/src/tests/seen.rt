//! What the second level sees.

use super::messages::record;
use super::selections::events_of;
use super::streams::{is_merged, streams_of};
use super::{AROUND, LRU, READ_0, READ_8, READ_16, THROUGH, WRITE_0, WRITE_2};
use cache_core::{Class, Policy};
use din_trace::DinRecord;
use stage_core::What;
use std::alloc::Global;
use std::process::Abort;

/// The second level sees just this of these events.
fn is_seen(rt: &impl Abort, alloc: Global, policy: Policy, events: &[DinRecord], wanted: &[What]) {
    is_merged(rt, alloc, &streams_of(rt, alloc, policy, events), wanted);
}

/// Fetches carry the first byte of the block, the highest address's too.
#[test]
fn a_fetch_is_of_the_whole_block(rt: HostRuntime) {
    static EVENTS: [DinRecord; 3] = [
        record!(Read, 0x1f),
        record!(Write, 0xffff_ffff),
        record!(Read, u64::MAX),
    ];
    static WANTED: [What; 3] = [
        What::Fetch(Class::Read, 0x1c),
        What::Fetch(Class::Read, 0xffff_fffc),
        What::Fetch(Class::Read, 0xffff_ffff_ffff_fffc),
    ];
    is_seen(&rt, rt.alloc(), LRU, &EVENTS, &WANTED);
}

#[test]
fn the_second_level_sees_the_parts_of_writes(rt: HostRuntime) {
    static THROUGH_WANTED: [What; 3] = [
        What::Fetch(Class::Read, 0),
        What::Through(2),
        What::Through(2),
    ];
    static AROUND_WANTED: [What; 2] = [What::Through(0), What::Fetch(Class::Read, 0)];
    is_seen(
        &rt,
        rt.alloc(),
        THROUGH,
        &[WRITE_2, WRITE_2],
        &THROUGH_WANTED,
    );
    is_seen(&rt, rt.alloc(), AROUND, &[WRITE_0, READ_0], &AROUND_WANTED);
}

#[test]
fn the_second_level_sees_parts_in_order(rt: HostRuntime) {
    static WANTED: [What; 5] = [
        What::Fetch(Class::Read, 0),
        What::Fetch(Class::Read, 8),
        What::Back(0),
        What::FlushAll,
        What::Fetch(Class::Read, 16),
    ];
    let events = events_of(&rt, rt.alloc(), (0, 0, 2), &[WRITE_0, READ_8, READ_16]);
    is_seen(&rt, rt.alloc(), LRU, &events, &WANTED);
}
