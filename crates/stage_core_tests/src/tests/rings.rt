//! The messages that each machine sends.

use super::messages::{part, refers};
use super::streams::{Streams, is_merged, streams_of};
use super::{FLUSH, LRU, READ_8, READ_16, WRITE_0, WRITE_8, same};
use cache_core::Class;
use din_trace::DinRecord;
use stage_core::{FromStage, ToStage, Turn, What};
use std::alloc::Global;
use std::process::Abort;

/// What the five rings have to carry, and the requests that the merge has to take from them.
struct Carried {
    order: &'static [Turn],
    to_i: &'static [ToStage],
    to_d: &'static [ToStage],
    from_i: &'static [FromStage],
    from_d: &'static [FromStage],
    requests: &'static [What],
}

fn expect(rt: &impl Abort, alloc: Global, streams: &Streams, wanted: &Carried) {
    same(rt, &streams.order.as_slice(), &wanted.order, "the order", 0);
    streams.i.expect(rt, wanted.to_i, wanted.from_i);
    streams.d.expect(rt, wanted.to_d, wanted.from_d);
    is_merged(rt, alloc, streams, wanted.requests);
}

#[test]
fn streams_of_a_victim(rt: HostRuntime) {
    static EVENTS: [DinRecord; 3] = [WRITE_0, READ_8, READ_16];
    static WANTED: Carried = Carried {
        order: &[Turn::D, Turn::D, Turn::D, Turn::Finish],
        to_i: &[ToStage::Finish],
        to_d: &[
            refers!(1, Write, 0),
            refers!(2, Read, 8),
            refers!(3, Read, 16),
            ToStage::Finish,
        ],
        from_i: &[FromStage::Finish],
        from_d: &[
            part!(1, 1, What::Fetch(Class::Read, 0)),
            FromStage::Done { place: 1, parts: 1 },
            part!(2, 1, What::Fetch(Class::Read, 8)),
            FromStage::Done { place: 2, parts: 1 },
            part!(3, 1, What::Back(0)),
            part!(3, 2, What::Fetch(Class::Read, 16)),
            FromStage::Done { place: 3, parts: 2 },
            FromStage::Finish,
        ],
        requests: &[
            What::Fetch(Class::Read, 0),
            What::Fetch(Class::Read, 8),
            What::Back(0),
            What::Fetch(Class::Read, 16),
        ],
    };
    expect(
        &rt,
        rt.alloc(),
        &streams_of(&rt, rt.alloc(), LRU, &EVENTS),
        &WANTED,
    );
}

#[test]
fn streams_of_a_flush(rt: HostRuntime) {
    static EVENTS: [DinRecord; 3] = [WRITE_8, WRITE_0, FLUSH];
    static WANTED: Carried = Carried {
        order: &[Turn::D, Turn::D, Turn::Both, Turn::Finish],
        to_i: &[ToStage::Flush { place: 3 }, ToStage::Finish],
        to_d: &[
            refers!(1, Write, 8),
            refers!(2, Write, 0),
            ToStage::Flush { place: 3 },
            ToStage::Finish,
        ],
        from_i: &[FromStage::Done { place: 3, parts: 0 }, FromStage::Finish],
        from_d: &[
            part!(1, 1, What::Fetch(Class::Read, 8)),
            FromStage::Done { place: 1, parts: 1 },
            part!(2, 1, What::Fetch(Class::Read, 0)),
            FromStage::Done { place: 2, parts: 1 },
            part!(3, 1, What::Back(0)),
            part!(3, 2, What::Back(8)),
            part!(3, 3, What::FlushAll),
            FromStage::Done { place: 3, parts: 3 },
            FromStage::Finish,
        ],
        requests: &[
            What::Fetch(Class::Read, 8),
            What::Fetch(Class::Read, 0),
            What::Back(0),
            What::Back(8),
            What::FlushAll,
        ],
    };
    expect(
        &rt,
        rt.alloc(),
        &streams_of(&rt, rt.alloc(), LRU, &EVENTS),
        &WANTED,
    );
}
