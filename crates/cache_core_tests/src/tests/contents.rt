//! The blocks that a cache holds, for callers who count and tell the kinds of miss themselves.

use super::{CAPACITY, CONFLICT, LRU, NEW, Shape, geometry_of, has, same};
use cache_core::{Access, Class, Contents, NoMemory, Outcome, Policy, Prior, Served};
use std::alloc::Global;
use std::process::Abort;
use std::test::Fail;

/// What the sets answer to a hit.
const FOUND: Served = Served {
    hit: true,
    back: None,
};

/// What they answer to a miss that evicts no dirty block.
const MISSED: Served = Served {
    hit: false,
    back: None,
};

/// Four sets of one block of four bytes.
const DIRECT: Shape = (16, 4, 1);

const WRITE_AROUND: Policy = Policy {
    wback: false,
    walloc: false,
    ..LRU
};

fn contents_of(rt: &impl Abort, alloc: Global, policy: Policy) -> Contents {
    Contents::new(alloc, geometry_of(rt, DIRECT), policy).expect(rt, "memory")
}

/// Serves accesses of one class. Each has to get the answer next to it.
fn expect(rt: &impl Abort, contents: &mut Contents, class: Class, trace: &[(u64, Served)]) {
    for (addr, want) in trace {
        let access = Access { class, addr: *addr };
        let served = contents.serve(access).expect(rt, "memory");
        same(rt, &served, want, "the answer", *addr);
    }
}

/// The dirty blocks have to be these.
fn expect_dirty(rt: &impl Abort, contents: &Contents, blocks: &[u64]) {
    has(rt, &contents.dirty().expect(rt, "memory"), blocks);
}

#[test]
fn contents_answer_hits_and_dirty_victims(rt: HostRuntime) {
    const VICTIM: Served = Served {
        back: Some(0),
        ..MISSED
    };
    let mut contents = contents_of(&rt, rt.alloc(), LRU);
    expect(&rt, &mut contents, Class::Write, &[(1, MISSED), (3, FOUND)]);
    expect_dirty(&rt, &contents, &[0]);
    expect(
        &rt,
        &mut contents,
        Class::Read,
        &[(16, VICTIM), (0, MISSED)],
    );
    expect_dirty(&rt, &contents, &[]);
}

#[test]
fn cleared_contents_hold_nothing(rt: HostRuntime) {
    let mut contents = contents_of(&rt, rt.alloc(), LRU);
    expect(
        &rt,
        &mut contents,
        Class::Write,
        &[(9, MISSED), (4, MISSED)],
    );
    expect_dirty(&rt, &contents, &[4, 8]);
    contents.clear();
    expect_dirty(&rt, &contents, &[]);
    expect(&rt, &mut contents, Class::Read, &[(4, MISSED), (8, MISSED)]);
}

/// The outcome of a write that missed and evicted the dirty block at 8, by what was known.
fn missed_write(contents: &Contents, referenced: bool, in_shadow: bool) -> Outcome {
    let access = Access {
        class: Class::Write,
        addr: 24,
    };
    let served = Served {
        back: Some(8),
        ..MISSED
    };
    let prior = Prior {
        referenced,
        in_shadow,
    };
    contents.outcome(access, served, prior)
}

#[test]
fn an_outcome_has_the_kind_that_it_is_told(rt: HostRuntime) {
    let contents = contents_of(&rt, rt.alloc(), LRU);
    for (referenced, in_shadow, kind) in [
        (false, false, NEW),
        (false, true, NEW),
        (true, false, CAPACITY),
        (true, true, CONFLICT),
    ] {
        let want = Outcome {
            back: Some(8),
            ..kind
        };
        let outcome = missed_write(&contents, referenced, in_shadow);
        same(&rt, &outcome, &want, "the outcome", 24);
    }
}

#[test]
fn a_write_around_is_sent_on_and_loads_nothing(rt: HostRuntime) {
    const SENT_ON: Outcome = Outcome {
        fetch: false,
        through: true,
        ..CONFLICT
    };
    let write = Access {
        class: Class::Write,
        addr: 27,
    };
    let known = Prior {
        referenced: true,
        in_shadow: true,
    };
    let contents = contents_of(&rt, rt.alloc(), WRITE_AROUND);
    assert!(rt; contents.block(write) == 6 && !contents.may_load(write));
    let outcome = contents.outcome(write, MISSED, known);
    same(&rt, &outcome, &SENT_ON, "the outcome", 27);
}

/// Fills one set of 128 ways by reads. If an allocation fails, the block before it is still there.
fn fill(rt: &impl Abort, contents: &mut Contents) -> Result<(), NoMemory> {
    let mut last = None;
    for block in 0..128u64 {
        let access = Access {
            class: Class::Read,
            addr: 4 * block,
        };
        let served = contents.serve(access);
        if let (Err(_), Some(before)) = (served, last) {
            assert!(rt; contents.serve(before) == Ok(FOUND));
        }
        same(rt, &served?, &MISSED, "the answer", block);
        last = Some(access);
    }
    Ok(())
}

#[test]
fn a_refused_access_leaves_the_contents(rt: HostRuntime) -> Result<(), Fail> {
    let mut contents = Contents::new(rt.alloc(), geometry_of(&rt, (512, 4, 128)), LRU)?;
    Ok(fill(&rt, &mut contents)?)
}
