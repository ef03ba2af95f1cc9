//! Failing allocations. The test passes if there is enough memory. If an allocation is refused, it
//! checks the state after that, and then fails with the name of the refusal and nothing else.

use cache_core::{Access, Class, Counts, Geometry, MAX_EVENTS, NoMemory, PerClass, Policy, Repl};
use grid_core::{Engine, share_block_size};
use std::alloc::Global;
use std::process::Abort;
use std::test::Fail;

/// An engine of a direct-mapped, a two-way and a fully associative cache, unless an allocation
/// fails. The last has too many ways to be served with others.
fn made(rt: &impl Abort, alloc: Global, policy: Policy) -> Result<Engine, NoMemory> {
    let narrow = Geometry::new(16, 4, 1).expect(rt, "a lawful geometry");
    let wide = Geometry::new(32, 4, 2).expect(rt, "a lawful geometry");
    let whole = Geometry::new(512, 4, 128).expect(rt, "a lawful geometry");
    let geometries = [narrow, wide, whole];
    assert!(rt; share_block_size(&geometries, narrow));
    let engine = Engine::new(alloc, &geometries, narrow, policy)?;
    assert!(rt; !engine.failed());
    assert_eq!(rt; engine.served(), 0);
    Ok(engine)
}

/// What a call has to leave as it was if it is refused memory.
#[derive(Clone, Copy, Debug, PartialEq, Eq)]
struct Snapshot {
    counts: [Counts; 3],
    shadow_misses: [PerClass; 3],
    served: u64,
}

/// What all caches counted, and how many events were served.
fn kept(rt: &impl Abort, engine: &Engine) -> Snapshot {
    assert!(rt; 2 < engine.cells());
    Snapshot {
        counts: [engine.counts(0), engine.counts(1), engine.counts(2)],
        shadow_misses: [
            engine.shadow_misses(0),
            engine.shadow_misses(1),
            engine.shadow_misses(2),
        ],
        served: engine.served(),
    }
}

/// After a refusal, the counts have to be as before the call, and every later call has to fail.
fn stays_failed(rt: &impl Abort, engine: &mut Engine, before: Snapshot) {
    assert!(rt; engine.failed());
    assert_eq!(rt; kept(rt, engine), before);
    assert!(rt; engine.served() < MAX_EVENTS);
    let again = engine.access(Access {
        class: Class::Read,
        addr: 0,
    });
    assert_eq!(rt; again, Err(NoMemory));
    assert!(rt; engine.served() < MAX_EVENTS);
    let short = engine.again(Access {
        class: Class::Read,
        addr: 0,
    });
    assert!(rt; !short);
    assert!(rt; engine.served() < MAX_EVENTS);
    assert!(rt; engine.flush().is_err());
    assert!(rt; engine.flush_unlisted().is_err());
    assert!(rt; engine.failed());
    assert_eq!(rt; kept(rt, engine), before);
}

/// Accesses a block. If an allocation fails, the engine has to stay failed.
fn used(rt: &impl Abort, engine: &mut Engine, class: Class, addr: u64) -> Result<(), NoMemory> {
    let before = kept(rt, engine);
    assert!(rt; engine.served() < MAX_EVENTS);
    let served = engine.access(Access { class, addr });
    if served.is_err() {
        stays_failed(rt, engine, before);
    }
    served
}

/// Flushes, and answers how many blocks the last cache wrote back. If an allocation fails, the
/// engine has to stay failed.
fn flushed(rt: &impl Abort, engine: &mut Engine) -> Result<usize, NoMemory> {
    let before = kept(rt, engine);
    assert!(rt; engine.served() < MAX_EVENTS);
    match engine.flush() {
        Ok(lists) => {
            assert!(rt; 2 < lists.len());
            Ok(lists[2].len())
        }
        Err(refused) => {
            stays_failed(rt, engine, before);
            Err(refused)
        }
    }
}

/// Reads and then writes each of 200 blocks, and flushes, unless an allocation fails. Each read
/// misses, in the caches and their shadows, each write hits, and each block is written back once.
fn serves_all(rt: &impl Abort, alloc: Global, policy: Policy) -> Result<(), NoMemory> {
    let mut engine = made(rt, alloc, policy)?;
    for block in 0..200 {
        used(rt, &mut engine, Class::Read, 4 * block)?;
        used(rt, &mut engine, Class::Write, 4 * block)?;
    }
    let written = flushed(rt, &mut engine)?;
    assert_eq!(rt; written, 128);
    let reads = PerClass {
        read: 200,
        ..PerClass::default()
    };
    let all = kept(rt, &engine);
    assert_eq!(rt; all.shadow_misses, [reads; 3]);
    assert_eq!(rt; all.counts.map(|counts| counts.misses), [reads; 3]);
    assert_eq!(rt; all.counts.map(|counts| counts.written_back), [200; 3]);
    assert_eq!(rt; all.served, 401);
    Ok(())
}

#[test]
fn caches_with_a_stack_serve_all_or_fail(rt: HostRuntime) -> Result<(), Fail> {
    let policy = Policy {
        repl: Repl::Lru,
        wback: true,
        walloc: true,
    };
    serves_all(&rt, rt.alloc(), policy)?;
    Ok(())
}

#[test]
fn fifo_caches_serve_all_or_fail(rt: HostRuntime) -> Result<(), Fail> {
    let policy = Policy {
        repl: Repl::Fifo,
        wback: true,
        walloc: true,
    };
    serves_all(&rt, rt.alloc(), policy)?;
    Ok(())
}

#[test]
fn caches_that_do_not_allocate_serve_all_or_fail(rt: HostRuntime) -> Result<(), Fail> {
    let policy = Policy {
        repl: Repl::Lru,
        wback: true,
        walloc: false,
    };
    serves_all(&rt, rt.alloc(), policy)?;
    Ok(())
}
