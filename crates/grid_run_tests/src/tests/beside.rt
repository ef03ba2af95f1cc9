//! A grid over pseudo-random traces, beside a run of each configuration alone.

ghost use Rattle.std.specs.Prelude.{IfOk};
ghost use Rattle.stage_core.specs.Events.{IsBounded};
ghost use Rattle.grid_run.specs.Grids.{HasBoundedRows};

use super::grids::EVERYTHING;
use super::{add_row, words_of};
use cache_core::{Policy, Repl};
use din_trace::{DinRecord, FromRead, FromWrite, MAX_LIMIT, read_all};
use grid_run::{
    Columns, Figures, Grid, Setup, ShadowMisses, simulate_grid, write_counted, write_heads,
};
use stage_core::{CacheSpec, Config, Selection, Totals, run_plain};
use std::alloc::Global;
use std::process::Abort;
use std::test::Fail;
use std::thread::Threads;

/// The next pseudo-random number, by a linear congruence with Knuth's constants.
fn next_random(state: &mut u64) -> u64 {
    *state = state
        .wrapping_mul(6_364_136_223_846_793_005)
        .wrapping_add(1_442_695_040_888_963_407);
    *state >> 33
}

/// A trace of so many records. One in 21 is a flush.
fn trace_of(alloc: Global, seed: u64, records: usize) -> Result<Vec<u8>, Fail> {
    let mut state = seed;
    let mut trace = Vec::new(alloc);
    for _ in 0..records {
        let label: &[u8] = match next_random(&mut state) % 21 {
            0 => b"4 ",
            1 | 2 | 3 => b"3 ",
            4 | 5 | 6 | 7 | 8 => b"2 ",
            9 | 10 | 11 | 12 | 13 => b"1 ",
            _ => b"0 ",
        };
        trace.extend_from_slice(label)?;
        let addr = next_random(&mut state) % 96;
        trace.extend_from_slice(format!(in alloc; "{addr:x}\n")?.as_bytes())?;
    }
    Ok(trace)
}

/// The three caches of a configuration.
#[derive(Clone, Copy)]
struct Specs {
    i: CacheSpec,
    d: CacheSpec,
    u: CacheSpec,
}

fn spec(size: u64, bsize: u64, assoc: u64, policy: Policy) -> CacheSpec {
    CacheSpec {
        size,
        bsize,
        assoc,
        policy,
    }
}

fn policy(repl: Repl, wback: bool, walloc: bool) -> Policy {
    Policy {
        repl,
        wback,
        walloc,
    }
}

/// Configurations of all policies.
fn all_specs() -> [Specs; 4] {
    let lru = policy(Repl::Lru, true, true);
    let fifo = policy(Repl::Fifo, true, true);
    let through = policy(Repl::Lru, false, false);
    let mixed = policy(Repl::Fifo, true, false);
    [
        Specs {
            i: spec(16, 4, 1, lru),
            d: spec(32, 4, 2, lru),
            u: spec(64, 8, 2, lru),
        },
        Specs {
            i: spec(32, 4, 2, fifo),
            d: spec(16, 4, 2, fifo),
            u: spec(64, 16, 1, fifo),
        },
        Specs {
            i: spec(8, 4, 1, lru),
            d: spec(32, 8, 1, through),
            u: spec(64, 8, 4, through),
        },
        Specs {
            i: spec(64, 4, 16, lru),
            d: spec(32, 4, 8, mixed),
            u: spec(32, 8, 1, mixed),
        },
    ]
}

/// The fully associative LRU cache of the same size.
fn whole(spec: CacheSpec) -> CacheSpec {
    CacheSpec {
        assoc: spec.size.checked_div(spec.bsize).unwrap_or(1),
        policy: Policy {
            repl: Repl::Lru,
            ..spec.policy
        },
        ..spec
    }
}

/// The counts of a run of one configuration alone.
fn totals_alone(
    rt: &impl Abort,
    alloc: Global,
    specs: Specs,
    selection: &Selection,
    records: &[DinRecord],
) -> Totals
    requires { IsBounded selection.now }
{
    assert!(rt; records.len() as u64 <= MAX_LIMIT);
    let config = Config::new(specs.i, specs.d, specs.u, 1).expect(rt, "a lawful configuration");
    run_plain(alloc, &config, selection, records).expect(rt, "memory")
}

/// The figures of such a run. Its shadows are caches of other runs: those of the first level in
/// place of its caches, and that of the second level above the same first level.
fn figures_alone(
    rt: &impl Abort,
    alloc: Global,
    specs: Specs,
    selection: &Selection,
    records: &[DinRecord],
) -> Figures
    requires { IsBounded selection.now }
{
    let Specs { i, d, u } = specs;
    let first = Specs {
        i: whole(i),
        d: whole(d),
        u,
    };
    let second = Specs { i, d, u: whole(u) };
    let first_whole = totals_alone(rt, alloc, first, selection, records);
    let second_whole = totals_alone(rt, alloc, second, selection, records);
    let shadows = ShadowMisses {
        i: first_whole.i.misses,
        d: first_whole.d.misses,
        u: second_whole.u.misses,
    };
    let totals = totals_alone(rt, alloc, specs, selection, records);
    Figures { totals, shadows }
}

/// The table of all configurations, each with both selections, as each of them counts alone.
fn table_alone(
    rt: &impl Abort,
    alloc: Global,
    first: &Selection,
    second: &Selection,
    records: &[DinRecord],
) -> Vec<u8>
    requires first { IsBounded first.now }
    requires second { IsBounded second.now }
{
    let mut expected = Vec::new(alloc);
    let mut lines = FromWrite::new(&mut expected);
    write_heads(Columns::Full, &[], &mut lines).expect(rt, "heads");
    for specs in all_specs() {
        let whole = figures_alone(rt, alloc, specs, first, records);
        let part = figures_alone(rt, alloc, specs, second, records);
        for figures in [whole, part] {
            write_counted(Columns::Full, &[], &figures, &mut lines).expect(rt, "a line");
        }
    }
    expected
}

/// A grid of all configurations, each with both selections.
fn grid_of(alloc: Global, first: &Selection, second: &Selection) -> Result<Grid, Fail>
    requires first { IsBounded first.now }
    requires second { IsBounded second.now }
    ensures { IfOk result HasBoundedRows }
{
    let mut rows = Vec::new(alloc);
    for specs in all_specs() {
        let config = Config::new(specs.i, specs.d, specs.u, 1)?;
        add_row(alloc, &mut rows, &[], Setup::Simulated(config, *first))?;
        add_row(alloc, &mut rows, &[], Setup::Simulated(config, *second))?;
    }
    let names = words_of(alloc, &[])?;
    Ok(Grid {
        names,
        columns: Columns::Full,
        rows,
    })
}

/// The grid has to write what its configurations count alone, whatever the number of threads.
fn agrees<H: Abort + Threads + Sync>(
    rt: &H,
    alloc: Global,
    first: &Selection,
    second: &Selection,
    trace: &[u8],
) -> Result<(), Fail>
    requires first { IsBounded first.now }
    requires second { IsBounded second.now }
{
    let records = read_all(alloc, trace, MAX_LIMIT)?;
    let expected = table_alone(rt, alloc, first, second, &records);
    let grid = grid_of(alloc, first, second)?;
    for threads in [1, 2, 4] {
        let mut written = Vec::new(alloc);
        let mut writer = FromWrite::new(&mut written);
        let reader = FromRead::new(trace);
        simulate_grid(rt, alloc, &grid, reader, MAX_LIMIT, threads, &mut writer)?;
        assert!(rt; written.as_slice() == expected.as_slice());
    }
    Ok(())
}

#[test]
fn rows_are_as_runs_alone(rt: HostRuntime) -> Result<(), Fail> {
    let part = Selection {
        skip: 17,
        max: 400,
        every: 31,
    };
    for seed in 0..4 {
        let trace = trace_of(rt.alloc(), seed, 600)?;
        agrees(&rt, rt.alloc(), &EVERYTHING, &part, &trace)?;
    }
    Ok(())
}
