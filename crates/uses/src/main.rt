//! The uses that the READMEs of the libraries show. Run as a program, it prints what they answer.
#![tactic(auto)]

mod block;
mod cache;
mod grid;
mod list;
mod ring;
mod run;
mod shared;
mod stages;
mod stamped;
mod table;
mod trace;

use anyhow::bail;
use stage_core::Config;
use std::io::Write;

/// Prints what the uses of a trace, of one cache and of caches of many sizes answer.
fn print_caches(rt: &HostRuntime) -> anyhow::Result<()> {
    let alloc = rt.alloc();
    let Ok(stores) = trace::stores(alloc, b"2 400d7c\n0 1000\n1 1004 a comment\n") else {
        bail!("no records");
    };
    println!(rt; "din_trace: {stores} store")?;
    let Ok(kind) = cache::kind_of_third_read(alloc) else {
        bail!("no cache");
    };
    println!(rt; "cache_core: {kind:?}")?;
    let Ok(hits) = list::hits_of_sizes(alloc) else {
        bail!("no list");
    };
    println!(rt; "marked_list: {hits:?}")?;
    let Ok(hits) = shared::hits_of_two_users(alloc) else {
        bail!("no lists");
    };
    println!(rt; "shared_list: {hits:?}")?;
    let Ok(Some(misses)) = grid::misses_of_ways(alloc) else {
        bail!("no grid");
    };
    println!(rt; "grid_core: {misses:?}")?;
    let Ok(Some(misses)) = stamped::misses_with_shadows(alloc) else {
        bail!("no second levels");
    };
    println!(rt; "stamped_cache: {misses:?}")?;
    Ok(())
}

/// Prints what the uses of the machines and of a block of a report answer.
fn print_machines(rt: &HostRuntime, config: &Config) -> anyhow::Result<()> {
    let alloc = rt.alloc();
    let Ok(misses) = stages::second_level_misses(alloc, config) else {
        bail!("no counts");
    };
    println!(rt; "stage_core: {misses} misses")?;
    let Ok(block) = block::one_miss(alloc) else {
        bail!("no block");
    };
    println!(rt; "cache_report:")?;
    rt.stdout().write_all(block.as_slice())?;
    Ok(())
}

fn main(rt: HostRuntime) -> anyhow::Result<()> {
    let alloc = rt.alloc();
    let Ok(config) = run::small_caches() else {
        bail!("no lawful configuration");
    };
    print_caches(&rt)?;
    let Ok(ends) = ring::two_ends(alloc) else {
        bail!("no ring");
    };
    let sum = ring::pass(&rt, ends);
    println!(rt; "pipe_rings: {sum}")?;
    print_machines(&rt, &config)?;
    let Ok(report) = run::report(&rt, alloc, &config, b"1 0\n0 8\n0 10\n") else {
        bail!("no report");
    };
    println!(rt; "sim_run:")?;
    rt.stdout().write_all(report.as_slice())?;
    let Ok(grid) = table::two_sizes(alloc) else {
        bail!("no grid");
    };
    let Ok(table) = table::table(&rt, alloc, &grid, b"0 0\n0 8\n0 0\n2 0\n") else {
        bail!("no table");
    };
    println!(rt; "grid_run:")?;
    rt.stdout().write_all(table.as_slice())?;
    Ok(())
}
