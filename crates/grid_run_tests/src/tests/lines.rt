//! The lines of a table.

use super::{HEADS, words_of};
use cache_core::{Counts, PerClass};
use din_trace::FromWrite;
use grid_run::{Columns, Figures, ShadowMisses, write_counted, write_heads, write_refused};
use stage_core::Totals;
use std::alloc::Global;
use std::process::Abort;
use std::test::Fail;

fn reads(read: u64) -> PerClass {
    PerClass {
        read,
        ..PerClass::default()
    }
}

fn instrs(instr: u64) -> PerClass {
    PerClass {
        instr,
        ..PerClass::default()
    }
}

/// Figures in which each number of the instruction cache is another one.
fn figures() -> Figures {
    let i = Counts {
        fetches: instrs(3),
        misses: instrs(1),
        compulsory: instrs(4),
        capacity: instrs(5),
        conflict: instrs(6),
        loaded: 8,
        written_back: 9,
        sent_on: 10,
        flushes: 11,
    };
    let d = Counts {
        fetches: PerClass {
            instr: 10,
            read: 200,
            write: 3000,
            misc: 40_000,
        },
        misses: reads(43_210),
        loaded: 18_446_744_073_709_551_615,
        ..Counts::default()
    };
    Figures {
        totals: Totals {
            i,
            d,
            u: Counts::default(),
        },
        shadows: ShadowMisses {
            i: instrs(7),
            d: reads(12),
            u: PerClass::default(),
        },
    }
}

fn heads(rt: &impl Abort, alloc: Global, names: &[&str]) -> Result<Vec<u8>, Fail> {
    let names = words_of(alloc, names)?;
    let mut written = Vec::new(alloc);
    write_heads(Columns::Plain, &names, &mut FromWrite::new(&mut written)).expect(rt, "heads");
    Ok(written)
}

fn line(
    rt: &impl Abort,
    alloc: Global,
    words: &[&str],
    figures: &Figures,
) -> Result<Vec<u8>, Fail> {
    let words = words_of(alloc, words)?;
    let mut written = Vec::new(alloc);
    let mut writer = FromWrite::new(&mut written);
    write_counted(Columns::Plain, &words, figures, &mut writer).expect(rt, "a line");
    Ok(written)
}

#[test]
fn heads_come_first(rt: HostRuntime) -> Result<(), Fail> {
    let written = heads(&rt, rt.alloc(), &[])?;
    assert!(rt; written.as_slice() == HEADS.as_bytes());
    Ok(())
}

#[test]
fn names_come_before_the_heads(rt: HostRuntime) -> Result<(), Fail> {
    let written = heads(&rt, rt.alloc(), &["l1-dsize", "l1-dassoc"])?;
    assert!(rt;
        written
            .as_slice()
            .starts_with(b"l1-dsize\tl1-dassoc\tl1-icache-fetches\t")
    );
    Ok(())
}

#[test]
fn figures_are_in_their_columns(rt: HostRuntime) -> Result<(), Fail> {
    let written = line(&rt, rt.alloc(), &["1k", "2"], &figures())?;
    let expected = concat!(
        "1k\t2\t3\t1\t0.333333\t4\t5\t6\t7\t8\t9\t10\t11\t",
        "43210\t43210\t1.000000\t0\t0\t0\t12\t18446744073709551615\t0\t0\t0\t",
        "0\t0\t0.000000\t0\t0\t0\t0\t0\t0\t0\t0\t-\n",
    );
    assert!(rt; written.as_slice() == expected.as_bytes());
    Ok(())
}

#[test]
fn rates_are_rounded_down(rt: HostRuntime) -> Result<(), Fail> {
    let mut wanted = figures();
    for (misses, fetches, rate) in [
        (2, 3, "0.666666"),
        (1, 2_000_000, "0.000000"),
        (1, 1_000_000, "0.000001"),
        (1, 16, "0.062500"),
        (7, 2, "3.500000"),
    ] {
        wanted.totals.i.misses = instrs(misses);
        wanted.totals.i.fetches = instrs(fetches);
        let written = line(&rt, rt.alloc(), &[], &wanted)?;
        let text = str::from_utf8(&written)?;
        assert_eq!(rt; text.split('\t').nth(2), Some(rate));
    }
    Ok(())
}

#[test]
fn hyphens_stand_for_the_figures_of_a_refused_row(rt: HostRuntime) -> Result<(), Fail> {
    let words = words_of(rt.alloc(), &["3"])?;
    let mut written = Vec::new(rt.alloc());
    write_refused(
        Columns::Plain,
        &words,
        "l1-dsize: not a power of two",
        &mut FromWrite::new(&mut written),
    )?;
    let expected = concat!(
        "3\t-\t-\t-\t-\t-\t-\t-\t-\t-\t-\t-",
        "\t-\t-\t-\t-\t-\t-\t-\t-\t-\t-\t-",
        "\t-\t-\t-\t-\t-\t-\t-\t-\t-\t-\t-",
        "\tl1-dsize: not a power of two\n",
    );
    assert!(rt; written.as_slice() == expected.as_bytes());
    Ok(())
}
