//! Failing allocations. Each test passes if there is enough memory. If an allocation is refused,
//! also one for the words themselves, it fails with the name of the refusal and nothing else.

use super::grids::{expect_data_caches, parsed, words_of};
use super::refusals::UNREAD;
use dinero_options::{Opt, WordsFault};
use grid_options::{GridWordsFault, ParsedGrid, grid_help_text, grid_refusal_text};
use std::process::Abort;
use std::test::Fail;

/// What the tests answer if an allocation fails. No other fault may be passed on like this.
fn wants_memory(rt: &impl Abort, fault: GridWordsFault) -> Result<(), WordsFault> {
    assert!(rt; fault == GridWordsFault::Words(WordsFault::Memory));
    Err(WordsFault::Memory)
}

/// The words have to be refused for this reason, unless an allocation fails.
fn is_refused(
    rt: &impl Abort,
    answer: Result<ParsedGrid, GridWordsFault>,
    want: GridWordsFault,
) -> Result<(), WordsFault> {
    assert!(rt; answer.is_err());
    match answer {
        Ok(_) => Ok(()),
        Err(fault) => {
            if fault == want {
                return Ok(());
            }
            wants_memory(rt, fault)
        }
    }
}

/// The grid has to have so many names and points, and each point as many words.
fn has_counts(rt: &impl Abort, grid: &ParsedGrid, names: usize, points: usize) {
    assert_eq!(rt; grid.names.len(), names);
    assert_eq!(rt; grid.points.len(), points);
    for point in grid.points.iter() {
        assert_eq!(rt; point.words.len(), names);
    }
}

#[test]
fn a_grid_is_read_or_memory_is_wanted(rt: HostRuntime) -> Result<(), Fail> {
    match parsed(rt.alloc(), "--l1-dsize 16,32 --l1-dassoc 1,2")? {
        Ok(grid) => {
            has_counts(&rt, &grid, 2, 4);
            expect_data_caches(&rt, &grid, &[(4, 4), (4, 2), (8, 8), (8, 4)]);
            Ok(())
        }
        Err(fault) => Ok(wants_memory(&rt, fault)?),
    }
}

#[test]
fn a_full_table_is_asked_for_or_memory_is_wanted(rt: HostRuntime) -> Result<(), Fail> {
    match parsed(rt.alloc(), "--l1-dsize 16,32 --full")? {
        Ok(grid) => {
            assert!(rt; grid.full);
            has_counts(&rt, &grid, 19, 2);
            Ok(())
        }
        Err(fault) => Ok(wants_memory(&rt, fault)?),
    }
}

#[test]
fn a_bad_value_is_named_or_memory_is_wanted(rt: HostRuntime) -> Result<(), Fail> {
    let answer = parsed(rt.alloc(), "--l1-dsize 16,x")?;
    let want = GridWordsFault::Words(WordsFault::Number(Opt::L1Dsize));
    Ok(is_refused(&rt, answer, want)?)
}

#[test]
fn bad_threads_are_named_or_memory_is_wanted(rt: HostRuntime) -> Result<(), Fail> {
    let answer = parsed(rt.alloc(), "--l1-dsize 16 --threads 1025")?;
    Ok(is_refused(&rt, answer, GridWordsFault::Threads)?)
}

#[test]
fn an_unknown_option_is_refused_or_memory_is_wanted(rt: HostRuntime) -> Result<(), Fail> {
    let answer = parsed(rt.alloc(), "--l1-dsize 16 --ring 2")?;
    Ok(is_refused(&rt, answer, UNREAD)?)
}

#[test]
fn the_refused_word_is_told_or_memory_is_wanted(rt: HostRuntime) -> Result<(), Fail> {
    let words = words_of(rt.alloc(), "--l1-dsize 16 --ring 2")?;
    let said = grid_refusal_text(rt.alloc(), words.as_slice())?.expect(&rt, "a text");
    assert_eq!(rt; said.as_str(), "unexpected argument '--ring' found");
    Ok(())
}

#[test]
fn the_help_names_every_option_but_the_rings_or_memory_is_wanted(
    rt: HostRuntime,
) -> Result<(), Fail> {
    let help = grid_help_text(rt.alloc())?;
    for option in Opt::ALL {
        assert_eq!(rt; help.as_str().contains(option.name()), option != Opt::Ring);
    }
    Ok(())
}
