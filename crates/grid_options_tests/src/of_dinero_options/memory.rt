//! Failing allocations. Each test passes if there is enough memory. If an allocation is refused,
//! also one for the words themselves, it fails with the name of the refusal and nothing else.

use super::words::{Answer, names_each_option, parsed, parsed_line, worked_caches};
use dinero_options::{Opt, WordsFault, help_text};
use std::alloc::Global;
use std::process::Abort;
use std::test::Fail;

/// The words have to be refused for this reason, unless an allocation fails.
fn is_refused(rt: &impl Abort, answer: Answer, want: WordsFault) -> Result<(), WordsFault> {
    let fault = answer.err();
    assert!(rt; fault == Some(want) || fault == Some(WordsFault::Memory));
    match fault {
        Some(WordsFault::Memory) => Err(WordsFault::Memory),
        _ => Ok(()),
    }
}

/// The worked words with these changes have to be refused for this reason, unless an allocation
/// fails.
fn refuses(
    rt: &impl Abort,
    alloc: Global,
    changes: &str,
    want: WordsFault,
) -> Result<(), WordsFault> {
    is_refused(rt, parsed(alloc, changes), want)
}

#[test]
fn the_worked_words_are_read_or_memory_is_wanted(rt: HostRuntime) -> Result<(), Fail> {
    let (config, selection) = parsed(rt.alloc(), "")?;
    assert!(rt; worked_caches(&config, selection));
    Ok(())
}

#[test]
fn a_bad_number_is_named_or_memory_is_wanted(rt: HostRuntime) -> Result<(), Fail> {
    Ok(refuses(&rt, rt.alloc(), "--ring two", WordsFault::Number(Opt::Ring))?)
}

#[test]
fn an_unknown_option_is_refused_or_memory_is_wanted(rt: HostRuntime) -> Result<(), Fail> {
    Ok(refuses(&rt, rt.alloc(), "--l3-usize 16", WordsFault::Words)?)
}

#[test]
fn a_missing_option_is_refused_or_memory_is_wanted(rt: HostRuntime) -> Result<(), Fail> {
    Ok(is_refused(&rt, parsed_line(rt.alloc(), ""), WordsFault::Words)?)
}

#[test]
fn help_is_asked_for_or_memory_is_wanted(rt: HostRuntime) -> Result<(), Fail> {
    Ok(refuses(&rt, rt.alloc(), "--help", WordsFault::Help)?)
}

#[test]
fn the_help_names_every_option_or_memory_is_wanted(rt: HostRuntime) -> Result<(), Fail> {
    let text = help_text(rt.alloc())?;
    assert!(rt; names_each_option(text.as_str()));
    Ok(())
}
