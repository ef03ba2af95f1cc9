//! Failing allocations. Each test passes if there is enough memory. If an allocation is refused, it
//! checks the state after that, and then fails with the name of the refusal and nothing else.

use super::fakes::END;
use super::same;
use super::sources::{Found, Text, answer, has, has_records, next, rest, source_of};
use super::texts::in_memory;
use din_trace::{DinRecord, Label, MAX_LIMIT, TraceFault, Why};
use std::alloc::Global;
use std::process::Abort;
use std::test::Fail;

static TWELVE: &str = "2 0\n2 0\n2 0\n2 0\n2 0\n2 0\n2 0\n2 0\n2 0\n2 0\n2 0\n2 0\n";

static FETCHES: [(Label, u64); 12] = [(Label::Instr, 0); 12];

/// What was read has to be these records, or this fault, unless an allocation fails. The answer is
/// the fault that came.
fn is_read(
    rt: &impl Abort,
    came: Result<Vec<DinRecord>, TraceFault>,
    (records, end): Text<'_>,
    case: &str,
) -> Option<TraceFault> {
    match came {
        Ok(found) => {
            assert!(rt; answer(end) == Ok(None));
            has_records(rt, found.as_slice(), records, case);
            None
        }
        Err(fault) => {
            assert!(rt; answer(end) == Err(fault) || fault == TraceFault::Memory);
            Some(fault)
        }
    }
}

/// Passes `TraceFault::Memory` on as an error, and accepts any other fault.
fn unless_memory(fault: Option<TraceFault>) -> Result<(), TraceFault> {
    match fault {
        Some(TraceFault::Memory) => Err(TraceFault::Memory),
        _ => Ok(()),
    }
}

/// A text in pieces has to leave these records, or this fault, and to repeat that. If an allocation
/// fails instead, that has to be repeated.
fn leaves(rt: &impl Abort, alloc: Global, text: &str, want: Text<'_>) -> Result<(), TraceFault> {
    let mut source = source_of((text, "", END), 5, MAX_LIMIT);
    let fault = is_read(rt, rest(alloc, &mut source), want, text);
    let end = match fault {
        None => Ok(None),
        Some(fault) => Err(fault),
    };
    same(rt, &next(&mut source), &end, text, 1);
    same(rt, &rest(alloc, &mut source).err(), &fault, text, 2);
    same(rt, &next(&mut source), &end, text, 3);
    unless_memory(fault)
}

/// A text has to give these records, or this fault, unless an allocation fails.
fn reads(
    rt: &impl Abort,
    alloc: Global,
    text: &str,
    limit: u64,
    want: Text<'_>,
) -> Result<(), TraceFault> {
    unless_memory(is_read(rt, in_memory(alloc, text, limit), want, text))
}

#[test]
fn all_records_are_left_or_memory_is_wanted(rt: HostRuntime) -> Result<(), Fail> {
    Ok(leaves(&rt, rt.alloc(), TWELVE, (&FETCHES, Found::Nothing))?)
}

#[test]
fn a_fault_behind_records_is_left_or_memory_is_wanted(rt: HostRuntime) -> Result<(), Fail> {
    let text = "2 0\n2 0\n2 0\n2 0\n2 0\n2\n2 0\n";
    Ok(leaves(&rt, rt.alloc(), text, (&[], Found::Bad(6, Why::Gap)))?)
}

#[test]
fn a_text_has_its_records_or_memory_is_wanted(rt: HostRuntime) -> Result<(), Fail> {
    Ok(reads(
        &rt,
        rt.alloc(),
        TWELVE,
        MAX_LIMIT,
        (&FETCHES, Found::Nothing),
    )?)
}

#[test]
fn a_text_is_too_long_or_memory_is_wanted(rt: HostRuntime) -> Result<(), Fail> {
    Ok(reads(&rt, rt.alloc(), TWELVE, 40, (&[], Found::TooLong))?)
}

#[test]
fn no_memory_is_wanted_for_a_fault_before_all_records(rt: HostRuntime) {
    let mut source = source_of(("\n2\n2 0\n", "", END), 5, MAX_LIMIT);
    has(
        &rt,
        rest(rt.alloc(), &mut source),
        (&[], Found::Bad(2, Why::Gap)),
        "",
    );
    let came = in_memory(rt.alloc(), "9 0\n2 0\n", MAX_LIMIT);
    has(&rt, came, (&[], Found::Bad(1, Why::Label)), "");
}
