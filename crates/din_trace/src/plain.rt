//! A fast path for plain lines: a label, blanks, an optional `0x`, 1 to 16 digits, and an optional
//! comment, all of it in the buffer. Most lines of most traces are plain.

ghost use Rattle.std.specs.Prelude.{◌≡◌, ℕ, ◌+◌, ◌<◌, ◌≤◌, List, ◌++◌, IfSome, length, drop};
ghost use Rattle.std.specs.Prelude.{slice_index_or};
ghost use Rattle.din_trace.specs.Line.{hex_value, IsComment};
ghost use Rattle.din_trace.specs.Plain.{BeginsWithLine, IsPrefix, Blanks, Digits, Others};

use crate::digits::digit;
use crate::line::{is_blank, label};
use crate::record::DinRecord;

/// The most bytes that the address of a plain line and the byte after it take: `0x`, 16 digits, and
/// that byte.
const WINDOW: usize = 19;

/// The record of the line at the start, and how many bytes that line has with its LF. The line has
/// to be a label, blanks, an optional `0x`, 1 to 16 digits, and an optional comment. The answer is
/// `None` for any other line, and if too few bytes are held.
#[inline(always)]
pub fn plain_line(bytes: &[u8]) -> Option<(DinRecord, usize)>
    ensures line { IfSome result (λ found. BeginsWithLine bytes.now found.0 found.1) }
    ensures count { IfSome result (λ found. (0 < found.1) × (found.1 ≤ length bytes.now)) }
{
    if bytes.len() < 2 + WINDOW {
        return None;
    }
    let Some(label) = label(bytes[0]) else {
        return None;
    };
    let gap = gap_end(bytes)?;
    let start = digits_start(bytes, gap);
    let (addr, end) = address(bytes, start);
    if end == start {
        return None;
    }
    let lf = line_end(bytes, end)?;
    Some((DinRecord { label, addr }, lf + 1))
}

/// Where the blanks after the label end. `None` if there is no blank, or if too few bytes follow.
fn gap_end(bytes: &[u8]) -> Option<usize>
    requires { 21 ≤ length bytes.now }
    ensures blanks { IfSome result (λ gap. Blanks bytes.now 1 gap) }
    ensures bounds { IfSome result (λ gap. (1 < gap) × (gap + 19 ≤ length bytes.now)) }
{
    // Most gaps are one space, which this test takes faster than the loop.
    if bytes[1] == b' ' && bytes[2] > b' ' {
        return Some(2);
    }
    let gap = blanks_end(bytes, 1);
    if gap > 1 && bytes.len() - gap >= WINDOW {
        Some(gap)
    } else {
        None
    }
}

/// Where the blanks end that begin at `start`.
fn blanks_end(bytes: &[u8], start: usize) -> usize
    requires { start ≤ length bytes.now }
    ensures blanks { Blanks bytes.now start result }
    ensures bound { result ≤ length bytes.now }
{
    let mut at = start;
    'blanks: while at < bytes.len() && is_blank(bytes[at]) {
        at += 1;
    }
    at
}

/// Where the digits of the address start: after `0x` or `0X`, if that is at `at`, and else at `at`.
fn digits_start(bytes: &[u8], at: usize) -> usize
    requires { at + 2 ≤ length bytes.now }
    ensures prefix { (prefix : List ℕ) × IsPrefix prefix × (result ≡ at + length prefix)
        × (drop at bytes.now ≡ prefix ++ drop result bytes.now) }
    ensures bound { result ≤ at + 2 }
{
    if bytes[at] == b'0' && (bytes[at + 1] == b'x' || bytes[at + 1] == b'X') {
        at + 2
    } else {
        at
    }
}

/// The address whose digits begin at `start`, and where they end. At most 16 digits are taken.
#[inline(always)]
fn address(bytes: &[u8], start: usize) -> (u64, usize)
    requires { start + 17 ≤ length bytes.now }
    ensures digits { (digits : Digits bytes.now start result.1)
        × (result.0 ≡ hex_value digits.run) }
    ensures bound { result.1 ≤ start + 16 }
{
    let mut addr = 0u64;
    let mut at = start;
    'digits: while at - start < 16 {
        let next = digit(bytes[at]);
        if next >= 16 {
            break;
        }
        addr = 16 * addr + next as u64;
        at += 1;
    }
    (addr, at)
}

/// The index of the LF that ends the line, if nothing or a comment is between `start` and it.
fn line_end(bytes: &[u8], start: usize) -> Option<usize>
    requires { start < length bytes.now }
    ensures comment { IfSome result (λ lf. (comment : Others bytes.now start lf)
        × IsComment comment.run) }
    ensures lf { IfSome result (λ lf.
        (lf < length bytes.now) × (slice_index_or bytes.now lf 0 ≡ 10)) }
{
    if bytes[start] == b'\n' {
        return Some(start);
    }
    let lf = first_lf(bytes, start + 1)?;
    if is_blank(bytes[start]) {
        Some(lf)
    } else {
        None
    }
}

/// The index of the first LF from `start` on.
fn first_lf(bytes: &[u8], start: usize) -> Option<usize>
    requires { start ≤ length bytes.now }
    ensures before { IfSome result (λ lf. Others bytes.now start lf) }
    ensures lf { IfSome result (λ lf.
        (lf < length bytes.now) × (slice_index_or bytes.now lf 0 ≡ 10)) }
{
    let mut at = start;
    'bytes: while at < bytes.len() {
        if bytes[at] == b'\n' {
            return Some(at);
        }
        at += 1;
    }
    None
}
