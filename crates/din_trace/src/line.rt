//! One line, read byte by byte.

ghost use Rattle.std.specs.Prelude.{◌≡◌, ◌<◌, true, false, [], MatchOption};
ghost use Rattle.std.specs.Char.{digit_value};
ghost use Rattle.din_trace.specs.Line.{is_blank, is_label, label_of, is_hex};
ghost use Rattle.din_trace.specs.LineSoFar.{IsNext, form_from, form_answer, begun};
ghost use Rattle.din_trace.specs.Line.{ADDRESS_MAX};

use crate::digits::digit;
use crate::fault::Why;
use crate::record::{DinRecord, Label};

/// What was read of a line, as far as it decides the line's form.
#[derive(Clone, Copy, Debug, PartialEq, Eq)]
pub enum LineSoFar {
    /// Nothing.
    Empty,
    /// Leading blanks.
    Blanks,
    /// Up to the label.
    Labeled(Label),
    /// Up to a blank of the gap after the label.
    Gap(Label),
    /// Up to a `0` right after the gap, which may begin `0x`.
    Zero(Label),
    /// Up to `0x` or `0X`.
    Prefixed(Label),
    /// Up to a digit of the address. If the line ends here, it holds this record.
    Digits(DinRecord),
    /// Up to a blank after the address. Whatever follows, the line holds this record.
    Record(DinRecord),
    /// Up to a byte that makes the line faulty, or beyond it.
    Faulty(Why),
}

/// An address of this size or more cannot take one more digit: it would exceed 64 bits.
const FULL: u64 = 1 << 60;

/// Whether the byte is a space, a tab or a CR.
#[tactic(auto, unfolding(crate::specs::Line::is_blank))]
pub fn is_blank(byte: u8) -> bool
    ensures { result ≡ is_blank byte }
{
    matches!(byte, b' ' | b'\t' | b'\r')
}

/// The label of a digit 0 to 4, or `None` for any other byte.
#[tactic(auto, unfolding(crate::specs::Line::is_label, crate::specs::Line::label_of))]
pub fn label(byte: u8) -> Option<Label>
    ensures { MatchOption result (is_label byte ≡ false)
        (λ l. (is_label byte ≡ true) × (l ≡ label_of byte)) }
{
    match byte {
        b'0' => Some(Label::Read),
        b'1' => Some(Label::Write),
        b'2' => Some(Label::Instr),
        b'3' => Some(Label::Misc),
        b'4' => Some(Label::Flush),
        _ => None,
    }
}

/// The value of a hexadecimal digit, or `None` for any other byte.
#[tactic(auto, unfolding(crate::specs::Line::is_hex))]
fn hex_digit(byte: u8) -> Option<u32>
    ensures { MatchOption result (is_hex byte ≡ false)
        (λ value. (is_hex byte ≡ true) × (value ≡ digit_value byte) × (value < 16)) }
{
    let value = digit(byte);
    if value < 16 { Some(value as u32) } else { None }
}

/// The state after a leading blank, or after the first byte that follows the leading blanks.
fn at_start(byte: u8) -> LineSoFar
    ensures form { IsNext LineSoFar.Blanks byte result }
    ensures begun { begun result ≡ 1 }
{
    if is_blank(byte) {
        return LineSoFar::Blanks;
    }
    match label(byte) {
        Some(label) => LineSoFar::Labeled(label),
        None => LineSoFar::Faulty(Why::Label),
    }
}

/// The state after the byte that has to be the first digit of the address.
fn at_address(label: Label, byte: u8) -> LineSoFar
    ensures form { IsNext (LineSoFar.Prefixed label) byte result }
    ensures begun { begun result ≡ 1 }
{
    match hex_digit(byte) {
        Some(digit) => LineSoFar::Digits(DinRecord {
            label,
            addr: digit as u64,
        }),
        None => LineSoFar::Faulty(Why::Address),
    }
}

/// The state after a byte that follows a digit of the address.
fn at_digit(last: DinRecord, byte: u8) -> LineSoFar
    ensures form { IsNext (LineSoFar.Digits last) byte result }
    ensures begun { begun result ≡ 1 }
{
    match hex_digit(byte) {
        Some(digit) => {
            if last.addr < FULL {
                LineSoFar::Digits(DinRecord {
                    label: last.label,
                    addr: 16 * last.addr + digit as u64,
                })
            } else {
                LineSoFar::Faulty(Why::Range)
            }
        }
        None => {
            if is_blank(byte) {
                LineSoFar::Record(last)
            } else {
                LineSoFar::Faulty(Why::Tail)
            }
        }
    }
}

/// The state of the line after one more byte, which is not an LF.
pub fn next(so_far: LineSoFar, byte: u8) -> LineSoFar
    ensures form { IsNext so_far byte result }
    ensures begun { begun result ≡ 1 }
{
    match so_far {
        LineSoFar::Empty => at_start(byte),
        LineSoFar::Blanks => at_start(byte),
        LineSoFar::Labeled(label) => {
            if is_blank(byte) {
                LineSoFar::Gap(label)
            } else {
                LineSoFar::Faulty(Why::Gap)
            }
        }
        LineSoFar::Gap(label) => {
            if is_blank(byte) {
                LineSoFar::Gap(label)
            } else if byte == b'0' {
                LineSoFar::Zero(label)
            } else {
                at_address(label, byte)
            }
        }
        LineSoFar::Zero(label) => {
            if byte == b'x' || byte == b'X' {
                LineSoFar::Prefixed(label)
            } else {
                at_digit(DinRecord { label, addr: 0 }, byte)
            }
        }
        LineSoFar::Prefixed(label) => at_address(label, byte),
        LineSoFar::Digits(last) => at_digit(last, byte),
        LineSoFar::Record(whole) => LineSoFar::Record(whole),
        LineSoFar::Faulty(why) => LineSoFar::Faulty(why),
    }
}

/// The record of the line if it ends here, `None` if it is blank, or what is wrong with it.
#[tactic(auto, unfolding(crate::specs::Line::form, crate::specs::Line::is_hex))]
pub fn judge(so_far: LineSoFar) -> Result<Option<DinRecord>, Why>
    ensures { result ≡ form_answer (form_from ADDRESS_MAX so_far []) }
{
    match so_far {
        LineSoFar::Empty => Ok(None),
        LineSoFar::Blanks => Ok(None),
        LineSoFar::Labeled(_) => Err(Why::Gap),
        LineSoFar::Gap(_) => Err(Why::Address),
        LineSoFar::Zero(label) => Ok(Some(DinRecord { label, addr: 0 })),
        LineSoFar::Prefixed(_) => Err(Why::Address),
        LineSoFar::Digits(last) => Ok(Some(last)),
        LineSoFar::Record(whole) => Ok(Some(whole)),
        LineSoFar::Faulty(why) => Err(why),
    }
}
