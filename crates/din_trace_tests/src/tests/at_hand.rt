//! What a source has at hand, and where it asks its reader.

use super::fakes::{END, FAIL, INTERRUPTED, WHOLE};
use super::sources::{Call, Found, Row, ask, source_of};
use din_trace::{Label, MAX_LIMIT, Why};

/// With the size of the pieces, and the limit.
static AT_HAND: [(Row, usize, u64); 7] = [
    // An interrupted read is a failed one.
    (
        (
            ("", "2 0\n", INTERRUPTED),
            &[
                Call::Next(Found::Unread),
                Call::Next(Found::Unread),
                Call::Next(Found::Unread),
            ],
        ),
        WHOLE,
        MAX_LIMIT,
    ),
    // The reader is asked only where no line waits.
    (
        (
            ("2 0\n2 4\n", "", FAIL),
            &[
                Call::Next(Found::Record(Label::Instr, 0)),
                Call::Next(Found::Record(Label::Instr, 4)),
                Call::Next(Found::Unread),
                Call::Next(Found::Unread),
            ],
        ),
        WHOLE,
        MAX_LIMIT,
    ),
    // What was given whole is at hand.
    (
        (
            ("2 0\n\n2 4\n2 8\n", "", FAIL),
            &[
                Call::AtHand(None),
                Call::Next(Found::Record(Label::Instr, 0)),
                Call::AtHand(Some(Found::Record(Label::Instr, 4))),
                Call::Next(Found::Record(Label::Instr, 8)),
                Call::AtHand(None),
                Call::Next(Found::Unread),
                Call::AtHand(Some(Found::Unread)),
            ],
        ),
        WHOLE,
        MAX_LIMIT,
    ),
    // In blank lines, nothing is at hand.
    (
        (
            ("2 0\n\n \t\n\r\n", "", END),
            &[
                Call::Next(Found::Record(Label::Instr, 0)),
                Call::AtHand(None),
                Call::AtHand(None),
                Call::Next(Found::Nothing),
                Call::AtHand(Some(Found::Nothing)),
                Call::AtHand(Some(Found::Nothing)),
            ],
        ),
        WHOLE,
        MAX_LIMIT,
    ),
    // Nor in half a line.
    (
        (
            ("2 0\n2 4c\n2 5", "", END),
            &[
                Call::Next(Found::Record(Label::Instr, 0)),
                Call::AtHand(None),
                Call::AtHand(None),
                Call::Next(Found::Record(Label::Instr, 0x4c)),
                Call::AtHand(None),
                Call::Next(Found::Record(Label::Instr, 5)),
                Call::AtHand(Some(Found::Nothing)),
            ],
        ),
        6,
        MAX_LIMIT,
    ),
    // Faults are at hand.
    (
        (
            ("2 0\n2\n2 4\n", "", END),
            &[
                Call::Next(Found::Record(Label::Instr, 0)),
                Call::AtHand(Some(Found::Bad(2, Why::Gap))),
                Call::AtHand(Some(Found::Bad(2, Why::Gap))),
            ],
        ),
        WHOLE,
        MAX_LIMIT,
    ),
    (
        (
            ("2 0\n2 4\n", "", END),
            &[
                Call::Next(Found::Record(Label::Instr, 0)),
                Call::AtHand(Some(Found::TooLong)),
                Call::Next(Found::TooLong),
            ],
        ),
        WHOLE,
        4,
    ),
];

#[test]
fn has_at_hand_what_was_given_and_asks_for_no_more(rt: HostRuntime) {
    for ((reader, calls), size, limit) in &AT_HAND {
        ask(
            &rt,
            &mut source_of(*reader, *size, *limit),
            *calls,
            reader.0,
        );
    }
}
