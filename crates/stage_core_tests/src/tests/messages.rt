//! Records and messages, as literals in a line.

/// A record.
macro_rules! record {
    ($label:ident, $addr:expr) => {
        din_trace::DinRecord {
            label: din_trace::Label::$label,
            addr: $addr,
        }
    };
}

/// A reference as a stage gets it.
macro_rules! refers {
    ($place:expr, $class:ident, $addr:expr) => {
        stage_core::ToStage::Ref {
            place: $place,
            class: cache_core::Class::$class,
            addr: $addr,
        }
    };
}

/// A request that a stage sends: at this place, the part with this number.
macro_rules! part {
    ($place:expr, $part:expr, $what:expr) => {
        stage_core::FromStage::Part {
            place: $place,
            part: $part,
            what: $what,
        }
    };
}

pub(super) use part;
pub(super) use record;
pub(super) use refers;
