// Refusals as they are shown, and which of two faults is told.
use std::alloc::{AllocError, Global};
use vcl_tree::{Fault, Refusal, VclError, one_order};

/// The number of a refusal, and how it is shown at a place.
pub fn refusal_shown(alloc: Global, row: &str) -> Result<String, AllocError> {
    let Fault { place, kind } = fault_of(row);
    let number = kind.number();
    let refused = VclError::Refused { kind, place };
    format!(in alloc; "{number} {refused}")
}

/// Whether the first of two faults is told before the second.
pub fn order_shown(alloc: Global, row: &str) -> Result<String, AllocError> {
    one_order();
    let (first, second) = row.split_once('|').unwrap_or((row, ""));
    let before = fault_of(first).comes_before(fault_of(second));
    format!(in alloc; "{before}")
}

// A place, and the cause that is told of it.
fn fault_of(row: &str) -> Fault {
    let (place, cause) = row.split_once(' ').unwrap_or((row, ""));
    Fault {
        place: place.parse::<u32>().unwrap_or(0),
        kind: refusal_named(cause),
    }
}

fn refusal_named(cause: &str) -> Refusal {
    match cause {
        "token" => Refusal::Token,
        "syntax" => Refusal::Syntax,
        "version" => Refusal::Version,
        "too_deep" => Refusal::TooDeep,
        "unknown" => Refusal::Unknown,
        "twice" => Refusal::Twice,
        "kind" => Refusal::Kind,
        "not_here" => Refusal::NotHere,
        "recursion" => Refusal::Recursion,
        "pattern" => Refusal::Pattern,
        "no_backend" => Refusal::NoBackend,
        _ => Refusal::TooLong,
    }
}
