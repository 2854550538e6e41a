//! The worked graph: a = 1, b = 2, c = 3, 4 = And(2, 4), 5 = And(2, 6), 6 = And(9, 11), observed 13.

use std::alloc::{AllocError, Global};
use syn_core::{Event, EventKind, ReplayFault, State, opening, replay};
use syn_rows::{Lit, Row};

/// The opening with two seats, and one spare node, 7.
pub fn start(alloc: Global) -> Result<State, AllocError> {
    let rows = [
        Row::Source,
        Row::Source,
        Row::Source,
        Row::Source,
        Row::And(Lit(2), Lit(4)),
        Row::And(Lit(2), Lit(6)),
        Row::And(Lit(9), Lit(11)),
    ];
    opening(alloc, &rows, &[Lit(13)], &[0, 0, 0, 0, 1, 1, 2], 1, 2)
}

/// The index of the first forbidden event.
pub fn forbidden(alloc: Global, events: &[Event]) -> Result<Option<usize>, ReplayFault> {
    match replay(&start(alloc)?, events) {
        Ok(_) => Ok(None),
        Err(ReplayFault::NotAllowed(index)) => Ok(Some(index)),
        Err(fault) => Err(fault),
    }
}

/// An event of the first seat.
pub fn a(kind: EventKind) -> Event {
    Event { seat: 0, kind }
}

/// An event of the second.
pub fn b(kind: EventKind) -> Event {
    Event { seat: 1, kind }
}
