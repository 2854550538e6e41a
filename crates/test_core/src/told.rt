//! What seats do at nodes, told as events, and what is left behind them.

use arrayvec::ArrayVec;
use std::alloc::{AllocError, Global};
use syn_core::{Event, EventKind, State, StepFault};
use syn_rows::{Lit, Row};

/// What a seat does at a node.
#[derive(Clone, Copy)]
pub enum Act {
    /// Claims it.
    Claim,
    /// Claims it, and loads its row.
    Take,
    /// Finds that another seat holds it.
    Miss,
    /// Loads its row, once more.
    Row,
    /// Loads its key.
    Key,
    /// Loads its count.
    Count,
    /// Pins it.
    Pin,
    /// Pins it, and loads its key.
    PinAndKey,
    /// Pins a node for each place of this row, stores this key, and makes the row.
    Make(u64, Row),
    /// Pins a node for each place of this row, and redefines to it over the nodes 1 to 3.
    Redefine(Row),
    /// Takes a pin back.
    Unpin,
    /// Frees it.
    Free,
    /// Lets it go.
    Release,
}

/// Acts in order, each at these nodes, one after the other.
pub type Acts<'a> = &'a [(Act, &'a [u32])];

// One more event of the seat.
fn add(events: &mut Vec<Event>, seat: u8, kind: EventKind) -> Result<(), AllocError> {
    events.push(Event { seat, kind })?;
    Ok(())
}

// A pin for each place of the row.
fn add_pins(events: &mut Vec<Event>, seat: u8, row: Row) -> Result<(), AllocError> {
    match row {
        Row::Free | Row::Source => Ok(()),
        Row::And(first, second) => {
            add(events, seat, EventKind::Pin(first.node()))?;
            add(events, seat, EventKind::Pin(second.node()))
        }
        Row::Alias(only) => add(events, seat, EventKind::Pin(only.node())),
    }
}

// The nodes of the three inputs.
fn inputs() -> ArrayVec<u32, 8> {
    let mut inputs = ArrayVec::new();
    for node in [1, 2, 3] {
        let _ = inputs.try_push(node);
    }
    inputs
}

// The events of one act at one node.
fn add_act(events: &mut Vec<Event>, seat: u8, act: Act, node: u32) -> Result<(), AllocError> {
    match act {
        Act::Claim => add(events, seat, EventKind::Claim(node)),
        Act::Take => {
            add(events, seat, EventKind::Claim(node))?;
            add(events, seat, EventKind::LoadRow(node))
        }
        Act::Miss => add(events, seat, EventKind::ClaimFailed(node)),
        Act::Row => add(events, seat, EventKind::LoadRow(node)),
        Act::Key => add(events, seat, EventKind::LoadKey(node)),
        Act::Count => add(events, seat, EventKind::LoadCount(node)),
        Act::Pin => add(events, seat, EventKind::Pin(node)),
        Act::PinAndKey => {
            add(events, seat, EventKind::Pin(node))?;
            add(events, seat, EventKind::LoadKey(node))
        }
        Act::Make(key, row) => {
            add_pins(events, seat, row)?;
            add(events, seat, EventKind::SetKey(node, key))?;
            add(events, seat, EventKind::Make(node, row))
        }
        Act::Redefine(row) => {
            add_pins(events, seat, row)?;
            add(events, seat, EventKind::Redefine(node, row, inputs()))
        }
        Act::Unpin => add(events, seat, EventKind::Unpin(node)),
        Act::Free => add(events, seat, EventKind::Free(node)),
        Act::Release => add(events, seat, EventKind::Release(node)),
    }
}

// The events of one act at each of the nodes.
fn add_acts(events: &mut Vec<Event>, seat: u8, act: Act, nodes: &[u32]) -> Result<(), AllocError> {
    for node in nodes {
        add_act(events, seat, act, *node)?;
    }
    Ok(())
}

/// The seat's events.
pub fn told(alloc: Global, seat: u8, acts: Acts<'_>) -> Result<Vec<Event>, AllocError> {
    let mut events = Vec::new(alloc);
    for (act, nodes) in acts {
        add_acts(&mut events, seat, *act, nodes)?;
    }
    Ok(events)
}

// Whether the event is forbidden.
fn is_forbidden(state: &mut State, seat: u8, kind: EventKind) -> bool {
    matches!(
        state.step(&Event { seat, kind }),
        Err(StepFault::NotAllowed)
    )
}

/// Whether the seat holds these of the nodes below 64 alone, has none of them pinned, and none on its zero list.
///
/// A pin can be taken back, and without pins a node on the zero list can be freed.
pub fn rests(state: &mut State, seat: u8, pool: &[u32]) -> bool {
    for node in 0u32..64 {
        let holds = state.claim(node) == u32::from(seat) + 1;
        let unpinned = is_forbidden(state, seat, EventKind::Unpin(node));
        let referred = is_forbidden(state, seat, EventKind::Free(node));
        if holds != pool.contains(&node) || !unpinned || !referred {
            return false;
        }
    }
    true
}

/// Whether the nodes below 64 have the same words in both states.
pub fn same_words(before: &State, after: &State) -> bool {
    for node in 0u32..64 {
        let claims = before.claim(node) == after.claim(node);
        let rows = before.row(node) == after.row(node);
        let counts = before.count(node) == after.count(node);
        let keys = before.key(node) == after.key(node);
        if !(claims && rows && counts && keys) {
            return false;
        }
    }
    true
}
