//! The core machine of a shared and-inverter graph: a pure state machine over atomic steps.
#![tactic(auto)]

ghost use Rattle.std.specs.Prelude.{◌≡◌};
ghost use Rattle.syn_core.specs.Conditions.{SeatsAreRead};
ghost use Rattle.syn_core.specs.declared.StepFault.TheVariants as Fault;
ghost use Rattle.syn_core.specs.declared.ReplayFault.TheVariants as Replay;

mod conditions;
mod lists;
mod openings;
mod replays;
mod seat_views;
mod states;
mod steps;
mod values;

pub use openings::opening;
pub use replays::replay;
pub use states::State;
use std::alloc::{AllocError, AllocFailed};
pub use syn_core_laws::{Change, Event, EventKind, Seen, View};

/// Why a step is refused.
#[derive(Clone, Copy, Debug, PartialEq, Eq)]
pub enum StepFault {
    /// The event is forbidden in this state.
    NotAllowed,
    /// Memory is wanting.
    NoMemory,
}

/// Why a replay is refused.
#[derive(Clone, Copy, Debug, PartialEq, Eq)]
pub enum ReplayFault {
    /// The event at this index is the first that is forbidden after those before it.
    NotAllowed(usize),
    /// Memory is wanting.
    NoMemory,
}

impl From<AllocError> for ReplayFault {
    ghost from_gives = { λ _ e. e ≡ Replay.NoMemory };

    fn from(_e: AllocError) -> ReplayFault {
        ReplayFault::NoMemory
    }
}

impl<T: Drop> From<AllocFailed<T>> for ReplayFault {
    ghost from_gives = { λ _ e. e ≡ Replay.NoMemory };

    fn from(_e: AllocFailed<T>) -> ReplayFault {
        ReplayFault::NoMemory
    }
}

impl From<AllocError> for StepFault {
    ghost from_gives = { λ _ e. e ≡ Fault.NoMemory };

    fn from(_e: AllocError) -> StepFault {
        StepFault::NoMemory
    }
}

/// An event is allowed just where its seat is there and has a number below 64, its node is there,
/// and the event's own condition holds at that seat.
pub fn seats_are_read()
    ensures { SeatsAreRead }
{}
