//! Lists of events, from a state on.

ghost use Rattle.std.specs.Prelude.{◌≡◌, IfOk, IfErr, OnOk};
ghost use Rattle.syn_core.specs.Refusals.{Refuses, RefusesHere};
ghost use Rattle.syn_core_laws.specs.Runs.{Steps, Runs, SoundAlong};
ghost use Rattle.syn_core_laws.specs.Sound.{IsSound};

use crate::states::State;
use crate::{ReplayFault, StepFault};
use syn_core_laws::Event;

// One event of a list, at this index.
fn replay_one(state: &mut State, event: &Event, index: usize) -> Result<(), ReplayFault>
    ensures ok { OnOk result (Steps state.old event.now state.new) }
    ensures refused { IfErr result (RefusesHere state.old event.now index) }
{
    match state.step(event) {
        Ok(()) => Ok(()),
        Err(StepFault::NotAllowed) => Err(ReplayFault::NotAllowed(index)),
        Err(StepFault::NoMemory) => Err(ReplayFault::NoMemory),
    }
}

// The events, in order.
fn replay_all(start: &State, events: &[Event]) -> Result<State, ReplayFault>
    ensures ok { IfOk result (λ s. Runs start.now events.now s) }
    ensures refused { IfErr result (Refuses start.now events.now) }
{
    let mut state = start.copied()?;
    for (index, event) in events.iter().enumerate() {
        match replay_one(&mut state, event, index) {
            Ok(()) => {}
            Err(fault) => return Err(fault),
        }
    }
    Ok(state)
}

/// The state after the events; or the index of the first event that is forbidden after those before it.
///
/// From a sound state, as the opening of a graph is, each state on the way is sound.
pub fn replay(start: &State, events: &[Event]) -> Result<State, ReplayFault>
    ensures ok { IfOk result (λ s. Runs start.now events.now s) }
    ensures refused { IfErr result (Refuses start.now events.now) }
    ensures sound { IsSound start.now → IfOk result (λ s. IsSound s) }
    ensures along { IsSound start.now → SoundAlong start.now events.now }
{
    replay_all(start, events)
}
