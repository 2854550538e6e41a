//! What latches have alike that can be one.

ghost use Rattle.std.specs.Prelude.{◌≡◌, ◌<◌, length, true};
ghost use Rattle.syn_netlist.specs.Kept.{control_number};
ghost use Rattle.syn_netlist.specs.Numbers.{all_below};
ghost use Rattle.syn_seq.specs.Keys.{key_by, trigger_of};

use syn_netlist::{Latch, LatchKind};
use syn_rows::Lit;

/// When a latch loads, by its type.
#[derive(Clone, Copy, Debug, PartialEq, Eq, Hash)]
pub(crate) enum Trigger {
    Untyped,
    Fe,
    Re,
    Ah,
    Al,
    As,
}

/// What latches have alike that can be one: what they load, when, and the value that they begin with.
#[derive(Clone, Copy, Debug, PartialEq, Eq, Hash)]
pub(crate) struct Key {
    pub(crate) feed: Lit,
    pub(crate) trigger: Trigger,
    pub(crate) control: Option<Lit>,
    pub(crate) init: u8,
}

// When a type loads.
fn trigger_of(kind: LatchKind) -> Trigger
    ensures { result ≡ trigger_of kind }
{
    match kind {
        LatchKind::Fe => Trigger::Fe,
        LatchKind::Re => Trigger::Re,
        LatchKind::Ah => Trigger::Ah,
        LatchKind::Al => Trigger::Al,
        LatchKind::As => Trigger::As,
    }
}

/// The key of a latch, by the literals of numbers.
pub(crate) fn key_of(lits: &[Lit], latch: Latch) -> Key
    requires feed { latch.feed < length lits.now }
    requires control { all_below (length lits.now) (control_number latch.kind) ≡ true }
    ensures { result ≡ key_by lits.now latch }
{
    let feed = lits[latch.feed as usize];
    let init = latch.init;
    match latch.kind {
        Some((kind, Some(control))) => Key {
            feed,
            trigger: trigger_of(kind),
            control: Some(lits[control as usize]),
            init,
        },
        Some((kind, None)) => Key {
            feed,
            trigger: trigger_of(kind),
            control: None,
            init,
        },
        None => Key {
            feed,
            trigger: Trigger::Untyped,
            control: None,
            init,
        },
    }
}
