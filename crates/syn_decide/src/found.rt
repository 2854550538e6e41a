//! What the loads of a commit found behind its walk, and the room in which it reckons.

ghost use Rattle.std.specs.Prelude.{◌<◌, All};
ghost use Rattle.syn_rows.specs.declared.TheConstants.{NODE_LIMIT};

use crate::mffc::CountedRoom;
use crate::place::Placed;
use crate::words::Words;
use crate::{MAX_INNER, NodeRow};
use arrayvec::ArrayVec;
use syn_plan::MAX_GATES;

/// What the loads of keys, hints and counts found.
#[derive(Debug, Drop)]
pub(crate) struct Found {
    /// The greatest key among the used leaves and the hits; 0 where there is none.
    pub(crate) low: u64,
    /// The root's key, once it is loaded.
    pub(crate) high: u64,
    /// The hits, with their rows.
    pub(crate) hits: ArrayVec<NodeRow, MAX_GATES>,
    /// For the first of the inner rows, how many references to each are not the seat's own pins.
    pub(crate) counts: ArrayVec<u32, MAX_INNER>,
    ghost hits_are_nodes: { All (λ h. h.node < NODE_LIMIT) hits.items },
}

impl Found {
    /// Nothing.
    pub(crate) fn new() -> Found {
        Found {
            low: 0,
            high: 0,
            hits: ArrayVec::new(),
            counts: ArrayVec::new(),
        }
    }
}

/// Room to reckon in. It is some forty thousand bytes, so it is made once, filled in place and lent.
#[derive(Debug, Drop)]
pub(crate) struct Desk {
    /// For what the gates of the plan become.
    pub(crate) placed: Placed,
    /// For the tables of the inner rows.
    pub(crate) words: Words,
    /// For the rows that die.
    pub(crate) room: CountedRoom,
}

impl Desk {
    /// Room, and nothing in it.
    pub(crate) fn new() -> Desk {
        Desk {
            placed: Placed::new(),
            words: Words::new(),
            room: CountedRoom::new(),
        }
    }
}
