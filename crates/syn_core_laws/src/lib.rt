//! The shared and-inverter graph as plain data: what a seat knows, its atomic steps, and the laws that every step keeps.
#![tactic(auto)]

ghost use Rattle.std.specs.Prelude.{◌≡◌};
ghost use Rattle.syn_core_laws.specs.Bounds.{NodesAreThere, RowsPack, CountsFit};
ghost use Rattle.syn_core_laws.specs.Events.{event_node};
ghost use Rattle.syn_core_laws.specs.Openings.{OpeningsAreSound};
ghost use Rattle.syn_core_laws.specs.Runs.{EventsKeepSound, RunsKeepSound, RunsStaySound, SoleCountsStay, SoleCountsStayAlong, SomeValuation, OneValuation};
ghost use Rattle.syn_core_laws.specs.Shown.{SeatsAreShown, CountsCoverSeats};
ghost use Rattle.syn_core_laws.specs.Splits.{SplitsKeepSound, JoinsKeepSound};
ghost use Rattle.syn_core_laws.specs.Worked.{Worked};

use arrayvec::ArrayVec;
use std::collections::LinkedList;
use syn_rows::Row;

/// What a load or a failed claim of a seat met.
#[derive(Clone, Copy, Debug, PartialEq, Eq)]
pub enum Seen {
    /// The node's row.
    Row(u32, Row),
    /// The node's key.
    Key(u32, u64),
    /// The node's count, and how many of the references are the seat's own pins.
    Count { node: u32, count: u32, own: u32 },
    /// The node was claimed by another seat.
    Miss(u32),
}

/// A failed claim of node 0, which no seat makes; it fills lists, and nothing reads it.
impl Default for Seen {
    ghost use Rattle.syn_core_laws.specs.declared.Seen.TheVariants as Met;

    fn default() -> Seen
        ensures { result ≡ Met.Miss 0 }
    {
        Seen::Miss(0)
    }
}

/// A row that a redefine or a free stored: the node, its old row and its new row.
#[derive(Clone, Copy, Debug, PartialEq, Eq)]
pub struct Change {
    /// The node.
    pub node: u32,
    /// The row that it had.
    pub old: Row,
    /// The row that it got.
    pub new: Row,
}

/// A row that a make stored: the node, its row, and the key that the seat knew of the node.
#[derive(Clone, Copy, Debug, PartialEq, Eq)]
pub struct Made {
    /// The node.
    pub node: u32,
    /// The row that it got.
    pub row: Row,
    /// Its key; 0 where the seat knew none.
    pub key: u64,
}

/// What a seat knows, as plain data. No value of it is made: contracts see a seat as one.
pub struct View {
    /// The seat's number, below 64; 64 for a seat that is spent.
    pub number: u32,
    /// The nodes that the seat holds.
    pub held: LinkedList<u32>,
    /// The rows that it knows, of nodes that it holds. The latest entry of a node counts.
    pub rows: LinkedList<(u32, Row)>,
    /// The keys that it knows, of nodes that it holds or pins. The latest entry of a node counts.
    pub keys: LinkedList<(u32, u64)>,
    /// Its pins, an entry for each.
    pub pins: LinkedList<u32>,
    /// Its zero list: nodes that it holds and to which nothing refers any more.
    pub idle: LinkedList<u32>,
    /// The nodes that it failed to claim, in order.
    pub misses: LinkedList<u32>,
    /// What its loads and failed claims met, in order.
    pub reads: LinkedList<Seen>,
    /// The rows that it stored by a redefine or a free, in order.
    pub changes: LinkedList<Change>,
    /// The rows that it made, in order.
    pub makes: LinkedList<Made>,
    /// How many AND rows it made more than it took away.
    pub difference: i64,
    /// The nodes of which it knows that only its own rows and pins refer to them.
    pub sole: LinkedList<u32>,
}

/// One atomic step of a seat.
#[derive(Debug, Drop)]
pub struct Event {
    /// The place of the seat in the state.
    pub seat: u8,
    /// What the seat does.
    pub kind: EventKind,
}

/// What a seat does, in one step on one word. The first number is the node.
#[derive(Debug, Drop)]
pub enum EventKind {
    /// Takes a node that nobody holds.
    Claim(u32),
    /// Finds that another seat holds the node.
    ClaimFailed(u32),
    /// Lets a held node go, and forgets its row.
    Release(u32),
    /// Loads the row of a held node.
    LoadRow(u32),
    /// Adds a reference of the seat's own to the node's count.
    Pin(u32),
    /// Takes a pin back.
    Unpin(u32),
    /// Loads the count of a held node.
    LoadCount(u32),
    /// Loads the key of a node that is held or pinned.
    LoadKey(u32),
    /// Stores the key of a held node that is free.
    SetKey(u32, u64),
    /// Gives a held node that is free the row of an AND. Pins become the row's references.
    Make(u32, Row),
    /// Gives a held node another row with the same value over the listed nodes. Pins become the
    /// new row's references, and the old row's references become pins.
    Redefine(u32, Row, ArrayVec<u32, 8>),
    /// Frees a node on the zero list. Its row's references become pins.
    Free(u32),
}

impl EventKind {
    /// The node of the event.
    pub fn node(&self) -> u32
        ensures { result ≡ event_node self.now }
    {
        match self {
            EventKind::Claim(node) => *node,
            EventKind::ClaimFailed(node) => *node,
            EventKind::Release(node) => *node,
            EventKind::LoadRow(node) => *node,
            EventKind::Pin(node) => *node,
            EventKind::Unpin(node) => *node,
            EventKind::LoadCount(node) => *node,
            EventKind::LoadKey(node) => *node,
            EventKind::SetKey(node, _) => *node,
            EventKind::Make(node, _) => *node,
            EventKind::Redefine(node, _, _) => *node,
            EventKind::Free(node) => *node,
        }
    }
}

/// The start of a graph is sound.
pub fn openings_are_sound()
    ensures { OpeningsAreSound }
{}

/// An allowed event keeps the core sound.
pub fn events_keep_sound()
    ensures { EventsKeepSound }
{}

/// So does each list of events.
pub fn runs_keep_sound()
    ensures { RunsKeepSound }
{}

/// The core stays sound after each event of each list.
pub fn runs_stay_sound()
    ensures { RunsStaySound }
{}

/// The count of a seat's sole node is no other seat's to change.
pub fn sole_counts_stay()
    ensures { SoleCountsStay }
{}

/// So it is after each list of events of other seats.
pub fn sole_counts_stay_along()
    ensures { SoleCountsStayAlong }
{}

/// For each choice of source values there is a valuation that fits the rows of a sound core.
pub fn some_valuation()
    ensures { SomeValuation }
{}

/// A split keeps the core sound.
pub fn splits_keep_sound()
    ensures { SplitsKeepSound }
{}

/// So does the joining of a seat that holds and pins nothing.
pub fn joins_keep_sound()
    ensures { JoinsKeepSound }
{}

/// What a seat holds, has pinned or may pin is a node of the state.
pub fn nodes_are_there()
    ensures { NodesAreThere }
{}

/// Each row of a sound core can be packed.
pub fn rows_pack()
    ensures { RowsPack }
{}

/// A count of a sound core leaves room for one reference more.
pub fn counts_fit()
    ensures { CountsFit }
{}

/// What each seat of a sound core shows by itself.
pub fn seats_are_shown()
    ensures { SeatsAreShown }
{}

/// A count of a sound core is at least each seat's own references and pins.
pub fn counts_cover_seats()
    ensures { CountsCoverSeats }
{}

/// The sources determine the value of each node that is there.
pub fn one_valuation()
    ensures { OneValuation }
{}

/// The definitions, tried on worked lists of events.
pub fn worked_rows()
    ensures { Worked }
{}
