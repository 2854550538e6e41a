//! Decisions, and what they are made of.

ghost use Rattle.std.specs.Prelude.{◌<◌, ◌≤◌, length};
ghost use Rattle.syn_rows.specs.declared.TheConstants.{NODE_LIMIT};
ghost use Rattle.syn_plan.specs.declared.TheConstants.{MAX_LEAVES};
ghost use Rattle.syn_decide.specs.declared.decisions.TheConstants.{MAX_INNER};

use syn_gain::{Candidate, Proposal};
use syn_rows::Row;
use syn_truth::Truth;

/// The most inner rows that a commit takes.
pub const MAX_INNER: usize = 48;

/// What a commit is asked: a proposal of at most 8 leaves, of a root that a table may have.
#[derive(Clone, Copy, Debug)]
pub struct Attempt<'a> {
    /// The proposal.
    pub candidate: Candidate<'a>,
    /// Whether a gain of 0 is enough.
    pub zero_gain: bool,
    /// How many nodes the pool has at entry.
    pub pool: u32,
    pub ghost leaves_are_few: { length candidate.leaves.now ≤ MAX_LEAVES },
    pub ghost root_is_node: { candidate.root < NODE_LIMIT },
}

/// The next load of a commit, of a node's row, key or count.
#[derive(Clone, Copy, Debug, PartialEq, Eq)]
pub enum Want {
    /// The node's row, which the commit claims before.
    Row(u32),
    /// The node's key.
    Key(u32),
    /// The node's count.
    Count(u32),
}

impl<'a> Attempt<'a> {
    ghost use Rattle.std.specs.Prelude.{◌≡◌};
    ghost use Rattle.syn_decide.specs.Tasks.{asked, task_of};

    /// An attempt to commit this proposal.
    pub fn of(proposal: &'a Proposal, zero_gain: bool, pool: u32) -> Attempt<'a>
        requires { proposal.now.root < NODE_LIMIT }
        ensures { task_of result ≡ asked proposal.now zero_gain pool }
    {
        let leaves = proposal.leaves.as_slice();
        Attempt {
            candidate: Candidate {
                root: proposal.root,
                leaves,
                plan: &proposal.plan,
            },
            zero_gain,
            pool,
        }
    }
}

/// Why a proposal no longer fits the graph.
#[derive(Clone, Copy, Debug, PartialEq, Eq)]
pub enum StaleCause {
    /// The node is no AND or alias between the leaves and the root, or a leaf that the walk did not meet.
    Reach(u32),
    /// The node is one inner row too many.
    Wide(u32),
    /// The plan's table and the root's table over the leaves.
    Differs { was: Truth, now: Truth },
}

/// What a commit answers.
#[derive(Clone, Copy, Debug, PartialEq, Eq)]
pub enum Outcome {
    /// The root was redefined, with this gain.
    Done(u32),
    /// The node was claimed by another seat.
    Busy(u32),
    /// The proposal no longer fits the graph.
    Stale(StaleCause),
    /// Too few rows go for those that come.
    NoGain {
        freed: u32,
        added: u32,
    },
    /// There is no room for so many keys between the greatest key below and the root's.
    NoGap {
        node: u32,
        low: u64,
        need: u32,
        high: u64,
    },
    /// The pool has too few nodes.
    NoRoom {
        need: u32,
        have: u32,
    },
}

/// What is decided of a commit's reads.
#[derive(Clone, Copy, Debug, PartialEq, Eq)]
pub enum Decision {
    /// The answer.
    Answer(Outcome),
    /// The reads fit and end before an answer: this load comes next, hints apart.
    Next(Want),
    /// The reads fit no step.
    Unfit,
}

/// A node with its row.
#[derive(Clone, Copy, Debug, PartialEq, Eq)]
pub struct NodeRow {
    /// The node.
    pub node: u32,
    /// Its row.
    pub row: Row,
}

/// Node 0 with no row.
impl Default for NodeRow {
    fn default() -> NodeRow {
        NodeRow {
            node: 0,
            row: Row::Free,
        }
    }
}

/// Leaves, and rows between them and a root, in any order.
#[derive(Clone, Copy, Debug)]
pub struct Cone<'a> {
    /// The leaves, at most eight.
    pub leaves: &'a [u32],
    /// The value that the eighth has, if there is one.
    pub last: bool,
    /// The rows.
    pub inner: &'a [NodeRow],
    pub ghost leaves_are_few: { length leaves.now ≤ MAX_LEAVES },
    pub ghost rows_are_few: { length inner.now ≤ MAX_INNER },
}

/// An inner row whose count was loaded.
#[derive(Clone, Copy, Debug, PartialEq, Eq)]
pub struct Counted {
    /// The node.
    pub node: u32,
    /// Its row.
    pub row: Row,
    /// The references to it that are not the seat's own pins.
    pub others: u32,
}

/// Node 0 with no row and no reference.
impl Default for Counted {
    fn default() -> Counted {
        Counted {
            node: 0,
            row: Row::Free,
            others: 0,
        }
    }
}

/// How the function of the root by the inner rows compares with the plan's.
#[derive(Clone, Copy, Debug, PartialEq, Eq)]
pub enum Comparison {
    /// Inner rows refer to each other in a circle.
    Circle,
    /// Both are one function.
    Same,
    /// They differ: the plan's table and the root's.
    Differs { was: Truth, now: Truth },
}

/// How far the reads of a commit have come.
#[derive(Clone, Copy, Debug, PartialEq, Eq)]
pub enum Phase {
    /// Rows are loaded from the root to the leaves.
    Walking,
    /// Keys are loaded.
    Keying,
    /// Hints may stand; this row load stands right before, if one does.
    Hinting(Option<NodeRow>),
    /// Counts are loaded.
    Counting,
    /// The answer stands.
    Ended(Outcome),
    /// The reads fit no step.
    Failed,
}
