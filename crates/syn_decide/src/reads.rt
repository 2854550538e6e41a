//! The decision of one commit, read by read.

ghost use Rattle.std.specs.Prelude.{◌≡◌, ◌<◌, ◌≤◌, ℕ, length, drop};
ghost use Rattle.syn_rows.specs.declared.TheConstants.{NODE_LIMIT};
ghost use Rattle.syn_plan.specs.declared.TheConstants.{MAX_GATES};
ghost use Rattle.syn_decide.specs.declared.decisions.TheConstants.{MAX_INNER};
ghost use Rattle.syn_decide.specs.Decided.{told};
ghost use Rattle.syn_decide.specs.Tasks.{asked, task_of};
ghost use Rattle.syn_decide.specs.Walk.{is_met};
ghost use Rattle.syn_decide.specs.Fold as fold;
ghost use Rattle.syn_decide.specs.Hints as hints;

use crate::answers::{read_counting, read_hinting, read_keying};
use crate::found::{Desk, Found};
use crate::stages::read_walking;
use crate::worklist::Waiting;
use crate::{Attempt, Decision, MAX_INNER, NewRows, NodeRow, Phase, Want, walk};
use arrayvec::ArrayVec;
use std::marker::Model;
use syn_core_laws::Seen;
use syn_gain::Proposal;

/// What is kept of the reads of a commit, inline, with room to reckon in: some fifty thousand bytes, so it is made once and
/// begun anew for each commit. Contracts see it as the definition's state.
#[derive(Debug, Drop)]
pub struct Deciding {
    phase: Phase,
    waiting: Waiting,
    inner: ArrayVec<NodeRow, MAX_INNER>,
    found: Found,
    desk: Desk,
}

impl Model for Deciding {
    ghost use Rattle.std.specs.Prelude.{length, ◌≤◌, ◌+◌};
    ghost use Rattle.syn_decide.specs.Fold.{State};
    ghost use Rattle.syn_decide.specs.Phases.{most_at, stage_of, state_at};

    ghost Value = { State };

    ghost view = { λ d. state_at (stage_of d.phase d.waiting) d.inner.items d.found };

    ghost invariant = { λ d. (length d.waiting ≤ 9 + length d.inner.items) × (length d.inner.items ≤ most_at d.phase) };
}

impl Deciding {
    /// Room for a decision, which `restart` begins.
    pub fn new() -> Deciding {
        Deciding {
            phase: Phase::Failed,
            waiting: Waiting::new(),
            inner: ArrayVec::new(),
            found: Found::new(),
            desk: Desk::new(),
        }
    }

    /// Before the first read.
    pub fn begin(attempt: &Attempt<'_>) -> Deciding
        ensures { result ≡ fold.begin (task_of attempt.now) }
    {
        let mut deciding = Deciding::new();
        deciding.restart(attempt);
        deciding
    }

    /// Begins anew in the same room, which costs less than to make it.
    pub fn restart(&mut self, attempt: &Attempt<'_>)
        ensures { self.new ≡ fold.begin (task_of attempt.now) }
    {
        self.phase = Phase::Walking;
        self.waiting.clear();
        self.waiting.push(attempt.candidate.root);
        self.inner.clear();
        self.found.low = 0;
        self.found.high = 0;
        self.found.hits.clear();
        self.found.counts.clear();
    }

    /// One read.
    pub fn read(&mut self, attempt: &Attempt<'_>, read: Seen)
        ensures { self.new ≡ fold.read_one (task_of attempt.now) self.old read }
    {
        self.phase = match self.phase {
            Phase::Walking => read_walking(
                attempt,
                &mut self.inner,
                &mut self.waiting,
                &mut self.desk.words,
                read,
            ),
            Phase::Keying => read_keying(&mut self.found, &mut self.waiting, read),
            Phase::Hinting(last) => read_hinting(
                attempt,
                self.inner.as_slice(),
                &mut self.found,
                &mut self.desk,
                last,
                read,
            ),
            Phase::Counting => read_counting(
                attempt,
                self.inner.as_slice(),
                &mut self.found,
                &mut self.desk,
                read,
            ),
            Phase::Ended(_) => Phase::Failed,
            Phase::Failed => Phase::Failed,
        };
    }

    /// The inner rows that were met, in the order of the walk.
    pub fn inner(&self) -> &[NodeRow]
        ensures rows { result.now ≡ self.now.inner }
        ensures few { length result.now ≤ MAX_INNER }
    {
        self.inner.as_slice()
    }

    /// The hits, with their rows, in the order in which they were found.
    pub fn hits(&self) -> &[NodeRow]
        ensures rows { result.now ≡ self.now.hits }
        ensures few { length result.now ≤ MAX_GATES }
    {
        self.found.hits.as_slice()
    }

    /// The greatest key among the used leaves and the hits so far; 0 where there is none.
    #[inline]
    pub fn low(&self) -> u64
        ensures { result ≡ self.now.low }
    {
        self.found.low
    }

    /// The root's key, once it is loaded.
    #[inline]
    pub fn high(&self) -> u64
        ensures { result ≡ self.now.high }
    {
        self.found.high
    }

    /// Whether the walk met the node: an inner row refers to it.
    pub fn has_met(&self, node: u32) -> bool
        ensures { result ≡ is_met self.now.inner node }
    {
        walk::is_met(self.inner.as_slice(), node)
    }

    /// Whether hints may stand now: behind the root's key, and before the first count.
    pub fn takes_hints(&self) -> bool
        ensures { result ≡ fold.is_hinting self.now.stage }
    {
        match self.phase {
            Phase::Hinting(_) => true,
            Phase::Walking | Phase::Keying | Phase::Counting | Phase::Ended(_) | Phase::Failed =>
                false,
        }
    }

    /// What is stored for the attempt with the hits so far.
    pub fn new_rows(&self, attempt: &Attempt<'_>, rows: &mut NewRows)
        ensures rows { rows.new.rows.items ≡ (fold.placed_now (task_of attempt.now) self.now).extra }
        ensures needed { rows.new.needed ≡ hints.rows_needed (task_of attempt.now) (fold.placed_now (task_of attempt.now) self.now) }
        ensures root { rows.new.root ≡ hints.new_root_row (task_of attempt.now) (fold.placed_now (task_of attempt.now) self.now) }
    {
        rows.fill(attempt, self.found.hits.as_slice());
    }

    /// What is decided so far.
    #[inline(always)]
    pub fn wants(&self) -> Decision
        ensures { told result ≡ fold.wants self.now }
    {
        match self.phase {
            Phase::Walking => next_row(&self.waiting),
            Phase::Keying => next_key(&self.waiting),
            Phase::Hinting(_) => next_count(self.inner.as_slice(), self.found.counts.as_slice()),
            Phase::Counting => next_count(self.inner.as_slice(), self.found.counts.as_slice()),
            Phase::Ended(outcome) => Decision::Answer(outcome),
            Phase::Failed => Decision::Unfit,
        }
    }
}

// The row of the node that waits next.
#[inline(always)]
fn next_row(waiting: &Waiting) -> Decision
    ensures { told result ≡ fold.wanted_row waiting.now }
{
    match waiting.next() {
        Some(node) => Decision::Next(Want::Row(node)),
        None => Decision::Unfit,
    }
}

// Its key.
#[inline(always)]
fn next_key(waiting: &Waiting) -> Decision
    ensures { told result ≡ fold.wanted_key waiting.now }
{
    match waiting.next() {
        Some(node) => Decision::Next(Want::Key(node)),
        None => Decision::Unfit,
    }
}

// The count of the first inner row that has none.
#[inline(always)]
fn next_count(inner: &[NodeRow], counts: &[u32]) -> Decision
    ensures { told result ≡ fold.wanted_count (drop (length counts.now) inner.now) }
{
    let at = counts.len();
    if at < inner.len() {
        Decision::Next(Want::Count(inner[at].node))
    } else {
        Decision::Unfit
    }
}

/// What a commit met: the size of its pool at entry, and its loads and failed claims in order.
#[derive(Debug, PartialEq, Eq, Drop)]
pub struct Reads {
    /// How many nodes the pool has.
    pub pool: u32,
    /// What was met.
    pub seen: ArrayVec<Seen, 1024>,
}

// What these reads decide for an attempt.
fn decided(attempt: &Attempt<'_>, seen: &[Seen]) -> Decision
    ensures { told result ≡ fold.decided (task_of attempt.now) seen.now }
{
    let mut deciding = Deciding::begin(attempt);
    for read in seen {
        deciding.read(attempt, *read);
    }
    deciding.wants()
}

/// What these reads decide: the answer of a commit, its next load, or that they fit no step.
pub fn decide(reads: &Reads, proposal: &Proposal, zero_gain: bool) -> Decision
    requires { proposal.now.root < NODE_LIMIT }
    ensures { told result ≡ fold.decided (asked proposal.now zero_gain reads.now.pool) reads.now.seen.items }
{
    let attempt = Attempt::of(proposal, zero_gain, reads.pool);
    decided(&attempt, reads.seen.as_slice())
}
