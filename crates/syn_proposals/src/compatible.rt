//! Which of the proposals that save are applied together. The choice is free, as each of them is sound: those are taken whose
//! cones don't meet, and whose gates aren't rows that others replace, so that what they save adds up.

ghost use Rattle.std.specs.Prelude.{◌≡◌, true, All, IfOk, length};
ghost use Rattle.std.specs.List.Sorted.{IsNonDecreasing};
ghost use Rattle.syn_rows.specs.Reach.{is_and};
ghost use Rattle.syn_rows.specs.Rows.{row_at};
ghost use Rattle.syn_gain.specs.Uses.{IsUsesOf};

use smallvec::SmallVec;
use std::alloc::{AllocError, Global};
use syn_fanout_free::sort_used;
use syn_gain::{Candidate, NewRows, PlacedPlan, Proposal, RowsBelow, Uses, mffc, place};
use syn_graph::Graph;
use syn_plan::MAX_INDEXES;
use syn_rows::{Lit, Row, no_marks};

// Of a cone that goes no more ANDs than so many are looked for: it may be as deep as the graph.
const MAX_GONE: u32 = 256;

// The nodes by what the chosen proposals do with them: those whose rows are replaced, the roots; those whose rows go with them;
// those that stay, the roots and what their new rows name; and those that are hit, whose rows gates of their plans are.
#[derive(Drop)]
struct Chosen {
    roots: Vec<bool>,
    goes: Vec<bool>,
    stays: Vec<bool>,
    hits: Vec<bool>,
}

// Whether one of the nodes is marked.
fn any_marked(marks: &[bool], nodes: &[u32]) -> bool {
    nodes
        .iter()
        .any(|node| marks.get(*node as usize) == Some(&true))
}

// Marks the nodes.
fn mark_all(marks: &mut [bool], nodes: &[u32]) {
    for node in nodes {
        if let Some(mark) = marks.get_mut(*node as usize) {
            *mark = true;
        }
    }
}

impl Chosen {
    fn none(alloc: Global, nodes: usize) -> Result<Chosen, AllocError> {
        Ok(Chosen {
            roots: no_marks(alloc, nodes)?,
            goes: no_marks(alloc, nodes)?,
            stays: no_marks(alloc, nodes)?,
            hits: no_marks(alloc, nodes)?,
        })
    }

    // Whether a row that one proposal replaces or takes away is hit by another: of those that were taken, and one for this root,
    // with whose row these nodes go, and which hits those. A plan placed when such a row is gone makes it again, with its cone.
    fn is_hit(&self, root: u32, goes: &[u32], hits: &[u32]) -> bool {
        any_marked(self.roots.as_slice(), hits)
            || any_marked(self.goes.as_slice(), hits)
            || any_marked(self.hits.as_slice(), &[root])
            || any_marked(self.hits.as_slice(), goes)
    }

    // Takes a proposal for a root that stays, with whose row these nodes go, whose new rows name those, and which hits those,
    // unless it meets one that was taken.
    fn take(&mut self, root: u32, goes: &[u32], names: &[u32], hits: &[u32]) -> bool {
        if any_marked(self.goes.as_slice(), names)
            || any_marked(self.goes.as_slice(), goes)
            || any_marked(self.stays.as_slice(), goes)
            || self.is_hit(root, goes, hits)
        {
            return false;
        }
        mark_all(self.roots.as_mut_slice(), &[root]);
        mark_all(self.goes.as_mut_slice(), goes);
        mark_all(self.stays.as_mut_slice(), names);
        mark_all(self.stays.as_mut_slice(), &[root]);
        mark_all(self.hits.as_mut_slice(), hits);
        true
    }
}

// Lists the node of a literal, if it is an old one.
fn name(old: usize, literal: Lit, names: &mut SmallVec<u32, 32>) -> Result<(), AllocError> {
    if (literal.node() as usize) < old {
        names.push(literal.node())?;
    }
    Ok(())
}

// The old nodes that the new rows name, in rising order, where there are so many old ones.
fn names_of(alloc: Global, old: usize, new: &NewRows) -> Result<SmallVec<u32, 32>, AllocError>
    ensures { IfOk result (λ names. IsNonDecreasing names.items) }
{
    let mut names = SmallVec::new(alloc);
    for row in new.extra.as_slice() {
        if let Row::And(a, b) = *row {
            name(old, a, &mut names)?;
            name(old, b, &mut names)?;
        }
    }
    match new.root {
        Row::And(a, b) => {
            name(old, a, &mut names)?;
            name(old, b, &mut names)?;
        }
        Row::Alias(a) => name(old, a, &mut names)?,
        Row::Free | Row::Source => {}
    }
    sort_used(&mut names);
    Ok(names)
}

// The nodes that a proposal for an AND hits: those but its leaves that gates of its plan become, whose rows are there. A function
// fills its locals as it begins, so this one isn't part of another.
#[inline(never)]
fn hits_of(
    alloc: Global,
    graph: &Graph,
    uses: &Uses,
    candidate: Candidate,
) -> Result<SmallVec<u32, 32>, AllocError>
    requires uses { IsUsesOf uses.now graph.now }
    requires root { is_and (row_at graph.now.rows candidate.root) ≡ true }
{
    let rows = graph.rows.as_slice();
    let mut placed = PlacedPlan::<MAX_INDEXES>::new();
    placed.begin(candidate.plan.leaves, candidate.leaves);
    let below = RowsBelow {
        rows,
        index: &uses.pairs,
        root: candidate.root,
    };
    let _ = placed.place_gates(&below, candidate.plan.gates.as_slice(), u32::MAX);
    let mut hits = SmallVec::new(alloc);
    for literal in placed.literals.as_slice() {
        if !candidate.leaves.contains(&literal.node()) {
            name(rows.len(), *literal, &mut hits)?;
        }
    }
    Ok(hits)
}

// Takes a proposal for an AND of the graph if it meets none that was taken.
fn choose(
    alloc: Global,
    graph: &Graph,
    uses: &Uses,
    chosen: &mut Chosen,
    proposal: &Proposal,
) -> Result<bool, AllocError>
    requires uses { IsUsesOf uses.now graph.now }
    requires root { is_and (row_at graph.now.rows proposal.now.root) ≡ true }
{
    if any_marked(chosen.goes.as_slice(), &[proposal.root]) {
        return Ok(false);
    }
    let new = place(alloc, graph, &uses.pairs, proposal.borrow())?;
    let names = names_of(alloc, graph.rows.as_slice().len(), &new)?;
    let gone = mffc(
        alloc,
        graph,
        uses,
        proposal.root,
        names.as_slice(),
        MAX_GONE,
    )?;
    let hits = hits_of(alloc, graph, uses, proposal.borrow())?;
    Ok(chosen.take(
        proposal.root,
        gone.nodes.as_slice(),
        names.as_slice(),
        hits.as_slice(),
    ))
}

/// A mark for each proposal of a list, whether it is applied with others: from the last to the first, each is whose cone meets none
/// of those before it, and where none hits a row that the other replaces or takes away. The only error is want of memory.
pub(crate) fn select_compatible(
    alloc: Global,
    graph: &Graph,
    uses: &Uses,
    proposals: &[Proposal],
) -> Result<Vec<bool>, AllocError>
    requires uses { IsUsesOf uses.now graph.now }
    requires roots { All (λ p. is_and (row_at graph.now.rows p.root) ≡ true) proposals.now }
    ensures { IfOk result (λ marks. length marks.items ≡ length proposals.now) }
{
    let mut chosen = Chosen::none(alloc, graph.rows.as_slice().len())?;
    let mut marks = no_marks(alloc, proposals.len())?;
    let mut left = proposals.len();
    while left > 0 {
        left -= 1;
        let is_taken = choose(alloc, graph, uses, &mut chosen, &proposals[left])?;
        marks[left] = is_taken;
    }
    Ok(marks)
}
