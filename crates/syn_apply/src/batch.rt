//! Many proposals applied together: the rows are made again from the sources up, with plans in place of the roots.

ghost use Rattle.std.specs.Prelude.{◌≡◌, ◌≢◌, ◌+◌, ◌&&◌, ◌<◌, ◌≤◌, ◌++◌, ◌∷◌, [], All, Bool, List, false, true, length, map, slice_index_or, IfNone, IfOk, IfSome, OnOk};
ghost use Rattle.syn_rows.specs.declared.Lit.{Lit};
ghost use Rattle.syn_rows.specs.declared.Row.{Row};
ghost use Rattle.syn_rows.specs.declared.TheConstants.{NODE_LIMIT};
ghost use Rattle.syn_rows.specs.Joining.{constant, lit_of};
ghost use Rattle.syn_rows.specs.Reach.{is_and};
ghost use Rattle.syn_rows.specs.Rows.{node_of, row_at};
ghost use Rattle.syn_hashed.specs.Growing.{IsAnd};
ghost use Rattle.syn_hashed.specs.Hashed.{IsHashed};
ghost use Rattle.syn_hashed.specs.Joined.{joined_lit, joined_rows};
ghost use Rattle.syn_graph.specs.Relations.{SameFunction};
ghost use Rattle.syn_gain.specs.declared.proposals.Proposal.{Proposal};
ghost use Rattle.syn_gain.specs.Proposals.{replacement};
ghost use Rattle.syn_gain.specs.Placing.{literal_for};
ghost use Rattle.syn_apply.specs.Applied.{AreAppliedTogether, AreRemade, Begins, IsJoinedAgain, IsNext, MakesNext, leaves_by, planned_gates, remade};
ghost use Rattle.syn_apply.specs.Remaking.{AllStand, IsGrown, SourcesStay, Stands, moved};
ghost use Rattle.syn_apply.specs.Sound.{IsSoundBy};

use arrayvec::ArrayVec;
use std::alloc::{AllocError, Global};
use syn_gain::{Proposal, literal_at, node_at};
use syn_graph::{Graph, finish};
use syn_hashed::HashedRows;
use syn_placing::place_plan;
use syn_rows::{Lit, NODE_LIMIT, Row};

// The AND of two literals, where there is room for a row more.
fn and(hashed: &mut HashedRows, a: Lit, b: Lit) -> Result<Lit, AllocError>
    requires first { node_of a < length hashed.old.rows.items }
    requires second { node_of b < length hashed.old.rows.items }
    ensures sources { hashed.new.source_count ≡ hashed.old.source_count }
    ensures grown { OnOk result (IsGrown hashed.old.rows.items hashed.new.rows.items) }
    ensures there { IfOk result (λ l. node_of l < length hashed.new.rows.items) }
    ensures value { IfOk result (λ l. IsAnd hashed.old.rows.items a b hashed.new.rows.items l) }
    ensures rows { OnOk result (hashed.new.rows.items ≡ joined_rows hashed.old.rows.items a b) }
    ensures literal { IfOk result (λ l. l ≡ joined_lit hashed.old.rows.items a b) }
{
    if hashed.rows.len() + 1 < NODE_LIMIT {
        hashed.and(a, b)
    } else {
        Err(AllocError)
    }
}

// The literal that stands for an old one.
fn moved(literals: &[Lit], lit: Lit) -> Lit
    ensures { result ≡ moved literals.now lit }
{
    let plain = literal_at(literals, lit.node() as usize);
    if lit.complemented() {
        plain.not()
    } else {
        plain
    }
}

// The literal of an AND of old nodes before it.
fn joined(
    hashed: &mut HashedRows,
    rows: &[Row],
    literals: &[Lit],
    node: u32,
    a: Lit,
    b: Lit,
) -> Result<Lit, AllocError>
    requires hashed { IsHashed hashed.old.source_count rows.now }
    requires row { row_at rows.now node ≡ Row.And a b }
    requires node { node ≡ length literals.now }
    requires standing { AllStand rows.now hashed.old.rows.items literals.now }
    ensures sources { hashed.new.source_count ≡ hashed.old.source_count }
    ensures grown { OnOk result (IsGrown hashed.old.rows.items hashed.new.rows.items) }
    ensures stands { IfOk result (Stands rows.now hashed.new.rows.items node) }
    ensures again { IfOk result (λ l. IsJoinedAgain rows.now (remade hashed.old.rows.items literals.now) (remade hashed.new.rows.items (literals.now ++ l ∷ []))) }
{
    let first = moved(literals, a);
    let second = moved(literals, b);
    and(hashed, first, second)
}

// The literals that stand for a plan's leaves, of which there are so many.
fn leaf_literals(literals: &[Lit], count: u8, leaves: &[u32]) -> ArrayVec<Lit, 8>
    requires { count ≤ 8 }
    ensures { result.items ≡ leaves_by literals.now count leaves.now }
{
    let mut found = ArrayVec::new();
    for i in 0..count {
        let leaf = node_at(leaves, i as usize);
        found.push(literal_at(literals, leaf as usize));
    }
    found
}

// The literal of a plan in place of an old node, over the literals of the nodes before it, where there is room for
// a row for each of its gates.
fn planned(
    hashed: &mut HashedRows,
    rows: &[Row],
    literals: &[Lit],
    proposal: &Proposal,
) -> Result<Lit, AllocError>
    requires hashed { IsHashed hashed.old.source_count rows.now }
    requires node { proposal.now.root ≡ length literals.now }
    requires sound { IsSoundBy rows.now (replacement proposal.now) }
    requires standing { AllStand rows.now hashed.old.rows.items literals.now }
    ensures sources { hashed.new.source_count ≡ hashed.old.source_count }
    ensures grown { OnOk result (IsGrown hashed.old.rows.items hashed.new.rows.items) }
    ensures stands { IfOk result (Stands rows.now hashed.new.rows.items proposal.now.root) }
    ensures rows { OnOk result (hashed.new.rows.items ≡ (planned_gates (remade hashed.old.rows.items literals.now) proposal.now).rows) }
    ensures literal { IfOk result (λ l. l ≡ literal_for (planned_gates (remade hashed.old.rows.items literals.now) proposal.now).literals proposal.now.plan.out) }
{
    let plan = &proposal.plan;
    if hashed.rows.len() + plan.gates.len() < NODE_LIMIT {
        let leaves = leaf_literals(literals, plan.leaves, proposal.leaves.as_slice());
        place_plan(hashed, leaves.as_slice(), plan)
    } else {
        Err(AllocError)
    }
}

// Whether the proposal at a place is taken and is one for this node.
fn is_taken(proposals: &[Proposal], taken: &[bool], place: usize, node: u32) -> bool
    ensures there { result ≡ true → place < length proposals.now }
    ensures taken { result ≡ true → slice_index_or taken.now place false ≡ true }
    ensures root { result ≡ true → (d : Proposal) → (slice_index_or proposals.now place d).root ≡ node }
    ensures other { result ≡ false → (d : Proposal) → place < length proposals.now → slice_index_or taken.now place false ≡ true → (slice_index_or proposals.now place d).root ≢ node }
{
    if place < proposals.len() && place < taken.len() {
        taken[place] && proposals[place].root == node
    } else {
        false
    }
}

// The place of the next proposal for the node behind this one, from that of the next one for this node.
fn place_after(proposals: &[Proposal], place: usize, node: u32) -> usize
    requires { IsNext proposals.now node place }
    ensures { IsNext proposals.now (node + 1) result }
{
    let mut place = place;
    while place < proposals.len() && proposals[place].root <= node {
        place += 1;
    }
    place
}

// The fan-ins of an AND.
fn fan_ins(row: Row) -> Option<(Lit, Lit)>
    ensures some { IfSome result (λ both. row ≡ Row.And both.0 both.1) }
    ensures none { IfNone result (is_and row ≡ false) }
{
    match row {
        Row::And(a, b) => Some((a, b)),
        Row::Free | Row::Source | Row::Alias(_) => None,
    }
}

// The literal of one node: a source's own, that of a taken proposal's plan, or that of its AND.
fn made(
    hashed: &mut HashedRows,
    rows: &[Row],
    literals: &[Lit],
    node: u32,
    proposals: &[Proposal],
    taken: &[bool],
    place: usize,
) -> Result<Lit, AllocError>
    requires hashed { IsHashed hashed.old.source_count rows.now }
    requires few { length rows.now < NODE_LIMIT }
    requires inside { node < length rows.now }
    requires node { node ≡ length literals.now }
    requires next { IsNext proposals.now node place }
    requires standing { AllStand rows.now hashed.old.rows.items literals.now }
    requires sound { All (λ p. IsSoundBy rows.now (replacement p)) proposals.now }
    ensures sources { hashed.new.source_count ≡ hashed.old.source_count }
    ensures grown { OnOk result (IsGrown hashed.old.rows.items hashed.new.rows.items) }
    ensures stands { IfOk result (Stands rows.now hashed.new.rows.items node) }
    ensures next { IfOk result (λ l. MakesNext rows.now proposals.now taken.now (remade hashed.old.rows.items literals.now) (remade hashed.new.rows.items (literals.now ++ l ∷ []))) }
    ensures source { IfOk result (λ l. node < hashed.old.source_count + 1 → l ≡ lit_of node) }
{
    match fan_ins(rows[node as usize]) {
        None => Ok(Lit::of(node, false)),
        Some((a, b)) => {
            let here = is_taken(proposals, taken, place, node);
            if here {
                planned(hashed, rows, literals, &proposals[place])
            } else {
                joined(hashed, rows, literals, node, a, b)
            }
        }
    }
}

// The literals of all nodes, with the plans of the taken proposals in place of their roots.
fn remade(
    alloc: Global,
    hashed: &mut HashedRows,
    rows: &[Row],
    proposals: &[Proposal],
    taken: &[bool],
) -> Result<Vec<Lit>, AllocError>
    requires hashed { IsHashed hashed.old.source_count rows.now }
    requires few { length rows.now < NODE_LIMIT }
    requires sound { All (λ p. IsSoundBy rows.now (replacement p)) proposals.now }
    requires begins { Begins hashed.old.source_count (remade hashed.old.rows.items []) }
    ensures sources { hashed.new.source_count ≡ hashed.old.source_count }
    ensures remade { IfOk result (λ v. AreRemade hashed.old.source_count rows.now proposals.now taken.now (length rows.now) (remade hashed.new.rows.items v.items)) }
    ensures few { OnOk result (length hashed.old.rows.items < NODE_LIMIT → length hashed.new.rows.items < NODE_LIMIT) }
    ensures all { IfOk result (λ v. length v.items ≡ length rows.now) }
    ensures standing { IfOk result (λ v. AllStand rows.now hashed.new.rows.items v.items) }
    ensures stay { IfOk result (λ v. SourcesStay hashed.old.source_count v.items) }
{
    let mut literals = Vec::with_capacity(alloc, rows.len())?;
    let mut place = 0;
    for node in 0..rows.len() as u32 {
        let before = literals.as_slice();
        let literal = made(hashed, rows, before, node, proposals, taken, place)?;
        literals.push(literal)?;
        place = place_after(proposals, place, node);
    }
    Ok(literals)
}

// The literals that stand for old ones.
fn all_moved(alloc: Global, literals: &[Lit], lits: &[Lit]) -> Result<Vec<Lit>, AllocError>
    ensures { IfOk result (λ v. v.items ≡ map (moved literals.now) lits.now) }
{
    let mut found = Vec::with_capacity(alloc, lits.len())?;
    for lit in lits {
        found.push(moved(literals, *lit))?;
    }
    Ok(found)
}

/// The graph after the taken ones of a list of sound proposals, all judged on the graph as it is: the
/// same values of the observed signals. Its rows are made again from the sources up, with plans in place of the roots, so
/// that any number of proposals costs one sweep. Nothing is said of the number of ANDs, which the caller compares. A
/// proposal that stands behind one for a greater node isn't applied. The only error is want of memory.
pub fn applied_together(
    alloc: Global,
    graph: &Graph,
    proposals: &[Proposal],
    taken: &[bool],
) -> Result<Graph, AllocError>
    requires sound { All (λ p. IsSoundBy graph.now.rows (replacement p)) proposals.now }
    ensures same { IfOk result (SameFunction graph.now) }
    ensures applied { IfOk result (AreAppliedTogether graph.now proposals.now taken.now) }
{
    let mut hashed = HashedRows::new(alloc, graph.source_count as usize)?;
    let rows = graph.rows.as_slice();
    let literals = remade(alloc, &mut hashed, rows, proposals, taken)?;
    let observed = all_moved(alloc, literals.as_slice(), graph.observed.as_slice())?;
    finish(alloc, hashed, observed.as_slice())
}
