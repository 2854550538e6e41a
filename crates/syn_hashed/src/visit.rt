//! The order in which the observed literals visit the rows, and the rows made again in that order.

ghost use Rattle.std.specs.Prelude.{◌*◌, ◌++◌, IsSome, IfNone, ◌≡◌, ◌≢◌, ℕ, ◌+◌, ◌^◌, ◌<◌, ◌≤◌, All, List, Option, Some, None, false, true, length, map, replicate, set, vec_len, IfOk, IfSome, IsNone, OnOk, slice_index_or};
ghost use Rattle.std.specs.List.{sum_by};
ghost use Rattle.syn_rows.specs.declared.TheConstants.{NODE_LIMIT};
ghost use Rattle.syn_rows.specs.declared.Lit.{Lit};
ghost use Rattle.syn_rows.specs.declared.Row.{Row};
ghost use Rattle.syn_rows.specs.Rows.{node_of, row_at};
ghost use Rattle.syn_rows.specs.Values.{value_in};
ghost use Rattle.syn_rows.specs.Walk.{unmarked};
ghost use Rattle.syn_hashed.specs.Hashed.{IsHashed};
ghost use Rattle.syn_hashed.specs.Compacting.{CanCompact};
ghost use Rattle.syn_hashed.specs.HashedAgain.{IsHashedAgain, IsHashedRow, IsHashing};
ghost use Rattle.syn_hashed.specs.Visiting.{first_literal, FirstsOf, fan_ins_of, IsMade, IsMadeAgain, IsReady, IsVisit, literal_of, StaysVisited, unvisited, visited};
ghost use Rattle.syn_hashed.specs.Walking.{enters, steps_of, VisitsReached};

use crate::compaction::Rows;
use crate::construction::HashedRows;
use crate::literals::{first_literals, literal_of, literals_of};
use std::alloc::{AllocError, Global};
use syn_rows::{Lit, Row, no_marks};

/// The rows that the observed literals reach, made again in the order in which these visit them, each node after its
/// first and then its second fan-in; aliases are followed. The literals name the new rows.
pub fn in_visiting_order(
    alloc: Global,
    source_count: u32,
    rows: &[Row],
    observed: &[Lit],
) -> Result<Rows, AllocError>
    requires can { CanCompact source_count rows.now observed.now }
    requires few { length rows.now < NODE_LIMIT }
    ensures made { IfOk result (λ r. IsMadeAgain source_count rows.now observed.now r.rows.items r.observed.items) }
    ensures exact { IfOk result (λ r. IsHashedAgain source_count rows.now observed.now r.rows.items r.observed.items) }
{
    let mut hashed = HashedRows::new(alloc, source_count as usize)?;
    let mut literals = first_literals(alloc, source_count as usize, rows.len())?;
    visit_all(alloc, &mut hashed, rows, observed, literals.as_mut_slice())?;
    let observed = literals_of(alloc, literals.as_slice(), observed)?;
    Ok(Rows {
        rows: hashed.into_rows(),
        observed,
    })
}

/// A step of the walk: a node is entered, and left once all that it refers to was left.
#[derive(Clone, Copy, Debug, PartialEq, Eq)]
pub enum Step {
    Enter(u32),
    Leave(u32),
}

/// What makes the nodes of a walk again, each once all that it refers to was made.
pub trait Maker {
    /// The number of sources.
    ghost sources: { Self → ℕ };

    /// What holds of old rows and the literals that stand for their nodes so far.
    ghost stands: { Self → List Row → List (Option Lit) → Type 0 };

    /// Visits a node. One that is ready has a literal afterwards; no other's changes. The only error is want of memory.
    fn make(
        &mut self,
        rows: &[Row],
        literals: &mut [Option<Lit>],
        node: usize,
    ) -> Result<(), AllocError>
        requires there { node < length rows.now }
        requires room { length rows.now < NODE_LIMIT }
        requires stands { stands self.old rows.now literals.old }
        ensures sources { sources self.new ≡ sources self.old }
        ensures stands { OnOk result (stands self.new rows.now literals.new) }
        ensures stays { OnOk result (StaysVisited literals.old literals.new) }
        ensures others { OnOk result ((m : ℕ) → m ≢ node → visited literals.new m ≡ visited literals.old m) }
        ensures made { OnOk result (IsReady literals.old (row_at rows.now node) → IsSome (visited literals.new node)) };
}

impl Maker for HashedRows {
    ghost sources = { λ h. h.source_count };

    ghost stands = { λ h rows literals. IsHashing h.source_count rows literals h.rows.items };

    fn make(
        &mut self,
        rows: &[Row],
        literals: &mut [Option<Lit>],
        node: usize,
    ) -> Result<(), AllocError> {
        make(self, rows, literals, node)
    }
}

/// Visits all nodes that the observed literals reach, the literals in their order.
pub fn visit_all<M: Maker>(
    alloc: Global,
    maker: &mut M,
    rows: &[Row],
    observed: &[Lit],
    literals: &mut [Option<Lit>],
) -> Result<(), AllocError>
    requires can { CanCompact (M.sources maker.old) rows.now observed.now }
    requires firsts { FirstsOf (M.sources maker.old) (length rows.now) literals.old }
    requires stands { M.stands maker.old rows.now literals.old }
    requires room { length rows.now < NODE_LIMIT }
    ensures sources { M.sources maker.new ≡ M.sources maker.old }
    ensures stands { OnOk result (M.stands maker.new rows.now literals.new) }
    ensures reached { OnOk result (VisitsReached (M.sources maker.old) rows.now observed.now literals.new) }
    ensures observed { OnOk result (All (λ l. IsSome (visited literals.new (node_of l))) observed.now) }
{
    let mut marks = no_marks(alloc, rows.len())?;
    let mut stack = first_steps(alloc, observed)?;
    while let Some(step) = stack.pop() {
        match step {
            Step::Enter(node) => enter(rows, node, marks.as_mut_slice(), &mut stack)?,
            Step::Leave(node) => maker.make(rows, literals, node as usize)?,
        }
    }
    Ok(())
}

// Each literal's node is entered, the first one's next.
fn first_steps(alloc: Global, observed: &[Lit]) -> Result<Vec<Step>, AllocError>
    ensures { IfOk result (λ steps. steps.items ≡ enters observed.now) }
{
    let mut steps = Vec::new(alloc);
    for i in (0..observed.len()).rev() {
        steps.push(Step::Enter(observed[i].node()))?;
    }
    Ok(steps)
}

// Marks a node, and puts off leaving it until all that it refers to was left.
fn enter(
    rows: &[Row],
    node: u32,
    marks: &mut [bool],
    stack: &mut Vec<Step>,
) -> Result<(), AllocError>
    requires there { node < length rows.now }
    requires marks { length marks.old ≡ length rows.now }
    ensures less { OnOk result (sum_by unmarked marks.new + vec_len stack.new < sum_by unmarked marks.old + vec_len stack.old + 1) }
    ensures skipped { OnOk result (value_in marks.old node ≡ true → (marks.new ≡ marks.old) × (stack.new.items ≡ stack.old.items)) }
    ensures entered { OnOk result (value_in marks.old node ≡ false → (marks.new ≡ set marks.old node true) × (stack.new.items ≡ stack.old.items ++ steps_of node (row_at rows.now node))) }
{
    let n = node as usize;
    if marks[n] {
        return Ok(());
    }
    marks[n] = true;
    push_steps(rows[n], node, stack)
}

fn push_steps(row: Row, node: u32, stack: &mut Vec<Step>) -> Result<(), AllocError>
    ensures few { OnOk result (vec_len stack.new ≤ vec_len stack.old + 3) }
    ensures steps { OnOk result (stack.new.items ≡ stack.old.items ++ steps_of node row) }
{
    match row {
        Row::Free | Row::Source => Ok(()),
        Row::And(a, b) => {
            stack.push(Step::Leave(node))?;
            stack.push(Step::Enter(b.node()))?;
            stack.push(Step::Enter(a.node()))?;
            Ok(())
        }
        Row::Alias(a) => {
            stack.push(Step::Leave(node))?;
            stack.push(Step::Enter(a.node()))?;
            Ok(())
        }
    }
}

/// The literals that stand for the fan-ins of an AND, where both were visited.
pub fn fan_ins(literals: &[Option<Lit>], row: Row) -> Option<(Lit, Lit)>
    ensures { result ≡ fan_ins_of literals.now row }
{
    let Row::And(a, b) = row else {
        return None;
    };
    let first = literal_of(literals, a)?;
    let second = literal_of(literals, b)?;
    Some((first, second))
}

// The literal that stands for a node of which all that its row refers to was visited: that of the AND of the literals
// that stand for the fan-ins, or the one that stands for an alias's literal.
fn stand_in(
    hashed: &mut HashedRows,
    rows: &[Row],
    literals: &[Option<Lit>],
    node: usize,
) -> Result<Option<Lit>, AllocError>
    requires visit { IsVisit hashed.old.source_count rows.now literals.now hashed.old.rows.items }
    requires room { length hashed.old.rows.items + 1 < NODE_LIMIT }
    requires there { node < length rows.now }
    ensures sources { hashed.new.source_count ≡ hashed.old.source_count }
    ensures made { IfOk result (λ o. IfSome o (λ l. IsMade hashed.old.source_count rows.now node hashed.old.rows.items hashed.new.rows.items l)) }
    ensures row { IfOk result (λ o. IfSome o (IsHashedRow (visited literals.now) hashed.new.rows.items (row_at rows.now node))) }
    ensures same { IfOk result (λ o. IfNone o (hashed.new.rows.items ≡ hashed.old.rows.items)) }
    ensures ready { IfOk result (λ o. IsReady literals.now (row_at rows.now node) → IsSome o) }
{
    if let Row::Alias(a) = rows[node] {
        return Ok(literal_of(literals, a));
    }
    match fan_ins(literals, rows[node]) {
        Some((first, second)) => {
            let literal = hashed.and(first, second)?;
            Ok(Some(literal))
        }
        None => Ok(None),
    }
}

// Visits a node of which all that its row refers to was visited.
fn make(
    hashed: &mut HashedRows,
    rows: &[Row],
    literals: &mut [Option<Lit>],
    node: usize,
) -> Result<(), AllocError>
    requires hashing { IsHashing hashed.old.source_count rows.now literals.old hashed.old.rows.items }
    requires there { node < length rows.now }
    requires room { length rows.now < NODE_LIMIT }
    ensures sources { hashed.new.source_count ≡ hashed.old.source_count }
    ensures hashing { OnOk result (IsHashing hashed.old.source_count rows.now literals.new hashed.new.rows.items) }
    ensures stays { OnOk result (StaysVisited literals.old literals.new) }
    ensures others { OnOk result ((m : ℕ) → m ≢ node → visited literals.new m ≡ visited literals.old m) }
    ensures made { OnOk result (IsReady literals.old (row_at rows.now node) → IsSome (visited literals.new node)) }
{
    if literals[node].is_some() {
        return Ok(());
    }
    if let Some(literal) = stand_in(hashed, rows, literals, node)? {
        literals[node] = Some(literal);
    }
    Ok(())
}
