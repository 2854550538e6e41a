//! Nodes are balanced one after the other.

ghost use Rattle.std.specs.Prelude.{◌≡◌, ℕ, ◌+◌, ◌++◌, ◌<◌, ◌≤◌, ◌^◌, ◌⊎◌, ◌∷◌, [], All, IfOk, List, IsSome, OnOk, Option, Some, length, map, replicate, set, true};
ghost use Rattle.syn_rows.specs.declared.TheConstants.{NODE_LIMIT};
ghost use Rattle.syn_rows.specs.declared.Lit.{Lit};
ghost use Rattle.syn_rows.specs.Levels.{levels_of};
ghost use Rattle.syn_rows.specs.Rows.{in_order_from, node_of};
ghost use Rattle.syn_hashed.specs.Hashed.{IsHashed};
ghost use Rattle.syn_hashed.specs.Visiting.{first_literal, FirstsOf, IsRebuilt, literal_of};
ghost use Rattle.syn_balance.specs.Balancing.{IsBalancing};
ghost use Rattle.syn_balance.specs.Leaves.{leaves_of, left_by, TakesBoth, waiting_at};
ghost use Rattle.syn_balance.specs.Roots.{HasRoots};
ghost use Rattle.syn_balance.specs.Rule.{AreByRule};

use crate::joiner::join;
use crate::roots::roots;
use smallvec::SmallVec;
use std::alloc::{AllocError, Global};
use std::marker::Model;
use std::mem;
use syn_hashed::{HashedRows, Rows, first_literals, literal_of, literals_of};
use syn_rows::{Lit, Row};

// How many leaves of a node stand inline.
const INLINE_LEAVES: usize = 4;

// Leaves of a node. Contracts see the list.
#[derive(Drop)]
struct Leaves {
    lits: SmallVec<Lit, INLINE_LEAVES>,
}

impl Model for Leaves {
    ghost use Rattle.std.specs.Prelude.{List};
    ghost use Rattle.syn_rows.specs.declared.Lit.{Lit};

    ghost Value = { List Lit };

    ghost view = { λ l. l.lits.items };
}

impl Leaves {
    // These leaves.
    fn of(lits: SmallVec<Lit, INLINE_LEAVES>) -> Leaves
        ensures { result ≡ lits.items }
    {
        Leaves { lits }
    }

    // The list of the leaves again.
    fn into_lits(self) -> SmallVec<Lit, INLINE_LEAVES>
        ensures { result.items ≡ self }
    {
        let Leaves { lits } = self;
        lits
    }
}

// Takes the leaves that wait at a node.
fn take_waiting(alloc: Global, waiting: &mut [Leaves], node: usize) -> SmallVec<Lit, INLINE_LEAVES>
    requires { node < length waiting.old }
    ensures leaves { result.items ≡ waiting_at waiting.old node }
    ensures left { waiting.new ≡ set waiting.old node [] }
{
    mem::replace(&mut waiting[node], Leaves::of(SmallVec::new(alloc))).into_lits()
}

// The leaves of a literal: the one that stands for it, or those that wait at its node, which are taken.
fn take_leaves(
    alloc: Global,
    literals: &[Option<Lit>],
    waiting: &mut [Leaves],
    lit: Lit,
) -> Result<SmallVec<Lit, INLINE_LEAVES>, AllocError>
    requires { node_of lit < length waiting.old }
    ensures leaves { IfOk result (λ v. v.items ≡ leaves_of literals.now waiting.old lit) }
    ensures left { OnOk result (waiting.new ≡ left_by literals.now waiting.old lit) }
{
    match literal_of(literals, lit) {
        Some(literal) => {
            let mut leaves = SmallVec::new(alloc);
            leaves.push(literal)?;
            Ok(leaves)
        }
        None => Ok(take_waiting(alloc, waiting, lit.node() as usize)),
    }
}

// Both lists in one; the shorter is put behind the longer.
fn concatenated(
    mut first: SmallVec<Lit, INLINE_LEAVES>,
    mut second: SmallVec<Lit, INLINE_LEAVES>,
) -> Result<SmallVec<Lit, INLINE_LEAVES>, AllocError>
    ensures { IfOk result (λ v. (v.items ≡ first.items ++ second.items) ⊎ (v.items ≡ second.items ++ first.items)) }
{
    if first.len() < second.len() {
        second.extend_from_slice(first.as_slice())?;
        Ok(second)
    } else {
        first.extend_from_slice(second.as_slice())?;
        Ok(first)
    }
}

// The leaves of both fan-ins, which are taken.
fn take_both(
    alloc: Global,
    literals: &[Option<Lit>],
    waiting: &mut [Leaves],
    a: Lit,
    b: Lit,
) -> Result<SmallVec<Lit, INLINE_LEAVES>, AllocError>
    requires first { node_of a < length waiting.old }
    requires second { node_of b < length waiting.old }
    ensures { IfOk result (λ v. TakesBoth literals.now waiting.old a b v.items waiting.new) }
{
    let first = take_leaves(alloc, literals, waiting, a)?;
    let second = take_leaves(alloc, literals, waiting, b)?;
    concatenated(first, second)
}

// Balances a node: its leaves are joined where it keeps a node of its own, and wait otherwise.
fn balance_node(
    alloc: Global,
    hashed: &mut HashedRows,
    levels: &mut Vec<u32>,
    literals: &mut [Option<Lit>],
    waiting: &mut [Leaves],
    rows: &[Row],
    roots: &[bool],
    node: usize,
) -> Result<(), AllocError>
    requires hashed { IsHashed hashed.old.source_count rows.now }
    requires few { length rows.now < NODE_LIMIT }
    requires roots { (lits : List Lit) × HasRoots rows.now lits roots.now }
    requires above { hashed.old.source_count < node }
    requires inside { node < length rows.now }
    requires levels { levels.old.items ≡ levels_of hashed.old.rows.items }
    requires balancing { IsBalancing hashed.old.source_count rows.now roots.now node literals.old waiting.old hashed.old.rows.items }
    ensures sources { hashed.new.source_count ≡ hashed.old.source_count }
    ensures levels { OnOk result (levels.new.items ≡ levels_of hashed.new.rows.items) }
    ensures balancing { OnOk result (IsBalancing hashed.old.source_count rows.now roots.now (node + 1) literals.new waiting.new hashed.new.rows.items) }
{
    let Row::And(a, b) = rows[node] else {
        unreachable()
    };
    let leaves = take_both(alloc, literals, waiting, a, b)?;
    if roots[node] {
        let literal = join(alloc, hashed, levels, leaves.as_slice())?;
        literals[node] = Some(literal);
    } else {
        waiting[node] = Leaves::of(leaves);
    }
    Ok(())
}

// Balances all nodes that are no sources, in their order.
fn balance_nodes(
    alloc: Global,
    hashed: &mut HashedRows,
    levels: &mut Vec<u32>,
    literals: &mut [Option<Lit>],
    waiting: &mut [Leaves],
    rows: &[Row],
    roots: &[bool],
) -> Result<(), AllocError>
    requires hashed { IsHashed hashed.old.source_count rows.now }
    requires few { length rows.now < NODE_LIMIT }
    requires roots { (lits : List Lit) × HasRoots rows.now lits roots.now }
    requires levels { levels.old.items ≡ levels_of hashed.old.rows.items }
    requires begun { IsBalancing hashed.old.source_count rows.now roots.now (hashed.old.source_count + 1) literals.old waiting.old hashed.old.rows.items }
    ensures sources { hashed.new.source_count ≡ hashed.old.source_count }
    ensures balanced { OnOk result (IsBalancing hashed.old.source_count rows.now roots.now (length rows.now) literals.new waiting.new hashed.new.rows.items) }
{
    for node in hashed.source_count + 1..rows.len() {
        balance_node(alloc, hashed, levels, literals, waiting, rows, roots, node)?;
    }
    Ok(())
}

// No leaves at each of so many nodes.
fn nothing_waiting(alloc: Global, count: usize) -> Result<Vec<Leaves>, AllocError>
    ensures { IfOk result (λ waiting. waiting.items ≡ replicate count []) }
{
    let mut waiting = Vec::new(alloc);
    for _ in 0..count {
        waiting.push(Leaves::of(SmallVec::new(alloc)))?;
    }
    Ok(waiting)
}

/// The rows made again, balanced, and the literals that stand for the observed ones; nothing is dropped yet.
pub fn made_again(
    alloc: Global,
    source_count: u32,
    rows: &[Row],
    observed: &[Lit],
) -> Result<Rows, AllocError>
    requires hashed { IsHashed source_count rows.now }
    requires order { in_order_from 0 rows.now ≡ true }
    requires within { All (λ l. node_of l < length rows.now) observed.now }
    requires few { length rows.now < NODE_LIMIT }
    ensures rebuilt { IfOk result (λ r. IsRebuilt source_count rows.now observed.now r.rows.items r.observed.items) }
    ensures rule { IfOk result (λ r. AreByRule source_count rows.now observed.now r.rows.items r.observed.items) }
{
    let roots = roots(alloc, rows, observed)?;
    let mut hashed = HashedRows::new(alloc, source_count as usize)?;
    let mut levels = syn_rows::levels(alloc, hashed.rows.as_slice())?;
    let mut literals = first_literals(alloc, source_count as usize, rows.len())?;
    let mut waiting = nothing_waiting(alloc, rows.len())?;
    balance_nodes(
        alloc,
        &mut hashed,
        &mut levels,
        literals.as_mut_slice(),
        waiting.as_mut_slice(),
        rows,
        roots.as_slice(),
    )?;
    let observed = literals_of(alloc, literals.as_slice(), observed)?;
    let rows = hashed.into_rows();
    Ok(Rows { rows, observed })
}
