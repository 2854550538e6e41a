//! One graph that observes what two do.

ghost use Rattle.std.specs.Prelude.{◌≡◌, ◌+◌, ◌<◌, true, length, IfOk};
ghost use Rattle.syn_rows.specs.declared.TheConstants.{NODE_LIMIT};
ghost use Rattle.syn_hashed.specs.Hashed.{IsHashed};
ghost use Rattle.syn_hashed.specs.Growing.{Extends};
ghost use Rattle.syn_cec.specs.Both.{HaveRoom, ObservesBoth};
ghost use Rattle.syn_remaking.specs.Remaking.{AllStand, Stands};

use std::alloc::{AllocError, Global};
use syn_graph::{Graph, finish};
use syn_hashed::HashedRows;
use syn_remaking::{all_moved, fan_ins, joined};
use syn_rows::{Lit, NODE_LIMIT, Row};

// The literal of one node: a source's own, or that of its AND.
fn made(
    hashed: &mut HashedRows,
    rows: &[Row],
    literals: &[Lit],
    node: u32,
) -> Result<Lit, AllocError>
    requires hashed { IsHashed hashed.old.source_count rows.now }
    requires limit { length rows.now < NODE_LIMIT }
    requires inside { node < length rows.now }
    requires node { node ≡ length literals.now }
    requires standing { AllStand rows.now hashed.old.rows.items literals.now }
    ensures sources { hashed.new.source_count ≡ hashed.old.source_count }
    ensures grows { Extends hashed.old.rows.items hashed.new.rows.items }
    ensures few { length hashed.old.rows.items < NODE_LIMIT → length hashed.new.rows.items < NODE_LIMIT }
    ensures stands { IfOk result (Stands rows.now hashed.new.rows.items node) }
{
    match fan_ins(rows[node as usize]) {
        None => Ok(Lit::of(node, false)),
        Some((a, b)) => joined(hashed, rows, literals, node, a, b),
    }
}

// The literals of all nodes, in rows that may have others already.
fn placed(alloc: Global, hashed: &mut HashedRows, rows: &[Row]) -> Result<Vec<Lit>, AllocError>
    requires hashed { IsHashed hashed.old.source_count rows.now }
    requires limit { length rows.now < NODE_LIMIT }
    ensures sources { hashed.new.source_count ≡ hashed.old.source_count }
    ensures grows { Extends hashed.old.rows.items hashed.new.rows.items }
    ensures few { length hashed.old.rows.items < NODE_LIMIT → length hashed.new.rows.items < NODE_LIMIT }
    ensures all { IfOk result (λ v. length v.items ≡ length rows.now) }
    ensures standing { IfOk result (λ v. AllStand rows.now hashed.new.rows.items v.items) }
{
    let mut literals = Vec::with_capacity(alloc, rows.len())?;
    for node in 0..rows.len() as u32 {
        let before = literals.as_slice();
        let literal = made(hashed, rows, before, node)?;
        literals.push(literal)?;
    }
    Ok(literals)
}

/// Whether one graph has room for what both have. Graphs without ANDs in common need so much.
pub(crate) fn have_room(first: &Graph, second: &Graph) -> bool
    ensures { result ≡ true → HaveRoom first.now second.now }
{
    let rows = first.rows.as_slice().len() + second.rows.as_slice().len();
    let lits = first.observed.as_slice().len() + second.observed.as_slice().len();
    rows < NODE_LIMIT && lits < 1 << 31
}

/// A graph that observes what the first graph does and then what the second does. The only error is want of memory.
pub(crate) fn joint(alloc: Global, first: &Graph, second: &Graph) -> Result<Graph, AllocError>
    requires sources { second.now.source_count ≡ first.now.source_count }
    requires room { HaveRoom first.now second.now }
    ensures count { IfOk result (λ g. length g.observed ≡ length first.now.observed + length second.now.observed) }
    ensures values { IfOk result (ObservesBoth first.now second.now) }
{
    let mut hashed = HashedRows::new(alloc, first.source_count as usize)?;
    let literals = placed(alloc, &mut hashed, first.rows.as_slice())?;
    let others = placed(alloc, &mut hashed, second.rows.as_slice())?;
    let mut observed = all_moved(alloc, literals.as_slice(), first.observed.as_slice())?;
    let more = all_moved(alloc, others.as_slice(), second.observed.as_slice())?;
    observed.extend_from_slice(more.as_slice())?;
    finish(alloc, hashed, observed.as_slice())
}
