//! Hashed rows made again in the order in which the observed literals visit them. Their nodes get other numbers, and no pair
//! is looked up.

ghost use Rattle.std.specs.Prelude.{◌≡◌, ℕ, ◌+◌, ◌*◌, ◌<◌, ◌^◌, ◌++◌, ◌∷◌, [], All, List, length, replicate, IfOk, OnOk};
ghost use Rattle.syn_rows.specs.declared.TheConstants.{NODE_LIMIT};
ghost use Rattle.syn_rows.specs.Rows.{node_of};
ghost use Rattle.syn_rows.specs.Joining.{ordered_and};
ghost use Rattle.syn_hashed.specs.Hashed.{IsHashed};
ghost use Rattle.syn_hashed.specs.Compacting.{IsCompacted};
ghost use Rattle.syn_hashed.specs.HashedAgain.{IsHashedAgain};
ghost use Rattle.syn_hashed.specs.Renumbering.{IsRenumbering};

use crate::compaction::Rows;
use crate::construction::source_rows;
use crate::literals::{first_literals, literals_of};
use crate::visit::{Maker, fan_ins, visit_all};
use std::alloc::{AllocError, Global};
use syn_rows::{Lit, Row, ordered_and};

/// Rows made again: node 0 and the sources, then a row for each visited AND.
#[derive(Debug, Drop)]
pub struct RenumberedRows {
    pub source_count: usize,
    pub rows: Vec<Row>,
}

impl Maker for RenumberedRows {
    ghost sources = { λ r. r.source_count };

    ghost stands = { λ r rows literals. IsRenumbering r.source_count rows literals r.rows.items };

    fn make(
        &mut self,
        rows: &[Row],
        literals: &mut [Option<Lit>],
        node: usize,
    ) -> Result<(), AllocError> {
        if literals[node].is_some() {
            return Ok(());
        }
        if let Some((first, second)) = fan_ins(literals, rows[node]) {
            let literal = push_and(&mut self.rows, first, second)?;
            literals[node] = Some(literal);
        }
        Ok(())
    }
}

// The plain literal of a new row, the AND of two literals.
fn push_and(rows: &mut Vec<Row>, first: Lit, second: Lit) -> Result<Lit, AllocError>
    requires few { length rows.old.items + 1 < NODE_LIMIT }
    ensures literal { IfOk result (λ l. l.0 ≡ 2 * length rows.old.items) }
    ensures rows { OnOk result (rows.new.items ≡ rows.old.items ++ ordered_and first second ∷ []) }
{
    let node = rows.len() as u32;
    rows.push(ordered_and(first, second))?;
    Ok(Lit::of(node, false))
}

/// The rows that the observed literals reach, made again in the order in which these visit them, each node after its
/// first and then its second fan-in. The literals name the new rows.
pub fn renumbered(
    alloc: Global,
    source_count: u32,
    rows: &[Row],
    observed: &[Lit],
) -> Result<Rows, AllocError>
    requires hashed { IsHashed source_count rows.now }
    requires within { All (λ l. node_of l < length rows.now) observed.now }
    requires few { length rows.now < NODE_LIMIT }
    ensures compacted { IfOk result (λ r. IsCompacted source_count rows.now observed.now r.rows.items r.observed.items) }
    ensures exact { IfOk result (λ r. IsHashedAgain source_count rows.now observed.now r.rows.items r.observed.items) }
{
    let source_count = source_count as usize;
    let mut kept = RenumberedRows {
        source_count,
        rows: source_rows(alloc, source_count)?,
    };
    let mut literals = first_literals(alloc, source_count, rows.len())?;
    visit_all(alloc, &mut kept, rows, observed, literals.as_mut_slice())?;
    let observed = literals_of(alloc, literals.as_slice(), observed)?;
    Ok(Rows {
        rows: kept.rows,
        observed,
    })
}
