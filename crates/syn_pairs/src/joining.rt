//! Literals are joined by AND in rows that grow, two at a time, until one is left.

ghost use Rattle.std.specs.Prelude.{◌≡◌, ◌+◌, ◌<◌, All, IfOk, OnOk, length};
ghost use Rattle.syn_rows.specs.declared.TheConstants.{NODE_LIMIT};
ghost use Rattle.syn_rows.specs.Rows.{node_of};
ghost use Rattle.syn_hashed.specs.Growing.{Extends, IsAnd};
ghost use Rattle.syn_pairs.specs.Conjunctions.{AreThere, IsAll, SameAll};

use crate::joins::Joins;
use std::alloc::AllocError;
use syn_hashed::HashedRows;
use syn_rows::{Lit, NODE_LIMIT, TRUE};

// The AND of two literals. The only error is want of memory or of a node number, as below.
fn and(hashed: &mut HashedRows, a: Lit, b: Lit) -> Result<Lit, AllocError>
    requires first { node_of a < length hashed.old.rows.items }
    requires second { node_of b < length hashed.old.rows.items }
    ensures sources { hashed.new.source_count ≡ hashed.old.source_count }
    ensures grows { Extends hashed.old.rows.items hashed.new.rows.items }
    ensures few { length hashed.old.rows.items < NODE_LIMIT → length hashed.new.rows.items < NODE_LIMIT }
    ensures there { IfOk result (λ l. node_of l < length hashed.new.rows.items) }
    ensures value { IfOk result (λ l. IsAnd hashed.old.rows.items a b hashed.new.rows.items l) }
{
    if hashed.rows.len() + 1 < NODE_LIMIT {
        hashed.and(a, b)
    } else {
        Err(AllocError)
    }
}

// The literals at two places become one: their AND at the first place, at the second the constant 1.
fn join_two(
    hashed: &mut HashedRows,
    lits: &mut [Lit],
    first: usize,
    second: usize,
) -> Result<(), AllocError>
    requires there { AreThere hashed.old.rows.items lits.old }
    ensures sources { hashed.new.source_count ≡ hashed.old.source_count }
    ensures grows { Extends hashed.old.rows.items hashed.new.rows.items }
    ensures few { length hashed.old.rows.items < NODE_LIMIT → length hashed.new.rows.items < NODE_LIMIT }
    ensures there { OnOk result (AreThere hashed.new.rows.items lits.new) }
    ensures same { OnOk result (SameAll hashed.old.rows.items lits.old hashed.new.rows.items lits.new) }
{
    if first >= lits.len() || second >= lits.len() || first == second {
        return Ok(());
    }
    let joined = and(hashed, lits[first], lits[second])?;
    lits[second] = TRUE;
    lits[first] = joined;
    Ok(())
}

// The AND of what is left of the literals, in their order.
fn join_rest(hashed: &mut HashedRows, lits: &[Lit]) -> Result<Lit, AllocError>
    requires there { AreThere hashed.old.rows.items lits.now }
    ensures sources { hashed.new.source_count ≡ hashed.old.source_count }
    ensures grows { Extends hashed.old.rows.items hashed.new.rows.items }
    ensures few { length hashed.old.rows.items < NODE_LIMIT → length hashed.new.rows.items < NODE_LIMIT }
    ensures there { IfOk result (λ l. node_of l < length hashed.new.rows.items) }
    ensures all { IfOk result (IsAll hashed.old.rows.items lits.now hashed.new.rows.items) }
{
    let mut all = TRUE;
    for lit in lits {
        all = and(hashed, all, *lit)?;
    }
    Ok(all)
}

/// The AND of literals: first of those at the places that the steps name, then of those that are found next.
pub(crate) fn join_all(
    hashed: &mut HashedRows,
    joins: &mut Joins,
    steps: &[(u32, u32)],
    lits: &mut [Lit],
) -> Result<Lit, AllocError>
    requires there { AreThere hashed.old.rows.items lits.old }
    ensures sources { hashed.new.source_count ≡ hashed.old.source_count }
    ensures grows { Extends hashed.old.rows.items hashed.new.rows.items }
    ensures few { length hashed.old.rows.items < NODE_LIMIT → length hashed.new.rows.items < NODE_LIMIT }
    ensures there { IfOk result (λ l. node_of l < length hashed.new.rows.items) }
    ensures all { IfOk result (IsAll hashed.old.rows.items lits.old hashed.new.rows.items) }
{
    joins.begin();
    for _ in 1..lits.len() {
        let Some((first, second)) = joins.next(hashed.rows.as_slice(), steps, lits)? else {
            break;
        };
        join_two(hashed, lits, first, second)?;
    }
    join_rest(hashed, lits)
}
