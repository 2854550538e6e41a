//! Whether two rows have the same value, whatever values some nodes are given: plain and slow.

ghost use Rattle.std.specs.Prelude.{◌≡◌, ◌≢◌, ◌↔◌, ℕ, ◌<◌, ◌+◌, true, false, Bool, [], ◌∷◌, ◌++◌, Some, None, List, IfOk, IfSome, IfNone, IsTrue};
ghost use Rattle.syn_core_laws.specs.Lists.{look};
ghost use Rattle.syn_core_laws.specs.SameValue.{turned_by, both, value_of_row, known_value, SameFor};
ghost use Rattle.syn_core.specs.Told.{IsTold, new_value, IsFull, first_new, untold, SameTold, Covers, SameForAll};

use crate::lists::{copied, look, with};
use std::alloc::{AllocError, Global};
use syn_rows::{Lit, Row};

fn turned_by(literal: Lit, value: Option<bool>) -> Option<bool>
    ensures { result ≡ turned_by literal value }
{
    match value {
        None => None,
        Some(value) => Some(if literal.complemented() {
            !value
        } else {
            value
        }),
    }
}

fn both(first: Option<bool>, second: Option<bool>) -> Option<bool>
    ensures { result ≡ both first second }
{
    match first {
        None => None,
        Some(a) => match second {
            None => None,
            Some(b) => Some(a && b),
        },
    }
}

/// The value of the row by what is told of its nodes.
fn row_value(told: &[(u32, bool)], row: Row) -> Option<bool>
    ensures { result ≡ value_of_row (λ n. look n told.now) row }
{
    match row {
        Row::Free => None,
        Row::Source => None,
        Row::And(a, b) => {
            let first = turned_by(a, look(told, a.node()));
            let second = turned_by(b, look(told, b.node()));
            both(first, second)
        }
        Row::Alias(a) => turned_by(a, look(told, a.node())),
    }
}

fn known_value(told: &[(u32, bool)], row: Option<Row>) -> Option<bool>
    ensures { result ≡ known_value (λ n. look n told.now) row }
{
    match row {
        None => None,
        Some(row) => row_value(told, row),
    }
}

/// The value that a known row gives the node, where it isn't told yet.
fn new_value(rows: &[(u32, Row)], told: &[(u32, bool)], node: u32) -> Option<bool>
    ensures { result ≡ new_value (λ n. look n rows.now) told.now node }
{
    match look(told, node) {
        Some(_) => None,
        None => known_value(told, look(rows, node)),
    }
}

/// The first node that gets a value by known rows and isn't told yet.
fn first_new(rows: &[(u32, Row)], told: &[(u32, bool)]) -> Option<(u32, bool)>
    ensures { result ≡ first_new (new_value (λ n. look n rows.now) told.now) rows.now }
{
    for x in rows {
        if let Some(value) = new_value(rows, told, x.0) {
            return Some((x.0, value));
        }
    }
    None
}

/// What is told, and all values that follow by known rows.
fn all_values(
    alloc: Global,
    rows: &[(u32, Row)],
    told: Vec<(u32, bool)>,
) -> Result<Vec<(u32, bool)>, AllocError>
    ensures told { (over : List ℕ) (choice : ℕ → Bool) → IsTold (λ n. look n rows.now) over choice told.items → IfOk result (λ r. IsTold (λ n. look n rows.now) over choice r.items) }
    ensures full { IfOk result (λ r. IsFull (λ n. look n rows.now) r.items) }
{
    let mut told = told;
    while let Some(value) = first_new(rows, told.as_slice()) {
        told = with(alloc, value, told.as_slice())?;
    }
    Ok(told)
}

/// Whether both rows have a value by what is told, and the same one.
fn same_told(told: &[(u32, bool)], old: Row, new: Row) -> bool
    ensures { IsTrue result ↔ SameTold told.now old new }
{
    match row_value(told, old) {
        None => false,
        Some(a) => match row_value(told, new) {
            None => false,
            Some(b) => a == b,
        },
    }
}

/// What is chosen, and node 0's value.
fn with_zero(alloc: Global, chosen: &[(u32, bool)]) -> Result<Vec<(u32, bool)>, AllocError>
    ensures { IfOk result (λ r. r.items ≡ chosen.now ++ (0, false) ∷ []) }
{
    let mut told = copied(alloc, chosen)?;
    told.push((0, false))?;
    Ok(told)
}

/// Whether the rows have the same value, where each node has a chosen one.
fn same_when(
    alloc: Global,
    rows: &[(u32, Row)],
    old: Row,
    new: Row,
    chosen: &[(u32, bool)],
) -> Result<bool, AllocError>
    ensures { (over : List ℕ) → Covers over [] chosen.now → IfOk result (λ b. IsTrue b ↔ SameForAll (λ n. look n rows.now) over chosen.now old new) }
{
    let told = with_zero(alloc, chosen)?;
    let told = all_values(alloc, rows, told)?;
    Ok(same_told(told.as_slice(), old, new))
}

/// Whether the rows have the same value for each choice of values of the nodes that are left, where the others have chosen ones.
fn same_for_all(
    alloc: Global,
    rows: &[(u32, Row)],
    old: Row,
    new: Row,
    rest: &[u32],
    chosen: &[(u32, bool)],
) -> Result<bool, AllocError>
    ensures { (over : List ℕ) → Covers over rest.now chosen.now → IfOk result (λ b. IsTrue b ↔ SameForAll (λ n. look n rows.now) over chosen.now old new) }
{
    let Some((node, more)) = rest.split_first() else {
        return same_when(alloc, rows, old, new, chosen);
    };
    if look(chosen, *node).is_some() {
        return same_for_all(alloc, rows, old, new, more, chosen);
    }
    let low = with(alloc, (*node, false), chosen)?;
    if !same_for_all(alloc, rows, old, new, more, low.as_slice())? {
        return Ok(false);
    }
    let high = with(alloc, (*node, true), chosen)?;
    same_for_all(alloc, rows, old, new, more, high.as_slice())
}

/// Whether both rows have a value, and the same one, whatever values the nodes of `over` are given.
pub(crate) fn same_value(
    alloc: Global,
    rows: &[(u32, Row)],
    over: &[u32],
    old: Row,
    new: Row,
) -> Result<bool, AllocError>
    ensures { IfOk result (λ b. IsTrue b ↔ ((choice : ℕ → Bool) → SameFor (λ n. look n rows.now) over.now choice old new)) }
{
    same_for_all(alloc, rows, old, new, over, &[])
}
