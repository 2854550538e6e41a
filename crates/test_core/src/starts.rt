//! The states from which commits begin.

ghost use Rattle.std.specs.Prelude.{◌≡◌, IfOk, length};

use std::alloc::{AllocError, Global};
use syn_core::{State, opening};
use syn_rows::{Lit, Row};

/// How far apart the keys of two levels are.
pub const LEVEL: u64 = 1 << 32;

/// The AND of the complements of nodes 2 and 3.
pub const NEITHER: Row = Row::And(Lit(5), Lit(7));

/// A worked graph with four spare nodes behind it, and two seats.
#[derive(Clone, Copy)]
pub enum Start {
    /// 4 = And(2, 4), 5 = And(2, 6), 6 = And(9, 11), observed 13, with keys a level apart.
    Cone,
    /// The same with keys 1 apart.
    Tight,
    /// The same as the first, and 7 = And(5, 7), observed 14.
    WithNeither,
    /// 4 = And(2, 4), and up to 52 each node the AND of node 1 and the complement of the node before; observed 104.
    Chain,
}

// The rows of the cone.
const CONE: [Row; 7] = [
    Row::Source,
    Row::Source,
    Row::Source,
    Row::Source,
    Row::And(Lit(2), Lit(4)),
    Row::And(Lit(2), Lit(6)),
    Row::And(Lit(9), Lit(11)),
];

// The cone, with these keys above the inputs'.
fn cone(alloc: Global, low: u64, high: u64) -> Result<State, AllocError> {
    let keys = [0, 0, 0, 0, low, low, high];
    opening(alloc, &CONE, &[Lit(13)], &keys, 4, 2)
}

// The cone and the AND of two complements.
fn with_neither(alloc: Global) -> Result<State, AllocError> {
    let rows = [
        Row::Source,
        Row::Source,
        Row::Source,
        Row::Source,
        Row::And(Lit(2), Lit(4)),
        Row::And(Lit(2), Lit(6)),
        Row::And(Lit(9), Lit(11)),
        NEITHER,
    ];
    let keys = [0, 0, 0, 0, LEVEL, LEVEL, 2 * LEVEL, LEVEL];
    opening(alloc, &rows, &[Lit(13), Lit(14)], &keys, 4, 2)
}

// The rows of the chain.
fn chain_rows(alloc: Global) -> Result<Vec<Row>, AllocError>
    ensures { IfOk result (λ r. length r.items ≡ 53) }
{
    let mut rows = vec![in alloc; Row::Source, Row::Source, Row::Source, Row::Source]?;
    rows.push(Row::And(Lit(2), Lit(4)))?;
    for before in 4u32..52 {
        rows.push(Row::And(Lit(2), Lit(2 * before + 1)))?;
    }
    Ok(rows)
}

// The chain's keys.
fn chain_keys(alloc: Global) -> Result<Vec<u64>, AllocError> {
    let mut keys = vec![in alloc; 0, 0, 0, 0]?;
    for level in 1u64..50 {
        keys.push(level * LEVEL)?;
    }
    Ok(keys)
}

fn chain(alloc: Global) -> Result<State, AllocError> {
    let rows = chain_rows(alloc)?;
    let keys = chain_keys(alloc)?;
    opening(alloc, rows.as_slice(), &[Lit(104)], keys.as_slice(), 4, 2)
}

/// The state in which it begins.
pub fn opened(alloc: Global, start: Start) -> Result<State, AllocError> {
    match start {
        Start::Cone => cone(alloc, LEVEL, 2 * LEVEL),
        Start::Tight => cone(alloc, 1, 2),
        Start::WithNeither => with_neither(alloc),
        Start::Chain => chain(alloc),
    }
}
