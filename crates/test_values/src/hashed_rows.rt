//! Calls on rows that are joined and compacted.

ghost use Rattle.std.specs.Prelude.{◌≤◌, length};

use crate::answers::put;
use crate::operands::{Operands, small};
use std::alloc::{AllocError, Global};
use syn_hashed::{HashedRows, Rows, compact_rows};
use syn_rows::{Lit, Row};

// The AND of two literals; the constant where a row isn't there, or there are too many.
fn joined(hashed: &mut HashedRows, a: Lit, b: Lit) -> Result<Lit, AllocError>
    requires { length hashed.old.rows.items ≤ 101 }
    ensures { length hashed.new.rows.items ≤ 101 }
{
    let count = hashed.rows.len();
    if a.node() as usize >= count || b.node() as usize >= count || count > 100 {
        return Ok(Lit(0));
    }
    hashed.and(a, b)
}

/// Joins pairs of literals in turn: the literals of their ANDs.
pub fn join(alloc: Global, hashed: &mut HashedRows, list: &[u128]) -> Result<Vec<Lit>, AllocError>
    requires { length hashed.old.rows.items ≤ 101 }
    ensures { length hashed.new.rows.items ≤ 101 }
{
    let mut found = Vec::new(alloc);
    for place in 0..list.len() / 2 {
        let a = Lit(small(list, 2 * place));
        let b = Lit(small(list, 2 * place + 1));
        found.push(joined(hashed, a, b)?)?;
    }
    Ok(found)
}

// The literals of a list of pairs that are joined over so many sources, and how many rows there are then.
fn put_joined(alloc: Global, out: &mut String, operands: &Operands) -> Result<(), AllocError> {
    let mut hashed = HashedRows::new(alloc, operands.number(0).min(100) as usize)?;
    put(out, join(alloc, &mut hashed, operands.list(1)))?;
    put(out, Ok(hashed.rows.len()))
}

// What compaction leaves of three sources: node 4 is the AND of node 5 and the third source, node 5 the complement of node 6,
// node 6 the AND of the first two sources; node 7 is free, and nothing reaches node 8.
fn compacted(alloc: Global) -> Result<Rows, AllocError> {
    let rows = [
        Row::Source,
        Row::Source,
        Row::Source,
        Row::Source,
        Row::And(Lit(10), Lit(6)),
        Row::Alias(Lit(13)),
        Row::And(Lit(2), Lit(4)),
        Row::Free,
        Row::And(Lit(2), Lit(12)),
    ];
    compact_rows(alloc, 3, &rows, &[Lit(9), Lit(2)])
}

/// The answer to a call.
pub fn answer(
    alloc: Global,
    out: &mut String,
    call: &str,
    operands: &Operands,
) -> Result<(), AllocError> {
    match call {
        "joined" => put_joined(alloc, out, operands),
        _ => put(out, compacted(alloc)),
    }
}
