//! Rows that change while a sweep goes on.

ghost use Rattle.std.specs.Prelude.{◌≡◌, ◌≤◌, ◌<◌, ◌+◌, ◌&&◌, ℕ, Bool, true, false, List, length};
ghost use Rattle.syn_rows.specs.declared.Row.{Row};
ghost use Rattle.syn_rows.specs.declared.TheConstants.{NODE_LIMIT};
ghost use Rattle.syn_rows.specs.Joining.{lit_of};
ghost use Rattle.syn_rows.specs.Rows.{is_derived, node_of, refs_below, row_at};
ghost use Rattle.syn_rows.specs.Values.{Fits, RowFits, lit_value};
ghost use Rattle.syn_fraig.specs.Merging.{FitsAlso, IsMerged, SameBy};

use syn_rows::{Lit, Row, joined_literals, ordered_and, simple_and};

// Another row for a node, one that fits wherever the old rows do.
fn put_row(rows: &[Row], now: &mut [Row], node: u32, row: Row)
    requires there { node < length now.old }
    requires derived { is_derived row ≡ true }
    requires below { refs_below node row ≡ true }
    requires fits { (v : ℕ → Bool) → Fits rows.now v → RowFits v node row }
    ensures { (count : ℕ) → count < node → IsMerged count rows.now now.old → IsMerged count rows.now now.new }
{
    let _ = rows;
    now[node as usize] = row;
}

/// The literal that stands for a literal: that of its node's alias, with its sign, or itself.
pub(crate) fn standing(now: &[Row], lit: Lit) -> Lit
    requires { node_of lit < length now.now }
    ensures value { (v : ℕ → Bool) → Fits now.now v → lit_value v result ≡ lit_value v lit }
    ensures below { (count : ℕ) (rows : List Row) → IsMerged count rows now.now → node_of result ≤ node_of lit }
{
    let row = now[lit.node() as usize];
    match row {
        Row::Alias(other) => {
            if lit.complemented() {
                other.not()
            } else {
                other
            }
        }
        _ => lit,
    }
}

/// Merges a node into a literal of a smaller one that has its value.
pub(crate) fn merge(rows: &[Row], now: &mut [Row], node: u32, lit: Lit)
    requires there { node < length now.old }
    requires below { node_of lit < node }
    requires same { SameBy rows.now (lit_of node) lit }
    ensures { (count : ℕ) → count < node → IsMerged count rows.now now.old → IsMerged count rows.now now.new }
{
    put_row(rows, now, node, Row::Alias(lit));
}

// The AND of two literals, the smaller one first, as an alias where it needs no row.
fn row_of_and(a: Lit, b: Lit) -> Row
    ensures derived { is_derived result ≡ true }
    ensures below { (n : ℕ) → 0 < n → node_of a < n → node_of b < n → refs_below n result ≡ true }
    ensures fits { (v : ℕ → Bool) (n : ℕ) → v 0 ≡ false → v n ≡ (lit_value v a && lit_value v b) → RowFits v n result }
{
    joined_literals();
    match simple_and(a, b) {
        Some(lit) => Row::Alias(lit),
        None => ordered_and(a, b),
    }
}

/// Puts the literals that stand for a node's two in their place.
pub(crate) fn reduce(count: u32, rows: &[Row], now: &mut [Row], node: u32)
    requires merged { IsMerged count rows.now now.old }
    requires gate { count < node }
    requires there { node < length now.old }
    ensures { IsMerged count rows.now now.new }
{
    let _ = count;
    let row = now[node as usize];
    if let Row::And(a, b) = row {
        let first = standing(now, a);
        let second = standing(now, b);
        put_row(rows, now, node, row_of_and(first, second));
    }
}

/// Takes a node's AND over into the gates.
pub(crate) fn copy_gate(rows: &[Row], now: &[Row], gates: &mut [Row], node: u32)
    requires now { FitsAlso rows.now now.now }
    requires gates { FitsAlso rows.now gates.old }
    ensures { FitsAlso rows.now gates.new }
{
    let _ = rows;
    let n = node as usize;
    if n < now.len() && n < gates.len() {
        let row = now[n];
        if let Row::And(_, _) = row {
            gates[n] = row;
        }
    }
}

// Whether two nodes have the same AND.
fn is_same_and(now: &[Row], m: u32, n: u32) -> bool
    requires first { m < length now.now }
    requires second { n < length now.now }
    ensures { result ≡ true → (v : ℕ → Bool) → Fits now.now v → v n ≡ v m }
{
    let first = now[m as usize];
    let second = now[n as usize];
    match (first, second) {
        (Row::And(a, b), Row::And(c, d)) => a.0 == c.0 && b.0 == d.0,
        _ => false,
    }
}

/// Merges a node into an earlier one, where that has the same AND.
pub(crate) fn merge_same(count: u32, rows: &[Row], now: &mut [Row], node: u32, other: u32)
    requires merged { IsMerged count rows.now now.old }
    requires gate { count < node }
    requires there { node < length now.old }
    requires low { node < NODE_LIMIT }
    ensures { IsMerged count rows.now now.new }
{
    let _ = count;
    if other < node && is_same_and(now, other, node) {
        merge(rows, now, node, Lit::of(other, false));
    }
}
