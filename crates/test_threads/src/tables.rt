//! Tables of texts' graphs: how they open, and what is left when they close.

ghost use Rattle.std.specs.Prelude.{◌≡◌, ◌≢◌, ℕ, ◌+◌, ◌<◌, ◌≤◌, [], length, true, IfSome};
ghost use Rattle.syn_rows.specs.declared.Row.TheVariants.{Source};
ghost use Rattle.syn_rows.specs.Rows.{row_at};
ghost use Rattle.syn_core_laws.specs.Openings.{empty_view};
ghost use Rattle.syn_table.specs.Seating.{IsOf, known_of, nodes_of, view_of};
ghost use Rattle.syn_commit.specs.Giving.{IsAtRest};

use crate::harness::{CONE, graph_of};
use crate::key_trials::fits;
use std::alloc::Global;
use syn_graph::Graph;
use syn_hashed::compact_rows;
use syn_rows::{Lit, Row};
use syn_table::{Seat, Shared, spread};

/// The rows that the cone's table has at first.
pub const CONE_ROWS: [Row; 7] = [
    Row::Source,
    Row::Source,
    Row::Source,
    Row::Source,
    Row::And(Lit(2), Lit(4)),
    Row::And(Lit(2), Lit(6)),
    Row::And(Lit(9), Lit(11)),
];

// The graph of a text, where it has at most 1000 rows and observed literals.
fn small_graph_of(alloc: Global, text: &[u8]) -> Option<Graph>
    ensures rows { IfSome result (λ g. length g.rows ≤ 1000) }
    ensures observed { IfSome result (λ g. length g.observed ≤ 1000) }
{
    let graph = graph_of(alloc, text)?;
    if graph.rows.as_slice().len() > 1000 || graph.observed.as_slice().len() > 1000 {
        return None;
    }
    Some(graph)
}

// The graph's table with 1024 spare nodes by these keys, its first seat, and the first spare node; none where the keys
// don't fit.
fn started(alloc: Global, graph: &Graph, keys: &[u64]) -> Option<(Shared, Seat, u32)>
    requires rows { length graph.now.rows ≤ 1000 }
    requires observed { length graph.now.observed ≤ 1000 }
    ensures table { IfSome result (λ t. IsOf t.1 t.0) }
    ensures nodes { IfSome result (λ t. nodes_of t.0 ≡ t.2 + 1024) }
    ensures numbers { IfSome result (λ t. length (known_of t.1).numbers ≡ 64) }
    ensures view { IfSome result (λ t. view_of t.1 ≡ empty_view 0) }
    ensures resting { IfSome result (λ t. IsAtRest (view_of t.1)) }
{
    if !fits(graph.rows.as_slice(), keys) {
        return None;
    }
    let first = graph.rows.as_slice().len() as u32;
    let (shared, seat) = Shared::start(alloc, graph, keys, 1024).ok()?;
    Some((shared, seat, first))
}

/// The table of a text's graph with 1024 spare nodes, its first seat, and the first spare node. Without keys the table has
/// those that are spread.
pub fn opened_as(alloc: Global, text: &[u8], keys: Option<&[u64]>) -> Option<(Shared, Seat, u32)>
    ensures table { IfSome result (λ t. IsOf t.1 t.0) }
    ensures nodes { IfSome result (λ t. nodes_of t.0 ≡ t.2 + 1024) }
    ensures numbers { IfSome result (λ t. length (known_of t.1).numbers ≡ 64) }
    ensures view { IfSome result (λ t. view_of t.1 ≡ empty_view 0) }
    ensures resting { IfSome result (λ t. IsAtRest (view_of t.1)) }
{
    let graph = small_graph_of(alloc, text)?;
    match keys {
        Some(keys) => started(alloc, &graph, keys),
        None => {
            let keys = spread(alloc, &graph).ok()?;
            started(alloc, &graph, keys.as_slice())
        }
    }
}

/// The cone's table with 1024 spare nodes, by keys that are spread, and its first seat.
pub fn opened(alloc: Global) -> Option<(Shared, Seat)>
    ensures table { IfSome result (λ t. IsOf t.1 t.0) }
    ensures nodes { IfSome result (λ t. nodes_of t.0 ≡ 1031) }
    ensures many { IfSome result (λ t. 8 < nodes_of t.0) }
    ensures numbers { IfSome result (λ t. length (known_of t.1).numbers ≡ 64) }
    ensures view { IfSome result (λ t. view_of t.1 ≡ empty_view 0) }
    ensures resting { IfSome result (λ t. IsAtRest (view_of t.1)) }
{
    let (shared, seat, first) = opened_as(alloc, CONE.as_bytes(), None)?;
    if first != 7 {
        return None;
    }
    Some((shared, seat))
}

/// The same, and a second seat.
pub fn opened_twice(alloc: Global) -> Option<(Shared, Seat, Seat)>
    ensures table { IfSome result (λ t. IsOf t.1 t.0) }
    ensures other_table { IfSome result (λ t. IsOf t.2 t.0) }
    ensures nodes { IfSome result (λ t. nodes_of t.0 ≡ 1031) }
    ensures numbers { IfSome result (λ t. length (known_of t.1).numbers + length (known_of t.2).numbers ≡ 64) }
    ensures resting { IfSome result (λ t. IsAtRest (view_of t.1)) }
    ensures other_resting { IfSome result (λ t. IsAtRest (view_of t.2)) }
{
    let (shared, mut seat) = opened(alloc)?;
    match shared.split(&mut seat) {
        Ok(other) => Some((shared, seat, other)),
        Err(_) => None,
    }
}

// Whether these are the wanted rows, and free ones behind them, 1031 in all.
fn are_rows(rows: &[Row], wanted: &[Row]) -> bool {
    for (node, row) in rows.iter().enumerate() {
        if *row != wanted.get(node).copied().unwrap_or(Row::Free) {
            return false;
        }
    }
    rows.len() == 1031
}

/// Whether the cone's table closes with these rows, free ones behind them, and the cone's observed literal.
pub fn closes_with(alloc: Global, shared: Shared, seat: Seat, wanted: &[Row]) -> bool
    requires table { IsOf seat shared }
    requires numbers { length (known_of seat).numbers ≡ 64 }
    requires held { (view_of seat).held ≡ [] }
    requires pins { (view_of seat).pins ≡ [] }
{
    match shared.close(alloc, seat) {
        Ok(closed) => {
            are_rows(closed.rows.as_slice(), wanted)
                && closed.observed.as_slice() == [Lit(13)].as_slice()
        }
        Err(_) => false,
    }
}

// How many of the rows are ANDs.
fn ands_of(rows: &[Row]) -> u32 {
    let mut ands = 0u32;
    for row in rows {
        if matches!(*row, Row::And(_, _)) {
            ands = ands.saturating_add(1);
        }
    }
    ands
}

/// How many `And` rows the table closes with.
pub fn ands_left(alloc: Global, shared: Shared, seat: Seat) -> Option<u32>
    requires table { IsOf seat shared }
    requires numbers { length (known_of seat).numbers ≡ 64 }
    requires resting { IsAtRest (view_of seat) }
{
    let closed = shared.close(alloc, seat).ok()?;
    Some(ands_of(closed.rows.as_slice()))
}

// Whether the row is a source's exactly where the node is node 0 or one of the three sources.
fn source_fits(row: Row, node: usize) -> bool
    ensures front { result ≡ true → node < 4 → row ≡ Source }
    ensures others { result ≡ true → 3 < node → row ≢ Source }
{
    match row {
        Row::Source => node < 4,
        Row::Free | Row::And(_, _) | Row::Alias(_) => 3 < node,
    }
}

// Whether node 0 and three sources, and no others, have source rows.
fn has_three_sources(rows: &[Row]) -> bool
    ensures front { result ≡ true → (n : ℕ) → n < 3 + 1 → row_at rows.now n ≡ Source }
    ensures others { result ≡ true → (n : ℕ) → 3 < n → row_at rows.now n ≢ Source }
{
    if rows.len() < 4 {
        return false;
    }
    for (node, row) in rows.iter().enumerate() {
        if !source_fits(*row, node) {
            return false;
        }
    }
    true
}

/// How many `And` rows the table of a graph of three sources closes with, and how many of them compaction leaves.
pub fn ands_compacted(alloc: Global, shared: Shared, seat: Seat) -> Option<(u32, u32)>
    requires table { IsOf seat shared }
    requires numbers { length (known_of seat).numbers ≡ 64 }
    requires resting { IsAtRest (view_of seat) }
{
    let closed = shared.close(alloc, seat).ok()?;
    let rows = closed.rows.as_slice();
    let observed = closed.observed.as_slice();
    if rows.len() > 2000 || !has_three_sources(rows) {
        return None;
    }
    let compacted = compact_rows(alloc, 3, rows, observed).ok()?;
    Some((ands_of(rows), ands_of(compacted.rows.as_slice())))
}
