//! Tables of all nodes, by eight sources, for given values of the others.

ghost use Rattle.std.specs.Prelude.{◌≡◌, ◌==◌, ℕ, ◌+◌, ◌-◌, ◌^◌, ◌<◌, ◌≤◌, All, Bool, List, true, length, OnOk};
ghost use Rattle.std.specs.Int.{bit_at};
ghost use Rattle.syn_rows.specs.declared.TheConstants.{NODE_LIMIT};
ghost use Rattle.syn_rows.specs.Rows.{AllRefs, node_of};
ghost use Rattle.syn_rows.specs.Values.{lit_value};
ghost use Rattle.syn_hashed.specs.Hashed.{IsHashed};
ghost use Rattle.syn_truth.specs.Truth.{AtEach, value_of};
ghost use Rattle.syn_fraig.specs.Tables.{AreTables, HasTables, IsTableOf, sources_at};

use std::alloc::AllocError;
use syn_rows::{Lit, Row};
use syn_truth::Truth;

/// The variables of a table: the first sources.
const VARS: u8 = 8;

/// How many rounds there are: one for all values of the sources behind the first eight.
pub(crate) fn round_count(count: u32) -> u32
    requires { count ≤ 12 }
    ensures { result ≡ 2 ^ (count - 8) }
{
    if count <= 8 { 1 } else { 1 << (count - 8) }
}

// Whether a bit of a number is 1.
fn is_set(number: u32, bit: u32) -> bool
    requires { bit < 32 }
    ensures { result ≡ (bit_at number bit == 1) }
{
    number >> bit & 1 == 1
}

// The table of a source in a round, whose bits are the values of the sources behind the first eight.
fn source_table(source: u32, round: u32) -> Truth
    requires { source < 40 }
    ensures vars { result.vars ≡ 8 }
    ensures values { AtEach 8 (λ xs. value_of result xs ≡ sources_at round xs (source + 1)) }
{
    if source < VARS as u32 {
        Truth::var(VARS, source as u8)
    } else {
        Truth::constant(VARS, is_set(round, source - VARS as u32))
    }
}

/// The table of a literal.
pub(crate) fn literal_table(tables: &[Truth], lit: Lit) -> Truth
    requires there { node_of lit < length tables.now }
    requires vars { All (λ t. t.vars ≡ 8) tables.now }
    ensures vars { result.vars ≡ 8 }
    ensures values { (v : ℕ → Bool) (xs : List Bool) → length xs ≡ 8 → AreTables tables.now v xs → value_of result xs ≡ lit_value v lit }
{
    let table = tables[lit.node() as usize];
    if lit.complemented() {
        table.not()
    } else {
        table
    }
}

// The table of node 0 or of a source.
fn open_table(node: u32, round: u32) -> Truth
    ensures vars { result.vars ≡ 8 }
    ensures values { node < 41 → AtEach 8 (λ xs. value_of result xs ≡ sources_at round xs node) }
{
    if node == 0 || node > 40 {
        Truth::constant(VARS, false)
    } else {
        source_table(node - 1, round)
    }
}

// The table of a row, from those of the nodes before it.
fn row_table(row: Row, node: u32, round: u32, tables: &[Truth]) -> Truth
    requires refs { AllRefs (λ m. m < length tables.now) row }
    requires vars { All (λ t. t.vars ≡ 8) tables.now }
    ensures vars { result.vars ≡ 8 }
    ensures values { IsTableOf tables.now round node row result }
{
    match row {
        Row::And(a, b) => literal_table(tables, a).and(literal_table(tables, b)),
        Row::Alias(a) => literal_table(tables, a),
        Row::Free => open_table(node, round),
        Row::Source => open_table(node, round),
    }
}

/// The tables of all nodes of hashed rows in a round. The only error is want of memory.
pub(crate) fn fill(
    count: u32,
    rows: &[Row],
    round: u32,
    tables: &mut Vec<Truth>,
) -> Result<(), AllocError>
    requires hashed { IsHashed count rows.now }
    requires few { count ≤ 40 }
    requires limit { length rows.now < NODE_LIMIT }
    ensures { OnOk result (HasTables rows.now round tables.new.items) }
{
    let _ = count;
    tables.clear();
    for node in 0..rows.len() as u32 {
        let table = row_table(rows[node as usize], node, round, tables.as_slice());
        tables.push(table)?;
    }
    Ok(())
}
