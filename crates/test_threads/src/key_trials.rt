//! Keys that are tried before a table is opened with them.

ghost use Rattle.std.specs.Prelude.{◌≡◌, ◌<◌, slice_index, true};
ghost use Rattle.syn_rows.specs.declared.Row.TheVariants.{Source};
ghost use Rattle.syn_rows.specs.Rows.{AllRefs};
ghost use Rattle.syn_table.specs.Openings.{AreKeys};

use syn_rows::Row;

// A node's key, or 0 where it has none.
fn key_of(keys: &[u64], node: u32) -> u64
    ensures { result ≡ slice_index keys.now node }
{
    keys.get(node as usize).copied().unwrap_or(0)
}

// Whether the row may have this key, where the nodes have these.
fn row_fits(row: Row, keys: &[u64], key: u64) -> bool
    ensures source { result ≡ true → row ≡ Source → key ≡ 0 }
    ensures refs { result ≡ true → AllRefs (λ m. slice_index keys.now m < key) row }
{
    match row {
        Row::Free => true,
        Row::Source => key == 0,
        Row::And(a, b) => key_of(keys, a.node()) < key && key_of(keys, b.node()) < key,
        Row::Alias(a) => key_of(keys, a.node()) < key,
    }
}

/// Whether the rows may have these keys.
pub fn fits(rows: &[Row], keys: &[u64]) -> bool
    ensures { result ≡ true → AreKeys rows.now keys.now }
{
    if rows.len() != keys.len() {
        return false;
    }
    for (node, row) in rows.iter().enumerate() {
        if !row_fits(*row, keys, keys[node]) {
            return false;
        }
    }
    true
}
