//! How often the nodes of a graph are referred to.

ghost use Rattle.std.specs.Prelude.{◌≡◌, ℕ, ◌+◌, ◌*◌, ◌<◌, ◌≤◌, ◌^◌, All, length, slice_index_or, IfOk};
ghost use Rattle.syn_rows.specs.declared.TheConstants.{NODE_LIMIT};
ghost use Rattle.syn_rows.specs.declared.Row.{Row};
ghost use Rattle.syn_rows.specs.Rows.{AllRefs, node_of};
ghost use Rattle.syn_rows.specs.References.{hits, refs, refs_by_literals, refs_by_rows};

use std::alloc::{AllocError, Global};
use syn_rows::{Lit, Row};

// So many counts of none.
fn no_counts(alloc: Global, count: usize) -> Result<Vec<u32>, AllocError>
    ensures count { IfOk result (λ v. length v.items ≡ count) }
    ensures none { IfOk result (λ v. (m : ℕ) → slice_index_or v.items m 0 ≡ 0) }
{
    vec![in alloc; 0; count]
}

// One reference more to a node.
fn count_node(counts: &mut [u32], node: u32)
    requires there { node < length counts.old }
    requires few { slice_index_or counts.old node 0 + 1 < 2 ^ 32 }
    ensures { (m : ℕ) → slice_index_or counts.new m 0 ≡ slice_index_or counts.old m 0 + hits m node }
{
    counts[node as usize] += 1;
}

// The references of a row more.
fn count_row(counts: &mut [u32], row: Row)
    requires there { AllRefs (λ m. m < length counts.old) row }
    requires few { (m : ℕ) → slice_index_or counts.old m 0 + 2 < 2 ^ 32 }
    ensures { (m : ℕ) → slice_index_or counts.new m 0 ≡ slice_index_or counts.old m 0 + refs m row }
{
    match row {
        Row::And(a, b) => {
            count_node(counts, a.node());
            count_node(counts, b.node());
        }
        Row::Alias(a) => count_node(counts, a.node()),
        Row::Free | Row::Source => {}
    }
}

// The references of all rows, where there was none.
fn count_rows(counts: &mut [u32], rows: &[Row])
    requires there { (n : ℕ) → n < length rows.now → AllRefs (λ m. m < length counts.old) (slice_index_or rows.now n Row.Free) }
    requires none { (m : ℕ) → slice_index_or counts.old m 0 ≡ 0 }
    requires few { length rows.now < NODE_LIMIT }
    ensures refs { (m : ℕ) → slice_index_or counts.new m 0 ≡ refs_by_rows m rows.now }
    ensures few { (m : ℕ) → slice_index_or counts.new m 0 ≤ 2 * length rows.now }
{
    for row in rows {
        count_row(counts, *row);
    }
}

// The references of literals more.
fn count_literals(counts: &mut [u32], lits: &[Lit])
    requires there { All (λ l. node_of l < length counts.old) lits.now }
    requires few { (m : ℕ) → slice_index_or counts.old m 0 + length lits.now < 2 ^ 32 }
    ensures { (m : ℕ) → slice_index_or counts.new m 0 ≡ slice_index_or counts.old m 0 + refs_by_literals m lits.now }
{
    for lit in lits {
        count_node(counts, lit.node());
    }
}

/// How often each node is referred to, by rows and by literals.
pub fn references(alloc: Global, rows: &[Row], lits: &[Lit]) -> Result<Vec<u32>, AllocError>
    requires rows { (n : ℕ) → n < length rows.now → AllRefs (λ m. m < length rows.now) (slice_index_or rows.now n Row.Free) }
    requires lits { All (λ l. node_of l < length rows.now) lits.now }
    requires few_rows { length rows.now < NODE_LIMIT }
    requires few_lits { length lits.now < 2 ^ 31 }
    ensures count { IfOk result (λ v. length v.items ≡ length rows.now) }
    ensures refs { IfOk result (λ v. (m : ℕ) → slice_index_or v.items m 0 ≡ refs_by_rows m rows.now + refs_by_literals m lits.now) }
{
    let mut counts = no_counts(alloc, rows.len())?;
    count_rows(counts.as_mut_slice(), rows);
    count_literals(counts.as_mut_slice(), lits);
    Ok(counts)
}
