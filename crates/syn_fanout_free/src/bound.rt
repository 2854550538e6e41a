//! A bound of what a replacement saves, asked before the cone that goes is followed.

ghost use Rattle.std.specs.Prelude.{◌≡◌, ◌≢◌, ℕ, ℤ, pos, ◌≤ℤ◌, ◌+◌, ◌<◌, ◌≤◌, ◌^◌, ◌==◌, true, false, List, length, IfOk};
ghost use Rattle.std.specs.List.Sorted.{IsNonDecreasing};
ghost use Rattle.syn_rows.specs.declared.Lit.{Lit};
ghost use Rattle.syn_rows.specs.Nodes.{has_node};
ghost use Rattle.syn_rows.specs.Rows.{InOrder, row_at};
ghost use Rattle.syn_fanout_free.specs.Bounding.{IsHeld, IsMffcSize, IsMostLost};
ghost use Rattle.syn_fanout_free.specs.Freed.{refers};
ghost use Rattle.syn_fanout_free.specs.Freeing.{AllReferred};
ghost use Rattle.syn_fanout_free.specs.Saved.{count_in, IsExtra, IsOwned, IsSaved, changed};

use crate::cone::{and_count, freed};
use crate::extra::{KeptRows, keep};
use crate::gain::{Change, added_ands, saves_of_kept};
use std::alloc::{AllocError, Global};
use syn_rows::Row;

/// A number that no fewer ANDs go with the row of n than where these nodes stay: its own, and those that are freed then.
/// No replacement that holds the nodes loses more. It is their number where that is at most `limit`, and above `limit` the
/// cone isn't followed further. The only error is want of memory, which a small cone doesn't take.
pub fn mffc_size(
    alloc: Global,
    was: &[Row],
    counts: &[u32],
    n: u32,
    spared: &[u32],
    limit: u32,
) -> Result<u32, AllocError>
    requires few { length was.now < 2 ^ 31 }
    requires there { n < length was.now }
    requires same { length counts.now ≡ length was.now }
    requires order { InOrder was.now }
    requires referred { AllReferred was.now (count_in counts.now) }
    requires rises { IsNonDecreasing spared.now }
    ensures most { IfOk result (λ k. IsMostLost was.now (count_in counts.now) n spared.now k) }
    ensures exact { IfOk result (λ k. k ≤ limit → IsMffcSize was.now (count_in counts.now) n spared.now k) }
{
    let dead = freed(alloc, was, counts, n, spared, limit)?;
    if dead.ands > limit {
        return Ok(u32::MAX);
    }
    Ok(and_count(was[n as usize]) + dead.ands)
}

// Whether a row refers to a node.
fn refers(row: Row, node: u32) -> bool
    ensures { result ≡ refers row node }
{
    match row {
        Row::And(a, b) => node == a.node() || node == b.node(),
        Row::Alias(a) => node == a.node(),
        Row::Free | Row::Source => false,
    }
}

// Whether the row of a node other than n refers to another.
fn holds(was: &[Row], n: u32, user: u32, node: u32) -> bool
    ensures other { result ≡ true → user ≢ n }
    ensures refers { result ≡ true → refers (row_at was.now user) node ≡ true }
{
    let at = user as usize;
    if user == n || at >= was.len() {
        return false;
    }
    refers(was[at], node)
}

// Whether a node is one of the used ones, or one of these refers to it.
fn is_held(was: &[Row], n: u32, used: &[u32], node: u32) -> bool
    ensures { result ≡ true → IsHeld was.now n (has_node used.now) node }
{
    for user in used {
        if *user == node || holds(was, n, *user, node) {
            return true;
        }
    }
    false
}

// Whether each of these nodes is.
fn are_held(was: &[Row], n: u32, used: &[u32], spared: &[u32]) -> bool
    ensures { result ≡ true → (m : ℕ) → has_node spared.now m ≡ true → IsHeld was.now n (has_node used.now) m }
{
    for node in spared {
        if !is_held(was, n, used, *node) {
            return false;
        }
    }
    true
}

/// Whether a change saves. No more than `most` ANDs go with the node's row where the spared nodes stay: where the change
/// holds these and adds as many, it saves nothing, and the cone that goes isn't followed. It holds for all observed literals
/// that the counts count. `kept` is room that is used again. The only error is want of memory, which a small cone doesn't
/// take.
pub fn gain_is_positive(
    alloc: Global,
    was: &[Row],
    counts: &[u32],
    change: Change,
    spared: &[u32],
    most: u32,
    kept: &mut KeptRows,
) -> Result<bool, AllocError>
    requires few { length was.now + length change.extra.now < 2 ^ 31 }
    requires there { change.node < length was.now }
    requires same { length counts.now ≡ length was.now }
    requires order { InOrder was.now }
    requires referred { AllReferred was.now (count_in counts.now) }
    requires extra { IsExtra (length was.now) change.row change.extra.now }
    requires most { IsMostLost was.now (count_in counts.now) change.node spared.now most }
    ensures some { IfOk result (λ some. some ≡ true → (observed : List Lit) → IsOwned was.now observed (count_in counts.now) change.entry.node → (s : ℤ) × IsSaved was.now (changed was.now change.entry) observed s × (pos 1 ≤ℤ s)) }
    ensures none { IfOk result (λ some. some ≡ false → (observed : List Lit) → IsOwned was.now observed (count_in counts.now) change.entry.node → (s : ℤ) × IsSaved was.now (changed was.now change.entry) observed s × (s ≤ℤ pos 0)) }
{
    keep(was.len() as u32, change.row, change.extra, kept)?;
    let added = added_ands(change.row, change.extra, kept);
    if most <= added && are_held(was, change.node, kept.used.as_slice(), spared) {
        return Ok(false);
    }
    saves_of_kept(alloc, was, counts, change, added, kept)
}
