//! What a replacement saves, from its kept rows on.

ghost use Rattle.std.specs.Prelude.{◌≡◌, ℤ, pos, ◌-ℤ◌, ◌≤ℤ◌, ◌&&◌, ◌+◌, ◌<◌, ◌^◌, true, false, List, length, IfOk};
ghost use Rattle.syn_rows.specs.declared.Lit.{Lit};
ghost use Rattle.syn_rows.specs.Rows.{InOrder, row_at};
ghost use Rattle.syn_rows.specs.Reach.{is_and};
ghost use Rattle.syn_rows.specs.References.{and_count};
ghost use Rattle.syn_rows.specs.Values.{value_in};
ghost use Rattle.syn_fanout_free.specs.Freed.{count_below};
ghost use Rattle.syn_fanout_free.specs.Freeing.{AllReferred};
ghost use Rattle.syn_fanout_free.specs.Keeping.{IsKeeping};
ghost use Rattle.syn_fanout_free.specs.Saved.{count_in, IsExtra, IsOwned, IsSaved, changed};

use crate::cone::{and_count, freed};
use crate::extra::{KeptRows, marked_ands, sort_used};
use std::alloc::{AllocError, Global};
use syn_rows::Row;

/// What takes the place of a node's row.
#[derive(Clone, Copy)]
pub struct Change<'a> {
    /// The node whose row is replaced.
    pub node: u32,
    /// Its new row.
    pub row: Row,
    /// The new rows behind the last row, in order.
    pub extra: &'a [Row],
}

/// The difference of two counts.
pub(crate) fn difference(first: u32, second: u32) -> i64
    ensures { result ≡ (pos first -ℤ pos second) }
{
    i64::from(first) - i64::from(second)
}

/// The new ANDs of a replacement that are kept.
pub(crate) fn added_ands(row: Row, extra: &[Row], kept: &KeptRows) -> u32
    requires few { length extra.now < 2 ^ 31 }
    requires same { length kept.now.marks.items ≡ length extra.now }
    ensures { result ≡ and_count row + count_below (length extra.now) (λ m. is_and (row_at extra.now m) && value_in kept.now.marks.items m) }
{
    and_count(row) + marked_ands(extra, kept.marks.as_slice())
}

/// What a replacement saves, where its kept rows were found.
pub(crate) fn saved_of_kept(
    alloc: Global,
    was: &[Row],
    counts: &[u32],
    change: Change,
    kept: &mut KeptRows,
) -> Result<i64, AllocError>
    requires few { length was.now + length change.extra.now < 2 ^ 31 }
    requires there { change.node < length was.now }
    requires same { length counts.now ≡ length was.now }
    requires order { InOrder was.now }
    requires referred { AllReferred was.now (count_in counts.now) }
    requires extra { IsExtra (length was.now) change.row change.extra.now }
    requires keeping { IsKeeping (length was.now) change.row change.extra.now 0 kept.old.marks.items kept.old.used.items }
    ensures { IfOk result (λ s. (observed : List Lit) → IsOwned was.now observed (count_in counts.now) change.entry.node → IsSaved was.now (changed was.now change.entry) observed s) }
{
    let added = added_ands(change.row, change.extra, kept);
    sort_used(&mut kept.used);
    let dead = freed(
        alloc,
        was,
        counts,
        change.node,
        kept.used.as_slice(),
        u32::MAX,
    )?;
    let lost = and_count(was[change.node as usize]) + dead.ands;
    Ok(difference(lost, added))
}

/// Whether a replacement saves, where its kept rows were found, and add so many ANDs. The cone that goes is followed until
/// more of its ANDs go.
pub(crate) fn saves_of_kept(
    alloc: Global,
    was: &[Row],
    counts: &[u32],
    change: Change,
    added: u32,
    kept: &mut KeptRows,
) -> Result<bool, AllocError>
    requires few { length was.now + length change.extra.now < 2 ^ 31 }
    requires there { change.node < length was.now }
    requires same { length counts.now ≡ length was.now }
    requires order { InOrder was.now }
    requires referred { AllReferred was.now (count_in counts.now) }
    requires extra { IsExtra (length was.now) change.row change.extra.now }
    requires keeping { IsKeeping (length was.now) change.row change.extra.now 0 kept.old.marks.items kept.old.used.items }
    requires added { added ≡ and_count change.row + count_below (length change.extra.now) (λ m. is_and (row_at change.extra.now m) && value_in kept.old.marks.items m) }
    ensures some { IfOk result (λ some. some ≡ true → (observed : List Lit) → IsOwned was.now observed (count_in counts.now) change.entry.node → (s : ℤ) × IsSaved was.now (changed was.now change.entry) observed s × (pos 1 ≤ℤ s)) }
    ensures none { IfOk result (λ some. some ≡ false → (observed : List Lit) → IsOwned was.now observed (count_in counts.now) change.entry.node → (s : ℤ) × IsSaved was.now (changed was.now change.entry) observed s × (s ≤ℤ pos 0)) }
{
    sort_used(&mut kept.used);
    let dead = freed(alloc, was, counts, change.node, kept.used.as_slice(), added)?;
    let lost = and_count(was[change.node as usize]) + dead.ands;
    Ok(lost > added)
}
