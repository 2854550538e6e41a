//! Labels of nodes over their listed cuts.

ghost use Rattle.std.specs.Prelude.{◌≡◌, ℕ, ◌+◌, ◌<◌, ◌≤◌, ◌^◌, [], All, IfOk, length, min};
ghost use Rattle.syn_rows.specs.declared.Row.{Row};
ghost use Rattle.syn_rows.specs.Levels.{level_in};
ghost use Rattle.syn_rows.specs.Rows.{fold_rows};
ghost use Rattle.syn_cuts.specs.Leaves.{leaves_of};
ghost use Rattle.syn_cuts.specs.Lists.{nontrivial};
ghost use Rattle.syn_map.specs.Labels.{first_at, least, row_label};

use std::alloc::{AllocError, Global};
use syn_cuts::{Cut, CutLists};
use syn_lutnet::greatest_depth;
use syn_rows::Row;

// The lesser of two labels.
#[inline]
fn lesser(a: u32, b: u32) -> u32
    ensures { result ≡ min a b }
{
    if a < b { a } else { b }
}

/// The least, over cuts, of the greatest label of a leaf; 0 where there is no cut.
pub(crate) fn least(labels: &[u32], cuts: &[Cut]) -> u32
    ensures { result ≡ least (level_in labels.now) (leaves_of cuts.now) }
{
    let Some((first, rest)) = cuts.split_first() else {
        return 0;
    };
    let mut least = greatest_depth(labels, first.as_slice());
    for cut in rest {
        least = lesser(least, greatest_depth(labels, cut.as_slice()));
    }
    least
}

/// The first cut whose greatest label of a leaf is this one.
pub(crate) fn first_at<'a>(labels: &[u32], cuts: &'a [Cut], level: u32) -> &'a [u32]
    ensures { result.now ≡ first_at level (level_in labels.now) (leaves_of cuts.now) }
{
    for cut in cuts {
        if greatest_depth(labels, cut.as_slice()) == level {
            return cut.as_slice();
        }
    }
    &[]
}

// The label that a row gives its node, from the labels of the nodes before it.
fn row_label(lists: &CutLists, labels: &[u32], node: u32, row: Row) -> u32
    requires there { node < length lists.now }
    requires low { All (λ label. label ≤ length labels.now) labels.now }
    requires few { length labels.now + 1 < 2 ^ 32 }
    ensures label { result ≡ row_label (nontrivial lists.now) (level_in labels.now) node row }
    ensures low { result ≤ length labels.now + 1 }
{
    match row {
        Row::And(_, _) => least(labels, lists.nontrivial(node)) + 1,
        Row::Free | Row::Source | Row::Alias(_) => 0,
    }
}

/// The labels of all nodes over their listed cuts, in order. The only error is want of memory.
pub(crate) fn labels(alloc: Global, rows: &[Row], lists: &CutLists) -> Result<Vec<u32>, AllocError>
    requires count { length lists.now ≡ length rows.now }
    requires few { length rows.now + 1 < 2 ^ 32 }
    ensures { IfOk result (λ v. v.items ≡ fold_rows (row_label (nontrivial lists.now)) 0 [] rows.now) }
{
    let mut labels = Vec::new(alloc);
    for (n, row) in rows.iter().enumerate() {
        let label = row_label(lists, labels.as_slice(), n as u32, *row);
        labels.push(label)?;
    }
    Ok(labels)
}
