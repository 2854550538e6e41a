//! The cuts of an AND, with its functions over them.

ghost use Rattle.std.specs.Prelude.{◌≡◌, ◌<◌, length, slice_index_or, true};
ghost use Rattle.syn_rows.specs.Reach.{is_and};
ghost use Rattle.syn_rows.specs.Rows.{row_at};
ghost use Rattle.syn_cuts.specs.Leaves.{leaves_of};
ghost use Rattle.syn_cut_functions.specs.Cuts.{cuts_of};
ghost use Rattle.syn_rewrite.specs.Prepared.{IsPreparedFor, IsRooted};

use crate::prepared::Prepared;
use syn_cuts::Cut;
use syn_graph::Graph;

/// A cut of an AND, with its function over it.
#[derive(Clone, Copy, Debug)]
pub(crate) struct RootedCut<'a> {
    /// The AND.
    pub root: u32,
    /// The cut's leaves, rising.
    pub leaves: &'a [u32],
    /// The function, of four variables.
    pub function: u16,
}

/// The cut of an AND at a place among those that are looked at.
#[inline]
pub(crate) fn rooted_at<'a>(
    graph: &Graph,
    lists: &Prepared,
    node: u32,
    cuts: &'a [Cut],
    place: usize,
) -> RootedCut<'a>
    requires lists { IsPreparedFor lists.now graph.now.rows }
    requires node { is_and (row_at graph.now.rows node) ≡ true }
    requires cuts { leaves_of cuts.now ≡ cuts_of graph.now.rows node }
    requires place { place < length cuts.now }
    ensures root { result.root ≡ node }
    ensures leaves { result.leaves.now ≡ slice_index_or (leaves_of cuts.now) place result.leaves.now }
    ensures rooted { IsRooted graph.now.rows result.root result.leaves.now result.function }
{
    let leaves = cuts[place].as_slice();
    let functions = &lists.functions[node as usize];
    let function = functions[place];
    RootedCut {
        root: node,
        leaves,
        function,
    }
}
