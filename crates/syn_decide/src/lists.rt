//! Lists of nodes and of rows.

ghost use Rattle.std.specs.Prelude.{◌≡◌, ◌<◌};
ghost use Rattle.syn_rows.specs.Nodes.{has_node};
ghost use Rattle.syn_rows.specs.References.{refs};
ghost use Rattle.syn_rows.specs.Rows.{refs_of};
ghost use Rattle.syn_decide.specs.Dying.{counted_nodes};
ghost use Rattle.syn_decide.specs.Walk.{nodes_of};

use crate::{Counted, NodeRow};
use syn_rows::Row;

/// Whether a node is among those of rows.
pub(crate) fn has_row(rows: &[NodeRow], node: u32) -> bool
    ensures { result ≡ has_node (nodes_of rows.now) node }
{
    for r in rows {
        if r.node == node {
            return true;
        }
    }
    false
}

/// Whether a node is among those of counted rows.
pub(crate) fn has_counted(rows: &[Counted], node: u32) -> bool
    ensures { result ≡ has_node (counted_nodes rows.now) node }
{
    for r in rows {
        if r.node == node {
            return true;
        }
    }
    false
}

/// The references of a row to a node.
pub(crate) fn refs(row: Row, node: u32) -> u32
    ensures number { result ≡ refs node row }
    ensures few { result < 3 }
{
    match row {
        Row::Free | Row::Source => 0,
        Row::And(a, b) => u32::from(a.node() == node) + u32::from(b.node() == node),
        Row::Alias(a) => u32::from(a.node() == node),
    }
}

/// Whether a row refers to a node.
pub(crate) fn refers(row: Row, node: u32) -> bool
    ensures { result ≡ has_node (refs_of row) node }
{
    match row {
        Row::Free | Row::Source => false,
        Row::And(a, b) => a.node() == node || b.node() == node,
        Row::Alias(a) => a.node() == node,
    }
}
