//! What rows, labels and marks say of a node.

ghost use Rattle.std.specs.Prelude.{◌≡◌, ◌<◌, ◌==◌, length, nat_eq};
ghost use Rattle.syn_rows.specs.Nodes.{has_node};
ghost use Rattle.syn_rows.specs.Rows.{row_at};
ghost use Rattle.syn_cones.specs.Cones.{is_end, refs_at};
ghost use Rattle.syn_paths.specs.Checking.{is_marked};
ghost use Rattle.syn_paths.specs.Tops.{label_in};

use syn_rows::Row;

// The row of a node; a node past the end has a free row.
pub(crate) fn row_at(rows: &[Row], node: u32) -> Row
    ensures { result ≡ row_at rows.now node }
{
    if (node as usize) < rows.len() {
        rows[node as usize]
    } else {
        Row::Free
    }
}

// The node is a source.
pub(crate) fn is_source(rows: &[Row], node: u32) -> bool
    ensures { result ≡ is_end rows.now node }
{
    if node == 0 {
        return false;
    }
    match row_at(rows, node) {
        Row::Free => true,
        Row::Source => true,
        _ => false,
    }
}

// A node refers to another.
pub(crate) fn refers(rows: &[Row], node: u32, other: u32) -> bool
    ensures { result ≡ has_node (refs_at rows.now node) other }
{
    if node == 0 {
        return false;
    }
    match row_at(rows, node) {
        Row::And(a, b) => a.node() == other || b.node() == other,
        Row::Alias(a) => a.node() == other,
        _ => false,
    }
}

// The label of a node, 0 past the end.
pub(crate) fn label_of(labels: &[u32], node: u32) -> u32
    ensures { result ≡ label_in labels.now node }
{
    if (node as usize) < labels.len() {
        labels[node as usize]
    } else {
        0
    }
}

// The node has the stamp.
pub(crate) fn is_marked(marks: &[u32], stamp: u32, node: u32) -> bool
    requires { 0 < stamp }
    ensures { result ≡ is_marked marks.now stamp node }
{
    if (node as usize) < marks.len() {
        marks[node as usize] == stamp
    } else {
        false
    }
}
