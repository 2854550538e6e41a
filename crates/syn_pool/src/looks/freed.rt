//! What goes with a root's row.

use crate::looks::cuts::{MAX_INNER, TableCut};
use arrayvec::ArrayVec;
use syn_decide::{Counted, NodeRow, dying_with};
use syn_rows::Row;
use syn_table::Shared;

/// Nodes above a cut's leaves, with their rows, and with rows and references.
#[derive(Drop)]
pub(crate) struct Inner {
    /// The rows.
    pub rows: ArrayVec<NodeRow, MAX_INNER>,
    /// The same rows with their references.
    pub counted: ArrayVec<Counted, MAX_INNER>,
}

impl Inner {
    /// No nodes.
    pub(crate) fn new() -> Inner {
        Inner {
            rows: ArrayVec::new(),
            counted: ArrayVec::new(),
        }
    }

    /// Reads the nodes above a cut's leaves as they stand.
    pub(crate) fn read(&mut self, shared: &Shared, cut: &TableCut) {
        self.rows.clear();
        self.counted.clear();
        for node in cut.inner.as_slice() {
            if self.rows.is_full() || self.counted.is_full() {
                return;
            }
            let node = *node;
            let (row, others) = if node < shared.nodes() {
                shared.peek(node)
            } else {
                (Row::Free, u32::MAX)
            };
            self.rows.push(NodeRow { node, row });
            self.counted.push(Counted { node, row, others });
        }
    }
}

/// The nodes above a cut's leaves that go with the root's row where the leaves stay, the root first.
pub(crate) fn going(inner: &Inner) -> ArrayVec<u32, MAX_INNER> {
    let mut going = ArrayVec::new();
    let Some((root, rest)) = inner.counted.as_slice().split_first() else {
        return going;
    };
    let mut left: ArrayVec<u32, MAX_INNER> = ArrayVec::new();
    let mut dying: ArrayVec<Counted, MAX_INNER> = ArrayVec::new();
    dying_with(&[], *root, rest, &mut left, &mut dying);
    for row in dying.as_slice() {
        if !going.is_full() {
            going.push(row.node);
        }
    }
    going
}
