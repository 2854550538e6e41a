//! How near nodes are to sources. Searches go to the nearer fan-in first, so that their paths stay short; they are right
//! whatever the distances.

use crate::node_facts::label_of;
use std::alloc::{AllocError, Global};
use syn_rows::Row;

// The distance of a row's node, by those of the nodes before it: 0 for a source, and for an AND one more than the farther
// fan-in's, but at most two more than the nearer one's.
fn distance(near: &[u32], row: Row) -> u32 {
    match row {
        Row::And(a, b) => {
            let first = label_of(near, a.node());
            let second = label_of(near, b.node());
            let least = first.min(second).saturating_add(1);
            first.max(second).min(least).saturating_add(1)
        }
        Row::Alias(a) => label_of(near, a.node()).saturating_add(1),
        _ => 0,
    }
}

/// The distances of the nodes of rows. The only error is want of memory.
pub(crate) fn distances(alloc: Global, rows: &[Row]) -> Result<Vec<u32>, AllocError> {
    let mut near = Vec::new(alloc);
    for row in rows {
        let far = distance(near.as_slice(), *row);
        near.push(far)?;
    }
    Ok(near)
}
