//! The order in which conjunctions are joined: the pair that most of them hold first. Nothing is promised of it.

use crate::conjunctions::Conjunctions;
use crate::lists::{at, put, short};
use crate::pairs::Pairs;
use std::alloc::{AllocError, Global};
use syn_graph::Graph;

/// Which conjunctions hold each literal.
#[derive(Debug, Drop)]
struct Occurrences {
    // Where the nodes of each literal begin, and the end of the last.
    starts: Vec<u32>,
    nodes: Vec<u32>,
}

impl Occurrences {
    // Those in the conjunctions of so many nodes.
    fn of(alloc: Global, all: &Conjunctions, count: usize) -> Result<Occurrences, AllocError> {
        let places = count.saturating_mul(2).saturating_add(1);
        let mut starts = vec![in alloc; 0; places]?;
        let mut total: usize = 0;
        for node in 0..count {
            let items = all.items(node);
            total = total.saturating_add(items.len());
            for item in items {
                let times = at(starts.as_slice(), item.0 as usize, 0u32);
                put(
                    starts.as_mut_slice(),
                    item.0 as usize,
                    times.saturating_add(1),
                );
            }
        }
        // the end of each
        let mut end: u32 = 0;
        for start in &mut starts {
            end = end.saturating_add(*start);
            *start = end;
        }
        let mut nodes = vec![in alloc; 0; total]?;
        for node in (0..count).rev() {
            for item in all.items(node) {
                let place = at(starts.as_slice(), item.0 as usize, 0).saturating_sub(1);
                put(starts.as_mut_slice(), item.0 as usize, place);
                put(nodes.as_mut_slice(), place as usize, short(node));
            }
        }
        Ok(Occurrences { starts, nodes })
    }

    // The nodes of a literal.
    fn nodes(&self, lit: usize) -> &[u32] {
        let nodes = self.nodes.as_slice();
        let start = at(self.starts.as_slice(), lit, 0) as usize;
        let end = at(self.starts.as_slice(), lit.saturating_add(1), 0) as usize;
        if start <= end && end <= nodes.len() {
            &nodes[start..end]
        } else {
            &nodes[..0]
        }
    }
}

// The pairs that two or more conjunctions hold.
fn all_pairs(alloc: Global, graph: &Graph, all: &Conjunctions) -> Result<Pairs, AllocError> {
    let count = graph.rows.as_slice().len();
    let occurrences = Occurrences::of(alloc, all, count)?;
    let levels = graph.levels(alloc)?;
    let mut pairs = Pairs::new(alloc, levels)?;
    for lit in 0..count.saturating_mul(2) {
        pairs.add(all, short(lit), occurrences.nodes(lit))?;
    }
    Ok(pairs)
}

/// The conjunctions of a graph with these inner nodes, and the steps by which they share pairs. The only error is want of
/// memory.
pub(crate) fn shared(
    alloc: Global,
    graph: &Graph,
    inner: &[bool],
) -> Result<Conjunctions, AllocError> {
    let mut all = Conjunctions::of(alloc, graph.rows.as_slice(), inner)?;
    let mut pairs = all_pairs(alloc, graph, &all)?;
    let mut nodes = Vec::new(alloc);
    for _ in 0..u64::MAX {
        let Some(pair) = pairs.take(&all, &mut nodes)? else {
            break;
        };
        let new = pairs.new_literal(pair)?;
        for node in nodes.as_slice() {
            all.join(*node as usize, pair.first, pair.second, new);
        }
        pairs.add(&all, new, nodes.as_slice())?;
    }
    Ok(all)
}
